//! Terms of the meta-logic, systems as lists of actions, trace models and ground terms.
#![tactic(auto)]

mod action;
mod binders;
mod builtin;
mod copying;
mod equality;
pub mod formulas;
mod ground;
mod ground_equality;
mod layout;
mod measures;
mod model;
mod signature;
mod term;
mod trace_formula;
mod ts_equality;

pub use action::{Action, PathStep};
pub use binders::{is_closed, is_ts_closed};
pub use builtin::Builtin;
pub use copying::{copies, copy, copy_ts};
pub use equality::{same, same_ts};
pub use ground::GTerm;
pub use ground_equality::same_ground;
pub use layout::{Layout, Level};
pub use measures::{depth, size, ts_depth, ts_size};
pub use model::{Assign, Inst, Model, Value};
pub use signature::{FunDecl, FunRole};
pub use sq_base::{NoMemory, Seq, Sort, Text};
pub use term::{Arg, Idx, Macro, Side, SizeFault, Term, Ts};
pub use trace_formula::{is_binder_sort, is_pure};
