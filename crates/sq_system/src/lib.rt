//! Systems of actions, and the sequents and environments of the calculus.
#![tactic(auto)]

mod clash;
mod env;
mod fault;
mod sequent;
mod sizes;
mod system;
mod usable;

pub use clash::Clash;
pub use env::{Env, Stmt, StmtKind};
pub use fault::{KeyUse, Occ, OccFault, Role, RuleFault};
pub use sequent::{Both, OpenGoal, Sequent};
pub use sizes::{MOST_DEPTH, MOST_NODES, all_fit, fits, sequent_size};
pub use sq_term::{Action, FunDecl, FunRole, PathStep};
pub use system::{PushFault, System};
pub use usable::{is_usable, speaks_of_time, statement, states_a_formula};
