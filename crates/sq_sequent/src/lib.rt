//! Sequents with the steps of the calculus, and the rows of its logic family as definitions.
#![tactic(auto)]

mod arguments;
mod binders;
mod equality;
mod facts;
mod places;
mod premises;
mod rewriting;
mod site;
mod standing;
mod uses;
mod views;

pub use arguments::alike_arguments;
pub use binders::{open_at, open_new, with_variable};
pub use equality::is_reflexive;
pub use facts::fact_in;
pub use places::{idx_at, term_at, ts_at};
pub use premises::{
    about_the_trace, asking, assuming, copy_sequent, copy_terms, copy_without, judge, one_premise,
    pure_or_false, two_premises, with_hyps,
};
pub use rewriting::{Rewriting, rewrite, rewrite_items, rewriting_in, with_hyp_at, with_items};
pub use site::Site;
pub use sq_formula::{Shape, is_same, shape_of};
pub use sq_step::{Dir, Hand, IdxArg, Place, Step, Target, TermArg, TsArg, ValArg};
pub use sq_system::{
    Both, Env, FunDecl, FunRole, KeyUse, MOST_DEPTH, MOST_NODES, Occ, OpenGoal, Role, RuleFault,
    Sequent, Stmt, StmtKind, fits, is_usable, sequent_size, speaks_of_time,
};
pub use uses::{instance_on, messages_in, offered};
pub use views::{goal_of, hyp_of, hyps_of, items_of, local_goal_of, vars_of};
