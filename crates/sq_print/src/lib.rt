//! The texts of terms and of open goals.
#![tactic(auto)]

mod binders;
mod form;
mod goals;
mod laws;
mod lines;
mod pieces;
mod scope;
mod spelling;
mod taken;
mod writer;

pub use goals::{print_goals, print_term};
pub use laws::a_binder_has_the_first_free_name;
