//! Steps on a stack of sequents, whether a list of steps closes a goal, and proofs as far as they go.
#![tactic(auto)]

mod closing;
mod copying;
mod extending;
mod fault;
mod laws;
mod lists;
mod opening;
mod proof;
mod stack;

pub use closing::check;
pub use extending::{ExtendFault, GoalNames};
pub use fault::{Kind, StepFault, Verdict};
pub use laws::{closing_steps_stay_closing, steps_stay};
pub use proof::Proof;
pub use sq_sequent::OpenGoal;
pub use stack::advance;
