//! The steps of the calculus and their arguments.
#![tactic(auto)]

mod copying;
mod step;

pub use copying::copy_step;
pub use step::{Dir, Hand, IdxArg, Place, Step, Target, TermArg, TsArg, ValArg};
