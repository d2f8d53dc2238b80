//! Sorts of terms: which terms are well-sorted over a signature, and what may stand in a sequent.
#![tactic(auto)]

mod diff;
mod functions;
mod signature;
mod sorts;
mod standing;

pub use diff::holds_diff;
pub use functions::{builtin_functions, plain_function};
pub use signature::{Binders, Signature};
pub use sorts::takes_boolean;
pub use standing::Subject;
