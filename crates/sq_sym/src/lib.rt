//! The names that a file has declared, in their order.
#![tactic(auto)]

mod naming;
mod symbol;
mod table;

pub use naming::candidate;
pub use symbol::{SymFault, Symbol};
pub use table::Table;
