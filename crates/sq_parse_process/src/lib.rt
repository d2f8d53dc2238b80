//! Processes, read from tokens.
#![tactic(auto)]

mod alternatives;
mod depth;
mod laws;
mod openness;
mod parser;
mod processes;

pub use depth::process_fits;
pub use laws::one_process;
pub use parser::parse_process;
