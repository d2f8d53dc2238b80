//! Sentences: declarations and proof commands, read from their tokens.
#![tactic(auto)]

mod command;
mod declaration;
mod depth;
mod fault;
mod item;
mod laws;
mod parts;
mod rows;
mod sentence;

pub use fault::FileFault;
pub use item::Item;
pub use laws::{one_command, one_declaration, one_kind, one_sentence};
pub use sentence::parse_sentence;
