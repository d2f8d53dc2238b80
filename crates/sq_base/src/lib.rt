//! Lists, texts, sorts and want of memory: what every crate of the project stands on.
#![tactic(auto)]

mod memory;
mod seq;
mod sort;
mod text;

pub use memory::NoMemory;
pub use seq::Seq;
pub use sort::Sort;
pub use text::Text;
