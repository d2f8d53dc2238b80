//! The outside of a run: files on a shelf, a sink for its text, and the status it ends with.
//! There are real ones, which tell no content, and ones in memory for tests.
#![tactic(auto)]

mod memory;
mod real;
mod shelf;
mod sink;
mod status;

pub use memory::{MemShelf, MemSink};
pub use real::{FileShelf, StdSink};
pub use shelf::{Shelf, ShelfError};
pub use sink::{Sink, SinkFault};
pub use status::Status;
