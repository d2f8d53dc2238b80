//! The lines of steps in a certificate, written and read.
#![tactic(auto)]

mod arguments;
mod laws;
mod name;
mod reading;
mod writing;

pub use laws::{a_line_is_that_of_one_step, lines_are_bounded_by_their_nodes};
pub use reading::read_step;
pub use writing::{write_line, write_step};
