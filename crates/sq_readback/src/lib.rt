//! What a printed term comes to where it is read.
#![tactic(auto)]

mod laws;
mod returning;

pub use laws::{
    a_printed_term_is_read_back, reading_undoes_printing, terms_are_printed_apart,
    the_conditions_can_be_met,
};
pub use returning::print_and_read;
