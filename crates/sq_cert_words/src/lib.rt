//! The words of a certificate's lines.
#![tactic(auto)]

mod fault;
mod numbers;
mod word;
mod words;
mod writing;

pub use fault::CertFault;
pub use numbers::{last_number, number, three_numbers, two_numbers};
pub use word::{Plain, Word};
pub use words::Words;
pub use writing::{write_applied, write_counted, write_number, write_numbered, write_word};
