//! Terms, timestamps and indices as a certificate spells them.
#![tactic(auto)]

mod reading;
mod writing;

pub use reading::{index_of, term_of, ts_of};
pub use sq_cert_words::CertFault;
pub use writing::{macro_word, write_index, write_term, write_ts};
