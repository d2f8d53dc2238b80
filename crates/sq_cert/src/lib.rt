//! The certificate text, version 1, written and read.
#![tactic(auto)]

mod certificate;
mod fault;
mod goal;
mod laws;

pub use certificate::{read, write};
pub use fault::ReadFault;
pub use laws::{
    a_certificate_is_that_of_one_list_of_blocks, a_text_is_refused_for_one_cause,
    no_certificate_is_refused,
};
pub use sq_cert_steps::{read_step, write_step};
pub use sq_cert_words::CertFault;
