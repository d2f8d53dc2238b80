//! What a printed term is as a text: a formula of the grammar, and a list of tokens.
#![tactic(auto)]

mod laws;

pub use laws::{a_printed_term_is_a_formula, a_printed_term_is_read_as_its_tokens};
