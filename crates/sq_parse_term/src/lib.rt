//! Formulas, terms and timestamps, read from tokens.
#![tactic(auto)]

mod alternatives;
mod depth;
mod fault;
mod laws;
mod levels;
mod parser;
mod parts;
mod stop;
mod tokens;
mod words;

pub use depth::{all_fit, fits};
pub use fault::ParseFault;
pub use laws::one_tree;
pub use parser::{MAX_DEPTH, parse_form, parse_formula, parse_formulas};
pub use stop::{Found, Stop};
pub use tokens::{binders, eat_mark, eat_word, identifier, identifiers, instance};
pub use words::{Start, start_of};
