//! Tokens and sentences: what the lexer hands to the parser.
#![tactic(auto)]

mod kind;
mod token;

pub use kind::{Punctuation, Reserved, TokenKind, reserved_of};
pub use token::{Sentence, Token};
