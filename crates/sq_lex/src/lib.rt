//! The lexer: a source's bytes become sentences of tokens.
#![tactic(auto)]

mod fault;
mod laws;
mod lexer;
mod piece;
mod sentences;

pub use fault::LexFault;
pub use laws::{a_token_is_the_longest_slice, the_answer_is_what_stands};
pub use lexer::lex;
pub use sq_token::{Punctuation, Reserved, Sentence, Token, TokenKind};
