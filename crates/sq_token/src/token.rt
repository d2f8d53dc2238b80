ghost use Rattle.std.specs.Prelude.{◌≡◌, ◌↔◌, IsTrue, option_map};
ghost use Rattle.sq_token.specs.Kinds.{IsOfKind};

use crate::kind::{Punctuation, Reserved, TokenKind};
use sq_base::{Seq, Text};

/// A piece of a source with its place. Its text is one of its kind.
#[derive(Debug, Drop)]
pub struct Token {
    pub kind: TokenKind,
    pub text: Text,
    /// The place of its first byte in the source, counted from 0.
    pub from: usize,
    /// The place behind its last byte.
    pub to: usize,
    ghost of_kind: { IsOfKind kind text },
}

impl Token {
    ghost use Rattle.sq_token.specs.Sign as spec;

    pub fn is_mark(&self, mark: Punctuation) -> bool
        ensures { IsTrue result ↔ (spec.sign_of self.now ≡ spec.mark mark) }
    {
        self.kind == TokenKind::Punctuation(mark)
    }

    pub fn is_reserved(&self, word: Reserved) -> bool
        ensures { IsTrue result ↔ (spec.sign_of self.now ≡ spec.reserved word) }
    {
        match self.kind {
            TokenKind::Reserved(own) => own == word,
            _ => false,
        }
    }

    /// The value of a number.
    pub fn number(&self) -> Option<u128>
        ensures { result ≡ spec.number_of (spec.sign_of self.now) }
    {
        match self.kind {
            TokenKind::Number => self.text.as_str().parse::<u128>().ok(),
            _ => None,
        }
    }

    /// The text of an identifier.
    pub fn word(&self) -> Option<&str>
        ensures { option_map (λ w. w.now) result ≡ spec.word_of (spec.sign_of self.now) }
    {
        match self.kind {
            TokenKind::Identifier => Some(self.text.as_str()),
            _ => None,
        }
    }
}

/// The tokens up to a `.`, which is not among them.
#[derive(Debug, Drop)]
pub struct Sentence {
    pub tokens: Seq<Token>,
    /// The line of its first token, or of its stop where it has none; lines count from 1.
    pub line: usize,
}
