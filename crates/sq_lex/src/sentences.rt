ghost use Rattle.std.specs.Prelude.{◌≡◌, [], ◌∷◌, ◌++◌, true, false, map, OnOk};
ghost use Rattle.sq_base.specs.Gives.{Gives};
ghost use Rattle.sq_lex.specs.Lex as spec;
ghost use Rattle.sq_lex.specs.Lexemes.{is_stop, line_of, lexeme_of};
ghost use Rattle.sq_lex.specs.Gathered.{closed, grown};

use crate::LexFault;
use sq_base::{NoMemory, Seq};
use sq_token::{Punctuation, Sentence, Token};
use std::alloc::Global;
use std::mem;

/// The sentences that are done, and the tokens since the last stop with the line of the first.
#[derive(Drop)]
pub struct Sentences {
    done: Seq<Sentence>,
    tokens: Seq<Token>,
    line: usize,
}

impl Sentences {
    pub fn new(alloc: Global) -> Sentences
        ensures { result ≡ record { done = []; tokens = []; line = 1 } }
    {
        Sentences {
            done: Seq::new(alloc),
            tokens: Seq::new(alloc),
            line: 1,
        }
    }

    /// Takes in the next token, which stands on this line.
    pub fn push(&mut self, token: Token, line: usize) -> Result<(), NoMemory>
        ensures stop { OnOk result (is_stop token.kind ≡ true → self.new ≡ closed self.old line) }
        ensures other { OnOk result
            (is_stop token.kind ≡ false → self.new ≡ grown self.old token line) }
    {
        if self.tokens.is_empty() {
            self.line = line;
        }
        if token.is_mark(Punctuation::Dot) {
            let empty = Seq::new(self.tokens.allocator());
            let tokens = mem::replace(&mut self.tokens, empty);
            self.done.push(Sentence {
                tokens,
                line: self.line,
            })
        } else {
            self.tokens.push(token)
        }
    }

    /// The sentences, where no token stands behind the last stop.
    pub fn finish(self) -> Result<Seq<Sentence>, LexFault>
        ensures { Gives LexFault.NoMemory (map line_of) result
            (spec.joined (map line_of self.done)
            (spec.unfinished (map lexeme_of self.tokens))) }
    {
        let Sentences {
            done,
            tokens,
            line: _,
        } = self;
        match tokens.as_slice().first() {
            None => Ok(done),
            Some(token) => Err(LexFault::NoStop(token.from)),
        }
    }
}
