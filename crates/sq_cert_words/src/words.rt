// What is left of a line, word by word.
ghost use Rattle.std.specs.Prelude.{◌≡◌, ◌↔◌, ◌∷◌, [], IsTrue, MatchOption, option_copied};
ghost use Rattle.sq_cert_words.specs.Lines.{words, words_left};

use crate::fault::CertFault;
use crate::word::Word;

/// The words of a line that are still to come. Each blank parts two words, so that two blanks in a
/// row, or one at an end of the line, have an empty word beside them.
#[derive(Clone, Copy, Debug)]
pub struct Words<'a> {
    /// What is left of the line; None behind the last word.
    pub rest: Option<&'a [u8]>,
}

impl<'a> Words<'a> {
    ghost use Rattle.sq_cert_words.specs.Reads as spec;
    ghost use Rattle.sq_cert_words.specs.Reads.{Reads, left};

    /// All words of a line, which is given without its newline.
    pub fn new(line: &'a [u8]) -> Words<'a>
        ensures { words_left (option_copied result.rest) ≡ words line.now }
    {
        Words { rest: Some(line) }
    }

    /// The next word, None behind the last one.
    pub fn next(&mut self) -> Option<&'a [u8]>
        ensures { MatchOption result
            (words_left (option_copied self.old.rest) ≡ [])
            (λ w. words_left (option_copied self.old.rest) ≡ w.now ∷ words_left (option_copied
            self.new.rest)) }
    {
        let line = self.rest?;
        let (word, rest) = cut(line);
        self.rest = rest;
        Some(word)
    }

    /// Whether no word is to come.
    #[tactic(auto, using(crate::proofs::LineLaws::left_rules))]
    pub fn is_empty(&self) -> bool
        ensures { IsTrue result ↔ (left self.now ≡ []) }
    {
        self.rest.is_none()
    }

    /// The next word. BadStep behind the last one.
    pub fn any(&mut self) -> Result<&'a [u8], CertFault>
        ensures { Reads (λ w. w.now) result (left self.new) (spec.any_word (left self.old)) }
    {
        match self.next() {
            Some(word) => Ok(word),
            None => Err(CertFault::BadStep),
        }
    }

    /// The next word, which begins a term, a timestamp or an index. BadStep where none is left or it
    /// is no such word.
    pub fn head(&mut self) -> Result<Word, CertFault>
        ensures { Reads (λ w. w) result (left self.new) (spec.head_word (left self.old)) }
    {
        match Word::of(self.any()?) {
            Some(word) => Ok(word),
            None => Err(CertFault::BadStep),
        }
    }
}

/// The first word of the line, and what is behind its blank.
fn cut(line: &[u8]) -> (&[u8], Option<&[u8]>)
    ensures { words line.now ≡ result.0.now ∷ words_left (option_copied result.1) }
{
    let mut length = 0;
    let mut rest = line;
    'letters: while let Some((letter, behind)) = rest.split_first() {
        if *letter == b' ' {
            return (line.split_at(length).0, Some(behind));
        }
        length += 1;
        rest = behind;
    }
    (line, None)
}
