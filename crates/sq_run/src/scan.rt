// From bytes to sentences of tokens.
ghost use Rattle.std.specs.Prelude.{◌≡◌, ℕ, List, Some, None, IfOk};
ghost use Rattle.std.specs.Prelude.{if◌then◌else◌};
ghost use Rattle.std.specs.List.{list_all};
ghost use Rattle.sq_run.specs.Scanning as spec;
ghost use Rattle.sq_run.specs.Layout.{AreLaidOut};
ghost use Rattle.sq_run.specs.declared.scan.Sentence.{Sentence};

use sq_base::{NoMemory, Seq, Text};
use std::alloc::Global;
use std::mem;

/// The tokens up to a `.`, which is not among them.
#[derive(Debug, Drop)]
pub struct Sentence {
    pub words: Seq<Text>,
    /// The place behind its first token.
    pub at: usize,
}

// What was scanned, with the tokens of the sentence that has begun and what has come of a token.
#[derive(Drop)]
struct Scanner {
    done: Seq<Sentence>,
    words: Seq<Text>,
    at: usize,
    token: Seq<u8>,
}

/// The sentences of a file. None stands for bytes that are no tokens, or tokens behind the last
/// stop.
#[tactic(auto, unfolding(crate::specs::Scanning::sentences_of))]
pub fn sentences_of(alloc: Global, bytes: &[u8]) -> Result<Option<Seq<Sentence>>, NoMemory>
    ensures { IfOk result (λ found. found ≡ spec.sentences_of bytes.now) }
{
    let mut scanner = Scanner {
        done: Seq::new(alloc),
        words: Seq::new(alloc),
        at: 0,
        token: Seq::new(alloc),
    };
    'bytes: for (at, b) in bytes.iter().enumerate() {
        if !scanner.take(alloc, at, *b)? {
            return Ok(None);
        }
    }
    Ok(scanner.finish())
}

impl Scanner {
    // Takes the byte at this place, where the bytes so far can be those of sentences.
    fn take(&mut self, alloc: Global, at: usize, b: u8) -> Result<bool, NoMemory>
        ensures { IfOk result (λ went.
            spec.after_byte self.old at b ≡ (if went then Some self.new else None)) }
    {
        if extends(self.token.as_slice(), b) {
            self.token.push(b)?;
            return Ok(true);
        }
        if !self.end_token(alloc, at)? {
            return Ok(false);
        }
        self.take_other(alloc, b)
    }

    // Takes a byte where no token has begun.
    fn take_other(&mut self, alloc: Global, b: u8) -> Result<bool, NoMemory>
        ensures { IfOk result (λ went.
            spec.after_other b self.old ≡ (if went then Some self.new else None)) }
    {
        if is_blank(b) {
            return Ok(true);
        }
        if b == b'.' {
            let words = mem::replace(&mut self.words, Seq::new(alloc));
            self.done.push(Sentence { words, at: self.at })?;
            return Ok(true);
        }
        if !begins(b) {
            return Ok(false);
        }
        let mut token = Seq::new(alloc);
        token.push(b)?;
        self.token = token;
        Ok(true)
    }

    // Ends what has come of a token at this place, where it is one.
    fn end_token(&mut self, alloc: Global, at: usize) -> Result<bool, NoMemory>
        ensures { IfOk result (λ went.
            spec.ended self.old at ≡ (if went then Some self.new else None)) }
    {
        if self.token.is_empty() {
            return Ok(true);
        }
        match token_text(alloc, self.token.as_slice())? {
            Some(text) => {
                if self.words.is_empty() {
                    self.at = at;
                }
                self.words.push(text)?;
                self.token = Seq::new(alloc);
                Ok(true)
            }
            None => Ok(false),
        }
    }

    // The sentences, where none has begun.
    fn finish(self) -> Option<Seq<Sentence>>
        ensures { result ≡ spec.finished self }
    {
        if self.words.is_empty() && self.token.is_empty() {
            Some(self.done)
        } else {
            None
        }
    }
}

// The bytes as a text, where they are a token.
fn token_text(alloc: Global, token: &[u8]) -> Result<Option<Text>, NoMemory>
    ensures { IfOk result (λ text.
        text ≡ (if spec.is_token token.now then Some token.now else None)) }
{
    if !is_token(token) {
        return Ok(None);
    }
    match str::from_utf8(token) {
        Ok(text) => Ok(Some(Text::from_str(alloc, text)?)),
        Err(_) => Ok(None),
    }
}

fn is_blank(b: u8) -> bool
    ensures { result ≡ spec.is_blank b }
{
    b == b' ' || b == b'\t' || b == b'\r' || b == b'\n'
}

fn is_start(b: u8) -> bool
    ensures { result ≡ spec.is_start b }
{
    (b'a' <= b && b <= b'z') || (b'A' <= b && b <= b'Z') || b == b'_'
}

fn is_part(b: u8) -> bool
    ensures { result ≡ spec.is_part b }
{
    is_start(b) || (b'0' <= b && b <= b'9')
}

fn are_parts(text: &[u8]) -> bool
    ensures { result ≡ list_all spec.is_part text.now }
{
    for b in text {
        if !is_part(*b) {
            return false;
        }
    }
    true
}

// Whether a token may begin with the byte.
fn begins(b: u8) -> bool
    ensures { result ≡ spec.begins b }
{
    is_start(b) || b == b':' || b == b'=' || b == b'&'
}

// Whether the byte goes on with what has come of a token.
fn extends(token: &[u8], b: u8) -> bool
    ensures { result ≡ spec.extends token.now b }
{
    match token {
        [] => begins(b),
        [first] => {
            (is_start(*first) && is_part(b))
                || (*first == b'=' && b == b'>')
                || (*first == b'&' && b == b'&')
        }
        [first, ..] => is_start(*first) && is_part(b),
    }
}

/// Whether the text is a letter or `_`, and then letters, digits and `_`.
pub fn is_word(text: &[u8]) -> bool
    ensures { result ≡ spec.is_word text.now }
{
    match text {
        [first, ..] => is_start(*first) && are_parts(text),
        [] => false,
    }
}

fn is_token(text: &[u8]) -> bool
    ensures { result ≡ spec.is_token text.now }
{
    is_word(text) || text == b":".as_slice() || text == b"=>".as_slice() || text == b"&&".as_slice()
}

/// What the sentences of bytes are, in the words of a layout: bytes have these sentences exactly
/// where they are laid out as these, and bytes are laid out as the sentences of one list at most.
pub fn sentences_are_laid_out()
    ensures laid_out { (bytes : List ℕ) (found : List Sentence)
        → spec.sentences_of bytes ≡ Some found → AreLaidOut bytes found }
    ensures complete { (bytes : List ℕ) (found : List Sentence)
        → AreLaidOut bytes found → spec.sentences_of bytes ≡ Some found }
    ensures once { (bytes : List ℕ) (a b : List Sentence)
        → AreLaidOut bytes a → AreLaidOut bytes b → a ≡ b }
{}
