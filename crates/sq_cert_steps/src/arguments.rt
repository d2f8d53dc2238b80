// The arguments of steps at the front of some words.
ghost use Rattle.std.specs.Prelude.{◌≡◌, MatchResult, option_map};
ghost use Rattle.sq_cert_steps.specs.Lines as line;
ghost use Rattle.sq_cert_words.specs.Reads.{Reads, left};
ghost use Rattle.sq_cert_words.specs.Words.{word_of};
ghost use Rattle.sq_cert_steps.specs.Reading as spec;

use sq_base::Seq;
use sq_cert_terms::{index_of, term_of, ts_of};
use sq_cert_words::{CertFault, Plain, Word, Words, last_number, number};
use sq_step::{Dir, Hand, IdxArg, Place, Target, TermArg, TsArg, ValArg};
use sq_term::Macro;
use std::alloc::Global;

// How deep a written term or timestamp may be below its first node, whose own depth is 1.
const ROOM: usize = 1023;

// ---- places

// What is behind the dot that the text begins with.
fn behind_dot(text: &[u8]) -> Option<&[u8]>
    ensures { option_map (λ t. t.now) result ≡ spec.behind_dot text.now }
{
    match text.split_first() {
        Some((b'.', behind)) => Some(behind),
        _ => None,
    }
}

// The place with the number of its node, which stands in the text.
fn node_of(place: Place, text: &[u8]) -> Option<(Place, u32)>
    ensures { result ≡ spec.node_of place text.now }
{
    let node = last_number(behind_dot(text)?)?;
    Some((place, node))
}

// The place whose word goes on so behind its first letter.
fn place_behind(text: &[u8]) -> Option<(Place, u32)>
    ensures { result ≡ spec.place_behind text.now }
{
    let (letter, behind) = text.split_first()?;
    if *letter == b'g' {
        return node_of(Place::Goal, behind);
    }
    if *letter == b'h' {
        let (hypothesis, rest) = number(u64::from(u32::MAX), behind)?;
        return node_of(Place::Hyp(hypothesis as u32), rest);
    }
    if *letter == b'l' {
        let (item, rest) = number(u64::from(u32::MAX), behind)?;
        return node_of(Place::Left(item as u32), rest);
    }
    if *letter == b'r' {
        let (item, rest) = number(u64::from(u32::MAX), behind)?;
        return node_of(Place::Right(item as u32), rest);
    }
    None
}

fn is_place(word: &[u8]) -> bool
    ensures { result ≡ spec.is_place word.now }
{
    word.first().copied().unwrap_or(0) == b'@'
}

fn place_of(word: &[u8]) -> Option<(Place, u32)>
    ensures { result ≡ spec.place_of word.now }
{
    match word.split_first() {
        Some((b'@', behind)) => place_behind(behind),
        _ => None,
    }
}

// The first word of what is written out.
fn head_of(word: &[u8]) -> Result<Word, CertFault>
    ensures { MatchResult result (λ w. word_of word.now ≡ Some w)
        (λ e. (e ≡ CertFault.BadStep) × (word_of word.now ≡ None)) }
{
    match Word::of(word) {
        Some(head) => Ok(head),
        None => Err(CertFault::BadStep),
    }
}

// An index, or the place of one.
fn index(words: &mut Words) -> Result<IdxArg, CertFault>
    ensures { Reads line.index_spot result (left words.new) (spec.index_spot (left words.old)) }
{
    let word = words.any()?;
    if is_place(word) {
        let Some((place, node)) = place_of(word) else {
            return Err(CertFault::BadStep);
        };
        return Ok(IdxArg::At(place, node));
    }
    let head = head_of(word)?;
    Ok(IdxArg::Written(index_of(head, words)?))
}

/// A timestamp, or the place of one.
pub fn time(alloc: Global, words: &mut Words) -> Result<TsArg, CertFault>
    ensures { Reads line.ts_spot result (left words.new) (spec.ts_spot (left words.old)) }
{
    let word = words.any()?;
    if is_place(word) {
        let Some((place, node)) = place_of(word) else {
            return Err(CertFault::BadStep);
        };
        return Ok(TsArg::At(place, node));
    }
    let head = head_of(word)?;
    Ok(TsArg::Written(ts_of(alloc, head, words, ROOM)?))
}

/// A term, or the place of one.
pub fn term(alloc: Global, words: &mut Words) -> Result<TermArg, CertFault>
    ensures { Reads line.term_spot result (left words.new) (spec.term_spot (left words.old)) }
{
    let word = words.any()?;
    if is_place(word) {
        let Some((place, node)) = place_of(word) else {
            return Err(CertFault::BadStep);
        };
        return Ok(TermArg::At(place, node));
    }
    let head = head_of(word)?;
    Ok(TermArg::Written(term_of(alloc, head, words, ROOM)?))
}

// ---- single words

// The letter that is all of a word.
fn letter_of(word: &[u8]) -> Option<u8>
    ensures { result ≡ spec.letter_of word.now }
{
    let (letter, behind) = word.split_first()?;
    if behind.is_empty() {
        Some(*letter)
    } else {
        None
    }
}

/// A number.
pub fn number_in(words: &mut Words) -> Result<u32, CertFault>
    ensures { Reads line.number result (left words.new)
        (spec.argument spec.of_number (left words.old)) }
{
    match last_number(words.any()?) {
        Some(number) => Ok(number),
        None => Err(CertFault::BadStep),
    }
}

/// Which way an equation is read.
pub fn direction(words: &mut Words) -> Result<Dir, CertFault>
    ensures { Reads line.direction result (left words.new)
        (spec.argument spec.of_direction (left words.old)) }
{
    match letter_of(words.any()?) {
        Some(b'>') => Ok(Dir::Forward),
        Some(b'<') => Ok(Dir::Backward),
        _ => Err(CertFault::BadStep),
    }
}

/// A side of an item.
pub fn hand(words: &mut Words) -> Result<Hand, CertFault>
    ensures { Reads line.hand result (left words.new)
        (spec.argument spec.of_hand (left words.old)) }
{
    match letter_of(words.any()?) {
        Some(b'l') => Ok(Hand::Left),
        Some(b'r') => Ok(Hand::Right),
        _ => Err(CertFault::BadStep),
    }
}

/// What an equation rewrites.
pub fn target(words: &mut Words) -> Result<Target, CertFault>
    ensures { Reads line.target result (left words.new)
        (spec.argument spec.of_target (left words.old)) }
{
    let word = words.any()?;
    match letter_of(word) {
        Some(b'g') => return Ok(Target::Goal),
        Some(b'i') => return Ok(Target::Items),
        _ => {}
    }
    match last_number(word) {
        Some(hypothesis) => Ok(Target::Hyp(hypothesis)),
        None => Err(CertFault::BadStep),
    }
}

/// A value for a binder.
pub fn value(alloc: Global, words: &mut Words) -> Result<ValArg, CertFault>
    ensures { Reads line.value_of result (left words.new)
        (spec.argument spec.of_value (left words.old)) }
{
    match letter_of(words.any()?) {
        Some(b'i') => Ok(ValArg::Index(index(words)?)),
        Some(b't') => Ok(ValArg::Time(time(alloc, words)?)),
        _ => Err(CertFault::BadStep),
    }
}

/// The word of a macro.
pub fn macro_in(words: &mut Words) -> Result<Macro, CertFault>
    ensures { Reads line.macro result (left words.new)
        (spec.argument spec.of_macro (left words.old)) }
{
    match words.head()? {
        Word::Plain(Plain::Input) => Ok(Macro::Input),
        Word::Plain(Plain::Output) => Ok(Macro::Output),
        Word::Plain(Plain::Cond) => Ok(Macro::Cond),
        Word::Plain(Plain::Exec) => Ok(Macro::Exec),
        Word::Plain(Plain::Frame) => Ok(Macro::Frame),
        _ => Err(CertFault::BadStep),
    }
}
