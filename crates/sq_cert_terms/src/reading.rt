// Terms, timestamps and indices at the front of some words.
ghost use Rattle.std.specs.Prelude.{◌≡◌, [], map, min};
ghost use Rattle.sq_term.specs.View.{ts_tree, term_tree};
ghost use Rattle.sq_cert_words.specs.Reads.{Reads, left, followed, head_word};
ghost use Rattle.sq_cert_terms.specs.Reading as spec;

use sq_base::{Seq, Sort};
use sq_cert_words::{CertFault, Plain, Word, Words};
use sq_term::{Idx, Macro, Term, Ts};
use sqlite_items::{Boxed, Items};
use std::alloc::Global;

// How much room a list of so many items begins with. A few have just theirs; more than that are
// believed only as they come.
fn first_room(count: u32) -> usize
    ensures { result ≡ min count 4 }
{
    count.min(4) as usize
}

// ---- indices

/// The index whose word this is. BadStep where it is the word of none.
pub fn index_of(head: Word, words: &mut Words) -> Result<Idx, CertFault>
    ensures { Reads (λ i. i) result (left words.new) (spec.index_at head (left words.old)) }
{
    match head {
        Word::Free(number) => Ok(Idx::Free(number)),
        Word::Bound(number) => Ok(Idx::Bound(number)),
        _ => Err(CertFault::BadStep),
    }
}

#[tactic(auto, unfolding(crate::specs::Reading::index))]
fn index(words: &mut Words) -> Result<Idx, CertFault>
    ensures { Reads (λ i. i) result (left words.new) (spec.index (left words.old)) }
{
    let head = words.head()?;
    index_of(head, words)
}

// So many indices, where there is room for them below.
#[tactic(auto, unfolding(crate::specs::Reading::indices_on))]
fn indices(alloc: Global, words: &mut Words, count: u32, room: usize) -> Result<Seq<Idx>, CertFault>
    ensures { Reads (λ is. is) result (left words.new) (spec.indices room count (left words.old)) }
{
    if room == 0 && count > 0 {
        return Err(CertFault::BadStep);
    }
    let mut indices = Seq::from_vec(Vec::with_capacity(alloc, first_room(count))?);
    let mut remaining = count;
    'indices: while remaining > 0 {
        indices.push(index(words)?)?;
        remaining -= 1;
    }
    Ok(indices)
}

// ---- timestamps

/// The timestamp whose first word this is; what is below it has depth `room` at most. BadStep where
/// no such timestamp stands here.
#[cycle(timestamp)]
#[tactic(auto, using(sq_term::proofs::Views::tree_rules))]
pub fn ts_of(alloc: Global, head: Word, words: &mut Words, room: usize) -> Result<Ts, CertFault>
    ensures { Reads ts_tree result (left words.new) (spec.ts_of room head (left words.old)) }
{
    match head {
        Word::Free(number) => Ok(Ts::Free(number)),
        Word::Bound(number) => Ok(Ts::Bound(number)),
        Word::Plain(Plain::Init) => Ok(Ts::Init),
        Word::Plain(Plain::Pred) => {
            let before = ts(alloc, words, room)?;
            Ok(Ts::Pred(Boxed::new(alloc, before)?))
        }
        Word::Action(action, count) => Ok(Ts::Act(action, indices(alloc, words, count, room)?)),
        _ => Err(CertFault::BadStep),
    }
}

// A timestamp of this depth at most.
#[cycle(timestamp)]
#[tactic(auto, using(crate::proofs::Steps::ts_rules))]
fn ts(alloc: Global, words: &mut Words, depth: usize) -> Result<Ts, CertFault>
    ensures { Reads ts_tree result (left words.new) (spec.ts depth (left words.old)) }
{
    if depth == 0 {
        return Err(CertFault::BadStep);
    }
    let head = words.head()?;
    ts_of(alloc, head, words, depth - 1)
}

// ---- terms

// So many terms.
#[cycle(term)]
#[tactic(auto, using(crate::proofs::Steps::terms_rules))]
fn terms(
    alloc: Global,
    words: &mut Words,
    count: u32,
    depth: usize,
) -> Result<Items<Term>, CertFault>
    ensures { Reads (map term_tree) result (left words.new)
        (spec.terms_on (spec.term depth) [] count (left words.old)) }
{
    let mut terms = Items::from_vec(Vec::with_capacity(alloc, first_room(count))?);
    let mut remaining = count;
    'terms: while remaining > 0 {
        terms.push(term(alloc, words, depth)?)?;
        remaining -= 1;
    }
    Ok(terms)
}

#[cycle(term)]
fn boxed(alloc: Global, words: &mut Words, depth: usize) -> Result<Boxed<Term>, CertFault>
    ensures { Reads term_tree result (left words.new) (spec.term depth (left words.old)) }
{
    let part = term(alloc, words, depth)?;
    Ok(Boxed::new(alloc, part)?)
}

#[tactic(auto, using(sq_term::proofs::Views::tree_rules))]
fn macro_at(alloc: Global, word: Macro, words: &mut Words, room: usize) -> Result<Term, CertFault>
    ensures { Reads term_tree result (left words.new) (spec.a_macro word room (left words.old)) }
{
    Ok(Term::Macro(word, ts(alloc, words, room)?))
}

// A term whose first word has no number.
#[cycle(term)]
#[tactic(auto, using(sq_term::proofs::Views::tree_rules))]
fn plain_term(alloc: Global, word: Plain, words: &mut Words, room: usize) -> Result<Term, CertFault>
    ensures { Reads term_tree result (left words.new)
        (spec.plain_at room (spec.term room) word (left words.old)) }
{
    match word {
        Plain::Init | Plain::Pred => Err(CertFault::BadStep),
        Plain::Input => macro_at(alloc, Macro::Input, words, room),
        Plain::Output => macro_at(alloc, Macro::Output, words, room),
        Plain::Cond => macro_at(alloc, Macro::Cond, words, room),
        Plain::Exec => macro_at(alloc, Macro::Exec, words, room),
        Plain::Frame => macro_at(alloc, Macro::Frame, words, room),
        Plain::Diff => {
            let left = boxed(alloc, words, room)?;
            let right = boxed(alloc, words, room)?;
            Ok(Term::Diff(left, right))
        }
        Plain::Le => {
            let earlier = ts(alloc, words, room)?;
            let later = ts(alloc, words, room)?;
            Ok(Term::Le(earlier, later))
        }
        Plain::TsEq => {
            let left = ts(alloc, words, room)?;
            let right = ts(alloc, words, room)?;
            Ok(Term::TsEq(left, right))
        }
        Plain::IdxEq => equation(words, room),
        Plain::Happens => Ok(Term::Happens(ts(alloc, words, room)?)),
        Plain::ForallIndex => Ok(Term::Forall(Sort::Index, boxed(alloc, words, room)?)),
        Plain::ForallTimestamp => Ok(Term::Forall(Sort::Timestamp, boxed(alloc, words, room)?)),
        Plain::ExistsIndex => Ok(Term::Exists(Sort::Index, boxed(alloc, words, room)?)),
        Plain::ExistsTimestamp => Ok(Term::Exists(Sort::Timestamp, boxed(alloc, words, room)?)),
    }
}

#[tactic(auto, using(crate::proofs::Steps::equation_rules))]
fn equation(words: &mut Words, room: usize) -> Result<Term, CertFault>
    ensures { Reads term_tree result (left words.new) (spec.two_indices room (left words.old)) }
{
    if room == 0 {
        return Err(CertFault::BadStep);
    }
    let left = index(words)?;
    let right = index(words)?;
    Ok(Term::IdxEq(left, right))
}

/// The term whose first word this is; what is below it has depth `room` at most. BadStep where no
/// such term stands here.
#[cycle(term)]
#[tactic(auto, using(crate::proofs::Steps::built_rules))]
pub fn term_of(alloc: Global, head: Word, words: &mut Words, room: usize) -> Result<Term, CertFault>
    ensures { Reads term_tree result (left words.new) (spec.term_of room head (left words.old)) }
{
    match head {
        Word::Plain(word) => plain_term(alloc, word, words, room),
        Word::Name(name, count) => Ok(Term::Name(name, indices(alloc, words, count, room)?)),
        Word::Function(function, count, arity) => {
            let indices = indices(alloc, words, count, room)?;
            let terms = terms(alloc, words, arity, room)?;
            Ok(Term::Fun(function, indices, terms))
        }
        Word::Schema(number) => Ok(Term::Schema(number)),
        Word::Find(count) => {
            let test = boxed(alloc, words, room)?;
            let found = boxed(alloc, words, room)?;
            let other = boxed(alloc, words, room)?;
            Ok(Term::Find(count, test, found, other))
        }
        Word::Free(_) | Word::Bound(_) | Word::Action(_, _) => Err(CertFault::BadStep),
    }
}

// A term of this depth at most.
#[cycle(term)]
#[tactic(auto, using(crate::proofs::Steps::term_rules))]
fn term(alloc: Global, words: &mut Words, depth: usize) -> Result<Term, CertFault>
    ensures { Reads term_tree result (left words.new) (spec.term depth (left words.old)) }
{
    if depth == 0 {
        return Err(CertFault::BadStep);
    }
    let head = words.head()?;
    term_of(alloc, head, words, depth - 1)
}
