// A large term opened, and the same term copied.
use crate::fault::Fault;
use sq_subst::open_with;
use sq_term::formulas::both;
use sq_term::{Arg, Idx, NoMemory, Seq, Sort, Term, copy};
use sqlite_items::Boxed;
use std::alloc::Global;

const NODES: usize = 60_000;

const LEAVES: u32 = 15_000;

/// Opens the term (`open`), copies it (`copy`) or leaves it (`nothing`), so many times.
pub fn turned(alloc: Global, word: &str, turns: u32) -> Result<u32, Fault> {
    let body = body(alloc)?;
    match word {
        "open" => opened(alloc, &body, turns),
        "copy" => copied(alloc, &body, turns),
        "nothing" => Ok(turns),
        _ => Err(Fault::Usage),
    }
}

fn opened(alloc: Global, body: &Term, turns: u32) -> Result<u32, Fault> {
    let with = Arg::Index(Idx::Free(3));
    let mut done: u32 = 0;
    for _ in 0..turns {
        if let Term::Forall(_, _) = open_with(alloc, body, &with, NODES)? {
            done = done.saturating_add(1);
        }
    }
    Ok(done)
}

fn copied(alloc: Global, body: &Term, turns: u32) -> Result<u32, Fault> {
    let mut done: u32 = 0;
    for _ in 0..turns {
        if let Term::Forall(_, _) = copy(alloc, body)? {
            done = done.saturating_add(1);
        }
    }
    Ok(done)
}

// A body whose outermost variable stands at every leaf, below a binder of its own.
fn body(alloc: Global) -> Result<Term, NoMemory> {
    let inner = tree(alloc, LEAVES, &[Idx::Bound(0), Idx::Bound(1)])?;
    Ok(Term::Forall(Sort::Index, Boxed::new(alloc, inner)?))
}

/// A balanced tree of conjunctions, with a name of these indices at each leaf: of two indices, four
/// nodes for each leaf but for one.
pub fn tree(alloc: Global, leaves: u32, indices: &[Idx]) -> Result<Term, NoMemory> {
    if leaves < 2 {
        return Ok(Term::Name(7, Seq::from_slice(alloc, indices)?));
    }
    let left = tree(alloc, leaves / 2, indices)?;
    let right = tree(alloc, leaves - leaves / 2, indices)?;
    both(alloc, left, right)
}
