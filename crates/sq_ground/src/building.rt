// Ground terms are made of their parts, within a room of nodes and depth 1,024.
ghost use Rattle.std.specs.Prelude.{◌≡◌, ◌+◌, ◌<◌, ◌≤◌, ◌^◌};
ghost use Rattle.sq_term.specs.Builtins.{builtin_kind};
ghost use Rattle.sq_term.specs.Symbols.{kind_of};
ghost use Rattle.sq_term.specs.Ground.{ground, grounds, named, applied, atom};
ghost use Rattle.sq_term.specs.GroundFormulas as the;
ghost use Rattle.sq_ground.specs.Calls.Builds.{Builds, BuildsAll};

use crate::built::{Arguments, Built};
use sq_base::Seq;
use sq_term::{Builtin, GTerm, SizeFault};
use sqlite_items::Items;
use std::alloc::Global;

/// How deep a ground term may be.
const MOST_DEPTH: usize = 1024;

/// A name with its numbers.
#[tactic(auto, using(sq_term::proofs::GroundViews::ground_rules))]
pub fn name(n: u32, numbers: Seq<u32>, room: usize) -> Result<Built, SizeFault>
    ensures { Builds room (named n numbers) result }
{
    if room == 0 {
        return Err(SizeFault::TooLarge);
    }
    Ok(Built {
        term: GTerm::Name(n, numbers),
        size: 1,
        depth: 1,
    })
}

/// The atom of a schema variable.
#[tactic(auto, using(sq_term::proofs::GroundViews::ground_rules))]
pub fn an_atom(k: u32, room: usize) -> Result<Built, SizeFault>
    ensures { Builds room (atom k) result }
{
    if room == 0 {
        return Err(SizeFault::TooLarge);
    }
    Ok(Built {
        term: GTerm::Atom(k),
        size: 1,
        depth: 1,
    })
}

/// A function on its arguments.
#[tactic(auto, using(sq_term::proofs::GroundViews::ground_rules))]
pub fn apply(f: u32, numbers: Seq<u32>, args: Arguments, room: usize) -> Result<Built, SizeFault>
    ensures { Builds room (applied (kind_of f) numbers (grounds args.terms)) result }
{
    let Arguments { terms, size, depth } = args;
    if size >= room || depth >= MOST_DEPTH {
        return Err(SizeFault::TooLarge);
    }
    Ok(Built {
        term: GTerm::Fun(f, numbers, terms),
        size: size + 1,
        depth: depth + 1,
    })
}

/// A constant.
#[tactic(auto, using(crate::proofs::Grounds::built_rules))]
pub fn constant(alloc: Global, f: Builtin, room: usize) -> Result<Built, SizeFault>
    ensures { Builds room (the.constant (builtin_kind f)) result }
{
    if room == 0 {
        return Err(SizeFault::TooLarge);
    }
    Ok(Built {
        term: GTerm::Fun(f.number(), Seq::new(alloc), Items::new(alloc)),
        size: 1,
        depth: 1,
    })
}

/// The message that is empty.
pub fn empty_message(alloc: Global, room: usize) -> Result<Built, SizeFault>
    ensures { Builds room the.empty result }
{
    constant(alloc, Builtin::Empty, room)
}

/// A truth value.
pub fn truth(alloc: Global, b: bool, room: usize) -> Result<Built, SizeFault>
    ensures { Builds room (the.truth_of b) result }
{
    if b {
        constant(alloc, Builtin::True, room)
    } else {
        constant(alloc, Builtin::False, room)
    }
}

/// A function on one argument.
#[tactic(auto, using(crate::proofs::Grounds::built_rules))]
pub fn unary(alloc: Global, f: Builtin, x: Built, room: usize) -> Result<Built, SizeFault>
    ensures { Builds room (the.unary (builtin_kind f) (ground x.term)) result }
{
    let Built { term, size, depth } = x;
    if size >= room || depth >= MOST_DEPTH {
        return Err(SizeFault::TooLarge);
    }
    let mut terms = Items::new(alloc);
    terms.push(term)?;
    Ok(Built {
        term: GTerm::Fun(f.number(), Seq::new(alloc), terms),
        size: size + 1,
        depth: depth + 1,
    })
}

/// A function on two arguments.
#[tactic(auto, using(crate::proofs::Grounds::built_rules))]
pub fn binary(
    alloc: Global,
    f: Builtin,
    x: Built,
    y: Built,
    room: usize,
) -> Result<Built, SizeFault>
    ensures { Builds room (the.binary (builtin_kind f) (ground x.term) (ground y.term)) result }
{
    let Built {
        term: first,
        size,
        depth,
    } = x;
    let Built {
        term: second,
        size: more,
        depth: deep,
    } = y;
    if size >= room || more >= room - size || depth >= MOST_DEPTH || deep >= MOST_DEPTH {
        return Err(SizeFault::TooLarge);
    }
    let mut terms = Items::new(alloc);
    terms.push(first)?;
    terms.push(second)?;
    Ok(Built {
        term: GTerm::Fun(f.number(), Seq::new(alloc), terms),
        size: size + more + 1,
        depth: depth.max(deep) + 1,
    })
}

/// One of two terms by a test.
#[tactic(auto, using(crate::proofs::Grounds::built_rules))]
pub fn conditional(
    alloc: Global,
    x: Built,
    y: Built,
    z: Built,
    room: usize,
) -> Result<Built, SizeFault>
    ensures { Builds room (the.conditional (ground x.term) (ground y.term) (ground z.term)) result }
{
    let Built {
        term: first,
        size: one,
        depth: a,
    } = x;
    let Built {
        term: second,
        size: two,
        depth: b,
    } = y;
    let Built {
        term: third,
        size: three,
        depth: c,
    } = z;
    if one >= room || two >= room - one || three >= room - one - two {
        return Err(SizeFault::TooLarge);
    }
    let depth = a.max(b).max(c);
    if depth >= MOST_DEPTH {
        return Err(SizeFault::TooLarge);
    }
    let mut terms = Items::new(alloc);
    terms.push(first)?;
    terms.push(second)?;
    terms.push(third)?;
    Ok(Built {
        term: GTerm::Fun(Builtin::Ite.number(), Seq::new(alloc), terms),
        size: one + two + three + 1,
        depth: depth + 1,
    })
}
