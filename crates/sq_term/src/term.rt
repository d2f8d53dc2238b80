// Terms, timestamps and indices.
use sq_base::{NoMemory, Seq, Sort};
use sqlite_items::{Boxed, Items};
use std::alloc::{AllocError, AllocFailed};

/// Why a term could not be made: it would pass the room or the depth that it may have, or memory
/// ran out.
#[derive(Clone, Copy, Debug, PartialEq, Eq)]
pub enum SizeFault {
    TooLarge,
    NoMemory,
}

/// A projection of a bi-term, or the bi-term itself.
#[derive(Clone, Copy, Debug, PartialEq, Eq, Hash)]
pub enum Side {
    Left,
    Right,
    Both,
}

/// What is read at a timestamp.
#[derive(Clone, Copy, Debug, PartialEq, Eq, Hash)]
pub enum Macro {
    Input,
    Output,
    Cond,
    Exec,
    Frame,
}

/// An index: a variable of the sequent, or a bound variable counted from the innermost binder.
#[derive(Clone, Copy, Debug, PartialEq, Eq, Hash)]
pub enum Idx {
    Free(u32),
    Bound(u32),
}

/// A timestamp. `Act` is an action of the system at indices.
#[derive(Debug, Drop)]
pub enum Ts {
    Free(u32),
    Bound(u32),
    Init,
    Pred(Boxed<Ts>),
    Act(u32, Seq<Idx>),
}

/// What may stand for a variable of a sequent.
#[derive(Debug, Drop)]
pub enum Arg {
    Index(Idx),
    Time(Ts),
}

/// A term of the meta-logic, of sort message or Boolean.
///
/// A quantifier binds one variable. `Find` holds how many indices it binds in its test and its then
/// part, and these two and its else part. Each term, timestamp and index is one node.
#[derive(Debug, Drop)]
pub enum Term {
    Name(u32, Seq<Idx>),
    Fun(u32, Seq<Idx>, Items<Term>),
    Macro(Macro, Ts),
    Schema(u32),
    Diff(Boxed<Term>, Boxed<Term>),
    Le(Ts, Ts),
    TsEq(Ts, Ts),
    IdxEq(Idx, Idx),
    Happens(Ts),
    Forall(Sort, Boxed<Term>),
    Exists(Sort, Boxed<Term>),
    Find(u32, Boxed<Term>, Boxed<Term>, Boxed<Term>),
}

impl From<NoMemory> for SizeFault {
    ghost use Rattle.std.specs.Prelude.{◌≡◌};
    ghost use Rattle.sq_term.specs.declared.term.SizeFault.TheVariants.{NoMemory as OutOfMemory};

    ghost from_gives = { λ _ e. e ≡ OutOfMemory };

    fn from(_: NoMemory) -> Self {
        SizeFault::NoMemory
    }
}

impl From<AllocError> for SizeFault {
    ghost use Rattle.std.specs.Prelude.{◌≡◌};
    ghost use Rattle.sq_term.specs.declared.term.SizeFault.TheVariants.{NoMemory as OutOfMemory};

    ghost from_gives = { λ _ e. e ≡ OutOfMemory };

    fn from(_: AllocError) -> Self {
        SizeFault::NoMemory
    }
}

impl<T: Drop> From<AllocFailed<T>> for SizeFault {
    ghost use Rattle.std.specs.Prelude.{◌≡◌};
    ghost use Rattle.sq_term.specs.declared.term.SizeFault.TheVariants.{NoMemory as OutOfMemory};

    ghost from_gives = { λ _ e. e ≡ OutOfMemory };

    fn from(_: AllocFailed<T>) -> Self {
        SizeFault::NoMemory
    }
}
