// Copies of terms and timestamps.
ghost use Rattle.std.specs.Prelude.{◌≡◌, IfOk};

use crate::term::{Term, Ts};
use sq_base::{NoMemory, Seq};
use sqlite_items::{Boxed, Items};
use std::alloc::Global;

/// An equal timestamp.
pub fn copy_ts(alloc: Global, t: &Ts) -> Result<Ts, NoMemory>
    ensures { IfOk result (λ c. c ≡ t.now) }
{
    match t {
        Ts::Free(n) => Ok(Ts::Free(*n)),
        Ts::Bound(n) => Ok(Ts::Bound(*n)),
        Ts::Init => Ok(Ts::Init),
        Ts::Pred(inner) => Ok(Ts::Pred(Boxed::new(alloc, copy_ts(alloc, inner.get())?)?)),
        Ts::Act(action, indices) => Ok(Ts::Act(
            *action,
            Seq::from_slice(alloc, indices.as_slice())?,
        )),
    }
}

/// An equal term.
#[cycle(copy)]
pub fn copy(alloc: Global, t: &Term) -> Result<Term, NoMemory>
    ensures { IfOk result (λ c. c ≡ t.now) }
{
    match t {
        Term::Name(n, indices) => Ok(Term::Name(*n, Seq::from_slice(alloc, indices.as_slice())?)),
        Term::Fun(f, indices, args) => Ok(Term::Fun(
            *f,
            Seq::from_slice(alloc, indices.as_slice())?,
            copies(alloc, args.as_slice())?,
        )),
        Term::Macro(m, at) => Ok(Term::Macro(*m, copy_ts(alloc, at)?)),
        Term::Schema(n) => Ok(Term::Schema(*n)),
        Term::Diff(left, right) => Ok(Term::Diff(
            copy_boxed(alloc, left)?,
            copy_boxed(alloc, right)?,
        )),
        Term::Le(a, b) => Ok(Term::Le(copy_ts(alloc, a)?, copy_ts(alloc, b)?)),
        Term::TsEq(a, b) => Ok(Term::TsEq(copy_ts(alloc, a)?, copy_ts(alloc, b)?)),
        Term::IdxEq(i, j) => Ok(Term::IdxEq(*i, *j)),
        Term::Happens(at) => Ok(Term::Happens(copy_ts(alloc, at)?)),
        Term::Forall(sort, body) => Ok(Term::Forall(*sort, copy_boxed(alloc, body)?)),
        Term::Exists(sort, body) => Ok(Term::Exists(*sort, copy_boxed(alloc, body)?)),
        Term::Find(n, test, found, other) => Ok(Term::Find(
            *n,
            copy_boxed(alloc, test)?,
            copy_boxed(alloc, found)?,
            copy_boxed(alloc, other)?,
        )),
    }
}

#[cycle(copy)]
fn copy_boxed(alloc: Global, t: &Boxed<Term>) -> Result<Boxed<Term>, NoMemory>
    ensures { IfOk result (λ c. c ≡ t.now) }
{
    let inner = copy(alloc, t.get())?;
    Ok(Boxed::new(alloc, inner)?)
}

/// Equal terms, in their order.
#[cycle(copy)]
pub fn copies(alloc: Global, terms: &[Term]) -> Result<Items<Term>, NoMemory>
    ensures { IfOk result (λ c. c ≡ terms.now) }
{
    let mut out = Items::new(alloc);
    for term in terms {
        out.push(copy(alloc, term)?)?;
    }
    Ok(out)
}
