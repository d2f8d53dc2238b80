// Equality of terms and timestamps.
ghost use Rattle.std.specs.Prelude.{◌≡◌, ◌↔◌, IsTrue};

use crate::term::{Idx, Term, Ts};
use sq_base::Seq;

fn same_indices(a: &Seq<Idx>, b: &Seq<Idx>) -> bool
    ensures { IsTrue result ↔ (a.now ≡ b.now) }
{
    a.as_slice() == b.as_slice()
}

/// Whether the timestamps are equal.
pub fn same_ts(a: &Ts, b: &Ts) -> bool
    ensures { IsTrue result ↔ (a.now ≡ b.now) }
{
    match (a, b) {
        (Ts::Free(m), Ts::Free(n)) | (Ts::Bound(m), Ts::Bound(n)) => m == n,
        (Ts::Init, Ts::Init) => true,
        (Ts::Pred(s), Ts::Pred(t)) => same_ts(s.get(), t.get()),
        (Ts::Act(m, is), Ts::Act(n, js)) => m == n && same_indices(is, js),
        _ => false,
    }
}

/// Whether the terms are equal.
#[cycle(same)]
pub fn same(a: &Term, b: &Term) -> bool
    ensures { IsTrue result ↔ (a.now ≡ b.now) }
{
    match a {
        Term::Name(m, is) => match b {
            Term::Name(n, js) => *m == *n && same_indices(is, js),
            _ => false,
        },
        Term::Fun(m, is, ts) => match b {
            Term::Fun(n, js, us) => {
                *m == *n && same_indices(is, js) && same_all(ts.as_slice(), us.as_slice())
            }
            _ => false,
        },
        Term::Macro(m, s) => match b {
            Term::Macro(n, t) => *m == *n && same_ts(s, t),
            _ => false,
        },
        Term::Schema(m) => match b {
            Term::Schema(n) => *m == *n,
            _ => false,
        },
        Term::Diff(a1, a2) => match b {
            Term::Diff(b1, b2) => same(a1.get(), b1.get()) && same(a2.get(), b2.get()),
            _ => false,
        },
        Term::Le(a1, a2) => match b {
            Term::Le(b1, b2) => same_ts(a1, b1) && same_ts(a2, b2),
            _ => false,
        },
        Term::TsEq(a1, a2) => match b {
            Term::TsEq(b1, b2) => same_ts(a1, b1) && same_ts(a2, b2),
            _ => false,
        },
        Term::IdxEq(a1, a2) => match b {
            Term::IdxEq(b1, b2) => *a1 == *b1 && *a2 == *b2,
            _ => false,
        },
        Term::Happens(s) => match b {
            Term::Happens(t) => same_ts(s, t),
            _ => false,
        },
        Term::Forall(s, a1) => match b {
            Term::Forall(t, b1) => *s == *t && same(a1.get(), b1.get()),
            _ => false,
        },
        Term::Exists(s, a1) => match b {
            Term::Exists(t, b1) => *s == *t && same(a1.get(), b1.get()),
            _ => false,
        },
        Term::Find(m, a1, a2, a3) => match b {
            Term::Find(n, b1, b2, b3) => {
                *m == *n
                    && same(a1.get(), b1.get())
                    && same(a2.get(), b2.get())
                    && same(a3.get(), b3.get())
            }
            _ => false,
        },
    }
}

#[cycle(same)]
fn same_all(a: &[Term], b: &[Term]) -> bool
    ensures { IsTrue result ↔ (a.now ≡ b.now) }
{
    if a.len() != b.len() {
        return false;
    }
    for i in 0..a.len() {
        if !same(&a[i], &b[i]) {
            return false;
        }
    }
    true
}
