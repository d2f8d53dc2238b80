// Bound variables and the binders that they count.
ghost use Rattle.std.specs.Prelude.{◌≡◌};
ghost use Rattle.sq_term.specs.View.{ts_tree, term_tree, term_trees};
ghost use Rattle.sq_term.specs.Closed as spec;

use crate::term::{Idx, Term, Ts};

fn idx_loose(i: Idx) -> u64
    ensures { result ≡ spec.idx_loose i }
{
    match i {
        Idx::Free(_) => 0,
        Idx::Bound(k) => u64::from(k) + 1,
    }
}

fn indices_loose(indices: &[Idx]) -> u64
    ensures { result ≡ spec.indices_loose indices.now }
{
    let mut most: u64 = 0;
    for i in indices {
        most = most.max(idx_loose(*i));
    }
    most
}

#[tactic(auto, using(crate::proofs::Views::tree_rules))]
fn ts_loose(t: &Ts) -> u64
    ensures { result ≡ spec.ts_loose (ts_tree t.now) }
{
    match t {
        Ts::Free(_) | Ts::Init => 0,
        Ts::Bound(k) => u64::from(*k) + 1,
        Ts::Pred(inner) => ts_loose(inner.get()),
        Ts::Act(_, indices) => indices_loose(indices.as_slice()),
    }
}

#[cycle(loose)]
#[tactic(auto, using(crate::proofs::Views::tree_rules))]
fn loose(t: &Term) -> u64
    ensures { result ≡ spec.loose (term_tree t.now) }
{
    match t {
        Term::Name(_, indices) => indices_loose(indices.as_slice()),
        Term::Fun(_, indices, args) => indices_loose(indices.as_slice()).max(all_loose(
            args.as_slice(),
        )),
        Term::Macro(_, at) | Term::Happens(at) => ts_loose(at),
        Term::Schema(_) => 0,
        Term::Diff(left, right) => loose(left.get()).max(loose(right.get())),
        Term::Le(a, b) | Term::TsEq(a, b) => ts_loose(a).max(ts_loose(b)),
        Term::IdxEq(i, j) => idx_loose(*i).max(idx_loose(*j)),
        Term::Forall(_, body) | Term::Exists(_, body) => loose(body.get()).saturating_sub(1),
        Term::Find(n, test, found, other) => {
            let n = u64::from(*n);
            loose(test.get())
                .saturating_sub(n)
                .max(loose(found.get()).saturating_sub(n))
                .max(loose(other.get()))
        }
    }
}

#[cycle(loose)]
#[tactic(auto, using(crate::proofs::Views::tree_rules))]
fn all_loose(terms: &[Term]) -> u64
    ensures { result ≡ spec.all_loose (term_trees terms.now) }
{
    let mut most: u64 = 0;
    for term in terms {
        most = most.max(loose(term));
    }
    most
}

/// Whether no bound variable of the timestamp reaches past this many binders around it.
pub fn is_ts_closed(t: &Ts, binders: u32) -> bool
    ensures { result ≡ spec.ts_closed binders (ts_tree t.now) }
{
    ts_loose(t) <= u64::from(binders)
}

/// Whether no bound variable of the term reaches past this many binders around it.
pub fn is_closed(t: &Term, binders: u32) -> bool
    ensures { result ≡ spec.is_closed binders (term_tree t.now) }
{
    loose(t) <= u64::from(binders)
}
