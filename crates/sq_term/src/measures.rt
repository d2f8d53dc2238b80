// How many nodes a term has, and how deep it is.
ghost use Rattle.std.specs.Prelude.{◌≡◌, min};
ghost use Rattle.sq_term.specs.View.{ts_tree, term_tree, term_trees};
ghost use Rattle.sq_term.specs.Measure as spec;

use crate::term::{Idx, Term, Ts};
use sq_base::Seq;

/// How many nodes the timestamp has, or the largest number: each timestamp and index is one.
#[tactic(auto, using(crate::proofs::Views::tree_rules))]
pub fn ts_size(t: &Ts) -> usize
    ensures { result ≡ min (spec.ts_size (ts_tree t.now)) 18446744073709551615 }
{
    match t {
        Ts::Free(_) | Ts::Bound(_) | Ts::Init => 1,
        Ts::Pred(inner) => ts_size(inner.get()).saturating_add(1),
        Ts::Act(_, indices) => indices.len().saturating_add(1),
    }
}

/// How many nodes the term has, or the largest number: each term, timestamp and index is one.
#[cycle(size)]
#[tactic(auto, using(crate::proofs::Views::tree_rules))]
pub fn size(t: &Term) -> usize
    ensures { result ≡ min (spec.size (term_tree t.now)) 18446744073709551615 }
{
    match t {
        Term::Name(_, indices) => indices.len().saturating_add(1),
        Term::Fun(_, indices, args) => indices
            .len()
            .saturating_add(sizes(args.as_slice()))
            .saturating_add(1),
        Term::Macro(_, at) | Term::Happens(at) => ts_size(at).saturating_add(1),
        Term::Schema(_) => 1,
        Term::Diff(left, right) => size(left.get())
            .saturating_add(size(right.get()))
            .saturating_add(1),
        Term::Le(a, b) | Term::TsEq(a, b) => ts_size(a)
            .saturating_add(ts_size(b))
            .saturating_add(1),
        Term::IdxEq(_, _) => 3,
        Term::Forall(_, body) | Term::Exists(_, body) => size(body.get()).saturating_add(1),
        Term::Find(_, test, found, other) => size(test.get())
            .saturating_add(size(found.get()))
            .saturating_add(size(other.get()))
            .saturating_add(1),
    }
}

#[cycle(size)]
#[tactic(auto, using(crate::proofs::Views::tree_rules))]
fn sizes(terms: &[Term]) -> usize
    ensures { result ≡ min (spec.sizes (term_trees terms.now)) 18446744073709551615 }
{
    let mut nodes: usize = 0;
    for term in terms {
        nodes = nodes.saturating_add(size(term));
    }
    nodes
}

fn indices_depth(indices: &Seq<Idx>) -> usize
    ensures { result ≡ spec.indices_depth indices.now }
{
    match indices.as_slice() {
        [] => 0,
        [_, ..] => 1,
    }
}

/// How deep the timestamp is, or the largest number. A timestamp alone has depth 1.
#[tactic(auto, using(crate::proofs::Views::tree_rules))]
pub fn ts_depth(t: &Ts) -> usize
    ensures { result ≡ min (spec.ts_depth (ts_tree t.now)) 18446744073709551615 }
{
    match t {
        Ts::Free(_) | Ts::Bound(_) | Ts::Init => 1,
        Ts::Pred(inner) => ts_depth(inner.get()).saturating_add(1),
        Ts::Act(_, indices) => indices_depth(indices) + 1,
    }
}

/// How deep the term is, or the largest number. A term without parts has depth 1, and a timestamp
/// or an index under a term counts as a part.
#[cycle(depth)]
#[tactic(auto, using(crate::proofs::Views::tree_rules))]
pub fn depth(t: &Term) -> usize
    ensures { result ≡ min (spec.depth (term_tree t.now)) 18446744073709551615 }
{
    match t {
        Term::Name(_, indices) => indices_depth(indices) + 1,
        Term::Fun(_, indices, args) => indices_depth(indices)
            .max(depths(args.as_slice()))
            .saturating_add(1),
        Term::Macro(_, at) | Term::Happens(at) => ts_depth(at).saturating_add(1),
        Term::Schema(_) => 1,
        Term::Diff(left, right) => depth(left.get()).max(depth(right.get())).saturating_add(1),
        Term::Le(a, b) | Term::TsEq(a, b) => ts_depth(a).max(ts_depth(b)).saturating_add(1),
        Term::IdxEq(_, _) => 2,
        Term::Forall(_, body) | Term::Exists(_, body) => depth(body.get()).saturating_add(1),
        Term::Find(_, test, found, other) => depth(test.get())
            .max(depth(found.get()))
            .max(depth(other.get()))
            .saturating_add(1),
    }
}

#[cycle(depth)]
#[tactic(auto, using(crate::proofs::Views::tree_rules))]
fn depths(terms: &[Term]) -> usize
    ensures { result ≡ min (spec.depths (term_trees terms.now)) 18446744073709551615 }
{
    let mut most: usize = 0;
    for term in terms {
        most = most.max(depth(term));
    }
    most
}
