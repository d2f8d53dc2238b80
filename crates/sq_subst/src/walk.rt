// The changed term.
ghost use Rattle.std.specs.Prelude.{◌≡◌, ◌+◌, map, IfOk};
ghost use Rattle.sq_term.specs.View.{ts_tree, term_tree, term_trees};
ghost use Rattle.sq_subst.specs.Leaves as spec;
ghost use Rattle.sq_subst.specs.Leaves.{map_ts, map_term, map_terms};
ghost use Rattle.sq_subst.specs.Changes.{leaves, new_ts};

use crate::change::{
    Change, NewTs, bound_number, deeper, in_place_of, in_place_of_ts, new_bound_ts, new_free_ts,
    new_idx, new_message, side,
};
use sq_term::{Idx, NoMemory, Seq, Side, Term, Ts, copy, copy_ts};
use sqlite_items::{Boxed, Items};
use std::alloc::Global;

fn changed_indices(
    alloc: Global,
    change: &Change,
    binders: u64,
    indices: &[Idx],
) -> Result<Seq<Idx>, NoMemory>
    ensures { IfOk result (λ s. s ≡ map ((leaves change.now).index binders) indices.now) }
{
    let mut out = Seq::new(alloc);
    for i in indices {
        out.push(new_idx(change, binders, *i)?)?;
    }
    Ok(out)
}

#[tactic(auto, using(sq_term::proofs::Views::tree_rules))]
fn made_ts(alloc: Global, new: NewTs) -> Result<Ts, NoMemory>
    ensures { IfOk result (λ r. ts_tree r ≡ new_ts new.entry) }
{
    match new {
        NewTs::Bound(k) => Ok(Ts::Bound(bound_number(k)?)),
        NewTs::Copy(t) => copy_ts(alloc, t),
    }
}

/// The timestamp where nothing stands in the place of the whole.
#[tactic(auto, using(crate::proofs::InPlace::walk_rules))]
fn ts_below(alloc: Global, change: &Change, t: &Ts, binders: u64) -> Result<Ts, NoMemory>
    ensures { IfOk result
        (λ r. ts_tree r ≡ spec.ts_below (leaves change.now) binders (ts_tree t.now)) }
{
    match t {
        Ts::Free(k) => made_ts(alloc, new_free_ts(&*change, binders, *k, t)),
        Ts::Bound(k) => copy_ts(alloc, new_bound_ts(&*change, binders, *k, t)),
        Ts::Init => Ok(Ts::Init),
        Ts::Pred(inner) => {
            let below = match in_place_of_ts(change, inner.get()) {
                Some(new) => copy_ts(alloc, new)?,
                None => ts_below(alloc, change, inner.get(), binders)?,
            };
            Ok(Ts::Pred(Boxed::new(alloc, below)?))
        }
        Ts::Act(action, indices) => Ok(Ts::Act(
            *action,
            changed_indices(alloc, change, binders, indices.as_slice())?,
        )),
    }
}

#[tactic(auto, using(crate::proofs::InPlace::walk_rules))]
fn changed_ts(alloc: Global, change: &Change, t: &Ts, binders: u64) -> Result<Ts, NoMemory>
    ensures { IfOk result (λ r. ts_tree r ≡ map_ts (leaves change.now) binders (ts_tree t.now)) }
{
    match in_place_of_ts(change, t) {
        Some(new) => copy_ts(alloc, new),
        None => ts_below(alloc, change, t, binders),
    }
}

/// The changed term.
#[tactic(auto, using(crate::proofs::InPlace::walk_rules))]
pub fn changed(alloc: Global, change: &Change, t: &Term, binders: u64) -> Result<Term, NoMemory>
    ensures { IfOk result
        (λ r. term_tree r ≡ map_term (leaves change.now) binders (term_tree t.now)) }
{
    match in_place_of(change, t) {
        Some(new) => copy(alloc, new),
        None => below(alloc, change, t, binders),
    }
}

/// A changed part of a term.
#[cycle(walk)]
#[tactic(auto, using(crate::proofs::InPlace::walk_rules))]
fn part(alloc: Global, change: &Change, t: &Boxed<Term>, binders: u64) -> Result<Term, NoMemory>
    ensures { IfOk result
        (λ r. term_tree r ≡ map_term (leaves change.now) binders (term_tree t.now)) }
{
    match in_place_of(change, t.get()) {
        Some(new) => copy(alloc, new),
        None => below(alloc, change, t.get(), binders),
    }
}

/// The same in a box of its own.
#[cycle(walk)]
#[tactic(auto, using(crate::proofs::InPlace::walk_rules))]
fn boxed(
    alloc: Global,
    change: &Change,
    t: &Boxed<Term>,
    binders: u64,
) -> Result<Boxed<Term>, NoMemory>
    ensures { IfOk result
        (λ r. term_tree r ≡ map_term (leaves change.now) binders (term_tree t.now)) }
{
    let new = match in_place_of(change, t.get()) {
        Some(new) => copy(alloc, new)?,
        None => below(alloc, change, t.get(), binders)?,
    };
    Ok(Boxed::new(alloc, new)?)
}

/// The changed terms.
#[cycle(walk)]
#[tactic(auto, using(crate::proofs::InPlace::walk_rules))]
fn parts(
    alloc: Global,
    change: &Change,
    terms: &[Term],
    binders: u64,
) -> Result<Items<Term>, NoMemory>
    ensures { IfOk result
        (λ r. term_trees r ≡ map_terms (leaves change.now) binders (term_trees terms.now)) }
{
    let mut out = Items::new(alloc);
    for term in terms {
        let new = match in_place_of(change, term) {
            Some(new) => copy(alloc, new)?,
            None => below(alloc, change, term, binders)?,
        };
        out.push(new)?;
    }
    Ok(out)
}

/// The term where nothing stands in the place of the whole.
#[cycle(walk)]
#[tactic(auto, using(crate::proofs::Rooms::put_rules))]
fn below(alloc: Global, change: &Change, t: &Term, binders: u64) -> Result<Term, NoMemory>
    ensures { IfOk result
        (λ r. term_tree r ≡ spec.term_below (leaves change.now) binders (term_tree t.now)) }
{
    match t {
        Term::Name(n, is) => Ok(Term::Name(
            *n,
            changed_indices(alloc, change, binders, is.as_slice())?,
        )),
        Term::Fun(f, is, args) => {
            let is = changed_indices(alloc, change, binders, is.as_slice())?;
            Ok(Term::Fun(*f, is, parts(alloc, change, args.as_slice(), binders)?))
        }
        Term::Macro(m, at) => Ok(Term::Macro(*m, changed_ts(alloc, change, at, binders)?)),
        Term::Schema(k) => copy(alloc, new_message(&*change, binders, *k, t)),
        Term::Diff(left, right) => match side(change) {
            Side::Left => part(alloc, change, left, binders),
            Side::Right => part(alloc, change, right, binders),
            Side::Both => {
                let left = boxed(alloc, change, left, binders)?;
                Ok(Term::Diff(left, boxed(alloc, change, right, binders)?))
            }
        },
        Term::Le(a, b) => Ok(Term::Le(
            changed_ts(alloc, change, a, binders)?,
            changed_ts(alloc, change, b, binders)?,
        )),
        Term::TsEq(a, b) => Ok(Term::TsEq(
            changed_ts(alloc, change, a, binders)?,
            changed_ts(alloc, change, b, binders)?,
        )),
        Term::IdxEq(i, j) => Ok(Term::IdxEq(
            new_idx(change, binders, *i)?,
            new_idx(change, binders, *j)?,
        )),
        Term::Happens(at) => Ok(Term::Happens(changed_ts(alloc, change, at, binders)?)),
        Term::Forall(sort, body) => Ok(Term::Forall(
            *sort,
            boxed(alloc, change, body, deeper(binders, 1)?)?,
        )),
        Term::Exists(sort, body) => Ok(Term::Exists(
            *sort,
            boxed(alloc, change, body, deeper(binders, 1)?)?,
        )),
        Term::Find(n, test, found, other) => {
            let inner = deeper(binders, *n)?;
            let test = boxed(alloc, change, test, inner)?;
            let found = boxed(alloc, change, found, inner)?;
            Ok(Term::Find(*n, test, found, boxed(alloc, change, other, binders)?))
        }
    }
}
