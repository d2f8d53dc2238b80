// How much room the changed term takes.
ghost use Rattle.std.specs.Prelude.{◌<◌, ◌+◌, ◌*◌};
ghost use Rattle.sq_term.specs.View.{ts_tree, term_tree, term_trees};
ghost use Rattle.sq_term.specs.Measure.{ts_size, ts_depth, size, sizes, depth, depths};
ghost use Rattle.sq_subst.specs.Room.{Spends};
ghost use Rattle.sq_subst.specs.Leaves as spec;
ghost use Rattle.sq_subst.specs.Leaves.{map_ts, map_term, map_terms};
ghost use Rattle.sq_subst.specs.Changes.{leaves, new_ts};

use crate::change::{
    Change, NewTs, in_place_of, in_place_of_ts, new_bound_ts, new_free_ts, new_message, side,
};
use crate::room::{indices_room, term_room, ts_room};
use sq_term::{Side, Term, Ts};
use sqlite_items::Boxed;

fn new_ts_room(new: NewTs, nodes: usize, levels: u32) -> Option<usize>
    ensures { Spends
        (ts_size (new_ts new.entry)) (ts_depth (new_ts new.entry)) nodes levels result }
{
    match new {
        NewTs::Bound(_) => {
            levels.checked_sub(1)?;
            nodes.checked_sub(1)
        }
        NewTs::Copy(t) => ts_room(t, nodes, levels),
    }
}

/// The nodes that the timestamp leaves where nothing stands in the place of the whole.
#[tactic(auto, using(crate::proofs::Rooms::room_rules))]
fn ts_below_room(change: &Change, t: &Ts, binders: u64, nodes: usize, levels: u32) -> Option<usize>
    ensures { Spends
        (ts_size (spec.ts_below (leaves change.now) binders (ts_tree t.now)))
        (ts_depth (spec.ts_below (leaves change.now) binders (ts_tree t.now)))
        nodes levels result }
{
    match t {
        Ts::Free(k) => new_ts_room(new_free_ts(&*change, binders, *k, t), nodes, levels),
        Ts::Bound(k) => ts_room(new_bound_ts(&*change, binders, *k, t), nodes, levels),
        Ts::Pred(inner) => {
            let nodes = nodes.checked_sub(1)?;
            let levels = levels.checked_sub(1)?;
            match in_place_of_ts(change, inner.get()) {
                Some(new) => ts_room(new, nodes, levels),
                None => ts_below_room(change, inner.get(), binders, nodes, levels),
            }
        }
        Ts::Init | Ts::Act(_, _) => ts_room(t, nodes, levels),
    }
}

/// The nodes that the changed timestamp leaves, or None where it passes the nodes or the levels.
#[tactic(auto, using(crate::proofs::InPlace::walk_room_rules))]
fn changed_ts_room(
    change: &Change,
    t: &Ts,
    binders: u64,
    nodes: usize,
    levels: u32,
) -> Option<usize>
    ensures { Spends
        (ts_size (map_ts (leaves change.now) binders (ts_tree t.now)))
        (ts_depth (map_ts (leaves change.now) binders (ts_tree t.now)))
        nodes levels result }
{
    match in_place_of_ts(change, t) {
        Some(new) => ts_room(new, nodes, levels),
        None => ts_below_room(change, t, binders, nodes, levels),
    }
}

/// The nodes that the changed term leaves, or None where it passes the nodes or the levels.
#[tactic(auto, using(crate::proofs::InPlace::walk_room_rules))]
pub fn changed_room(
    change: &Change,
    t: &Term,
    binders: u64,
    nodes: usize,
    levels: u32,
) -> Option<usize>
    requires room { binders + 4294967296 * levels < 18446744073709551616 }
    ensures { Spends
        (size (map_term (leaves change.now) binders (term_tree t.now)))
        (depth (map_term (leaves change.now) binders (term_tree t.now)))
        nodes levels result }
{
    match in_place_of(change, t) {
        Some(new) => term_room(new, nodes, levels),
        None => below_room(change, t, binders, nodes, levels),
    }
}

/// The same of a part of a term.
#[cycle(walk_room)]
#[tactic(auto, using(crate::proofs::InPlace::walk_room_rules))]
fn part_room(
    change: &Change,
    t: &Boxed<Term>,
    binders: u64,
    nodes: usize,
    levels: u32,
) -> Option<usize>
    requires room { binders + 4294967296 * levels < 18446744073709551616 }
    ensures { Spends
        (size (map_term (leaves change.now) binders (term_tree t.now)))
        (depth (map_term (leaves change.now) binders (term_tree t.now)))
        nodes levels result }
{
    match in_place_of(change, t.get()) {
        Some(new) => term_room(new, nodes, levels),
        None => below_room(change, t.get(), binders, nodes, levels),
    }
}

/// The same of terms.
#[cycle(walk_room)]
#[tactic(auto, using(crate::proofs::InPlace::walk_room_rules))]
fn parts_room(
    change: &Change,
    terms: &[Term],
    binders: u64,
    nodes: usize,
    levels: u32,
) -> Option<usize>
    requires room { binders + 4294967296 * levels < 18446744073709551616 }
    ensures { Spends
        (sizes (map_terms (leaves change.now) binders (term_trees terms.now)))
        (depths (map_terms (leaves change.now) binders (term_trees terms.now)))
        nodes levels result }
{
    let mut rest = nodes;
    for term in terms {
        rest = match in_place_of(change, term) {
            Some(new) => term_room(new, rest, levels)?,
            None => below_room(change, term, binders, rest, levels)?,
        };
    }
    Some(rest)
}

/// The same where nothing stands in the place of the whole.
#[cycle(walk_room)]
#[tactic(auto, using(crate::proofs::Rooms::room_rules))]
fn below_room(change: &Change, t: &Term, binders: u64, nodes: usize, levels: u32) -> Option<usize>
    requires room { binders + 4294967296 * levels < 18446744073709551616 }
    ensures { Spends
        (size (spec.term_below (leaves change.now) binders (term_tree t.now)))
        (depth (spec.term_below (leaves change.now) binders (term_tree t.now)))
        nodes levels result }
{
    match (t, side(change)) {
        (Term::Schema(k), _) => {
            return term_room(new_message(&*change, binders, *k, t), nodes, levels);
        }
        (Term::Diff(left, _), Side::Left) => {
            return part_room(change, left, binders, nodes, levels);
        }
        (Term::Diff(_, right), Side::Right) => {
            return part_room(change, right, binders, nodes, levels);
        }
        _ => {}
    }
    let nodes = nodes.checked_sub(1)?;
    let levels = levels.checked_sub(1)?;
    match t {
        Term::Name(_, indices) => indices_room(indices.as_slice(), nodes, levels),
        Term::Fun(_, indices, args) => {
            let nodes = indices_room(indices.as_slice(), nodes, levels)?;
            parts_room(change, args.as_slice(), binders, nodes, levels)
        }
        Term::Macro(_, at) | Term::Happens(at) => {
            changed_ts_room(change, at, binders, nodes, levels)
        }
        Term::Schema(_) => Some(nodes),
        Term::Diff(left, right) => {
            let nodes = part_room(change, left, binders, nodes, levels)?;
            part_room(change, right, binders, nodes, levels)
        }
        Term::Le(a, b) | Term::TsEq(a, b) => {
            let nodes = changed_ts_room(change, a, binders, nodes, levels)?;
            changed_ts_room(change, b, binders, nodes, levels)
        }
        Term::IdxEq(i, j) => indices_room(&[*i, *j], nodes, levels),
        Term::Forall(_, body) | Term::Exists(_, body) => {
            part_room(change, body, binders + 1, nodes, levels)
        }
        Term::Find(n, test, found, other) => {
            let inner = binders + u64::from(*n);
            let nodes = part_room(change, test, inner, nodes, levels)?;
            let nodes = part_room(change, found, inner, nodes, levels)?;
            part_room(change, other, binders, nodes, levels)
        }
    }
}
