// Which lists of instances are traces.
ghost use Rattle.std.specs.Prelude.{◌≡◌, ◌+◌, ◌-◌, ◌<◌, ◌^◌, ◌++◌, Option, Some, None};
ghost use Rattle.std.specs.Prelude.{length, take, true, MatchResult};
ghost use Rattle.std.specs.List.{list_any};
ghost use Rattle.sq_term.specs.Lists.{Each, same_numbers};
ghost use Rattle.sq_term.specs.Systems.{action_at, system_tree};
ghost use Rattle.sq_term.specs.Models as spec;
ghost use Rattle.sq_term.specs.Models.{is_instance_below, first_refused};
ghost use Rattle.sq_term.specs.Models.{IsTraceModel, IsFirstRefused};
ghost use Rattle.sq_ground.specs.Calls.Answers.{position_refused};

use sq_system::System;
use sq_term::{Inst, Model};

/// Whether the model is a trace model of the system: it has an index, its instances are of the
/// system's actions with indices below the model's count and pairwise different, each stands after
/// its parent instance, and no two are in conflict. Else the answer is the first position that is
/// refused, counted from 1, and 0 where there is no index.
pub fn valid_model(s: &System, m: &Model) -> Result<(), u32>
    requires { length m.now.list < 2 ^ 32 - 1 }
    ensures meaning { MatchResult result (λ _. IsTraceModel (system_tree s.now) m.now)
        (λ k. IsFirstRefused (system_tree s.now) m.now k) }
    ensures exact { position_refused result ≡ first_refused (system_tree s.now) m.now }
{
    find_refused(s, m)
}

fn find_refused(s: &System, m: &Model) -> Result<(), u32>
    requires { length m.now.list < 2 ^ 32 - 1 }
    ensures { position_refused result ≡ first_refused (system_tree s.now) m.now }
{
    if m.indices == 0 {
        return Err(0);
    }
    let list = m.list.as_slice();
    'positions: for k in 0..list.len() {
        if !may_follow(s, m.indices, &list[..k], &list[k]) {
            return Err(k as u32 + 1);
        }
    }
    Ok(())
}

// Whether an instance may stand directly after these.
fn may_follow(s: &System, indices: u32, earlier: &[Inst], i: &Inst) -> bool
    requires { Each (λ j. is_instance_below (system_tree s.now) indices j ≡ true) earlier.now }
    ensures { result ≡ spec.may_follow (system_tree s.now) indices earlier.now i.now }
{
    let Some(action) = s.action(i.act) else {
        return false;
    };
    let idx = i.idx.as_slice();
    idx.len() == action.arity as usize
        && are_below(indices, idx)
        && !stands_in(earlier, i.act, idx)
        && parent_stands_in(s, earlier, action.parent, idx)
        && !is_in_conflict(s, indices, i, earlier)
}

pub fn is_instance(n: u32, idx: &[u32], i: &Inst) -> bool
    ensures { result ≡ spec.is_instance n idx.now i.now }
{
    let same = are_same(idx, i.idx.as_slice());
    n == i.act && same
}

fn are_same(is: &[u32], js: &[u32]) -> bool
    ensures { result ≡ same_numbers is.now js.now }
{
    is == js
}

// Whether the instance of action n at these indices is in the list.
fn stands_in(list: &[Inst], n: u32, idx: &[u32]) -> bool
    ensures { result ≡ spec.stands_in list.now n idx.now }
{
    let mut rest = list;
    'instances: while let Some((i, later)) = rest.split_first() {
        if is_instance(n, idx, i) {
            return true;
        }
        rest = later;
    }
    false
}

fn are_below(indices: u32, idx: &[u32]) -> bool
    ensures { result ≡ spec.are_below indices idx.now }
{
    let mut rest = idx;
    'numbers: while let Some((n, later)) = rest.split_first() {
        if *n >= indices {
            return false;
        }
        rest = later;
    }
    true
}

// Where the action has a parent, whether its instance at the first of these indices is in the list.
fn parent_stands_in(s: &System, earlier: &[Inst], parent: Option<u32>, idx: &[u32]) -> bool
    ensures { result ≡ spec.parent_stands_in (system_tree s.now) earlier.now parent idx.now }
{
    match parent {
        None => true,
        Some(p) => stands_in(earlier, p, first(idx, arity_of(s, p))),
    }
}

// The first n of the indices, or all where there are fewer.
fn first(idx: &[u32], n: u32) -> &[u32]
    ensures { result.now ≡ take n idx.now }
{
    let n = n as usize;
    if n < idx.len() { &idx[..n] } else { idx }
}

fn arity_of(s: &System, n: u32) -> u32
    ensures { result ≡ (action_at (system_tree s.now) n).arity }
{
    match s.action(n) {
        Some(action) => action.arity,
        None => 0,
    }
}

// Whether an instance is in conflict with one of these.
fn is_in_conflict(s: &System, indices: u32, i: &Inst, earlier: &[Inst]) -> bool
    requires own { is_instance_below (system_tree s.now) indices i.now ≡ true }
    requires earlier { Each (λ j. is_instance_below (system_tree s.now) indices j ≡ true)
        earlier.now }
    ensures { result ≡ list_any (spec.are_in_conflict (system_tree s.now) i.now) earlier.now }
{
    let mut rest = earlier;
    'instances: while let Some((j, later)) = rest.split_first() {
        if are_in_conflict(s, indices, i, j) {
            return true;
        }
        rest = later;
    }
    false
}

fn are_in_conflict(s: &System, indices: u32, i: &Inst, j: &Inst) -> bool
    requires first { is_instance_below (system_tree s.now) indices i.now ≡ true }
    requires second { is_instance_below (system_tree s.now) indices j.now ≡ true }
    ensures { result ≡ spec.are_in_conflict (system_tree s.now) i.now j.now }
{
    s.conflict(i.act, i.idx.as_slice(), j.act, j.idx.as_slice())
}
