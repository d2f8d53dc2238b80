// What is put in the place of the parts of a term.
ghost use Rattle.std.specs.Prelude.{◌≡◌, ◌+◌, map, IfOk, MatchOption, Some, None, slice_get};
ghost use Rattle.std.specs.Prelude.{unwrap_or};
ghost use Rattle.sq_term.specs.View.{ts_tree, term_tree};
ghost use Rattle.sq_term.specs.Arguments.{arg_tree};
ghost use Rattle.sq_term.specs.Syntax.{free, bound, schema};
ghost use Rattle.sq_term.specs.TreeEquality.{is_same_tree};
ghost use Rattle.sq_subst.specs.Changes.{leaves, new_ts};
ghost use Rattle.sq_subst.specs.Substitution.{index_or, past, time_or};

use sq_term::{Arg, Idx, NoMemory, Side, Term, Ts, same};

/// What becomes of the parts of a term.
#[derive(Clone, Copy)]
pub enum Change<'a> {
    /// Arguments for the free variables and for those that binders around the term would bind, the
    /// innermost of these first, and terms for the schema variables.
    Put(&'a [Arg], &'a [Arg], &'a [Term]),
    /// This free variable is bound by a binder around the term.
    Close(u32),
    /// The first index becomes the second.
    Index(Idx, Idx),
    /// The first timestamp becomes the second.
    Time(&'a Ts, &'a Ts),
    /// The first term becomes the second.
    Term(&'a Term, &'a Term),
    /// Differences become this side of theirs.
    Project(Side),
    /// The free indices below this number are bound by binders around the term, the first by the
    /// outermost of them, and differences become this side of theirs.
    Bind(u32, Side),
}

/// What is put in the place of a variable of sort timestamp: the variable of a binder, or a copy.
#[derive(Clone, Copy)]
pub enum NewTs<'a> {
    Bound(u64),
    Copy(&'a Ts),
}

/// The variable of a binder with this many binders below it.
pub fn bound_number(binders: u64) -> Result<u32, NoMemory>
    ensures { IfOk result (λ k. k ≡ binders) }
{
    u32::try_from(binders).or(Err(NoMemory))
}

/// More binders around. So many that their number passes 64 bits never fit in memory.
pub fn deeper(binders: u64, more: u32) -> Result<u64, NoMemory>
    ensures { IfOk result (λ k. k ≡ binders + more) }
{
    binders.checked_add(u64::from(more)).ok_or(NoMemory)
}

fn index_at(args: &[Arg], at: u64, otherwise: Idx) -> Idx
    ensures { result ≡ index_or (slice_get (map arg_tree args.now) at) otherwise }
{
    match args.get(at as usize) {
        Some(Arg::Index(i)) => *i,
        Some(Arg::Time(_)) | None => otherwise,
    }
}

/// The index for a variable that is not bound below, or the given one where there is none.
fn index_past(args: &[Arg], binders: u64, k: u64, otherwise: Idx) -> Idx
    ensures { result ≡ index_or (past (map arg_tree args.now) binders k) otherwise }
{
    if binders <= k {
        index_at(args, k - binders, otherwise)
    } else {
        otherwise
    }
}

/// The timestamp at a place, or the given one where there is none.
fn time_at<'a>(args: &'a [Arg], at: u64, otherwise: &'a Ts) -> &'a Ts
    ensures { ts_tree result.now
        ≡ time_or (slice_get (map arg_tree args.now) at) (ts_tree otherwise.now) }
{
    match args.get(at as usize) {
        Some(Arg::Time(t)) => t,
        Some(Arg::Index(_)) | None => otherwise,
    }
}

/// The timestamp for a variable that is not bound below, or the given one where there is none.
fn time_past<'a>(args: &'a [Arg], binders: u64, k: u64, otherwise: &'a Ts) -> &'a Ts
    ensures { ts_tree result.now
        ≡ time_or (past (map arg_tree args.now) binders k) (ts_tree otherwise.now) }
{
    if binders <= k {
        time_at(args, k - binders, otherwise)
    } else {
        otherwise
    }
}

/// The term at a place, or the given one where there is none.
fn term_at<'a>(terms: &'a [Term], at: u32, otherwise: &'a Term) -> &'a Term
    ensures { term_tree result.now
        ≡ unwrap_or (slice_get (map term_tree terms.now) at) (term_tree otherwise.now) }
{
    match terms.get(at as usize) {
        Some(t) => t,
        None => otherwise,
    }
}

fn is_term(a: &Term, b: &Term) -> bool
    ensures { result ≡ is_same_tree (term_tree a.now) (term_tree b.now) }
{
    same(a, b)
}

/// The index in the place of one below this many binders.
#[tactic(auto, using(crate::proofs::SameIndices::same_index_rules))]
pub fn new_idx(change: &Change, binders: u64, i: Idx) -> Result<Idx, NoMemory>
    ensures { IfOk result (λ j. j ≡ (leaves change.now).index binders i) }
{
    match (change, i) {
        (Change::Put(vars, _, _), Idx::Free(k)) => Ok(index_at(vars, u64::from(k), i)),
        (Change::Put(_, outer, _), Idx::Bound(k)) => {
            Ok(index_past(outer, binders, u64::from(k), i))
        }
        (Change::Close(x), Idx::Free(k)) if k == *x => Ok(Idx::Bound(bound_number(binders)?)),
        (Change::Bind(count, _), Idx::Free(k)) if k < *count => {
            Ok(Idx::Bound(bound_number(deeper(binders, *count - k - 1)?)?))
        }
        (Change::Index(from, to), _) if i == *from => Ok(*to),
        _ => Ok(i),
    }
}

/// What stands in the place of a free variable of sort timestamp, which is also passed whole.
#[tactic(auto, using(sq_term::proofs::Views::tree_rules))]
pub fn new_free_ts<'a>(change: &Change<'a>, binders: u64, k: u32, t: &'a Ts) -> NewTs<'a>
    requires { ts_tree t.now ≡ free k }
    ensures { new_ts result ≡ (leaves change.now).free_time binders k }
{
    match change {
        Change::Put(vars, _, _) => NewTs::Copy(time_at(vars, u64::from(k), t)),
        Change::Close(x) if k == *x => NewTs::Bound(binders),
        _ => NewTs::Copy(t),
    }
}

/// What stands in the place of a bound variable of sort timestamp, which is also passed whole.
#[tactic(auto, using(sq_term::proofs::Views::tree_rules))]
pub fn new_bound_ts<'a>(change: &Change<'a>, binders: u64, k: u32, t: &'a Ts) -> &'a Ts
    requires { ts_tree t.now ≡ bound k }
    ensures { ts_tree result.now ≡ (leaves change.now).bound_time binders k }
{
    match change {
        Change::Put(_, outer, _) => time_past(outer, binders, u64::from(k), t),
        _ => t,
    }
}

/// What stands in the place of a schema variable, which is also passed whole.
#[tactic(auto, using(sq_term::proofs::Views::tree_rules))]
pub fn new_message<'a>(change: &Change<'a>, binders: u64, k: u32, t: &'a Term) -> &'a Term
    requires { term_tree t.now ≡ schema k }
    ensures { term_tree result.now ≡ (leaves change.now).message binders k }
{
    match change {
        Change::Put(_, _, schemas) => term_at(schemas, k, t),
        _ => t,
    }
}

/// What stands in the place of the whole timestamp.
pub fn in_place_of_ts<'a>(change: &Change<'a>, t: &Ts) -> Option<&'a Ts>
    ensures { MatchOption result ((leaves change.now).time (ts_tree t.now) ≡ None)
        (λ u. (leaves change.now).time (ts_tree t.now) ≡ Some (ts_tree u.now)) }
{
    match change {
        Change::Time(from, to) if t == *from => Some(to),
        _ => None,
    }
}

/// What stands in the place of the whole term.
pub fn in_place_of<'a>(change: &Change<'a>, t: &Term) -> Option<&'a Term>
    ensures { MatchOption result ((leaves change.now).term (term_tree t.now) ≡ None)
        (λ u. (leaves change.now).term (term_tree t.now) ≡ Some (term_tree u.now)) }
{
    match change {
        Change::Term(from, to) if is_term(t, from) => Some(to),
        _ => None,
    }
}

/// The side of differences that stays.
pub fn side(change: &Change) -> Side
    ensures { result ≡ (leaves change.now).side }
{
    match change {
        Change::Project(side) | Change::Bind(_, side) => *side,
        _ => Side::Both,
    }
}
