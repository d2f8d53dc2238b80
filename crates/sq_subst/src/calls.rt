// The calls: each measures first, and builds where there is room.
ghost use Rattle.std.specs.Prelude.{map};
ghost use Rattle.sq_base.specs.Gives.{Gives};
ghost use Rattle.sq_term.specs.View.{ts_tree, term_tree};
ghost use Rattle.sq_term.specs.Arguments.{arg_tree};
ghost use Rattle.sq_term.specs.declared.term.SizeFault.TheVariants.{NoMemory};
ghost use Rattle.sq_subst.specs.Room.{within};
ghost use Rattle.sq_subst.specs.Leaves.{map_term};
ghost use Rattle.sq_subst.specs.Changes.{leaves};
ghost use Rattle.sq_subst.specs.Substitution.{opened, instance_of};
ghost use Rattle.sq_subst.specs.Renaming.{closed_over, idx_replaced, binding};
ghost use Rattle.sq_subst.specs.Replacement.{ts_replaced, term_replaced};
ghost use Rattle.sq_subst.specs.Projection.{projected};

use crate::change::Change;
use crate::room::MOST_LEVELS;
use crate::walk::changed;
use crate::walk_room::changed_room;
use sq_term::{Arg, Idx, Side, SizeFault, Term, Ts};
use std::alloc::Global;
use std::slice;

#[tactic(auto, using(crate::proofs::Rooms::call_rules))]
fn changed_within(
    alloc: Global,
    change: &Change,
    t: &Term,
    binders: u32,
    room: usize,
) -> Result<Term, SizeFault>
    ensures { Gives NoMemory term_tree result
        (within room (map_term (leaves change.now) binders (term_tree t.now))) }
{
    if changed_room(change, t, u64::from(binders), room, MOST_LEVELS).is_none() {
        return Err(SizeFault::TooLarge);
    }
    Ok(changed(alloc, change, t, u64::from(binders))?)
}

/// The body with its outermost bound variable replaced. A place of the other sort stays as it is.
pub fn open_with(alloc: Global, body: &Term, with: &Arg, room: usize) -> Result<Term, SizeFault>
    ensures { Gives NoMemory term_tree result
        (within room (opened (arg_tree with.now) (term_tree body.now))) }
{
    changed_within(
        alloc,
        &Change::Put(&[], slice::from_ref(with), &[]),
        body,
        0,
        room,
    )
}

/// The term with each of its variables and schema variables replaced, all at once: what was put in
/// is not looked at again. A variable that has no argument of the sort of its place stays.
pub fn instance(
    alloc: Global,
    t: &Term,
    vars: &[Arg],
    schemas: &[Term],
    room: usize,
) -> Result<Term, SizeFault>
    ensures { Gives NoMemory term_tree result
        (within room
        (instance_of (map arg_tree vars.now) (map term_tree schemas.now) (term_tree t.now))) }
{
    changed_within(alloc, &Change::Put(vars, &[], schemas), t, 0, room)
}

/// The term as the body of a binder for a free variable: the inverse of `open_with`.
pub fn close_var(alloc: Global, t: &Term, var: u32, room: usize) -> Result<Term, SizeFault>
    ensures { Gives NoMemory term_tree result (within room (closed_over var (term_tree t.now))) }
{
    changed_within(alloc, &Change::Close(var), t, 0, room)
}

/// The term with each index `from` replaced.
pub fn replace_idx(
    alloc: Global,
    t: &Term,
    from: &Idx,
    to: &Idx,
    room: usize,
) -> Result<Term, SizeFault>
    ensures { Gives NoMemory term_tree result
        (within room (idx_replaced from.now to.now (term_tree t.now))) }
{
    changed_within(alloc, &Change::Index(*from, *to), t, 0, room)
}

/// The term with each outermost timestamp `from` replaced.
pub fn replace_ts(
    alloc: Global,
    t: &Term,
    from: &Ts,
    to: &Ts,
    room: usize,
) -> Result<Term, SizeFault>
    ensures { Gives NoMemory term_tree result
        (within room (ts_replaced (ts_tree from.now) (ts_tree to.now) (term_tree t.now))) }
{
    changed_within(alloc, &Change::Time(from, to), t, 0, room)
}

/// The term with each outermost term `from` replaced.
pub fn replace_term(
    alloc: Global,
    t: &Term,
    from: &Term,
    to: &Term,
    room: usize,
) -> Result<Term, SizeFault>
    ensures { Gives NoMemory term_tree result
        (within room (term_replaced (term_tree from.now) (term_tree to.now) (term_tree t.now))) }
{
    changed_within(alloc, &Change::Term(from, to), t, 0, room)
}

/// One side of the term, without `Diff`, or the term itself.
pub fn project(alloc: Global, t: &Term, side: Side, room: usize) -> Result<Term, SizeFault>
    ensures { Gives NoMemory term_tree result (within room (projected side (term_tree t.now))) }
{
    changed_within(alloc, &Change::Project(side), t, 0, room)
}

/// One side of the term below so many binders, its free indices below a number bound by further
/// binders around these, the first by the outermost.
pub fn bind_indices(
    alloc: Global,
    t: &Term,
    indices: u32,
    binders: u32,
    side: Side,
    room: usize,
) -> Result<Term, SizeFault>
    ensures { Gives NoMemory term_tree result
        (within room (map_term (binding indices side) binders (term_tree t.now))) }
{
    changed_within(alloc, &Change::Bind(indices, side), t, binders, room)
}
