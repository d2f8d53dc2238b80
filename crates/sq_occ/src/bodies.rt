// The places of a name in the bodies of a system, found once, and met wherever a macro is read.
ghost use Rattle.std.specs.Prelude.{◌≡◌, ◌≤◌, ◌+◌, map, reverse, IfOk};
ghost use Rattle.sq_term.specs.Systems.{action_tree, action_trees};
ghost use Rattle.sq_term.specs.Syntax.{action, le};
ghost use Rattle.sq_term.specs.View.{term_tree, ts_tree};
ghost use Rattle.sq_occ.specs.Searches as spec;
ghost use Rattle.sq_occ.specs.Calls.Views.{role_tree, occ_tree};
ghost use Rattle.sq_occ.specs.Calls.Lists.{growing, Adds};
ghost use Rattle.sq_occ.specs.Calls.Bodies.{places_of, met_at, met_in, scan_of, places_in};
ghost use Rattle.sq_occ.specs.Calls.Bodies.{all_places_in, FindsIn, FindsWithin};

use crate::list::List;
use crate::place::Scan;
use crate::scan::scan;
use sq_base::{NoMemory, Seq, Sort};
use sq_system::{KeyUse, Occ, OccFault, Role};
use sq_term::{Action, Idx, Macro, Term, Ts, copy};
use sqlite_items::Boxed;
use std::alloc::Global;

/// The places in the condition and the output of an action, whose indices are bound around them.
#[derive(Debug, Drop)]
pub struct ActionPlaces {
    pub action: u32,
    pub arity: u32,
    pub places: Seq<Occ>,
}

/// The variables of so many binders, the outermost first, which have `within` binders within.
#[tactic(auto, using(crate::proofs::Growth::binders_rules))]
fn binders(alloc: Global, within: u32, count: u32) -> Result<Seq<Idx>, NoMemory>
    ensures { IfOk result (λ s. s ≡ spec.binders within count) }
{
    let mut out = Seq::new(alloc);
    for k in 0..count {
        let number = within.checked_add(count - 1 - k).ok_or(NoMemory)?;
        out.push(Idx::Bound(number))?;
    }
    Ok(out)
}

fn lifted_idx(i: Idx, more: u32) -> Result<Idx, NoMemory>
    ensures { IfOk result (λ j. j ≡ spec.lifted_idx more i) }
{
    match i {
        Idx::Free(_) => Ok(i),
        Idx::Bound(k) => Ok(Idx::Bound(more.checked_add(k).ok_or(NoMemory)?)),
    }
}

fn lifted_indices(alloc: Global, indices: &[Idx], more: u32) -> Result<Seq<Idx>, NoMemory>
    ensures { IfOk result (λ s. s ≡ map (spec.lifted_idx more) indices.now) }
{
    let mut out = Seq::new(alloc);
    for i in indices {
        out.push(lifted_idx(*i, more)?)?;
    }
    Ok(out)
}

/// The timestamp under more binders.
#[tactic(auto, using(sq_term::proofs::Views::tree_rules))]
fn lifted_ts(alloc: Global, t: &Ts, more: u32) -> Result<Ts, NoMemory>
    ensures { IfOk result (λ r. ts_tree r ≡ spec.lifted_ts more (ts_tree t.now)) }
{
    match t {
        Ts::Free(k) => Ok(Ts::Free(*k)),
        Ts::Bound(k) => Ok(Ts::Bound(more.checked_add(*k).ok_or(NoMemory)?)),
        Ts::Init => Ok(Ts::Init),
        Ts::Pred(inner) => {
            let inner = lifted_ts(alloc, inner.get(), more)?;
            Ok(Ts::Pred(Boxed::new(alloc, inner)?))
        }
        Ts::Act(action, indices) => Ok(Ts::Act(
            *action,
            lifted_indices(alloc, indices.as_slice(), more)?,
        )),
    }
}

/// Up to where a macro at this time looks.
#[tactic(auto, using(sq_term::proofs::Views::tree_rules))]
fn reach(alloc: Global, m: Macro, t: Ts) -> Result<Ts, NoMemory>
    ensures { IfOk result (λ r. ts_tree r ≡ spec.reach m (ts_tree t)) }
{
    match m {
        Macro::Input => Ok(Ts::Pred(Boxed::new(alloc, t)?)),
        Macro::Output | Macro::Cond | Macro::Exec | Macro::Frame => Ok(t),
    }
}

fn copy_role(alloc: Global, role: &Role) -> Result<Role, NoMemory>
    ensures { IfOk result (λ r. r ≡ role.now) }
{
    match role {
        Role::Bare => Ok(Role::Bare),
        Role::Pub => Ok(Role::Pub),
        Role::Key(key) => Ok(Role::Key(KeyUse {
            fun: key.fun,
            arg: copy(alloc, &key.arg)?,
            test: key.test,
        })),
    }
}

impl ActionPlaces {
    /// When an instance of the action is among those that the macro reaches, below so many binders.
    #[tactic(auto, using(crate::proofs::Growth::guard_rules))]
    fn guard(&self, alloc: Global, within: u32, m: Macro, t: &Ts) -> Result<Term, NoMemory>
        ensures { IfOk result (λ g. term_tree g
            ≡ le (action self.now.action (spec.binders within self.now.arity))
            (spec.lifted_ts (within + self.now.arity) (spec.reach m (ts_tree t.now)))) }
    {
        let depth = within.checked_add(self.arity).ok_or(NoMemory)?;
        let until = reach(alloc, m, lifted_ts(alloc, t, depth)?)?;
        let instance = Ts::Act(self.action, binders(alloc, within, self.arity)?);
        Ok(Term::Le(instance, until))
    }

    /// The place as it is met where the macro is read under these binders.
    #[tactic(auto, using(crate::proofs::Growth::met_rules))]
    fn met(
        &self,
        alloc: Global,
        place: &Occ,
        above: &[Sort],
        m: Macro,
        t: &Ts,
    ) -> Result<Occ, NoMemory>
        ensures { IfOk result (λ o. occ_tree o
            ≡ met_at (places_of self.now) (reverse above.now) m (ts_tree t.now)
            (occ_tree place.now)) }
    {
        let own = place.bound.as_slice();
        let within = u32::try_from(own.len()).or(Err(NoMemory))?;
        let mut bound = crate::place::under(alloc, above, Sort::Index, self.arity)?;
        bound.extend_from_slice(own)?;
        Ok(Occ {
            name: place.name,
            args: Seq::from_slice(alloc, place.args.as_slice())?,
            role: copy_role(alloc, &place.role)?,
            bound,
            guard: self.guard(alloc, within, m, t)?,
        })
    }

    /// Adds each place as it is met where the macro is read.
    #[tactic(auto, using(crate::proofs::Growth::walk_rules))]
    pub fn add_met(
        &self,
        alloc: Global,
        above: &[Sort],
        m: Macro,
        t: &Ts,
        list: &mut List,
    ) -> Result<(), OccFault>
        ensures { Adds (growing list.old) (growing list.new) result
            (met_in (places_of self.now) (reverse above.now) m (ts_tree t.now)) }
    {
        for place in self.places.as_slice() {
            list.add(self.met(alloc, place, above, m, t)?)?;
        }
        Ok(())
    }
}

impl Scan<'_> {
    /// The places in the bodies of an action. They take their nodes from the room.
    #[tactic(auto, using(crate::proofs::Growth::growth_rules))]
    fn find_in(
        &self,
        number: u32,
        action: &Action,
        room: &mut u32,
    ) -> Result<ActionPlaces, OccFault>
        ensures { FindsIn room.old room.new result
            (places_in (scan_of self.now) number (action_tree action.now)) }
    {
        let within = Scan {
            arity: action.arity,
            bodies: &[],
            ..*self
        };
        let mut list = List {
            entries: Seq::new(self.alloc),
            room: *room,
        };
        scan(&action.cond, &within, false, &[], &mut list)?;
        scan(&action.output, &within, false, &[], &mut list)?;
        *room = list.room;
        Ok(ActionPlaces {
            action: number,
            arity: action.arity,
            places: list.entries,
        })
    }
}

/// The places in all bodies, where these have no more nodes than there is room for.
#[tactic(auto, using(crate::proofs::Finding::finding_rules))]
pub fn find_once(
    search: &Scan,
    actions: &[Action],
    room: u32,
) -> Result<Seq<ActionPlaces>, OccFault>
    ensures { FindsWithin room result
        (all_places_in (scan_of search.now) 0 (action_trees actions.now)) }
{
    let mut found = Seq::new(search.alloc);
    let mut left = room;
    for action in actions {
        let number = u32::try_from(found.len()).or(Err(NoMemory))?;
        found.push(search.find_in(number, action, &mut left)?)?;
    }
    Ok(found)
}
