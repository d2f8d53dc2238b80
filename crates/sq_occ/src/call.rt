// The list of the places where a name can stand.
ghost use Rattle.std.specs.Prelude.{◌≡◌, ◌≤◌, ◌↔◌, true, Ok, IfOk, IsErrOf};
ghost use Rattle.sq_base.specs.Gives.{Gives};
ghost use Rattle.sq_term.specs.Measure.{depth};
ghost use Rattle.sq_term.specs.Systems.{system_tree};
ghost use Rattle.sq_term.specs.View.{term_tree};
ghost use Rattle.sq_system.specs.Environments.{env_tree};
ghost use Rattle.sq_system.specs.declared.fault.OccFault.TheVariants.{HasSchema, NoMemory};
ghost use Rattle.sq_occ.specs.Listed.{side_of};
ghost use Rattle.sq_occ.specs.Searches.{side_places, places, holds_schema};
ghost use Rattle.sq_occ.specs.Sizes.{outcome};
ghost use Rattle.sq_occ.specs.Calls.Answers.{ListsEveryOccurrence};
ghost use Rattle.sq_occ.specs.Calls.Lists.{growing, Adds};
ghost use Rattle.sq_occ.specs.Calls.Views.{occ_trees};

use crate::bodies::find_once;
use crate::list::List;
use crate::place::Scan;
use crate::scan::scan;
use crate::schema;
use sq_base::Seq;
use sq_system::{Env, Occ, OccFault, System};
use sq_term::{Side, Term};
use std::alloc::Global;

/// How many nodes a list may have.
const MOST_NODES: u32 = 8_388_608;

/// Adds the places on one side. The bodies of the system are searched where the term reads a macro,
/// and then once.
#[tactic(auto, using(crate::proofs::Growth::growth_rules))]
fn add_side(
    alloc: Global,
    t: &Term,
    name: u32,
    left: bool,
    system: &System,
    env: &Env,
    list: &mut List,
) -> Result<(), OccFault>
    ensures { Adds (growing list.old) (growing list.new) result
        (side_places env.now.funs name (side_of left) (system_tree system.now) (term_tree t.now)) }
{
    let search = Scan {
        alloc,
        name,
        left,
        funs: env.funs.as_slice(),
        arity: 0,
        bodies: &[],
    };
    if !schema::reads_macro(t, left) {
        return scan(t, &search, false, &[], list);
    }
    let bodies = find_once(&search, system.actions(), list.room)?;
    let reading = Scan {
        bodies: bodies.as_slice(),
        ..search
    };
    scan(t, &reading, false, &[], list)
}

/// Adds the places on the left, then those on the right.
#[tactic(auto, using(crate::proofs::Growth::growth_rules))]
fn add_sides(
    alloc: Global,
    t: &Term,
    name: u32,
    side: Side,
    system: &System,
    env: &Env,
    list: &mut List,
) -> Result<(), OccFault>
    ensures { Adds (growing list.old) (growing list.new) result
        (places env.now.funs (system_tree system.now) name side (term_tree t.now)) }
{
    match side {
        Side::Left => add_side(alloc, t, name, true, system, env, list),
        Side::Right => add_side(alloc, t, name, false, system, env, list),
        Side::Both => {
            add_side(alloc, t, name, true, system, env, list)?;
            add_side(alloc, t, name, false, system, env, list)
        }
    }
}

/// The places where a name can stand in the term, projected to the side, in any run of the system:
/// in the term itself, and where it reads a macro in the conditions and outputs of all actions that
/// may have come about by then. Both sides are searched one after the other.
///
/// HasSchema: a schema variable stands in the term. TooLarge: the list would pass 8,388,608 nodes,
/// where an entry has those of its indices, of its message and of its guard. A message deeper than
/// 1,024 is too large too; a term of that depth or less has none.
pub fn occurrences(
    alloc: Global,
    t: &Term,
    name: u32,
    system: &System,
    side: Side,
    env: &Env,
) -> Result<Seq<Occ>, OccFault>
    ensures list { IfOk result (λ os.
        outcome env.now.funs (system_tree system.now) name side (term_tree t.now)
        ≡ Ok (occ_trees os)) }
    ensures exact { depth (term_tree t.now) ≤ 1024 → Gives NoMemory occ_trees result
        (outcome env.now.funs (system_tree system.now) name side (term_tree t.now)) }
    ensures schema { IsErrOf result HasSchema ↔ (holds_schema (term_tree t.now) ≡ true) }
    ensures every { IfOk result (λ os.
        ListsEveryOccurrence (env_tree env.now) (system_tree system.now) name side
        (term_tree t.now) (occ_trees os)) }
{
    if schema::holds_schema(t) {
        return Err(OccFault::HasSchema);
    }
    let mut list = List {
        entries: Seq::new(alloc),
        room: MOST_NODES,
    };
    let _count = system.count();
    add_sides(alloc, t, name, side, system, env, &mut list)?;
    let List { entries, room: _ } = list;
    Ok(entries)
}
