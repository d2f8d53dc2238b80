// Instances of actions, and what the goal's system says of them.
ghost use Rattle.std.specs.Prelude.{◌≡◌, ◌≤◌, IfOk, Some, drop, length, option_map, take};
ghost use Rattle.std.specs.Option.{option_copied};
ghost use Rattle.sq_term.specs.Syntax as syntax;
ghost use Rattle.sq_term.specs.Systems as systems;
ghost use Rattle.sq_term.specs.Systems.{action_at, system_tree};
ghost use Rattle.sq_term.specs.View.{ts_tree};
ghost use Rattle.sq_system.specs.Clashes.{choice_of};
ghost use Rattle.sq_sequent.specs.Sites.{site_tree};
ghost use Rattle.sq_sequent.specs.Standing.{time_in};
ghost use Rattle.sq_rules_trace.specs.Instances as spec;
ghost use Rattle.sq_rules_trace.specs.Instances.{instance_tree, actions_found};
ghost use Rattle.sq_rules_trace.specs.Rows.{system_at};

use sq_base::{NoMemory, Seq};
use sq_sequent::{Site, TsArg};
use sq_system::{Clash, System, statement};
use sq_term::{Action, Idx, Ts};
use std::alloc::Global;

/// An action at indices.
#[derive(Clone, Copy)]
pub struct Instance<'a> {
    pub action: u32,
    pub indices: &'a [Idx],
}

#[tactic(auto, using(sq_term::proofs::Views::tree_rules), unfolding(crate::specs::Instances::instance_of))]
fn as_instance(t: &Ts) -> Option<Instance<'_>>
    ensures { option_map instance_tree result ≡ spec.instance_of (Some (ts_tree t.now)) }
{
    match t {
        Ts::Act(action, indices) => Some(Instance {
            action: *action,
            indices: indices.as_slice(),
        }),
        Ts::Free(_) | Ts::Bound(_) | Ts::Init | Ts::Pred(_) => None,
    }
}

/// The instance that an argument names, where it may stand in the sequent.
#[tactic(auto, unfolding(crate::specs::Instances::instance_of))]
pub fn instance_in<'a, 'b>(at: &Site<'a>, arg: &'b TsArg) -> Option<Instance<'b>>
where
    'a: 'b,
    ensures { option_map instance_tree result
        ≡ spec.instance_of (time_in (site_tree at.now) arg.now) }
{
    match at.time_in(arg) {
        Some(t) => as_instance(t),
        None => None,
    }
}

/// The timestamp of the instance.
#[tactic(auto, using(sq_term::proofs::Views::tree_rules))]
pub fn time_of(alloc: Global, i: &Instance) -> Result<Ts, NoMemory>
    ensures { IfOk result (λ t. ts_tree t ≡ syntax.action i.now.action i.now.indices.now) }
{
    Ok(Ts::Act(i.action, Seq::from_slice(alloc, i.indices)?))
}

// The system of the site's goal.
#[tactic(auto, using(crate::proofs::Lookups::system_rules))]
fn system_of<'a>(at: &Site<'a>) -> Option<&'a System>
    ensures { system_tree (actions_found (option_copied result)) ≡ system_at (site_tree at.now) }
{
    let number = match statement(at.env, at.goal) {
        Some(stmt) => stmt.system,
        None => 0,
    };
    sqlite_items::at(at.env.systems.as_slice(), number as usize)
}

/// The actions of the goal's system.
pub fn actions_of<'a>(at: &Site<'a>) -> &'a [Action]
    ensures actions { system_tree result.now ≡ system_at (site_tree at.now) }
    ensures few { length result.now ≤ 1024 }
{
    match system_of(at) {
        Some(system) => {
            // It says what a system keeps, here that its actions are few.
            let _count = system.count();
            system.actions()
        }
        None => &[],
    }
}

#[tactic(auto, using(crate::proofs::Lookups::choice_rules))]
fn choice_in(system: &System, a: u32, b: u32, k: u32) -> Option<Clash>
    ensures { let whole = system_tree system.now in option_map choice_of result
        ≡ systems.clash (action_at whole a).path (action_at whole b).path k }
{
    let count = system.count();
    if a < count && b < count {
        system.clash(a, b, k)
    } else {
        None
    }
}

/// Choice k on the common path of two actions of the goal's system.
#[tactic(auto, using(crate::proofs::Lookups::choice_rules))]
pub fn choice(at: &Site, a: u32, b: u32, k: u32) -> Option<Clash>
    ensures { let system = system_at (site_tree at.now) in option_map choice_of result
        ≡ systems.clash (action_at system a).path (action_at system b).path k }
{
    match system_of(at) {
        Some(system) => choice_in(system, a, b, k),
        None => None,
    }
}

/// So many of the indices behind the first ones, or all that there are.
pub fn part(indices: &[Idx], first: u32, count: u32) -> &[Idx]
    ensures { result.now ≡ take count (drop first indices.now) }
{
    let first = (first as usize).min(indices.len());
    let rest = &indices[first..];
    let count = (count as usize).min(rest.len());
    &rest[..count]
}
