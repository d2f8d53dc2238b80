// The facts on the instances of actions.
ghost use Rattle.std.specs.Prelude.{◌≡◌, ◌≤◌, ◌∷◌, IfOk, length, map};
ghost use Rattle.sq_term.specs.Formulas as formula;
ghost use Rattle.sq_term.specs.Syntax as syntax;
ghost use Rattle.sq_term.specs.Systems.{action_at, action_trees, system_tree};
ghost use Rattle.sq_term.specs.View.{ts_tree, term_tree};
ghost use Rattle.sq_system.specs.Clashes.{choice_of};
ghost use Rattle.sq_formula.specs.Facts as quantified;
ghost use Rattle.sq_rules_trace.specs.ActionFacts as spec;

use crate::instance::{Instance, part, time_of};
use crate::lists::{nested, same_indices};
use crate::times::{happens, is_before, other_time, same_time};
use sq_base::{NoMemory, Seq, Sort};
use sq_system::Clash;
use sq_term::{Action, Builtin, Idx, Term, Ts, copy_ts, formulas};
use sqlite_items::{Boxed, Items, at};
use std::alloc::Global;

// ---- instances of one action, and of two

fn one_action(alloc: Global, i: &Instance, j: &Instance) -> Result<Term, NoMemory>
    ensures { IfOk result (λ f. term_tree f ≡ formula.implies
        (syntax.happens (syntax.action i.now.action i.now.indices.now))
        (formula.implies (syntax.ts_eq (syntax.action i.now.action i.now.indices.now)
        (syntax.action j.now.action j.now.indices.now))
        (spec.same_indices i.now.indices.now j.now.indices.now))) }
{
    let here = time_of(alloc, i)?;
    let there = time_of(alloc, j)?;
    let same = same_indices(alloc, i.indices, j.indices)?;
    let equal = same_time(alloc, &here, &there)?;
    let rest = formulas::implies(alloc, equal, same)?;
    let happens = happens(alloc, &here)?;
    formulas::implies(alloc, happens, rest)
}

fn two_actions(alloc: Global, i: &Instance, j: &Instance) -> Result<Term, NoMemory>
    ensures { IfOk result (λ f. term_tree f
        ≡ spec.two_actions i.now.action i.now.indices.now j.now.action j.now.indices.now) }
{
    let here = time_of(alloc, i)?;
    let there = time_of(alloc, j)?;
    let differ = other_time(alloc, &here, &there)?;
    let happens = happens(alloc, &here)?;
    formulas::implies(alloc, happens, differ)
}

/// Instances of one action are equal at equal indices alone, those of two actions never.
pub fn o8(alloc: Global, i: &Instance, j: &Instance) -> Result<Term, NoMemory>
    ensures { IfOk result (λ f. term_tree f
        ≡ spec.o8 i.now.action i.now.indices.now j.now.action j.now.indices.now) }
{
    if i.action == j.action {
        one_action(alloc, i, j)
    } else {
        two_actions(alloc, i, j)
    }
}

// ---- what happens is an instance

// The indices of so many binders, the first that of the outermost.
#[tactic(auto, using(crate::proofs::SomeInstances::binders_rules))]
fn indices_of_binders(alloc: Global, count: u32) -> Result<Seq<Idx>, NoMemory>
    ensures { IfOk result (λ is. is ≡ spec.indices_of_binders count) }
{
    let mut out = Seq::new(alloc);
    let mut left = count;
    'binders: while left > 0 {
        left -= 1;
        out.push(Idx::Bound(left))?;
    }
    Ok(out)
}

#[tactic(auto, using(sq_formula::proofs::FactParts::quantifier_rules))]
fn some_indices(alloc: Global, count: u32, body: Term) -> Result<Term, NoMemory>
    ensures { IfOk result (λ f. term_tree f ≡ quantified.some_indices count (term_tree body)) }
{
    let mut whole = body;
    for _ in 0..count {
        whole = Term::Exists(Sort::Index, Boxed::new(alloc, whole)?);
    }
    Ok(whole)
}

#[tactic(auto, using(sq_term::proofs::Views::tree_rules))]
fn is_some_instance(alloc: Global, t: &Ts, number: u32, arity: u32) -> Result<Term, NoMemory>
    ensures { IfOk result (λ f. term_tree f ≡ quantified.some_indices arity
        (syntax.ts_eq (ts_tree t.now) (syntax.action number (spec.indices_of_binders arity)))) }
{
    let t = copy_ts(alloc, t)?;
    let instance = Ts::Act(number, indices_of_binders(alloc, arity)?);
    some_indices(alloc, arity, Term::TsEq(t, instance))
}

// That t is init, and for each action that t is an instance of it.
#[tactic(auto, using(crate::proofs::SomeInstances::some_rules, sq_term::proofs::Views::tree_rules))]
fn some_instances(alloc: Global, t: &Ts, actions: &[Action]) -> Result<Items<Term>, NoMemory>
    requires { length actions.now ≤ 1024 }
    ensures { IfOk result (λ ts. map term_tree ts
        ≡ syntax.ts_eq (ts_tree t.now) syntax.init
        ∷ spec.instances_from (ts_tree t.now) 0 (action_trees actions.now)) }
{
    let mut out = Items::new(alloc);
    out.push(same_time(alloc, t, &Ts::Init)?)?;
    for (number, action) in actions.iter().enumerate() {
        out.push(is_some_instance(alloc, t, number as u32, action.arity)?)?;
    }
    Ok(out)
}

/// What happens is init or an instance of an action.
#[tactic(auto, using(crate::proofs::SomeInstances::o9_rules))]
pub fn o9(alloc: Global, actions: &[Action], t: &Ts) -> Result<Term, NoMemory>
    requires { length actions.now ≤ 1024 }
    ensures { IfOk result (λ f. term_tree f ≡ spec.o9 (system_tree actions.now) (ts_tree t.now)) }
{
    let parts = some_instances(alloc, t, actions)?;
    let some = nested(alloc, Builtin::Or, Builtin::False, parts)?;
    let happens = happens(alloc, t)?;
    formulas::implies(alloc, happens, some)
}

// ---- an instance and its parent

// Action number k, where there is one.
#[tactic(auto, using(crate::proofs::Lookups::action_rules))]
fn parent_of(actions: &[Action], k: u32) -> Option<u32>
    ensures { result ≡ (action_at (system_tree actions.now) k).parent }
{
    match at(actions, k as usize) {
        Some(action) => action.parent,
        None => None,
    }
}

#[tactic(auto, using(crate::proofs::Lookups::action_rules))]
fn arity_of(actions: &[Action], k: u32) -> u32
    ensures { result ≡ (action_at (system_tree actions.now) k).arity }
{
    match at(actions, k as usize) {
        Some(action) => action.arity,
        None => 0,
    }
}

// Where the instance happens it stands after its parent.
fn behind_parent(alloc: Global, parent: &Ts, t: &Ts) -> Result<Term, NoMemory>
    ensures { IfOk result (λ f. term_tree f ≡ formula.implies (syntax.happens (ts_tree t.now))
        (spec.is_before (ts_tree parent.now) (ts_tree t.now))) }
{
    let before = is_before(alloc, parent, t)?;
    let happens = happens(alloc, t)?;
    formulas::implies(alloc, happens, before)
}

#[tactic(auto, using(sq_term::proofs::Views::tree_rules))]
fn after_parent(
    alloc: Global,
    actions: &[Action],
    i: &Instance,
    parent: Option<u32>,
) -> Result<Term, NoMemory>
    ensures { IfOk result (λ f. term_tree f
        ≡ spec.after_parent (system_tree actions.now) i.now.action i.now.indices.now parent) }
{
    let t = time_of(alloc, i)?;
    let behind_init = other_time(alloc, &t, &Ts::Init)?;
    match parent {
        Some(parent) => {
            let indices = part(i.indices, 0, arity_of(actions, parent));
            let earlier = time_of(
                alloc,
                &Instance {
                    action: parent,
                    indices,
                },
            )?;
            let behind = behind_parent(alloc, &earlier, &t)?;
            formulas::both(alloc, behind_init, behind)
        }
        None => Ok(behind_init),
    }
}

/// An instance is not init, and stands after its parent.
pub fn o11(alloc: Global, actions: &[Action], i: &Instance) -> Result<Term, NoMemory>
    ensures { IfOk result (λ f. term_tree f
        ≡ spec.o11 (system_tree actions.now) i.now.action i.now.indices.now) }
{
    after_parent(alloc, actions, i, parent_of(actions, i.action))
}

// ---- a choice that separates instances

fn agree(alloc: Global, i: &Instance, j: &Instance, c: Clash) -> Result<Term, NoMemory>
    ensures { IfOk result
        (λ f. term_tree f ≡ spec.agree i.now.indices.now j.now.indices.now (choice_of c)) }
{
    let left = part(i.indices, 0, c.agree);
    let right = part(j.indices, 0, c.agree);
    same_indices(alloc, left, right)
}

fn agree_further(alloc: Global, i: &Instance, j: &Instance, c: Clash) -> Result<Term, NoMemory>
    ensures { IfOk result
        (λ f. term_tree f ≡ spec.agree_further i.now.indices.now j.now.indices.now (choice_of c)) }
{
    let left = part(i.indices, c.agree, c.differ);
    let right = part(j.indices, c.agree, c.differ);
    same_indices(alloc, left, right)
}

fn happens_at(alloc: Global, i: &Instance) -> Result<Term, NoMemory>
    ensures { IfOk result (λ f. term_tree f
        ≡ syntax.happens (syntax.action i.now.action i.now.indices.now)) }
{
    let t = time_of(alloc, i)?;
    happens(alloc, &t)
}

fn excluded(alloc: Global, i: &Instance, j: &Instance, c: Clash) -> Result<Term, NoMemory>
    ensures { IfOk result (λ f. term_tree f ≡ spec.excluded i.now.action i.now.indices.now
        j.now.action j.now.indices.now (choice_of c)) }
{
    let second = happens_at(alloc, j)?;
    let not_second = formulas::negation(alloc, second)?;
    let agree = agree(alloc, i, j, c)?;
    let rest = formulas::implies(alloc, agree, not_second)?;
    let first = happens_at(alloc, i)?;
    formulas::implies(alloc, first, rest)
}

fn determined(alloc: Global, i: &Instance, j: &Instance, c: Clash) -> Result<Term, NoMemory>
    ensures { IfOk result (λ f. term_tree f ≡ spec.determined i.now.action i.now.indices.now
        j.now.action j.now.indices.now (choice_of c)) }
{
    let further = agree_further(alloc, i, j, c)?;
    let agree = agree(alloc, i, j, c)?;
    let equal = formulas::implies(alloc, agree, further)?;
    let second = happens_at(alloc, j)?;
    let rest = formulas::implies(alloc, second, equal)?;
    let first = happens_at(alloc, i)?;
    formulas::implies(alloc, first, rest)
}

/// What a choice says of instances that both happen.
pub fn o12(alloc: Global, i: &Instance, j: &Instance, c: Clash) -> Result<Term, NoMemory>
    ensures { IfOk result (λ f. term_tree f ≡ spec.o12 i.now.action i.now.indices.now
        j.now.action j.now.indices.now (choice_of c)) }
{
    if c.differ == 0 {
        excluded(alloc, i, j, c)
    } else {
        determined(alloc, i, j, c)
    }
}
