// The fact of each row of time, of the timestamps that its step names.
ghost use Rattle.std.specs.Prelude.{◌≡◌, IfOk, Some, option_map};
ghost use Rattle.sq_term.specs.View.{term_tree};
ghost use Rattle.sq_sequent.specs.Sites.{site_tree};
ghost use Rattle.sq_sequent.specs.Standing.{time_in};
ghost use Rattle.sq_rules_trace.specs.ActionFacts as action_fact;
ghost use Rattle.sq_rules_trace.specs.OrderFacts as order_fact;
ghost use Rattle.sq_rules_trace.specs.Rows.{system_at};
ghost use Rattle.sq_rules_trace.specs.Time as spec;

use crate::instance::{Instance, actions_of, choice, instance_in};
use crate::{actions, ordering};
use sq_base::NoMemory;
use sq_sequent::{Site, TsArg};
use sq_term::Term;
use std::alloc::Global;

pub fn o1(alloc: Global, at: &Site, x: &TsArg) -> Result<Option<Term>, NoMemory>
    ensures { let here = site_tree at.now in IfOk result (λ f. option_map term_tree f
        ≡ option_map order_fact.o1 (time_in here x.now)) }
{
    match at.time_in(x) {
        Some(t) => Ok(Some(ordering::o1(alloc, t)?)),
        None => Ok(None),
    }
}

pub fn o2(
    alloc: Global,
    at: &Site,
    x: &TsArg,
    y: &TsArg,
    z: &TsArg,
) -> Result<Option<Term>, NoMemory>
    ensures { let here = site_tree at.now in IfOk result (λ f. option_map term_tree f
        ≡ spec.of_three order_fact.o2 (time_in here x.now) (time_in here y.now) (time_in here z.now)) }
{
    match at.time_in(x) {
        Some(t) => match at.time_in(y) {
            Some(s) => match at.time_in(z) {
                Some(r) => Ok(Some(ordering::o2(alloc, t, s, r)?)),
                None => Ok(None),
            },
            None => Ok(None),
        },
        None => Ok(None),
    }
}

pub fn o3(alloc: Global, at: &Site, x: &TsArg, y: &TsArg) -> Result<Option<Term>, NoMemory>
    ensures { let here = site_tree at.now in IfOk result (λ f. option_map term_tree f
        ≡ spec.of_two order_fact.o3 (time_in here x.now) (time_in here y.now)) }
{
    match at.time_in(x) {
        Some(t) => match at.time_in(y) {
            Some(s) => Ok(Some(ordering::o3(alloc, t, s)?)),
            None => Ok(None),
        },
        None => Ok(None),
    }
}

pub fn o4(alloc: Global, at: &Site, x: &TsArg, y: &TsArg) -> Result<Option<Term>, NoMemory>
    ensures { let here = site_tree at.now in IfOk result (λ f. option_map term_tree f
        ≡ spec.of_two order_fact.o4 (time_in here x.now) (time_in here y.now)) }
{
    match at.time_in(x) {
        Some(t) => match at.time_in(y) {
            Some(s) => Ok(Some(ordering::o4(alloc, t, s)?)),
            None => Ok(None),
        },
        None => Ok(None),
    }
}

pub fn o5(alloc: Global, at: &Site, x: &TsArg, y: &TsArg) -> Result<Option<Term>, NoMemory>
    ensures { let here = site_tree at.now in IfOk result (λ f. option_map term_tree f
        ≡ spec.of_two order_fact.o5 (time_in here x.now) (time_in here y.now)) }
{
    match at.time_in(x) {
        Some(t) => match at.time_in(y) {
            Some(s) => Ok(Some(ordering::o5(alloc, t, s)?)),
            None => Ok(None),
        },
        None => Ok(None),
    }
}

pub fn o6(alloc: Global, at: &Site, x: &TsArg) -> Result<Option<Term>, NoMemory>
    ensures { let here = site_tree at.now in IfOk result (λ f. option_map term_tree f
        ≡ option_map order_fact.o6 (time_in here x.now)) }
{
    match at.time_in(x) {
        Some(t) => Ok(Some(ordering::o6(alloc, t)?)),
        None => Ok(None),
    }
}

pub fn o7(alloc: Global, at: &Site, x: &TsArg) -> Result<Option<Term>, NoMemory>
    ensures { let here = site_tree at.now in IfOk result (λ f. option_map term_tree f
        ≡ option_map order_fact.o7 (time_in here x.now)) }
{
    match at.time_in(x) {
        Some(t) => Ok(Some(ordering::o7(alloc, t)?)),
        None => Ok(None),
    }
}

#[tactic(auto, using(crate::proofs::InstanceReads::instance_rules))]
pub fn o8(alloc: Global, at: &Site, x: &TsArg, y: &TsArg) -> Result<Option<Term>, NoMemory>
    ensures { let here = site_tree at.now in IfOk result (λ f. option_map term_tree f
        ≡ spec.of_instances (λ a is b js. Some (action_fact.o8 a is b js)) (time_in here x.now)
        (time_in here y.now)) }
{
    match instance_in(at, x) {
        Some(i) => match instance_in(at, y) {
            Some(j) => Ok(Some(actions::o8(alloc, &i, &j)?)),
            None => Ok(None),
        },
        None => Ok(None),
    }
}

pub fn o9(alloc: Global, at: &Site, x: &TsArg) -> Result<Option<Term>, NoMemory>
    ensures { let here = site_tree at.now in IfOk result (λ f. option_map term_tree f
        ≡ option_map (action_fact.o9 (system_at here)) (time_in here x.now)) }
{
    match at.time_in(x) {
        Some(t) => Ok(Some(actions::o9(alloc, actions_of(at), t)?)),
        None => Ok(None),
    }
}

pub fn o10(alloc: Global, at: &Site, x: &TsArg, y: &TsArg) -> Result<Option<Term>, NoMemory>
    ensures { let here = site_tree at.now in IfOk result (λ f. option_map term_tree f
        ≡ spec.of_two order_fact.o10 (time_in here x.now) (time_in here y.now)) }
{
    match at.time_in(x) {
        Some(t) => match at.time_in(y) {
            Some(s) => Ok(Some(ordering::o10(alloc, t, s)?)),
            None => Ok(None),
        },
        None => Ok(None),
    }
}

#[tactic(auto, using(crate::proofs::InstanceReads::instance_rules))]
pub fn o11(alloc: Global, at: &Site, x: &TsArg) -> Result<Option<Term>, NoMemory>
    ensures { let here = site_tree at.now in IfOk result (λ f. option_map term_tree f
        ≡ spec.of_instance (action_fact.o11 (system_at here)) (time_in here x.now)) }
{
    match instance_in(at, x) {
        Some(i) => Ok(Some(actions::o11(alloc, actions_of(at), &i)?)),
        None => Ok(None),
    }
}

// Of two instances, where their actions have choice k.
fn clash_fact(
    alloc: Global,
    at: &Site,
    i: &Instance,
    j: &Instance,
    k: u32,
) -> Result<Option<Term>, NoMemory>
    ensures { IfOk result (λ f. option_map term_tree f
        ≡ spec.clash_fact (system_at (site_tree at.now)) k i.now.action i.now.indices.now
        j.now.action j.now.indices.now) }
{
    match choice(at, i.action, j.action, k) {
        Some(c) => Ok(Some(actions::o12(alloc, i, j, c)?)),
        None => Ok(None),
    }
}

#[tactic(auto, using(crate::proofs::InstanceReads::instance_rules))]
pub fn o12(alloc: Global, at: &Site, x: &TsArg, y: &TsArg, k: u32) -> Result<Option<Term>, NoMemory>
    ensures { let here = site_tree at.now in IfOk result (λ f. option_map term_tree f
        ≡ spec.of_instances (spec.clash_fact (system_at here) k) (time_in here x.now)
        (time_in here y.now)) }
{
    match instance_in(at, x) {
        Some(i) => match instance_in(at, y) {
            Some(j) => clash_fact(alloc, at, &i, &j, k),
            None => Ok(None),
        },
        None => Ok(None),
    }
}
