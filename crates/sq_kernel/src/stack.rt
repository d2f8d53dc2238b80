// Stacks of sequents. The first sequent is the one that the next step acts on.
ghost use Rattle.std.specs.Prelude.{◌≡◌, ◌<◌, ◌++◌, Err, OnOk, OnErr, MatchResult, length};
ghost use Rattle.std.specs.Prelude.{reverse};
ghost use Rattle.sq_base.specs.Gives.{Gives};
ghost use Rattle.sq_system.specs.Environments.{env_tree};
ghost use Rattle.sq_sequent.specs.Logic.{sequent_trees};
ghost use Rattle.sq_system.specs.Sequents.{sequent_tree};
ghost use Rattle.sq_kernel.specs.Closing.{site};
ghost use Rattle.sq_kernel.specs.Verdicts.{calculus, advanced};

use crate::fault::StepFault;
use crate::lists::replace_first;
use sq_base::{NoMemory, Seq};
use sq_rules_logic::premises;
use sq_sequent::{Env, RuleFault, Sequent, Site, Step};
use std::alloc::Global;

fn premises_of(
    alloc: Global,
    env: &Env,
    goal: u32,
    sequent: &Sequent,
    step: &Step,
) -> Result<Seq<Sequent>, RuleFault>
    ensures { Gives RuleFault.NoMemory sequent_trees result
        (calculus (site (env_tree env.now) goal (sequent_tree sequent.now)) step.now) }
{
    let at = Site { env, goal, sequent };
    premises(alloc, &at, step)
}

/// Replaces the first sequent by its premises. Where they are not exactly one, the other sequents
/// are moved once.
pub fn advance(
    alloc: Global,
    stack: &mut Seq<Sequent>,
    step: &Step,
    env: &Env,
    goal: u32,
) -> Result<(), StepFault>
    requires { goal < length env.now.stmts }
    ensures answer { Gives (StepFault.Rule RuleFault.NoMemory) (λ _. sequent_trees stack.new) result
        (advanced (env_tree env.now) goal step.now (sequent_trees stack.old)) }
    ensures unchanged { OnErr result (stack.new ≡ stack.old) }
{
    match stack.as_slice() {
        [] => Err(StepFault::Extra),
        [first, ..] => match premises_of(alloc, env, goal, first, step) {
            Ok(premises) => match replace_first(stack, premises) {
                Ok(()) => Ok(()),
                Err(_) => Err(StepFault::Rule(RuleFault::NoMemory)),
            },
            Err(fault) => Err(StepFault::Rule(fault)),
        },
    }
}

/// The same on a stack whose first sequent is its last item, so that a step moves no other sequent.
/// Nothing is said of the stack after a refusal.
pub fn advance_last(
    alloc: Global,
    stack: &mut Vec<Sequent>,
    step: &Step,
    env: &Env,
    goal: u32,
) -> Result<(), StepFault>
    ensures { Gives (StepFault.Rule RuleFault.NoMemory)
        (λ _. sequent_trees (reverse stack.new.items)) result
        (advanced (env_tree env.now) goal step.now (sequent_trees (reverse stack.old.items))) }
{
    match stack.pop() {
        None => Err(StepFault::Extra),
        Some(first) => put_premises(stack, premises_of(alloc, env, goal, &first, step)),
    }
}

// Puts the premises on the stack, the first one last, or hands the rule's refusal on.
fn put_premises(
    stack: &mut Vec<Sequent>,
    premises: Result<Seq<Sequent>, RuleFault>,
) -> Result<(), StepFault>
    ensures { MatchResult premises
        (λ ps. MatchResult result (λ _. reverse stack.new.items ≡ ps ++ reverse stack.old.items)
        (λ e. e ≡ StepFault.Rule RuleFault.NoMemory))
        (λ fault. result ≡ Err (StepFault.Rule fault)) }
{
    match premises {
        Ok(premises) => match put_last(stack, premises) {
            Ok(()) => Ok(()),
            Err(_) => Err(StepFault::Rule(RuleFault::NoMemory)),
        },
        Err(fault) => Err(StepFault::Rule(fault)),
    }
}

fn put_last(stack: &mut Vec<Sequent>, premises: Seq<Sequent>) -> Result<(), NoMemory>
    ensures { OnOk result (reverse stack.new.items ≡ premises ++ reverse stack.old.items) }
{
    let mut premises = premises.into_vec();
    while let Some(premise) = premises.pop() {
        stack.push(premise)?;
    }
    Ok(())
}
