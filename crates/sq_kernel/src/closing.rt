// A list of steps against a goal.
ghost use Rattle.std.specs.Prelude.{◌≡◌, ◌<◌, ◌↔◌, Some, IfOk, length, reverse};
ghost use Rattle.sq_system.specs.Environments.{env_tree};
ghost use Rattle.sq_ground.specs.Goals.{HoldsEverywhere};
ghost use Rattle.sq_sequent.specs.Logic.{sequent_trees};
ghost use Rattle.sq_rules_logic.specs.Soundness.{EarlierHold};
ghost use Rattle.sq_kernel.specs.Closing.{ClosesGoal};
ghost use Rattle.sq_kernel.specs.Verdicts.{at_end, verdict_of};

use crate::fault::Verdict;
use crate::stack::advance_last;
use sq_base::NoMemory;
use sq_sequent::{Env, Sequent, Step, copy_sequent};
use std::alloc::Global;

/// What the steps make of the goal's starting sequent.
pub fn check(alloc: Global, steps: &[Step], env: &Env, goal: u32) -> Result<Verdict, NoMemory>
    requires { goal < length env.now.stmts }
    ensures verdict { IfOk result (λ v. verdict_of (env_tree env.now) goal steps.now ≡ Some v) }
    ensures closed { IfOk result (λ v. (v ≡ Verdict.Closed)
        ↔ ClosesGoal (env_tree env.now) goal steps.now) }
    ensures sound { IfOk result (λ v. v ≡ Verdict.Closed → EarlierHold (env_tree env.now) goal
        → HoldsEverywhere (env_tree env.now) goal) }
{
    env.facts();
    verdict(alloc, steps, env, goal)
}

// Apart from `check`, so that what follows from the verdict is shown once and not at each return.
fn verdict(alloc: Global, steps: &[Step], env: &Env, goal: u32) -> Result<Verdict, NoMemory>
    requires { goal < length env.now.stmts }
    ensures { IfOk result (λ v. verdict_of (env_tree env.now) goal steps.now ≡ Some v) }
{
    let start = &env.stmts.as_slice()[goal as usize].start;
    let mut stack = Vec::new(alloc);
    stack.push(copy_sequent(alloc, start)?)?;
    let mut number: u64 = 0;
    'steps: for step in steps {
        number += 1;
        if let Err(fault) = advance_last(alloc, &mut stack, step, env, goal) {
            match fault.kind() {
                Some(kind) => return Ok(Verdict::Rejected(number, kind)),
                None => return Err(NoMemory),
            }
        }
    }
    Ok(end_of(&stack))
}

// What is left of the stack after the last step.
fn end_of(stack: &Vec<Sequent>) -> Verdict
    ensures { result ≡ at_end (sequent_trees (reverse stack.now.items)) }
{
    if stack.is_empty() {
        Verdict::Closed
    } else {
        Verdict::Left(stack.len() as u64)
    }
}
