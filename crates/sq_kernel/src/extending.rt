// Steps on an open goal alone, and names for the sequents that they leave.
ghost use Rattle.std.specs.Prelude.{◌≡◌, [], ◌∷◌, IfOk, reverse};
ghost use Rattle.sq_base.specs.Gives.{Gives};
ghost use Rattle.sq_system.specs.Environments.{env_tree};
ghost use Rattle.sq_system.specs.Sequents.{sequent_tree};
ghost use Rattle.sq_sequent.specs.Logic.{sequent_trees};
ghost use Rattle.sq_kernel.specs.Goals as goals;
ghost use Rattle.sq_kernel.specs.Goals.{goal_tree, goal_trees};
ghost use Rattle.sq_kernel.specs.Extending as spec;

use crate::copying::copy_texts;
use crate::fault::StepFault;
use crate::stack::advance_last;
use sq_base::{NoMemory, Seq, Text};
use sq_sequent::{Env, OpenGoal, RuleFault, Sequent, Step, copy_sequent, hyps_of, vars_of};
use std::alloc::{AllocFailed, Global};

/// The names of an open goal's variables, hypotheses and known lists.
#[derive(Debug, Drop)]
pub struct GoalNames {
    pub vars: Seq<Text>,
    pub labels: Seq<Text>,
    pub known: Seq<Text>,
}

/// Why a proof is not extended.
#[derive(Debug, Drop)]
pub enum ExtendFault {
    /// The first step that is refused, counted from 1, and why.
    Step(u64, StepFault),
    /// The sequents that are left are not as many as the names, or a sequent has not as many
    /// variables, hypotheses or known lists as names for them.
    Names,
    NoMemory,
}

impl From<NoMemory> for ExtendFault {
    ghost use Rattle.std.specs.Prelude.{◌≡◌};
    ghost use Rattle.sq_kernel.specs.declared.extending.ExtendFault.TheVariants.{NoMemory};

    ghost from_gives = { λ _ e. e ≡ NoMemory };

    fn from(_: NoMemory) -> Self {
        ExtendFault::NoMemory
    }
}

impl<T: Drop> From<AllocFailed<T>> for ExtendFault {
    ghost use Rattle.std.specs.Prelude.{◌≡◌};
    ghost use Rattle.sq_kernel.specs.declared.extending.ExtendFault.TheVariants.{NoMemory};

    ghost from_gives = { λ _ e. e ≡ NoMemory };

    fn from(_: AllocFailed<T>) -> Self {
        ExtendFault::NoMemory
    }
}

impl ExtendFault {
    // The refusal of step n, or want of memory.
    fn at(n: u64, reason: StepFault) -> ExtendFault
        ensures { result ≡ spec.told n reason }
    {
        match reason {
            StepFault::Rule(RuleFault::NoMemory) => ExtendFault::NoMemory,
            reason => ExtendFault::Step(n, reason),
        }
    }
}

/// What the steps leave of the sequent alone; the first sequent that is left is the last item.
pub fn leave(
    alloc: Global,
    first: &Sequent,
    steps: &[Step],
    env: &Env,
    goal: u32,
) -> Result<Vec<Sequent>, ExtendFault>
    ensures { Gives ExtendFault.NoMemory (λ left. sequent_trees (reverse left.items)) result
        (spec.left_from (env_tree env.now) goal 0 steps.now (sequent_tree first.now ∷ [])) }
{
    let mut stack = Vec::new(alloc);
    stack.push(copy_sequent(alloc, first)?)?;
    let mut number: u64 = 0;
    for step in steps {
        number += 1;
        if let Err(reason) = advance_last(alloc, &mut stack, step, env, goal) {
            return Err(ExtendFault::at(number, reason));
        }
    }
    Ok(stack)
}

fn count_known(sequent: &Sequent) -> usize
    ensures { result ≡ goals.count_known (sequent_tree sequent.now) }
{
    match sequent {
        Sequent::Trace { .. } | Sequent::Local { .. } => 0,
        Sequent::Equiv { known, .. } => known.len(),
    }
}

fn is_named(goal: &OpenGoal) -> bool
    ensures { result ≡ goals.is_named (goal_tree goal.now) }
{
    goal.vars.len() == vars_of(&goal.sequent).len()
        && goal.labels.len() == hyps_of(&goal.sequent).len()
        && goal.known.len() == count_known(&goal.sequent)
}

fn copy_names(alloc: Global, names: &GoalNames) -> Result<GoalNames, NoMemory>
    ensures { IfOk result (λ c. c ≡ names.now) }
{
    let vars = copy_texts(alloc, names.vars.as_slice())?;
    let labels = copy_texts(alloc, names.labels.as_slice())?;
    let known = copy_texts(alloc, names.known.as_slice())?;
    Ok(GoalNames {
        vars,
        labels,
        known,
    })
}

// Apart from `goal_of`, so that no sequent is at hand where memory ends.
fn copies(
    alloc: Global,
    schemas: &[Text],
    names: &GoalNames,
) -> Result<(Seq<Text>, GoalNames), NoMemory>
    ensures { IfOk result (λ c. c ≡ (schemas.now, names.now)) }
{
    let schemas = copy_texts(alloc, schemas)?;
    let names = copy_names(alloc, names)?;
    Ok((schemas, names))
}

fn checked(goal: OpenGoal) -> Result<OpenGoal, ExtendFault>
    ensures { Gives ExtendFault.NoMemory goal_tree result (spec.checked (goal_tree goal)) }
{
    if is_named(&goal) {
        Ok(goal)
    } else {
        Err(ExtendFault::Names)
    }
}

fn goal_of(
    alloc: Global,
    sequent: Sequent,
    names: &GoalNames,
    schemas: &[Text],
) -> Result<OpenGoal, ExtendFault>
    ensures { Gives ExtendFault.NoMemory goal_tree result
        (spec.checked (spec.named schemas.now (sequent_tree sequent) names.now)) }
{
    match copies(alloc, schemas, names) {
        Ok((schemas, names)) => checked(OpenGoal {
            sequent,
            schemas,
            vars: names.vars,
            labels: names.labels,
            known: names.known,
        }),
        Err(_) => Err(ExtendFault::NoMemory),
    }
}

/// Open goals of the sequents with these names, in their order. The first sequent is the last item.
pub fn name_each(
    alloc: Global,
    mut left: Vec<Sequent>,
    names: &[GoalNames],
    schemas: &Seq<Text>,
) -> Result<Seq<OpenGoal>, ExtendFault>
    ensures { Gives ExtendFault.NoMemory goal_trees result
        (spec.each_named schemas.now (sequent_trees (reverse left.items)) names.now) }
{
    let mut goals = Seq::new(alloc);
    for names in names {
        match left.pop() {
            Some(sequent) => goals.push(goal_of(alloc, sequent, names, schemas.as_slice())?)?,
            None => return Err(ExtendFault::Names),
        }
    }
    match left.pop() {
        None => Ok(goals),
        Some(_) => Err(ExtendFault::Names),
    }
}
