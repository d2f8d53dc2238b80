// Open goals, and what a proof command makes of the first one.
ghost use Rattle.std.specs.Prelude.{◌≡◌, ◌++◌, IfOk, OnOk, drop, map, length, ◌<◌, Ok};
ghost use Rattle.std.specs.List.{position_from};
ghost use Rattle.sq_base.specs.Gives.{Gives};
ghost use Rattle.sq_term.specs.TreeEquality.{is_same_tree};
ghost use Rattle.sq_term.specs.View.{term_tree};
ghost use Rattle.sq_system.specs.Environments.{env_tree};
ghost use Rattle.sq_system.specs.Sequents as sequents;
ghost use Rattle.sq_system.specs.Sequents.{sequent_tree};
ghost use Rattle.sq_sequent.specs.Logic.{sequent_trees};
ghost use Rattle.sq_sequent.specs.Views as views;
ghost use Rattle.sq_run.specs.Running as spec;

use crate::number::number_of;
use crate::script::{Command, reads};
use sq_base::{NoMemory, Seq, Text};
use sq_rules_logic::premises;
use sq_sequent::{
    Env, RuleFault, Sequent, Site, Step, copy_sequent, goal_of, hyps_of, is_same, sequent_size,
};
use sq_term::Term;
use std::alloc::Global;

/// The most nodes of an open goal.
const MOST_NODES: usize = 65_536;

/// What is still to be shown, with the labels of its hypotheses.
#[derive(Debug, Drop)]
pub struct Goal {
    pub sequent: Sequent,
    pub labels: Seq<Text>,
}

/// The step that a command stands for, and the labels of the hypotheses that it adds.
#[derive(Debug, Drop)]
pub struct Plan {
    pub step: Step,
    pub labels: Seq<Text>,
}

/// Why a command makes nothing of the open goals.
#[derive(Clone, Copy, Debug, PartialEq, Eq)]
pub enum Refusal {
    /// A label, or the size of a new goal, that a later stage of the program judges.
    NotBuilt,
    /// No goal is open, or the step has no row for the first one.
    Shape,
    NoMemory,
}

impl From<NoMemory> for Refusal {
    ghost use Rattle.std.specs.Prelude.{◌≡◌};
    ghost use Rattle.sq_run.specs.declared.goal.Refusal.TheVariants.{NoMemory};

    ghost from_gives = { λ _ e. e ≡ NoMemory };

    fn from(_: NoMemory) -> Self {
        Refusal::NoMemory
    }
}

impl From<RuleFault> for Refusal {
    ghost use Rattle.std.specs.Prelude.{◌≡◌};
    ghost use Rattle.sq_run.specs.Refusals.{refusal_of};

    ghost from_gives = { λ fault e. e ≡ refusal_of fault };

    fn from(fault: RuleFault) -> Self {
        match fault {
            RuleFault::Shape => Refusal::Shape,
            RuleFault::NoMemory => Refusal::NoMemory,
            _ => Refusal::NotBuilt,
        }
    }
}

/// The open goals after a command on the first of them.
pub fn after_command(
    alloc: Global,
    env: &Env,
    number: u32,
    command: &Command,
    goals: Seq<Goal>,
) -> Result<Seq<Goal>, Refusal>
    ensures { Gives Refusal.NoMemory spec.goal_trees result
        (spec.after_command (env_tree env.now) number command.now (spec.goal_trees goals)) }
{
    let new = match goals.as_slice() {
        [] => return Err(Refusal::Shape),
        [first, ..] => run_on(alloc, env, number, command, first)?,
    };
    Ok(replace_first(goals, new)?)
}

// What a command makes of a goal.
fn run_on(
    alloc: Global,
    env: &Env,
    number: u32,
    command: &Command,
    goal: &Goal,
) -> Result<Seq<Goal>, Refusal>
    ensures { Gives Refusal.NoMemory spec.goal_trees result (let g = spec.goal_tree goal.now in
        spec.after_plan (env_tree env.now) number g (spec.plan_of command.now g)) }
{
    let plan = plan_of(alloc, command, goal)?;
    run_plan(alloc, env, number, plan, goal)
}

fn run_plan(
    alloc: Global,
    env: &Env,
    number: u32,
    plan: Plan,
    goal: &Goal,
) -> Result<Seq<Goal>, Refusal>
    ensures { Gives Refusal.NoMemory spec.goal_trees result
        (spec.after_plan (env_tree env.now) number (spec.goal_tree goal.now) (Ok plan)) }
{
    let at = Site {
        env,
        goal: number,
        sequent: &goal.sequent,
    };
    let premises = premises(alloc, &at, &plan.step)?;
    if !are_small(premises.as_slice()) {
        return Err(Refusal::NotBuilt);
    }
    let premises = premises.as_slice();
    Ok(with_labels(
        alloc,
        premises,
        goal.labels.as_slice(),
        plan.labels.as_slice(),
    )?)
}

// Whether each of the sequents may be an open goal.
fn are_small(premises: &[Sequent]) -> bool
    ensures { result ≡ spec.are_small (sequent_trees premises.now) }
{
    for premise in premises {
        if !is_small(premise) {
            return false;
        }
    }
    true
}

// Whether the sequent may be an open goal.
fn is_small(sequent: &Sequent) -> bool
    ensures { result ≡ spec.is_small (sequent_tree sequent.now) }
{
    sequent_size(sequent) <= MOST_NODES
}

// Goals of these sequents, each with all of the labels.
fn with_labels(
    alloc: Global,
    premises: &[Sequent],
    labels: &[Text],
    more: &[Text],
) -> Result<Seq<Goal>, NoMemory>
    ensures { IfOk result (λ gs. spec.goal_trees gs
        ≡ spec.with_labels (labels.now ++ more.now) (sequent_trees premises.now)) }
{
    let mut goals = Seq::new(alloc);
    for premise in premises {
        let sequent = copy_sequent(alloc, premise)?;
        let mut all = Seq::new(alloc);
        add_copies(alloc, &mut all, labels)?;
        add_copies(alloc, &mut all, more)?;
        goals.push(Goal {
            sequent,
            labels: all,
        })?;
    }
    Ok(goals)
}

fn add_copies(alloc: Global, labels: &mut Seq<Text>, more: &[Text]) -> Result<(), NoMemory>
    ensures { OnOk result (labels.new ≡ labels.old ++ more.now) }
{
    for label in more {
        labels.push(label.copy(alloc)?)?;
    }
    Ok(())
}

// The step that the command stands for at this goal.
fn plan_of(alloc: Global, command: &Command, goal: &Goal) -> Result<Plan, Refusal>
    ensures { Gives Refusal.NoMemory (λ plan. plan) result
        (spec.plan_of command.now (spec.goal_tree goal.now)) }
{
    let labels = goal.labels.as_slice();
    match command {
        Command::Intro(label) => intro_plan(alloc, labels, label),
        Command::Destruct(hyp, first, second) => destruct_plan(alloc, labels, hyp, first, second),
        Command::Split => Ok(Plan {
            step: Step::Andi,
            labels: Seq::new(alloc),
        }),
        Command::Assumption => assumption_plan(alloc, &goal.sequent),
    }
}

fn intro_plan(alloc: Global, labels: &[Text], label: &Text) -> Result<Plan, Refusal>
    ensures { Gives Refusal.NoMemory (λ plan. plan) result
        (spec.intro_plan labels.now label.now) }
{
    if is_label(labels, label) {
        return Err(Refusal::NotBuilt);
    }
    let mut new = Seq::new(alloc);
    new.push(label.copy(alloc)?)?;
    Ok(Plan {
        step: Step::Impi,
        labels: new,
    })
}

fn destruct_plan(
    alloc: Global,
    labels: &[Text],
    hyp: &Text,
    first: &Text,
    second: &Text,
) -> Result<Plan, Refusal>
    ensures { Gives Refusal.NoMemory (λ plan. plan) result
        (spec.destruct_plan (spec.labelled labels.now hyp.now) labels.now first.now second.now) }
{
    let at = match labelled(labels, hyp) {
        Some(at) => at,
        None => return Err(Refusal::NotBuilt),
    };
    if is_label(labels, first) || is_label(labels, second) || reads(first, second.as_str()) {
        return Err(Refusal::NotBuilt);
    }
    let number = number_of(at)?;
    let mut new = Seq::new(alloc);
    new.push(first.copy(alloc)?)?;
    new.push(second.copy(alloc)?)?;
    Ok(Plan {
        step: Step::Ande(number),
        labels: new,
    })
}

fn assumption_plan(alloc: Global, sequent: &Sequent) -> Result<Plan, Refusal>
    ensures { Gives Refusal.NoMemory (λ plan. plan) result (let s = sequent_tree sequent.now in
        spec.assumption_plan (spec.assumed_in (sequents.hyps_of s) (views.goal_of s))) }
{
    let at = match goal_of(sequent) {
        Some(goal) => assumed(hyps_of(sequent), goal),
        None => None,
    };
    match at {
        Some(at) => Ok(Plan {
            step: Step::Hyp(number_of(at)?),
            labels: Seq::new(alloc),
        }),
        None => Err(Refusal::Shape),
    }
}

fn is_label(labels: &[Text], label: &Text) -> bool
    ensures { result ≡ spec.is_label labels.now label.now }
{
    for own in labels {
        if reads(own, label.as_str()) {
            return true;
        }
    }
    false
}

// The first hypothesis with this label.
fn labelled(labels: &[Text], label: &Text) -> Option<usize>
    ensures { result ≡ spec.labelled labels.now label.now }
{
    for (at, own) in labels.iter().enumerate() {
        if reads(own, label.as_str()) {
            return Some(at);
        }
    }
    None
}

// The first hypothesis that is the goal.
fn assumed(hyps: &[Term], goal: &Term) -> Option<usize>
    ensures { result
        ≡ position_from (is_same_tree (term_tree goal.now)) 0 (map term_tree hyps.now) }
{
    for (at, hyp) in hyps.iter().enumerate() {
        if is_same(goal, hyp) {
            return Some(at);
        }
    }
    None
}

// The goals with others in place of the first.
fn replace_first(goals: Seq<Goal>, new: Seq<Goal>) -> Result<Seq<Goal>, NoMemory>
    requires { 0 < length goals }
    ensures { IfOk result (λ gs. gs ≡ new ++ drop 1 goals) }
{
    let mut rest = goals.into_vec();
    rest.remove(0);
    let mut all = new.into_vec();
    match all.append(&mut rest) {
        Ok(()) => Ok(Seq::from_vec(all)),
        Err(_) => Err(NoMemory),
    }
}
