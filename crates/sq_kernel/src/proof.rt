// A proof as far as it goes.
ghost use Rattle.std.specs.Prelude.{◌≡◌, map, true};
ghost use Rattle.std.specs.List.{list_all};
ghost use Rattle.sq_kernel.specs.Goals.{goal_tree, is_named};

use crate::copying::copy_steps;
use crate::extending::{ExtendFault, GoalNames, leave, name_each};
use crate::lists::{append, replace_first};
use crate::opening::first_goal;
use sq_base::{NoMemory, Seq};
use sq_sequent::{Env, OpenGoal, Step};
use std::alloc::Global;

/// The proof of a statement as far as it goes: its steps so far, and the goals that are open after
/// them. Each open goal has a name for each of its variables, hypotheses and known lists.
#[derive(Debug, Drop)]
pub struct Proof {
    goal: u32,
    steps: Seq<Step>,
    goals: Seq<OpenGoal>,
    ghost named: { list_all is_named (map goal_tree goals) ≡ true },
}

impl Proof {
    ghost use Rattle.std.specs.Prelude.{◌<◌, IfOk, OnOk, OnErr, length};
    ghost use Rattle.sq_base.specs.Gives.{Gives};
    ghost use Rattle.sq_system.specs.Environments.{env_tree};
    ghost use Rattle.sq_system.specs.Sequents.{SequentTree};
    ghost use Rattle.sq_system.specs.Usable.{statement_at};
    ghost use Rattle.sq_kernel.specs.Goals.{goal_trees};
    ghost use Rattle.sq_kernel.specs.Extending.{left_of, grown, extended};
    ghost use Rattle.sq_kernel.specs.Proofs.{Stands, proof_tree, begun};

    /// The proof without steps: the statement's starting sequent is open, with the statement's
    /// names, and its hypotheses are labelled H0, H1 and so on.
    pub fn start(alloc: Global, env: &Env, goal: u32) -> Result<Proof, NoMemory>
        requires { goal < length env.now.stmts }
        ensures begun { IfOk result (λ p. proof_tree p ≡ begun (env_tree env.now) goal) }
        ensures stands { IfOk result (λ p. Stands (proof_tree p)
            (statement_at (env_tree env.now) goal).start (env_tree env.now)) }
    {
        let statement = &env.stmts.as_slice()[goal as usize];
        let mut goals = Seq::new(alloc);
        goals.push(first_goal(alloc, statement)?)?;
        Ok(Proof {
            goal,
            steps: Seq::new(alloc),
            goals,
        })
    }

    /// The number of the statement.
    pub fn goal(&self) -> u32
        ensures { result ≡ (proof_tree self.now).goal }
    {
        self.goal
    }

    /// The steps so far.
    pub fn steps(&self) -> &Seq<Step>
        ensures { result.now ≡ self.now.steps }
    {
        &self.steps
    }

    /// The goals that are open, the one that the next step acts on first.
    pub fn goals(&self) -> &Seq<OpenGoal>
        ensures goals { result.now ≡ self.now.goals }
        ensures named { list_all is_named (map goal_tree result.now) ≡ true }
    {
        &self.goals
    }

    /// Takes steps on the first open goal alone. What they leave takes its place: the i-th sequent
    /// with the i-th names, and with that goal's schema variables.
    pub fn extend(
        &mut self,
        steps: &[Step],
        names: &[GoalNames],
        env: &Env,
        goal: u32,
    ) -> Result<(), ExtendFault>
        requires some_open { 0 < length self.old.goals }
        requires goal { goal ≡ self.old.goal }
        ensures exact { Gives ExtendFault.NoMemory (λ _. proof_tree self.new) result
            (extended (env_tree env.now) (proof_tree self.old) steps.now names.now) }
        ensures unchanged { OnErr result (self.new ≡ self.old) }
        ensures stands { OnOk result ((first : SequentTree) →
            Stands (proof_tree self.old) first (env_tree env.now)
            → Stands (proof_tree self.new) first (env_tree env.now)) }
    {
        self.add(steps, names, env, goal)
    }

    // Apart from `extend`, so that what follows from the exact answer is shown once.
    fn add(
        &mut self,
        steps: &[Step],
        names: &[GoalNames],
        env: &Env,
        goal: u32,
    ) -> Result<(), ExtendFault>
        requires some_open { 0 < length self.old.goals }
        requires goal { goal ≡ self.old.goal }
        ensures exact { Gives ExtendFault.NoMemory (λ _. proof_tree self.new) result
            (extended (env_tree env.now) (proof_tree self.old) steps.now names.now) }
        ensures unchanged { OnErr result (self.new ≡ self.old) }
    {
        let alloc = self.steps.allocator();
        let goals = self.left_by(steps, names, env, goal)?;
        let steps = copy_steps(alloc, steps)?;
        self.grow(steps, goals)?;
        Ok(())
    }

    /// The goals that `extend` would put in the place of the first open one.
    pub fn left_by(
        &self,
        steps: &[Step],
        names: &[GoalNames],
        env: &Env,
        goal: u32,
    ) -> Result<Seq<OpenGoal>, ExtendFault>
        requires some_open { 0 < length self.now.goals }
        requires goal { goal ≡ self.now.goal }
        ensures { Gives ExtendFault.NoMemory goal_trees result
            (left_of (env_tree env.now) goal steps.now names.now (goal_trees self.now.goals)) }
    {
        let alloc = self.steps.allocator();
        let first = &self.goals.as_slice()[0];
        let left = leave(alloc, &first.sequent, steps, env, goal)?;
        name_each(alloc, left, names, &first.schemas)
    }

    /// Adds steps, and puts the goals that they leave of the first open one in its place. A proof
    /// goes on standing where `left_by` answers these goals for these steps.
    pub fn grow(&mut self, steps: Seq<Step>, goals: Seq<OpenGoal>) -> Result<(), NoMemory>
        requires some_open { 0 < length self.old.goals }
        requires named { list_all is_named (goal_trees goals) ≡ true }
        ensures grown { OnOk result (proof_tree self.new
            ≡ grown (proof_tree self.old) steps (goal_trees goals)) }
        ensures unchanged { OnErr result (self.new ≡ self.old) }
    {
        let count = self.steps.len();
        append(&mut self.steps, steps)?;
        match replace_first(&mut self.goals, goals) {
            Ok(()) => Ok(()),
            Err(_) => {
                self.steps.truncate(count);
                Err(NoMemory)
            }
        }
    }
}
