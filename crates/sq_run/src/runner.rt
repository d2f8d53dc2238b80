// Runs the proofs of a file.
ghost use Rattle.std.specs.Prelude.{◌≡◌, ◌<◌, IfOk, length, map, true};
ghost use Rattle.sq_system.specs.Environments.{env_tree};
ghost use Rattle.sq_system.specs.Statements.{stmt_tree};
ghost use Rattle.sq_system.specs.WellFormed.{is_environment};
ghost use Rattle.sq_run.specs.Running as spec;
ghost use Rattle.sq_run.specs.Scripts as scripts;

use crate::formula::{Chain, term_of};
use crate::goal::{Goal, Refusal, after_command};
use crate::number::number_of;
use crate::script::{Lemma, Place, Script};
use sq_base::{NoMemory, Seq};
use sq_sequent::{Env, Sequent, Stmt, StmtKind, copy_sequent};
use sq_system::System;
use sq_term::Side;
use std::alloc::Global;

/// Why a file is refused.
#[derive(Clone, Copy, Debug, PartialEq, Eq)]
pub enum Trouble {
    /// A form that a later stage of the program builds. It has no place.
    NotBuilt,
    /// The command at this place has no row, or no goal is open.
    Shape(Place),
    /// So many goals are open at this `Qed`.
    OpenGoals(usize, Place),
}

/// The first trouble of the proofs. Where there is none, they close all goals.
#[tactic(auto, unfolding(crate::specs::Running::trouble_of))]
pub fn trouble_of(alloc: Global, script: &Script) -> Result<Option<Trouble>, NoMemory>
    requires { is_environment (scripts.environment_of script.now) ≡ true }
    ensures { IfOk result (λ trouble. trouble ≡ spec.trouble_of script.now) }
{
    let env = environment_of(alloc, script)?;
    'lemmas: for (number, lemma) in script.lemmas.as_slice().iter().enumerate() {
        if let Some(trouble) = lemma_trouble(alloc, &env, number, lemma)? {
            return Ok(Some(trouble));
        }
    }
    Ok(None)
}

// The first trouble of the proof of this statement.
fn lemma_trouble(
    alloc: Global,
    env: &Env,
    number: usize,
    lemma: &Lemma,
) -> Result<Option<Trouble>, NoMemory>
    requires { number < length env.now.stmts }
    ensures { IfOk result (λ trouble. trouble
        ≡ spec.lemma_trouble (env_tree env.now) number lemma.now) }
{
    let goal = number_of(number)?;
    let start = &env.stmts.as_slice()[number].start;
    let mut goals = Seq::new(alloc);
    goals.push(Goal {
        sequent: copy_sequent(alloc, start)?,
        labels: Seq::new(alloc),
    })?;
    'tasks: for task in lemma.tasks.as_slice() {
        match after_command(alloc, env, goal, &task.command, goals) {
            Ok(next) => goals = next,
            Err(Refusal::NoMemory) => return Err(NoMemory),
            Err(Refusal::Shape) => return Ok(Some(Trouble::Shape(task.place))),
            Err(Refusal::NotBuilt) => return Ok(Some(Trouble::NotBuilt)),
        }
    }
    Ok(open_goals(goals.len(), lemma.qed))
}

fn open_goals(count: usize, qed: Place) -> Option<Trouble>
    ensures { result ≡ spec.open_goals count qed }
{
    if count == 0 {
        None
    } else {
        Some(Trouble::OpenGoals(count, qed))
    }
}

// The environment of the file's declarations.
fn environment_of(alloc: Global, script: &Script) -> Result<Env, NoMemory>
    requires { is_environment (scripts.environment_of script.now) ≡ true }
    ensures { IfOk result (λ env. env_tree env ≡ scripts.environment_of script.now) }
{
    let funs = Seq::from_slice(alloc, script.funs.as_slice())?;
    let mut systems = Seq::new(alloc);
    systems.push(System::empty(alloc))?;
    Ok(Env {
        names: Seq::new(alloc),
        funs,
        systems,
        stmts: statements_of(alloc, script.lemmas.as_slice())?,
    })
}

fn statements_of(alloc: Global, lemmas: &[Lemma]) -> Result<Seq<Stmt>, NoMemory>
    ensures { IfOk result (λ stmts. map stmt_tree stmts ≡ map scripts.statement_of lemmas.now) }
{
    let mut stmts = Seq::new(alloc);
    for lemma in lemmas {
        stmts.push(statement_of(alloc, &lemma.formula)?)?;
    }
    Ok(stmts)
}

fn statement_of(alloc: Global, formula: &Chain) -> Result<Stmt, NoMemory>
    ensures { IfOk result (λ stmt. stmt_tree stmt ≡ scripts.statement_about formula.now) }
{
    Ok(Stmt {
        kind: StmtKind::Lemma,
        system: 0,
        schemas: Seq::new(alloc),
        vars: Seq::new(alloc),
        start: Sequent::Local {
            side: Side::Both,
            vars: Seq::new(alloc),
            hyps: Seq::new(alloc),
            goal: term_of(alloc, formula)?,
        },
    })
}
