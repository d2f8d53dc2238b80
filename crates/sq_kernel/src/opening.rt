// The open goal with which the proof of a statement begins.
ghost use Rattle.std.specs.Prelude.{◌≡◌, IfOk, length};
ghost use Rattle.sq_system.specs.Statements.{stmt_tree};
ghost use Rattle.sq_kernel.specs.Goals.{goal_tree};
ghost use Rattle.sq_kernel.specs.Labels as spec;
ghost use Rattle.sq_kernel.specs.Openings.{opening};

use crate::copying::copy_texts;
use sq_base::{NoMemory, Seq, Text};
use sq_sequent::{OpenGoal, Stmt, copy_sequent, hyps_of};
use std::alloc::Global;

/// The statement's starting sequent with the statement's names. Its hypotheses are H0, H1 and so
/// on.
pub fn first_goal(alloc: Global, statement: &Stmt) -> Result<OpenGoal, NoMemory>
    ensures { IfOk result (λ g. goal_tree g ≡ opening (stmt_tree statement.now)) }
{
    let (schemas, vars) = names(alloc, statement)?;
    let labels = hypothesis_labels(alloc, hyps_of(&statement.start).len())?;
    let sequent = copy_sequent(alloc, &statement.start)?;
    Ok(OpenGoal {
        sequent,
        schemas,
        vars,
        labels,
        known: Seq::new(alloc),
    })
}

fn names(alloc: Global, statement: &Stmt) -> Result<(Seq<Text>, Seq<Text>), NoMemory>
    ensures { IfOk result (λ c. c ≡ (statement.now.schemas, statement.now.vars)) }
{
    let schemas = copy_texts(alloc, statement.schemas.as_slice())?;
    let vars = copy_texts(alloc, statement.vars.as_slice())?;
    Ok((schemas, vars))
}

// H0, H1, H2 and so on, so many.
fn hypothesis_labels(alloc: Global, count: usize) -> Result<Seq<Text>, NoMemory>
    ensures { IfOk result (λ labels. labels ≡ spec.hypothesis_labels count) }
{
    let mut labels = Seq::new(alloc);
    for number in 0..count {
        labels.push(hypothesis_label(alloc, number)?)?;
    }
    Ok(labels)
}

fn hypothesis_label(alloc: Global, number: usize) -> Result<Text, NoMemory>
    ensures { IfOk result (λ label. label ≡ spec.hypothesis_label number) }
{
    Ok(Text::from_string(format!(in alloc; "H{number}")?))
}
