// The texts of one term and of open goals.
ghost use Rattle.std.specs.Prelude.{◌≡◌, ◌++◌, [], length, IfOk, OnOk};
ghost use Rattle.sq_term.specs.View.{term_tree};
ghost use Rattle.sq_system.specs.Sequents.{sequent_tree};
ghost use Rattle.sq_print.specs.Printed.{term_text};
ghost use Rattle.sq_print.specs.GoalTexts as spec;
ghost use Rattle.sq_print.specs.WrittenGoals as lines;
ghost use Rattle.sq_print.specs.WrittenGoals.{StandsAlone};
ghost use Rattle.sq_print.specs.Scopes.{names_of};
ghost use Rattle.sq_print.specs.Spellings.{Tells};

use crate::binders::{Binders, number_text};
use crate::lines::{
    kind_text, write_hypotheses, write_items, write_known, write_variables, write_whole,
};
use crate::scope::Scope;
use crate::spelling::Spellings;
use crate::taken::names_taken;
use sq_base::{NoMemory, Seq, Text};
use sq_sym::Table;
use sq_system::{OpenGoal, Sequent};
use sq_term::Term;
use std::alloc::Global;

/// The text of a term, with the names of its schema variables and variables. The actions are those
/// of the system of this number.
///
/// A symbol that the table does not have, a variable past the names, and a bound variable without
/// its binder have no text.
pub fn print_term(
    alloc: Global,
    t: &Term,
    schemas: &Seq<Text>,
    vars: &Seq<Text>,
    system: u32,
    table: &Table,
) -> Result<Text, NoMemory>
    ensures { IfOk result
        (λ text. text
        ≡ term_text
        (record { schemas = schemas.now; vars = vars.now; system = system; table = table.now }) []
        (term_tree t.now)) }
{
    let spellings = Spellings::of(alloc, table, system)?;
    let taken = names_taken(alloc, vars, schemas)?;
    let scope = Scope {
        schemas,
        vars,
        system,
        table,
        spellings: &spellings,
        taken: &taken,
    };
    let mut out = Text::new(alloc);
    let mut binders = Binders::new(alloc);
    write_whole(&mut out, &scope, &mut binders, t)?;
    Ok(out)
}

/// The blocks of open goals, or a line that there is none.
pub fn print_goals(
    alloc: Global,
    goals: &Seq<OpenGoal>,
    system: u32,
    table: &Table,
) -> Result<Text, NoMemory>
    ensures { IfOk result (λ text. text ≡ spec.goals_text system table.now goals.now) }
{
    if goals.is_empty() {
        return Text::from_str(alloc, "no open goal\n");
    }
    let mut out = Text::new(alloc);
    let spellings = Spellings::of(alloc, table, system)?;
    write_goals(alloc, &mut out, &spellings, system, table, goals.as_slice())?;
    Ok(out)
}

fn write_goals(
    alloc: Global,
    out: &mut Text,
    spellings: &Spellings,
    system: u32,
    table: &Table,
    goals: &[OpenGoal],
) -> Result<(), NoMemory>
    requires { Tells table.now system spellings.now }
    ensures { OnOk result
        (out.new ≡ lines.wrote_goals system table.now 0 (length goals.now) out.old goals.now) }
{
    for (k, goal) in goals.iter().enumerate() {
        let taken = names_taken(alloc, &goal.vars, &goal.schemas)?;
        let scope = Scope {
            schemas: &goal.schemas,
            vars: &goal.vars,
            system,
            table,
            spellings,
            taken: &taken,
        };
        write_goal(alloc, out, &scope, goal, k + 1, goals.len())?;
    }
    Ok(())
}

fn write_goal(
    alloc: Global,
    out: &mut Text,
    scope: &Scope,
    goal: &OpenGoal,
    k: usize,
    count: usize,
) -> Result<(), NoMemory>
    requires { names_of scope.now ≡ spec.goal_names scope.now.system scope.now.table.now goal.now }
    ensures { OnOk result
        (out.new ≡ lines.wrote_goal scope.now.system scope.now.table.now k count goal.now out.old) }
{
    let number = number_text(alloc, k)?;
    let total = number_text(alloc, count)?;
    out.push_str("goal ")?;
    out.push_str(number.as_str())?;
    out.push_str(" of ")?;
    out.push_str(total.as_str())?;
    out.push_str(" (")?;
    out.push_str(kind_text(&goal.sequent))?;
    out.push_str(")\n")?;
    write_sequent(alloc, out, scope, goal)?;
    Ok(())
}

fn write_sequent(
    alloc: Global,
    out: &mut Text,
    scope: &Scope,
    goal: &OpenGoal,
) -> Result<(), NoMemory>
    ensures { OnOk result
        (out.new ≡ lines.wrote_sequent (names_of scope.now) goal.now.labels goal.now.known out.old
        (sequent_tree goal.now.sequent)) }
{
    let mut binders = Binders::new(alloc);
    match &goal.sequent {
        Sequent::Trace {
            vars,
            hyps,
            goal: shown,
        } => {
            write_variables(out, scope.vars, vars)?;
            write_hypotheses(out, scope, &mut binders, &goal.labels, hyps.as_slice())?;
            write_shown(out, scope, &mut binders, shown)?;
            Ok(())
        }
        Sequent::Local {
            side: _,
            vars,
            hyps,
            goal: shown,
        } => {
            write_variables(out, scope.vars, vars)?;
            write_hypotheses(out, scope, &mut binders, &goal.labels, hyps.as_slice())?;
            write_shown(out, scope, &mut binders, shown)?;
            Ok(())
        }
        Sequent::Equiv {
            vars,
            hyps,
            known,
            items,
        } => {
            write_variables(out, scope.vars, vars)?;
            write_hypotheses(out, scope, &mut binders, &goal.labels, hyps.as_slice())?;
            write_known(out, scope, &mut binders, &goal.known, known.as_slice())?;
            out.push_str("----\n")?;
            write_items(alloc, out, scope, &mut binders, items.as_slice())?;
            Ok(())
        }
    }
}

/// Writes the line below the hypotheses, and the formula that is to be shown.
fn write_shown(
    out: &mut Text,
    scope: &Scope,
    binders: &mut Binders,
    shown: &Term,
) -> Result<(), NoMemory>
    requires { StandsAlone (names_of scope.now) binders.old }
    ensures { OnOk result
        (out.new ≡ lines.wrote_shown (names_of scope.now) (term_tree shown.now) out.old) }
{
    out.push_str("----\n")?;
    write_whole(out, scope, binders, shown)?;
    out.push_str("\n")?;
    Ok(())
}
