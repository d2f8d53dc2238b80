// How deep a process is.
ghost use Rattle.std.specs.Prelude.{◌≤◌, ◌<◌, ◌+◌, ◌↔◌, max, IsTrue};
ghost use Rattle.sq_ast.specs.View.{formula_tree};
ghost use Rattle.sq_ast.specs.Deep.{height};
ghost use Rattle.sq_ast.specs.ProcTree.{process_tree, process_trees};
ghost use Rattle.sq_ast.specs.ProcGrammar.{process_height, process_heights};

use sq_ast::{Formula, Proc};
use sq_parse_term::fits;

/// Whether at most this many nodes of the process stand one inside the other.
#[cycle(fits)]
#[tactic(auto, using(crate::proofs::Heights::positive))]
pub fn process_fits(process: &Proc, room: usize) -> bool
    ensures { IsTrue result ↔ (process_height (process_tree process.now) ≤ room) }
{
    if room == 0 {
        return false;
    }
    match process {
        Proc::Null => true,
        Proc::In(_, _, None) => true,
        Proc::Call(_, None) => true,
        Proc::Call(_, Some(_)) => true,
        Proc::Out(_, message, None) => fits(message, room - 1),
        Proc::New(_, body) => process_fits(body.get(), room - 1),
        Proc::In(_, _, Some(next)) => process_fits(next.get(), room - 1),
        Proc::Replicate(_, body) => process_fits(body.get(), room - 1),
        Proc::Label(_, body) => process_fits(body.get(), room - 1),
        Proc::Out(_, message, Some(next)) => both_fit(message, next.get(), room - 1),
        Proc::If(test, yes, None) => both_fit(test, yes.get(), room - 1),
        Proc::If(test, yes, Some(no)) => branches_fit(test, yes.get(), no.get(), room - 1),
        Proc::Find(_, test, yes, None) => both_fit(test, yes.get(), room - 1),
        Proc::Find(_, test, yes, Some(no)) => branches_fit(test, yes.get(), no.get(), room - 1),
        Proc::Let(_, value, body) => both_fit(value, body.get(), room - 1),
        Proc::Parallel(parts) => all_fit(parts.as_slice(), room - 1),
    }
}

#[cycle(fits)]
fn both_fit(formula: &Formula, process: &Proc, room: usize) -> bool
    ensures { IsTrue result ↔ (max (height (formula_tree formula.now))
        (process_height (process_tree process.now)) ≤ room) }
{
    fits(formula, room) && process_fits(process, room)
}

#[cycle(fits)]
fn branches_fit(test: &Formula, yes: &Proc, no: &Proc, room: usize) -> bool
    ensures { IsTrue result ↔ (max (height (formula_tree test.now))
        (max (process_height (process_tree yes.now))
        (process_height (process_tree no.now))) ≤ room) }
{
    fits(test, room) && process_fits(yes, room) && process_fits(no, room)
}

#[cycle(fits)]
fn all_fit(processes: &[Proc], room: usize) -> bool
    ensures { IsTrue result ↔ (process_heights (process_trees processes.now) ≤ room) }
{
    for process in processes {
        if !process_fits(process, room) {
            return false;
        }
    }
    true
}
