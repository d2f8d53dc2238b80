// A formula of a process: its nodes are counted, it is judged and resolved.
ghost use Rattle.std.specs.Prelude.{◌≡◌, ◌≢◌, ◌+◌, ◌-◌, IsTrue, OnOk, take};
ghost use Rattle.sq_ast.specs.View.{formula_tree};
ghost use Rattle.sq_typing.specs.Functions.{is_value_sort};
ghost use Rattle.sq_resolve.specs.Heads.{context_of};
ghost use Rattle.sq_resolve.specs.Places.{first_fault, places};
ghost use Rattle.sq_elab.specs.Events.{Count};
ghost use Rattle.sq_elab.specs.Faults as spec;
ghost use Rattle.sq_elab.specs.Judging.{JudgesFormula};
ghost use Rattle.sq_elab.specs.Meanings.{Base, scope};
ghost use Rattle.sq_elab.specs.Ways.{Way};

use crate::fault::ElabFault;
use sq_ast::Formula;
use sq_base::Sort;
use sq_resolve::{
    Around, Built, ResolveFault, Resolver, Stopped, first_fault_among, resolve_term, stop,
};

/// A formula that was judged: how many nodes of the process there are behind it, and its term.
#[derive(Debug, Drop)]
pub struct Judged {
    pub nodes: usize,
    pub built: Built,
}

/// The same refusal, of a process.
pub fn of_resolving(fault: ResolveFault) -> ElabFault
    ensures { result ≡ spec.of_resolving fault }
{
    match fault {
        ResolveFault::Unknown(name) => ElabFault::Unknown(name),
        ResolveFault::Arity(name, takes, has) => ElabFault::Arity(name, takes, has),
        ResolveFault::SortClash(want, own) => ElabFault::SortClash(want, own),
        ResolveFault::MessageQuantifier => ElabFault::MessageQuantifier,
        ResolveFault::TooLarge => ElabFault::TooLarge,
        ResolveFault::NoMemory => ElabFault::NoMemory,
    }
}

/// The term of a formula of a process, where the scope is that of its way, and the count of nodes
/// behind it. So many nodes stand before it, and its root has this depth. A term past the limits is
/// no refusal here, since it may be used nowhere.
pub fn judge_formula(
    r: &Resolver<'_>,
    around: &mut Around,
    want: Sort,
    f: &Formula,
    before: usize,
    depth: usize,
) -> Result<Judged, ElabFault>
    requires { IsTrue (is_value_sort want) }
    ensures judged { (b : Base) (w : Way) (k : Count) → context_of r.now ≡ scope b w
        → k.nodes ≡ before
        → JudgesFormula b w k around.old want depth (formula_tree f.now) result }
    ensures kept { OnOk result (around.new ≡ around.old) }
{
    match stop(f, before, depth) {
        Ok(nodes) => match resolve_term(r, around, want, f) {
            Ok(built) => Ok(Judged { nodes, built }),
            Err(fault) => Err(of_resolving(fault)),
        },
        Err(stopped) => Err(first_refusal(r, around, want, f, before, stopped)),
    }
}

// The refusal of a formula whose walk stops at a node.
fn first_refusal(
    r: &Resolver<'_>,
    around: &mut Around,
    want: Sort,
    f: &Formula,
    before: usize,
    stopped: Stopped,
) -> ElabFault
    ensures { result ≢ ElabFault.NoMemory → result ≡ spec.or_stop (first_fault (context_of r.now)
        (take (spec.stop_place stopped - before + 1)
        (places (context_of r.now) around.old want (formula_tree f.now)))) stopped }
{
    let at = match stopped {
        Stopped::Time(at) | Stopped::Limit(at) => at,
    };
    let Some(count) = at.saturating_sub(before).checked_add(1) else {
        return ElabFault::NoMemory;
    };
    match (first_fault_among(r, around, want, f, count), stopped) {
        (Some(fault), _) => of_resolving(fault),
        (None, Stopped::Time(_)) => ElabFault::ProcessShape,
        (None, Stopped::Limit(_)) => ElabFault::TooLarge,
    }
}
