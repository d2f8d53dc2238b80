// The premises of a step, by its row.
ghost use Rattle.std.specs.Prelude.{◌≡◌, Err, IfOk, OnErr, option_map};
ghost use Rattle.sq_base.specs.Gives.{Gives};
ghost use Rattle.sq_term.specs.View.{term_tree};
ghost use Rattle.sq_system.specs.Sequents.{sequent_tree};
ghost use Rattle.sq_sequent.specs.Facts.{assumed_fact};
ghost use Rattle.sq_sequent.specs.Logic.{judged, sequent_trees};
ghost use Rattle.sq_sequent.specs.Sites.{site_tree};
ghost use Rattle.sq_rules_trace.specs.Time as spec;

use crate::induction::tind;
use crate::{facts, macros};
use sq_base::{NoMemory, Seq};
use sq_sequent::{RuleFault, Sequent, Site, Step, assuming, copy_sequent, one_premise};
use sq_term::Term;
use std::alloc::Global;

// The fact becomes a hypothesis, where there is one.
fn with_fact(
    alloc: Global,
    s: &Sequent,
    fact: Result<Option<Term>, NoMemory>,
) -> Result<Seq<Sequent>, RuleFault>
    ensures exact { IfOk fact (λ f. Gives RuleFault.NoMemory sequent_trees result
        (judged (assumed_fact (sequent_tree s.now) (option_map term_tree f)))) }
    ensures memory { OnErr fact (result ≡ Err RuleFault.NoMemory) }
{
    match fact {
        Ok(Some(fact)) => one_premise(alloc, assuming(copy_sequent(alloc, s)?, fact)?),
        Ok(None) => Err(RuleFault::Shape),
        Err(_) => Err(RuleFault::NoMemory),
    }
}

/// The premises that this step leaves of the sequent, in their order.
#[tactic(auto, unfolding(crate::specs::Time::time_fact, crate::specs::Time::time_row, crate::specs::Time::time_premises))]
pub fn row(alloc: Global, at: &Site, step: &Step) -> Result<Seq<Sequent>, RuleFault>
    ensures { Gives RuleFault.NoMemory sequent_trees result
        (spec.time_premises (site_tree at.now) step.now) }
{
    let s = at.sequent;
    match step {
        Step::O1(x) => with_fact(alloc, s, facts::o1(alloc, at, x)),
        Step::O2(x, y, z) => with_fact(alloc, s, facts::o2(alloc, at, x, y, z)),
        Step::O3(x, y) => with_fact(alloc, s, facts::o3(alloc, at, x, y)),
        Step::O4(x, y) => with_fact(alloc, s, facts::o4(alloc, at, x, y)),
        Step::O5(x, y) => with_fact(alloc, s, facts::o5(alloc, at, x, y)),
        Step::O6(x) => with_fact(alloc, s, facts::o6(alloc, at, x)),
        Step::O7(x) => with_fact(alloc, s, facts::o7(alloc, at, x)),
        Step::O8(x, y) => with_fact(alloc, s, facts::o8(alloc, at, x, y)),
        Step::O9(x) => with_fact(alloc, s, facts::o9(alloc, at, x)),
        Step::O10(x, y) => with_fact(alloc, s, facts::o10(alloc, at, x, y)),
        Step::O11(x) => with_fact(alloc, s, facts::o11(alloc, at, x)),
        Step::O12(x, y, k) => with_fact(alloc, s, facts::o12(alloc, at, x, y, *k)),
        Step::Tind(v) => tind(alloc, at, *v),
        Step::X(m, x) => macros::x(alloc, at, *m, x),
        Step::Xu(m, x) => macros::xu(alloc, at, *m, x),
        _ => Err(RuleFault::Shape),
    }
}
