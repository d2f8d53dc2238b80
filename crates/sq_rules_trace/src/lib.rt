//! The rows of time of the calculus: a step's premises, exactly, and that they suffice: what holds of
//! timestamps in every trace, what macros are, and induction over time.
#![tactic(auto)]

ghost use Rattle.std.specs.Prelude.{IfOk};
ghost use Rattle.sq_base.specs.Gives.{Gives};
ghost use Rattle.sq_term.specs.Lists.{Each};
ghost use Rattle.sq_sequent.specs.Laws.{IsWellFormed};
ghost use Rattle.sq_sequent.specs.Logic.{sequent_trees};
ghost use Rattle.sq_sequent.specs.Sites.{site_tree};
ghost use Rattle.sq_rules_logic.specs.Soundness.{PremisesSuffice};
ghost use Rattle.sq_rules_trace.specs.Answers.{TimeAnswers};
ghost use Rattle.sq_rules_trace.specs.Time.{time_premises};

mod actions;
mod facts;
mod induction;
mod instance;
mod laws;
mod lists;
mod macros;
mod ordering;
mod rows;
mod times;

pub use laws::{
    computed_premises_are_those_of_the_row, time_facts_are_true, time_facts_may_stand,
    time_rows_are_sound, time_rows_keep_well_formed,
};
use rows::row;
use sq_base::Seq;
use sq_sequent::{RuleFault, Sequent, Site, Step};
use std::alloc::Global;

/// The premises that this step leaves of the sequent, in their order.
///
/// Shape comes where the row does not apply or the step is of another family, TooLarge where a
/// premise would pass the limits of a sequent.
pub fn premises(alloc: Global, at: &Site, step: &Step) -> Result<Seq<Sequent>, RuleFault>
    ensures exact { Gives RuleFault.NoMemory sequent_trees result
        (time_premises (site_tree at.now) step.now) }
    ensures rows { TimeAnswers (site_tree at.now) step.now result }
    ensures well_formed { IfOk result (λ ps. let here = site_tree at.now in
        IsWellFormed here here.sequent → Each (IsWellFormed here) (sequent_trees ps)) }
    ensures sound { IfOk result (λ ps. PremisesSuffice (site_tree at.now) (sequent_trees ps)) }
{
    at.env.facts();
    row(alloc, at, step)
}
