// The rows with a written formula, and with what is known of a written term.
ghost use Rattle.std.specs.Prelude.{◌≡◌, Some, IfOk};
ghost use Rattle.sq_base.specs.Gives.{Gives};
ghost use Rattle.sq_base.specs.declared.sort.Sort.TheVariants as sort;
ghost use Rattle.sq_term.specs.Formulas.{negation};
ghost use Rattle.sq_term.specs.View.{term_tree};
ghost use Rattle.sq_system.specs.Sequents.{sequent_tree};
ghost use Rattle.sq_sequent.specs.Facts as facts;
ghost use Rattle.sq_sequent.specs.Logic as spec;
ghost use Rattle.sq_sequent.specs.Logic.{sequent_trees, judged};
ghost use Rattle.sq_sequent.specs.Places.{term_at};
ghost use Rattle.sq_sequent.specs.Premises as premise;
ghost use Rattle.sq_sequent.specs.Sites.{site_tree};
ghost use Rattle.sq_sequent.specs.Standing as standing;

use crate::propositional::{asking_copy, assuming_copy};
use sq_base::{NoMemory, Seq, Sort};
use sq_sequent::{
    RuleFault, Sequent, Site, TermArg, assuming, copy_sequent, fact_in, one_premise, two_premises,
};
use sq_term::{Term, copy, formulas};
use std::alloc::Global;

fn cut_on(alloc: Global, s: &Sequent, formula: &Term) -> Result<Seq<Sequent>, RuleFault>
    ensures { Gives RuleFault.NoMemory sequent_trees result
        (judged (spec.cut_row (sequent_tree s.now) (Some (term_tree formula.now)))) }
{
    let asked = asking_copy(alloc, s, formula)?;
    let assumed = assuming_copy(alloc, s, formula)?;
    two_premises(alloc, asked, assumed)
}

/// A formula is to be shown, and then a hypothesis.
pub fn cut(alloc: Global, at: &Site, formula: &TermArg) -> Result<Seq<Sequent>, RuleFault>
    ensures { let here = site_tree at.now in
        Gives RuleFault.NoMemory sequent_trees result
        (judged (spec.cut_row here.sequent (standing.term_in here sort.Boolean formula.now))) }
{
    match at.term_in(Sort::Boolean, formula) {
        Some(formula) => cut_on(alloc, at.sequent, formula),
        None => Err(RuleFault::Shape),
    }
}

// The sequent with the formula denied.
fn denying(alloc: Global, s: &Sequent, formula: &Term) -> Result<Sequent, NoMemory>
    ensures { IfOk result (λ p. sequent_tree p
        ≡ premise.assuming (sequent_tree s.now) (negation (term_tree formula.now))) }
{
    let denied = formulas::negation(alloc, copy(alloc, formula)?)?;
    assuming(copy_sequent(alloc, s)?, denied)
}

fn cases_of(alloc: Global, s: &Sequent, formula: &Term) -> Result<Seq<Sequent>, RuleFault>
    ensures { Gives RuleFault.NoMemory sequent_trees result
        (judged (spec.em_row (sequent_tree s.now) (Some (term_tree formula.now)))) }
{
    let holds = assuming_copy(alloc, s, formula)?;
    let fails = denying(alloc, s, formula)?;
    two_premises(alloc, holds, fails)
}

/// A formula is a hypothesis, and then its negation.
pub fn em(alloc: Global, at: &Site, formula: &TermArg) -> Result<Seq<Sequent>, RuleFault>
    ensures { let here = site_tree at.now in
        Gives RuleFault.NoMemory sequent_trees result
        (judged (spec.em_row here.sequent (standing.term_in here sort.Boolean formula.now))) }
{
    match at.term_in(Sort::Boolean, formula) {
        Some(formula) => cases_of(alloc, at.sequent, formula),
        None => Err(RuleFault::Shape),
    }
}

fn with_fact(alloc: Global, at: &Site, t: &TermArg) -> Result<Seq<Sequent>, RuleFault>
    ensures { let here = site_tree at.now in
        Gives RuleFault.NoMemory sequent_trees result
        (judged (facts.assumed_fact here.sequent
        (facts.standing_fact here (term_at here.sequent t.now)))) }
{
    match fact_in(alloc, at, t) {
        Ok(Some(fact)) => one_premise(alloc, assuming(copy_sequent(alloc, at.sequent)?, fact)?),
        Ok(None) => Err(RuleFault::Shape),
        Err(fault) => Err(fault),
    }
}

/// What is known of a term becomes a hypothesis of a local sequent.
pub fn fact(alloc: Global, at: &Site, t: &TermArg) -> Result<Seq<Sequent>, RuleFault>
    ensures { Gives RuleFault.NoMemory sequent_trees result
        (judged (facts.fact_row (site_tree at.now) t.now)) }
{
    match at.sequent {
        Sequent::Local { .. } => with_fact(alloc, at, t),
        Sequent::Trace { .. } | Sequent::Equiv { .. } => Err(RuleFault::Shape),
    }
}
