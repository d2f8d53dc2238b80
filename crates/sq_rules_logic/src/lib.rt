//! The logic rows of the calculus: a step's premises, exactly, and that they suffice.
#![tactic(auto)]

ghost use Rattle.std.specs.Prelude.{IfOk};
ghost use Rattle.sq_base.specs.Gives.{Gives};
ghost use Rattle.sq_term.specs.Lists.{Each};
ghost use Rattle.sq_sequent.specs.Laws.{IsWellFormed};
ghost use Rattle.sq_sequent.specs.Logic.{sequent_trees, logic_premises};
ghost use Rattle.sq_sequent.specs.Sites.{site_tree};
ghost use Rattle.sq_rules_logic.specs.Answers.{Answers};
ghost use Rattle.sq_rules_logic.specs.Soundness.{PremisesSuffice};

mod equations;
mod propositional;
mod quantifiers;
mod rewriting;
mod sides;
mod uses;
mod written;

use sq_base::Seq;
use sq_sequent::{RuleFault, Sequent, Site, Step};
use std::alloc::Global;

/// The premises that this step leaves of the sequent, in their order.
///
/// Shape comes where the row does not apply or the step is of another family, TooLarge where a
/// premise would pass the limits of a sequent.
pub fn premises(alloc: Global, at: &Site, step: &Step) -> Result<Seq<Sequent>, RuleFault>
    ensures exact { Gives RuleFault.NoMemory sequent_trees result
        (logic_premises (site_tree at.now) step.now) }
    ensures rows { Answers (site_tree at.now) step.now result }
    ensures well_formed { IfOk result (λ ps. let here = site_tree at.now in
        IsWellFormed here here.sequent → Each (IsWellFormed here) (sequent_trees ps)) }
    ensures sound { IfOk result (λ ps. PremisesSuffice (site_tree at.now) (sequent_trees ps)) }
{
    row(alloc, at, step)
}

// Apart from `premises`, so that what follows from the exact answer is shown once and not in each
// arm.
#[tactic(auto, unfolding(sq_sequent::specs::Logic::logic_row, sq_sequent::specs::Logic::logic_premises))]
fn row(alloc: Global, at: &Site, step: &Step) -> Result<Seq<Sequent>, RuleFault>
    ensures { Gives RuleFault.NoMemory sequent_trees result
        (logic_premises (site_tree at.now) step.now) }
{
    let s = at.sequent;
    match step {
        Step::Hyp(h) => propositional::hyp(alloc, s, *h),
        Step::True => propositional::truth(alloc, s),
        Step::Absurd(h) => propositional::absurd(alloc, s, *h),
        Step::Impi => propositional::impi(alloc, s),
        Step::Noti => propositional::noti(alloc, s),
        Step::Alli => quantifiers::alli(alloc, s),
        Step::Andi => propositional::andi(alloc, s),
        Step::Orl => propositional::orl(alloc, s),
        Step::Orr => propositional::orr(alloc, s),
        Step::Exi(witness) => quantifiers::exi(alloc, at, witness),
        Step::Ande(h) => propositional::ande(alloc, s, *h),
        Step::Ore(h) => propositional::ore(alloc, s, *h),
        Step::Impe(h) => propositional::impe(alloc, s, *h),
        Step::Note(h) => propositional::note(alloc, s, *h),
        Step::Alle(h, witness) => quantifiers::alle(alloc, at, *h, witness),
        Step::Exe(h) => quantifiers::exe(alloc, s, *h),
        Step::Cut(formula) => written::cut(alloc, at, formula),
        Step::Em(formula) => written::em(alloc, at, formula),
        Step::Drop(h) => propositional::drop_hyp(alloc, s, *h),
        Step::UseStmt(k, args) => uses::use_statement(alloc, at, *k, args.as_slice()),
        Step::Proj => sides::proj(alloc, s),
        Step::Trace => equations::trace(alloc, s),
        Step::Refl => equations::refl(alloc, s),
        Step::Sym => equations::sym(alloc, s),
        Step::Trans(between) => equations::trans(alloc, at, between),
        Step::Arg => equations::arg(alloc, s),
        Step::Rew(h, dir, target) => rewriting::rew(alloc, s, *h, *dir, *target),
        Step::Fact(t) => written::fact(alloc, at, t),
        _ => Err(RuleFault::Shape),
    }
}
