// The row that uses an earlier axiom or lemma.
ghost use Rattle.std.specs.Prelude.{Some, map, length};
ghost use Rattle.sq_base.specs.Gives.{Gives};
ghost use Rattle.sq_term.specs.View.{term_tree};
ghost use Rattle.sq_system.specs.Sequents.{sequent_tree};
ghost use Rattle.sq_sequent.specs.Logic.{sequent_trees, judged};
ghost use Rattle.sq_sequent.specs.Sites.{site_tree};
ghost use Rattle.sq_sequent.specs.Uses as spec;

use sq_base::Seq;
use sq_sequent::{
    RuleFault, Sequent, Site, TermArg, assuming, copy_sequent, instance_on, messages_in, offered,
    one_premise,
};
use sq_term::{Side, Term};
use std::alloc::Global;

#[tactic(auto, using(sq_sequent::proofs::Held::held_rules))]
fn assuming_instance(
    alloc: Global,
    s: &Sequent,
    side: Side,
    formula: &Term,
    messages: &[Term],
) -> Result<Seq<Sequent>, RuleFault>
    ensures { Gives RuleFault.NoMemory sequent_trees result
        (judged (spec.used_with (sequent_tree s.now) side (Some (term_tree formula.now))
        (Some (map term_tree messages.now)))) }
{
    let said = instance_on(alloc, side, formula, messages)?;
    one_premise(alloc, assuming(copy_sequent(alloc, s)?, said)?)
}

fn use_on_side(
    alloc: Global,
    at: &Site,
    side: Side,
    k: u32,
    args: &[TermArg],
) -> Result<Seq<Sequent>, RuleFault>
    ensures { let here = site_tree at.now in
        Gives RuleFault.NoMemory sequent_trees result
        (judged (spec.used_with here.sequent side (spec.offered here k (length args.now))
        (spec.messages_in here args.now))) }
{
    match offered(at, k, args.len()) {
        Some(formula) => match messages_in(alloc, at, args)? {
            Some(messages) => assuming_instance(
                alloc,
                at.sequent,
                side,
                formula,
                messages.as_slice(),
            ),
            None => Err(RuleFault::Shape),
        },
        None => Err(RuleFault::Shape),
    }
}

/// What statement k says of these messages, on the sequent's side, becomes a hypothesis.
#[tactic(auto, unfolding(sq_sequent::specs::Uses::use_row))]
pub fn use_statement(
    alloc: Global,
    at: &Site,
    k: u32,
    args: &[TermArg],
) -> Result<Seq<Sequent>, RuleFault>
    ensures { Gives RuleFault.NoMemory sequent_trees result
        (judged (spec.use_row (site_tree at.now) k args.now)) }
{
    match at.sequent {
        Sequent::Local { side, .. } => use_on_side(alloc, at, *side, k, args),
        Sequent::Trace { .. } | Sequent::Equiv { .. } => Err(RuleFault::Shape),
    }
}
