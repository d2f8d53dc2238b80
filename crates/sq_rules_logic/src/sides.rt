// The row that reads a sequent of both sides on each of them.
ghost use Rattle.std.specs.Prelude.{◌≡◌, map, MatchResult, [], ◌∷◌};
ghost use Rattle.sq_base.specs.Gives.{Gives};
ghost use Rattle.sq_term.specs.declared.term.Side.TheVariants as of;
ghost use Rattle.sq_term.specs.View.{term_tree};
ghost use Rattle.sq_subst.specs.Projection.{projected};
ghost use Rattle.sq_system.specs.Sequents.{local, sequent_tree};
ghost use Rattle.sq_system.specs.Sizes.{fits};
ghost use Rattle.sq_sequent.specs.Logic as spec;
ghost use Rattle.sq_sequent.specs.Logic.{sequent_trees, judged, within_limits};
ghost use Rattle.sq_sequent.specs.Sides as sides;
ghost use Rattle.sq_formula.specs.Refusals.{IsPastLimits};
ghost use Rattle.sq_rules_logic.specs.SideLimits.{side_fits, sides_fit};

use sq_base::{Seq, Sort};
use sq_sequent::{MOST_NODES, RuleFault, Sequent, two_premises};
use sq_subst::project;
use sq_term::{Side, Term};
use std::alloc::Global;

// A side of the term, TooLarge where no sequent may hold it.
#[tactic(auto, using(crate::proofs::SideLimits::side_rules))]
fn side_of(alloc: Global, t: &Term, side: Side) -> Result<Term, RuleFault>
    ensures { MatchResult result
        (λ c. term_tree c ≡ projected side (term_tree t.now))
        (λ e. IsPastLimits e (side_fits side (term_tree t.now))) }
{
    Ok(project(alloc, t, side, MOST_NODES)?)
}

#[tactic(auto, using(crate::proofs::SideLimits::sides_rules))]
fn sides_of(alloc: Global, terms: &[Term], side: Side) -> Result<Seq<Term>, RuleFault>
    ensures { MatchResult result
        (λ c. map term_tree c ≡ map (projected side) (map term_tree terms.now))
        (λ e. IsPastLimits e (sides_fit side (map term_tree terms.now))) }
{
    let mut out = Seq::new(alloc);
    for term in terms {
        out.push(side_of(alloc, term, side)?)?;
    }
    Ok(out)
}

#[tactic(auto, using(crate::proofs::SideLimits::past_rules))]
fn on_side(
    alloc: Global,
    side: Side,
    vars: &Seq<Sort>,
    hyps: &[Term],
    goal: &Term,
) -> Result<Sequent, RuleFault>
    ensures { let there = sides.on_side side
        (local of.Both vars.now (map term_tree hyps.now) (term_tree goal.now)) in
        MatchResult result (λ p. sequent_tree p ≡ there) (λ e. IsPastLimits e (fits there)) }
{
    let vars = Seq::from_slice(alloc, vars.as_slice())?;
    match sides_of(alloc, hyps, side) {
        Ok(hyps) => match side_of(alloc, goal, side) {
            Ok(goal) => Ok(Sequent::Local {
                side,
                vars,
                hyps,
                goal,
            }),
            Err(fault) => Err(fault),
        },
        Err(fault) => Err(fault),
    }
}

fn each_side(
    alloc: Global,
    vars: &Seq<Sort>,
    hyps: &[Term],
    goal: &Term,
) -> Result<Seq<Sequent>, RuleFault>
    ensures { let whole = local of.Both vars.now (map term_tree hyps.now) (term_tree goal.now) in
        Gives RuleFault.NoMemory sequent_trees result
        (within_limits (sides.on_side of.Left whole ∷ sides.on_side of.Right whole ∷ [])) }
{
    match on_side(alloc, Side::Left, vars, hyps, goal) {
        Ok(left) => match on_side(alloc, Side::Right, vars, hyps, goal) {
            Ok(right) => two_premises(alloc, left, right),
            Err(fault) => Err(fault),
        },
        Err(fault) => Err(fault),
    }
}

/// Of a sequent of both sides: what it says on each.
pub fn proj(alloc: Global, s: &Sequent) -> Result<Seq<Sequent>, RuleFault>
    ensures { Gives RuleFault.NoMemory sequent_trees result
        (judged (spec.proj_row (sequent_tree s.now))) }
{
    match s {
        Sequent::Local {
            side: Side::Both,
            vars,
            hyps,
            goal,
        } => each_side(alloc, vars, hyps.as_slice(), goal),
        Sequent::Local { .. } | Sequent::Trace { .. } | Sequent::Equiv { .. } => Err(
            RuleFault::Shape,
        ),
    }
}
