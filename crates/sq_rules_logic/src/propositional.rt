// The rows of the connectives and of hypotheses.
ghost use Rattle.std.specs.Prelude.{◌≡◌, IfOk};
ghost use Rattle.sq_base.specs.Gives.{Gives};
ghost use Rattle.sq_term.specs.View.{term_tree};
ghost use Rattle.sq_system.specs.Sequents.{sequent_tree};
ghost use Rattle.sq_sequent.specs.Views as view;
ghost use Rattle.sq_sequent.specs.Logic as spec;
ghost use Rattle.sq_sequent.specs.Logic.{sequent_trees, judged};
ghost use Rattle.sq_sequent.specs.Premises as premise;

use sq_base::{NoMemory, Seq};
use sq_sequent::{
    RuleFault, Sequent, Shape, asking, assuming, copy_sequent, copy_without, goal_of, hyp_of,
    hyps_of, is_same, one_premise, shape_of, two_premises, with_hyps,
};
use sq_term::{Term, copy, formulas};
use std::alloc::Global;

/// The sequent that asks for an equal formula.
pub fn asking_copy(alloc: Global, s: &Sequent, formula: &Term) -> Result<Sequent, NoMemory>
    ensures { IfOk result (λ p. sequent_tree p
        ≡ premise.asking (sequent_tree s.now) (term_tree formula.now)) }
{
    asking(alloc, s, copy(alloc, formula)?)
}

/// The sequent with an equal formula as one more hypothesis.
pub fn assuming_copy(alloc: Global, s: &Sequent, formula: &Term) -> Result<Sequent, NoMemory>
    ensures { IfOk result (λ p. sequent_tree p
        ≡ premise.assuming (sequent_tree s.now) (term_tree formula.now)) }
{
    let formula = copy(alloc, formula)?;
    assuming(copy_sequent(alloc, s)?, formula)
}

/// No premises, where the row applies.
#[tactic(auto, unfolding(sq_sequent::specs::Logic::within_limits))]
pub fn closing(alloc: Global, applies: bool) -> Result<Seq<Sequent>, RuleFault>
    ensures { Gives RuleFault.NoMemory sequent_trees result (judged (spec.closing_row applies)) }
{
    if applies {
        Ok(Seq::new(alloc))
    } else {
        Err(RuleFault::Shape)
    }
}

/// The goal is the hypothesis.
pub fn hyp(alloc: Global, s: &Sequent, h: u32) -> Result<Seq<Sequent>, RuleFault>
    ensures { Gives RuleFault.NoMemory sequent_trees result
        (judged (spec.hyp_row (view.goal_of (sequent_tree s.now))
        (view.hyp_of (sequent_tree s.now) h))) }
{
    match goal_of(s) {
        Some(goal) => match hyp_of(s, h) {
            Some(hyp) => closing(alloc, is_same(goal, hyp)),
            None => Err(RuleFault::Shape),
        },
        None => Err(RuleFault::Shape),
    }
}

/// The goal is true.
#[tactic(auto, using(sq_sequent::proofs::RowShapes::true_rules))]
pub fn truth(alloc: Global, s: &Sequent) -> Result<Seq<Sequent>, RuleFault>
    ensures { Gives RuleFault.NoMemory sequent_trees result
        (judged (spec.true_row (view.goal_of (sequent_tree s.now)))) }
{
    match shape_of(goal_of(s)) {
        Shape::True => Ok(Seq::new(alloc)),
        _ => Err(RuleFault::Shape),
    }
}

/// The hypothesis is false.
#[tactic(auto, using(sq_sequent::proofs::RowShapes::absurd_rules))]
pub fn absurd(alloc: Global, s: &Sequent, h: u32) -> Result<Seq<Sequent>, RuleFault>
    ensures { Gives RuleFault.NoMemory sequent_trees result
        (judged (spec.absurd_row (view.hyp_of (sequent_tree s.now) h))) }
{
    match shape_of(hyp_of(s, h)) {
        Shape::False => Ok(Seq::new(alloc)),
        _ => Err(RuleFault::Shape),
    }
}

/// Of an implication: its left side becomes a hypothesis.
#[tactic(auto, using(sq_sequent::proofs::RowShapes::impi_rules))]
pub fn impi(alloc: Global, s: &Sequent) -> Result<Seq<Sequent>, RuleFault>
    ensures { Gives RuleFault.NoMemory sequent_trees result
        (judged (spec.impi_row (sequent_tree s.now) (view.goal_of (sequent_tree s.now)))) }
{
    match shape_of(goal_of(s)) {
        Shape::Implies(a, b) => {
            let left = copy(alloc, a)?;
            let asked = asking_copy(alloc, s, b)?;
            one_premise(alloc, assuming(asked, left)?)
        }
        _ => Err(RuleFault::Shape),
    }
}

/// Of a negation: what is negated becomes a hypothesis, from which false is to be shown.
#[tactic(auto, using(sq_sequent::proofs::RowShapes::noti_rules))]
pub fn noti(alloc: Global, s: &Sequent) -> Result<Seq<Sequent>, RuleFault>
    ensures { Gives RuleFault.NoMemory sequent_trees result
        (judged (spec.noti_row (sequent_tree s.now) (view.goal_of (sequent_tree s.now)))) }
{
    match shape_of(goal_of(s)) {
        Shape::Not(a) => {
            let denied = copy(alloc, a)?;
            let asked = asking(alloc, s, formulas::falsity(alloc))?;
            one_premise(alloc, assuming(asked, denied)?)
        }
        _ => Err(RuleFault::Shape),
    }
}

/// Of a conjunction: both parts are to be shown.
#[tactic(auto, using(sq_sequent::proofs::RowShapes::andi_rules))]
pub fn andi(alloc: Global, s: &Sequent) -> Result<Seq<Sequent>, RuleFault>
    ensures { Gives RuleFault.NoMemory sequent_trees result
        (judged (spec.andi_row (sequent_tree s.now) (view.goal_of (sequent_tree s.now)))) }
{
    match shape_of(goal_of(s)) {
        Shape::And(a, b) => {
            let left = asking_copy(alloc, s, a)?;
            let right = asking_copy(alloc, s, b)?;
            two_premises(alloc, left, right)
        }
        _ => Err(RuleFault::Shape),
    }
}

/// Of a disjunction: its left part is to be shown.
#[tactic(auto, using(sq_sequent::proofs::RowShapes::orl_rules))]
pub fn orl(alloc: Global, s: &Sequent) -> Result<Seq<Sequent>, RuleFault>
    ensures { Gives RuleFault.NoMemory sequent_trees result
        (judged (spec.orl_row (sequent_tree s.now) (view.goal_of (sequent_tree s.now)))) }
{
    match shape_of(goal_of(s)) {
        Shape::Or(a, _) => one_premise(alloc, asking_copy(alloc, s, a)?),
        _ => Err(RuleFault::Shape),
    }
}

/// Of a disjunction: its right part is to be shown.
#[tactic(auto, using(sq_sequent::proofs::RowShapes::orr_rules))]
pub fn orr(alloc: Global, s: &Sequent) -> Result<Seq<Sequent>, RuleFault>
    ensures { Gives RuleFault.NoMemory sequent_trees result
        (judged (spec.orr_row (sequent_tree s.now) (view.goal_of (sequent_tree s.now)))) }
{
    match shape_of(goal_of(s)) {
        Shape::Or(_, b) => one_premise(alloc, asking_copy(alloc, s, b)?),
        _ => Err(RuleFault::Shape),
    }
}

/// Both parts of a conjunction become hypotheses.
#[tactic(auto, using(sq_sequent::proofs::RowShapes::ande_rules))]
pub fn ande(alloc: Global, s: &Sequent, h: u32) -> Result<Seq<Sequent>, RuleFault>
    ensures { Gives RuleFault.NoMemory sequent_trees result
        (judged (spec.ande_row (sequent_tree s.now) (view.hyp_of (sequent_tree s.now) h))) }
{
    match shape_of(hyp_of(s, h)) {
        Shape::And(a, b) => {
            let right = copy(alloc, b)?;
            let with_left = assuming_copy(alloc, s, a)?;
            one_premise(alloc, assuming(with_left, right)?)
        }
        _ => Err(RuleFault::Shape),
    }
}

/// The two cases of a disjunction.
#[tactic(auto, using(sq_sequent::proofs::RowShapes::ore_rules))]
pub fn ore(alloc: Global, s: &Sequent, h: u32) -> Result<Seq<Sequent>, RuleFault>
    ensures { Gives RuleFault.NoMemory sequent_trees result
        (judged (spec.ore_row (sequent_tree s.now) (view.hyp_of (sequent_tree s.now) h))) }
{
    match shape_of(hyp_of(s, h)) {
        Shape::Or(a, b) => {
            let in_left_case = assuming_copy(alloc, s, a)?;
            let in_right_case = assuming_copy(alloc, s, b)?;
            two_premises(alloc, in_left_case, in_right_case)
        }
        _ => Err(RuleFault::Shape),
    }
}

/// The left side of an implication is to be shown, and its right side becomes a hypothesis.
#[tactic(auto, using(sq_sequent::proofs::RowShapes::impe_rules))]
pub fn impe(alloc: Global, s: &Sequent, h: u32) -> Result<Seq<Sequent>, RuleFault>
    ensures { Gives RuleFault.NoMemory sequent_trees result
        (judged (spec.impe_row (sequent_tree s.now) (view.hyp_of (sequent_tree s.now) h))) }
{
    match shape_of(hyp_of(s, h)) {
        Shape::Implies(a, b) => {
            let condition = asking_copy(alloc, s, a)?;
            let consequence = assuming_copy(alloc, s, b)?;
            two_premises(alloc, condition, consequence)
        }
        _ => Err(RuleFault::Shape),
    }
}

/// What a negation denies is to be shown.
#[tactic(auto, using(sq_sequent::proofs::RowShapes::note_rules))]
pub fn note(alloc: Global, s: &Sequent, h: u32) -> Result<Seq<Sequent>, RuleFault>
    ensures { Gives RuleFault.NoMemory sequent_trees result
        (judged (spec.note_row (sequent_tree s.now) (view.hyp_of (sequent_tree s.now) h))) }
{
    match shape_of(hyp_of(s, h)) {
        Shape::Not(a) => one_premise(alloc, asking_copy(alloc, s, a)?),
        _ => Err(RuleFault::Shape),
    }
}

/// One hypothesis less.
#[tactic(auto, using(sq_sequent::proofs::Without::map_rules))]
pub fn drop_hyp(alloc: Global, s: &Sequent, h: u32) -> Result<Seq<Sequent>, RuleFault>
    ensures { Gives RuleFault.NoMemory sequent_trees result
        (judged (spec.drop_row (sequent_tree s.now) h)) }
{
    let hyps = hyps_of(s);
    let at = h as usize;
    if at < hyps.len() {
        let others = copy_without(alloc, hyps, at)?;
        one_premise(alloc, with_hyps(alloc, s, others)?)
    } else {
        Err(RuleFault::Shape)
    }
}
