// The rows of equations, and the one that leaves what a sequent says of the trace.
ghost use Rattle.std.specs.Prelude.{◌≡◌, IfOk, [], ◌∷◌};
ghost use Rattle.sq_base.specs.Gives.{Gives};
ghost use Rattle.sq_base.specs.declared.sort.Sort.TheVariants as sort;
ghost use Rattle.sq_term.specs.Formulas as formula;
ghost use Rattle.sq_term.specs.View.{term_tree};
ghost use Rattle.sq_system.specs.Sequents.{sequent_tree};
ghost use Rattle.sq_sequent.specs.Logic as spec;
ghost use Rattle.sq_sequent.specs.Logic.{sequent_trees, judged};
ghost use Rattle.sq_sequent.specs.Premises as premise;
ghost use Rattle.sq_sequent.specs.Sites.{site_tree};
ghost use Rattle.sq_sequent.specs.Standing as standing;
ghost use Rattle.sq_sequent.specs.Views as view;

use crate::propositional::closing;
use sq_base::{NoMemory, Seq, Sort};
use sq_sequent::{
    RuleFault, Sequent, Shape, Site, TermArg, about_the_trace, alike_arguments, asking,
    is_reflexive, local_goal_of, one_premise, pure_or_false, shape_of, two_premises,
};
use sq_term::{Term, copy, formulas};
use std::alloc::Global;

/// The goal is an equation of one term, timestamp or index.
pub fn refl(alloc: Global, s: &Sequent) -> Result<Seq<Sequent>, RuleFault>
    ensures { Gives RuleFault.NoMemory sequent_trees result
        (judged (spec.refl_row (sequent_tree s.now))) }
{
    match s {
        Sequent::Trace { goal, .. } => closing(alloc, is_reflexive(false, goal)),
        Sequent::Local { goal, .. } => closing(alloc, is_reflexive(true, goal)),
        Sequent::Equiv { .. } => Err(RuleFault::Shape),
    }
}

// Of copies of these messages.
fn asking_equal(alloc: Global, s: &Sequent, u: &Term, v: &Term) -> Result<Sequent, NoMemory>
    ensures { IfOk result (λ p. sequent_tree p
        ≡ premise.asking (sequent_tree s.now) (formula.equal (term_tree u.now) (term_tree v.now))) }
{
    let u = copy(alloc, u)?;
    let v = copy(alloc, v)?;
    let equal = formulas::equal(alloc, u, v)?;
    asking(alloc, s, equal)
}

/// Of an equation of messages: the other way round.
#[tactic(auto, using(sq_sequent::proofs::RowShapes::sym_rules))]
pub fn sym(alloc: Global, s: &Sequent) -> Result<Seq<Sequent>, RuleFault>
    ensures { Gives RuleFault.NoMemory sequent_trees result
        (judged (spec.sym_row (sequent_tree s.now) (view.local_goal_of (sequent_tree s.now)))) }
{
    match shape_of(local_goal_of(s)) {
        Shape::Equal(u, v) => one_premise(alloc, asking_equal(alloc, s, v, u)?),
        _ => Err(RuleFault::Shape),
    }
}

fn by_way_of(
    alloc: Global,
    s: &Sequent,
    u: &Term,
    w: &Term,
    v: &Term,
) -> Result<Seq<Sequent>, RuleFault>
    ensures { Gives RuleFault.NoMemory sequent_trees result
        (spec.within_limits
        (premise.asking (sequent_tree s.now) (formula.equal (term_tree u.now) (term_tree w.now))
        ∷ premise.asking (sequent_tree s.now) (formula.equal (term_tree w.now) (term_tree v.now))
        ∷ [])) }
{
    let first = asking_equal(alloc, s, u, w)?;
    let second = asking_equal(alloc, s, w, v)?;
    two_premises(alloc, first, second)
}

/// Of an equation of messages: both sides equal a message between.
#[tactic(auto, using(sq_sequent::proofs::RowShapes::trans_rules))]
pub fn trans(alloc: Global, at: &Site, between: &TermArg) -> Result<Seq<Sequent>, RuleFault>
    ensures { let here = site_tree at.now in
        Gives RuleFault.NoMemory sequent_trees result
        (judged (spec.trans_row here.sequent (view.local_goal_of here.sequent)
        (standing.term_in here sort.Message between.now))) }
{
    match at.term_in(Sort::Message, between) {
        Some(w) => match shape_of(local_goal_of(at.sequent)) {
            Shape::Equal(u, v) => by_way_of(alloc, at.sequent, u, w, v),
            _ => Err(RuleFault::Shape),
        },
        None => Err(RuleFault::Shape),
    }
}

/// Of an equation of two applications of one function: each two arguments are alike.
#[tactic(auto, using(sq_sequent::proofs::RowShapes::arg_rules))]
pub fn arg(alloc: Global, s: &Sequent) -> Result<Seq<Sequent>, RuleFault>
    ensures { Gives RuleFault.NoMemory sequent_trees result
        (judged (spec.arg_row (sequent_tree s.now) (view.local_goal_of (sequent_tree s.now)))) }
{
    match shape_of(local_goal_of(s)) {
        Shape::Equal(left, right) => alike_arguments(alloc, s, left, right),
        _ => Err(RuleFault::Shape),
    }
}

/// The trace formulas among the hypotheses, and the goal where it is one, else false.
pub fn trace(alloc: Global, s: &Sequent) -> Result<Seq<Sequent>, RuleFault>
    ensures { Gives RuleFault.NoMemory sequent_trees result
        (judged (spec.trace_row (sequent_tree s.now))) }
{
    match s {
        Sequent::Trace { .. } => Err(RuleFault::Shape),
        Sequent::Local {
            vars,
            hyps,
            goal,
            ..
        } => {
            let goal = pure_or_false(alloc, goal)?;
            one_premise(alloc, about_the_trace(alloc, vars, hyps.as_slice(), goal)?)
        }
        Sequent::Equiv { vars, hyps, .. } => {
            let goal = formulas::falsity(alloc);
            one_premise(alloc, about_the_trace(alloc, vars, hyps.as_slice(), goal)?)
        }
    }
}
