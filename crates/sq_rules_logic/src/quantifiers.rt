// The rows of the quantifiers.
ghost use Rattle.std.specs.Prelude.{Some, [], ◌∷◌};
ghost use Rattle.sq_base.specs.Gives.{Gives};
ghost use Rattle.sq_term.specs.Arguments.{arg_tree};
ghost use Rattle.sq_term.specs.View.{term_tree};
ghost use Rattle.sq_subst.specs.Substitution.{opened};
ghost use Rattle.sq_system.specs.Sequents.{sequent_tree};
ghost use Rattle.sq_sequent.specs.Logic as spec;
ghost use Rattle.sq_sequent.specs.Logic.{sequent_trees, judged};
ghost use Rattle.sq_sequent.specs.Premises as premise;
ghost use Rattle.sq_sequent.specs.Sites.{site_tree};
ghost use Rattle.sq_sequent.specs.Views as view;

use sq_base::{Seq, Sort};
use sq_sequent::{
    RuleFault, Sequent, Shape, Site, ValArg, asking, assuming, copy_sequent, goal_of, hyp_of,
    one_premise, open_at, open_new, shape_of, with_variable,
};
use sq_term::{Arg, Term};
use std::alloc::Global;

#[tactic(auto, using(sq_sequent::proofs::Held::held_rules))]
fn asking_new(
    alloc: Global,
    s: &Sequent,
    sort: Sort,
    body: &Term,
) -> Result<Seq<Sequent>, RuleFault>
    ensures { let here = sequent_tree s.now in let new = premise.new_variable sort here in
        Gives RuleFault.NoMemory sequent_trees result
        (judged (Some (premise.with_variable sort
        (premise.asking here (opened new (term_tree body.now))) ∷ []))) }
{
    let body = open_new(alloc, s, sort, body)?;
    let asked = asking(alloc, s, body)?;
    one_premise(alloc, with_variable(asked, sort)?)
}

/// Of a universal formula: its body, of a new variable.
pub fn alli(alloc: Global, s: &Sequent) -> Result<Seq<Sequent>, RuleFault>
    ensures { Gives RuleFault.NoMemory sequent_trees result
        (judged (spec.alli_row (sequent_tree s.now) (view.goal_of (sequent_tree s.now)))) }
{
    match shape_of(goal_of(s)) {
        Shape::Forall(sort, body) => asking_new(alloc, s, sort, body),
        _ => Err(RuleFault::Shape),
    }
}

#[tactic(auto, using(sq_sequent::proofs::Held::held_rules))]
fn assuming_new(
    alloc: Global,
    s: &Sequent,
    sort: Sort,
    body: &Term,
) -> Result<Seq<Sequent>, RuleFault>
    ensures { let here = sequent_tree s.now in let new = premise.new_variable sort here in
        Gives RuleFault.NoMemory sequent_trees result
        (judged (Some (premise.with_variable sort
        (premise.assuming here (opened new (term_tree body.now))) ∷ []))) }
{
    let body = open_new(alloc, s, sort, body)?;
    let assumed = assuming(copy_sequent(alloc, s)?, body)?;
    one_premise(alloc, with_variable(assumed, sort)?)
}

/// The body of an existential hypothesis, of a new variable, becomes a hypothesis.
pub fn exe(alloc: Global, s: &Sequent, h: u32) -> Result<Seq<Sequent>, RuleFault>
    ensures { Gives RuleFault.NoMemory sequent_trees result
        (judged (spec.exe_row (sequent_tree s.now) (view.hyp_of (sequent_tree s.now) h))) }
{
    match shape_of(hyp_of(s, h)) {
        Shape::Exists(sort, body) => assuming_new(alloc, s, sort, body),
        _ => Err(RuleFault::Shape),
    }
}

#[tactic(auto, using(sq_sequent::proofs::Held::held_rules))]
fn asking_at(alloc: Global, at: &Site, body: &Term, value: &Arg) -> Result<Seq<Sequent>, RuleFault>
    ensures { Gives RuleFault.NoMemory sequent_trees result
        (judged (spec.asked_at (site_tree at.now) (term_tree body.now)
        (Some (arg_tree value.now)))) }
{
    let body = open_at(alloc, value, body)?;
    one_premise(alloc, asking(alloc, at.sequent, body)?)
}

/// Of an existential formula: its body, at a value.
pub fn exi(alloc: Global, at: &Site, witness: &ValArg) -> Result<Seq<Sequent>, RuleFault>
    ensures { Gives RuleFault.NoMemory sequent_trees result
        (judged (spec.exi_row (site_tree at.now) witness.now
        (view.goal_of (site_tree at.now).sequent))) }
{
    match shape_of(goal_of(at.sequent)) {
        Shape::Exists(sort, body) => match at.value_in(alloc, sort, witness)? {
            Some(value) => asking_at(alloc, at, body, &value),
            None => Err(RuleFault::Shape),
        },
        _ => Err(RuleFault::Shape),
    }
}

#[tactic(auto, using(sq_sequent::proofs::Held::held_rules))]
fn assuming_at(
    alloc: Global,
    at: &Site,
    body: &Term,
    value: &Arg,
) -> Result<Seq<Sequent>, RuleFault>
    ensures { Gives RuleFault.NoMemory sequent_trees result
        (judged (spec.assumed_at (site_tree at.now) (term_tree body.now)
        (Some (arg_tree value.now)))) }
{
    let body = open_at(alloc, value, body)?;
    one_premise(alloc, assuming(copy_sequent(alloc, at.sequent)?, body)?)
}

/// The body of a universal hypothesis, at a value, becomes a hypothesis.
pub fn alle(alloc: Global, at: &Site, h: u32, witness: &ValArg) -> Result<Seq<Sequent>, RuleFault>
    ensures { Gives RuleFault.NoMemory sequent_trees result
        (judged (spec.alle_row (site_tree at.now) witness.now
        (view.hyp_of (site_tree at.now).sequent h))) }
{
    match shape_of(hyp_of(at.sequent, h)) {
        Shape::Forall(sort, body) => match at.value_in(alloc, sort, witness)? {
            Some(value) => assuming_at(alloc, at, body, &value),
            None => Err(RuleFault::Shape),
        },
        _ => Err(RuleFault::Shape),
    }
}
