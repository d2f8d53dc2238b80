// What is asked of the arguments of one function on both sides of an equation.
ghost use Rattle.std.specs.Prelude.{◌≡◌, ◌↔◌, IfOk, IsTrue, length};
ghost use Rattle.sq_base.specs.Gives.{Gives};
ghost use Rattle.sq_term.specs.Symbols.{kind_of};
ghost use Rattle.sq_term.specs.View.{term_tree, term_trees};
ghost use Rattle.sq_system.specs.Sequents.{sequent_tree};
ghost use Rattle.sq_sequent.specs.Premises as premises;
ghost use Rattle.sq_sequent.specs.Logic as spec;
ghost use Rattle.sq_sequent.specs.Logic.{sequent_trees, judged};
ghost use Rattle.sq_sequent.specs.Premises.{asked_alike};

use crate::premises::{asking, judge};
use sq_base::{NoMemory, Seq};
use sq_system::{RuleFault, Sequent};
use sq_term::{Idx, Term, copy, formulas};
use sq_typing::takes_boolean;
use std::alloc::Global;

fn alike(alloc: Global, boolean: bool, u: &Term, v: &Term) -> Result<Term, NoMemory>
    ensures { IfOk result (λ t. term_tree t
        ≡ asked_alike boolean (term_tree u.now) (term_tree v.now)) }
{
    let u = copy(alloc, u)?;
    let v = copy(alloc, v)?;
    if boolean {
        formulas::equivalent(alloc, u, v)
    } else {
        formulas::equal(alloc, u, v)
    }
}

fn asking_alike(
    alloc: Global,
    s: &Sequent,
    boolean: bool,
    u: &Term,
    v: &Term,
) -> Result<Sequent, NoMemory>
    ensures { IfOk result
        (λ p. sequent_tree p ≡ premises.asking (sequent_tree s.now)
        (asked_alike boolean (term_tree u.now) (term_tree v.now))) }
{
    let asked = alike(alloc, boolean, u, v)?;
    asking(alloc, s, asked)
}

#[tactic(auto, using(crate::proofs::ArgumentLists::argument_rules))]
fn arguments_asked(
    alloc: Global,
    s: &Sequent,
    function: u32,
    us: &[Term],
    vs: &[Term],
) -> Result<Seq<Sequent>, NoMemory>
    requires { length us.now ≡ length vs.now }
    ensures { IfOk result
        (λ ps. sequent_trees ps ≡ premises.arguments_asked (sequent_tree s.now)
        (kind_of function) 0 (term_trees us.now) (term_trees vs.now)) }
{
    let mut premises = Seq::new(alloc);
    for k in 0..us.len() {
        premises.push(asking_alike(alloc, s, takes_boolean(function, k), &us[k], &vs[k])?)?;
    }
    Ok(premises)
}

fn same_indices(is: &[Idx], js: &[Idx]) -> bool
    ensures { IsTrue result ↔ (is.now ≡ js.now) }
{
    is == js
}

/// Of two applications of one function, with the same indices: each two arguments are alike.
#[tactic(auto, using(crate::proofs::ArgumentLists::application_rules), unfolding(crate::specs::Logic::applications_row))]
pub fn alike_arguments(
    alloc: Global,
    s: &Sequent,
    left: &Term,
    right: &Term,
) -> Result<Seq<Sequent>, RuleFault>
    ensures { Gives RuleFault.NoMemory sequent_trees result
        (judged (spec.applications_row (sequent_tree s.now) (term_tree left.now)
        (term_tree right.now))) }
{
    match left {
        Term::Fun(f, is, us) => match right {
            Term::Fun(g, js, vs) => {
                if *f == *g && same_indices(is.as_slice(), js.as_slice()) && us.len() == vs.len() {
                    judge(arguments_asked(alloc, s, *f, us.as_slice(), vs.as_slice())?)
                } else {
                    Err(RuleFault::Shape)
                }
            }
            _ => Err(RuleFault::Shape),
        },
        _ => Err(RuleFault::Shape),
    }
}
