// Premises, made from the sequent that they are to show.
ghost use Rattle.std.specs.Prelude.{◌≡◌, ◌<◌, ◌++◌, IfOk, OnOk, [], ◌∷◌, length, map};
ghost use Rattle.sq_base.specs.Gives.{Gives};
ghost use Rattle.sq_term.specs.View.{term_tree};
ghost use Rattle.sq_system.specs.Sequents.{sequent_tree, trace};
ghost use Rattle.sq_sequent.specs.Premises as spec;
ghost use Rattle.sq_sequent.specs.Premises.{without};
ghost use Rattle.sq_sequent.specs.Logic.{sequent_trees, within_limits};

use sq_base::{NoMemory, Seq, Sort};
use sq_system::{Both, RuleFault, Sequent, all_fit};
use sq_term::{Term, copy, formulas, is_pure};
use std::alloc::Global;

/// The premises, or TooLarge where one of them does not fit.
#[tactic(auto, unfolding(crate::specs::Logic::within_limits))]
pub fn judge(premises: Seq<Sequent>) -> Result<Seq<Sequent>, RuleFault>
    ensures { Gives RuleFault.NoMemory sequent_trees result
        (within_limits (sequent_trees premises)) }
{
    if all_fit(premises.as_slice()) {
        Ok(premises)
    } else {
        Err(RuleFault::TooLarge)
    }
}

/// Equal sorts, in their order.
pub fn copy_sorts(alloc: Global, sorts: &Seq<Sort>) -> Result<Seq<Sort>, NoMemory>
    ensures { IfOk result (λ c. c ≡ sorts.now) }
{
    Seq::from_slice(alloc, sorts.as_slice())
}

/// Equal terms, in their order.
pub fn copy_terms(alloc: Global, terms: &[Term]) -> Result<Seq<Term>, NoMemory>
    ensures { IfOk result (λ c. c ≡ terms.now) }
{
    let mut out = Seq::new(alloc);
    push_copies(alloc, &mut out, terms)?;
    Ok(out)
}

/// Puts equal terms behind the list.
pub fn push_copies(alloc: Global, out: &mut Seq<Term>, terms: &[Term]) -> Result<(), NoMemory>
    ensures { OnOk result (out.new ≡ out.old ++ terms.now) }
{
    for term in terms {
        out.push(copy(alloc, term)?)?;
    }
    Ok(())
}

fn copy_items(alloc: Global, items: &[Both]) -> Result<Seq<Both>, NoMemory>
    ensures { IfOk result (λ c. c ≡ items.now) }
{
    let mut out = Seq::new(alloc);
    for item in items {
        let left = copy(alloc, &item.left)?;
        let right = copy(alloc, &item.right)?;
        out.push(Both { left, right })?;
    }
    Ok(out)
}

/// Equal lists of items, in their order.
pub fn copy_known(alloc: Global, known: &[Seq<Both>]) -> Result<Seq<Seq<Both>>, NoMemory>
    ensures { IfOk result (λ c. c ≡ known.now) }
{
    let mut out = Seq::new(alloc);
    for items in known {
        out.push(copy_items(alloc, items.as_slice())?)?;
    }
    Ok(out)
}

/// An equal sequent.
pub fn copy_sequent(alloc: Global, s: &Sequent) -> Result<Sequent, NoMemory>
    ensures { IfOk result (λ c. c ≡ s.now) }
{
    match s {
        Sequent::Trace { vars, hyps, goal } => Ok(Sequent::Trace {
            vars: copy_sorts(alloc, vars)?,
            hyps: copy_terms(alloc, hyps.as_slice())?,
            goal: copy(alloc, goal)?,
        }),
        Sequent::Local {
            side,
            vars,
            hyps,
            goal,
        } => Ok(Sequent::Local {
            side: *side,
            vars: copy_sorts(alloc, vars)?,
            hyps: copy_terms(alloc, hyps.as_slice())?,
            goal: copy(alloc, goal)?,
        }),
        Sequent::Equiv {
            vars,
            hyps,
            known,
            items,
        } => Ok(Sequent::Equiv {
            vars: copy_sorts(alloc, vars)?,
            hyps: copy_terms(alloc, hyps.as_slice())?,
            known: copy_known(alloc, known.as_slice())?,
            items: copy_items(alloc, items.as_slice())?,
        }),
    }
}

/// The sequent's hypotheses with this goal. Of an equivalence it is asked as a Trace sequent.
#[tactic(auto, unfolding(crate::specs::Premises::asking))]
pub fn asking(alloc: Global, s: &Sequent, goal: Term) -> Result<Sequent, NoMemory>
    ensures { IfOk result (λ p. sequent_tree p
        ≡ spec.asking (sequent_tree s.now) (term_tree goal)) }
{
    match s {
        Sequent::Trace { vars, hyps, .. } | Sequent::Equiv { vars, hyps, .. } => Ok(
            Sequent::Trace {
                vars: copy_sorts(alloc, vars)?,
                hyps: copy_terms(alloc, hyps.as_slice())?,
                goal,
            },
        ),
        Sequent::Local {
            side,
            vars,
            hyps,
            ..
        } => Ok(Sequent::Local {
            side: *side,
            vars: copy_sorts(alloc, vars)?,
            hyps: copy_terms(alloc, hyps.as_slice())?,
            goal,
        }),
    }
}

/// The sequent with one more hypothesis.
#[tactic(auto, unfolding(crate::specs::Premises::assuming))]
pub fn assuming(s: Sequent, hyp: Term) -> Result<Sequent, NoMemory>
    ensures { IfOk result (λ p. sequent_tree p ≡ spec.assuming (sequent_tree s) (term_tree hyp)) }
{
    match s {
        Sequent::Trace {
            vars,
            mut hyps,
            goal,
        } => {
            hyps.push(hyp)?;
            Ok(Sequent::Trace { vars, hyps, goal })
        }
        Sequent::Local {
            side,
            vars,
            mut hyps,
            goal,
        } => {
            hyps.push(hyp)?;
            Ok(Sequent::Local {
                side,
                vars,
                hyps,
                goal,
            })
        }
        Sequent::Equiv {
            vars,
            mut hyps,
            known,
            items,
        } => {
            hyps.push(hyp)?;
            Ok(Sequent::Equiv {
                vars,
                hyps,
                known,
                items,
            })
        }
    }
}

/// The sequent with these hypotheses.
#[tactic(auto, unfolding(crate::specs::Premises::with_hyps))]
pub fn with_hyps(alloc: Global, s: &Sequent, hyps: Seq<Term>) -> Result<Sequent, NoMemory>
    ensures { IfOk result (λ p. sequent_tree p
        ≡ spec.with_hyps (map term_tree hyps) (sequent_tree s.now)) }
{
    match s {
        Sequent::Trace { vars, goal, .. } => Ok(Sequent::Trace {
            vars: copy_sorts(alloc, vars)?,
            hyps,
            goal: copy(alloc, goal)?,
        }),
        Sequent::Local {
            side,
            vars,
            goal,
            ..
        } => Ok(Sequent::Local {
            side: *side,
            vars: copy_sorts(alloc, vars)?,
            hyps,
            goal: copy(alloc, goal)?,
        }),
        Sequent::Equiv {
            vars,
            known,
            items,
            ..
        } => Ok(Sequent::Equiv {
            vars: copy_sorts(alloc, vars)?,
            hyps,
            known: copy_known(alloc, known.as_slice())?,
            items: copy_items(alloc, items.as_slice())?,
        }),
    }
}

/// The terms but the one at this place.
pub fn copy_without(alloc: Global, terms: &[Term], at: usize) -> Result<Seq<Term>, NoMemory>
    requires { at < length terms.now }
    ensures { IfOk result (λ c. c ≡ without terms.now at) }
{
    let mut out = copy_terms(alloc, &terms[..at])?;
    push_copies(alloc, &mut out, &terms[at + 1..])?;
    Ok(out)
}

/// The trace formulas among these, in their order.
#[tactic(auto, using(crate::proofs::PureOnes::pure_rules))]
pub fn pure_ones(alloc: Global, terms: &[Term]) -> Result<Seq<Term>, NoMemory>
    ensures { IfOk result (λ c. map term_tree c ≡ spec.pure_ones (map term_tree terms.now)) }
{
    let mut out = Seq::new(alloc);
    for term in terms {
        if is_pure(term) {
            out.push(copy(alloc, term)?)?;
        }
    }
    Ok(out)
}

/// The term where it is a trace formula, and else false.
pub fn pure_or_false(alloc: Global, t: &Term) -> Result<Term, NoMemory>
    ensures { IfOk result (λ c. term_tree c ≡ spec.pure_or_false (term_tree t.now)) }
{
    if is_pure(t) {
        copy(alloc, t)
    } else {
        Ok(formulas::falsity(alloc))
    }
}

/// What these hypotheses say of the trace alone, with this goal.
pub fn about_the_trace(
    alloc: Global,
    vars: &Seq<Sort>,
    hyps: &[Term],
    goal: Term,
) -> Result<Sequent, NoMemory>
    ensures { IfOk result
        (λ p. sequent_tree p ≡ trace vars.now (spec.pure_ones (map term_tree hyps.now))
        (term_tree goal)) }
{
    let vars = copy_sorts(alloc, vars)?;
    let hyps = pure_ones(alloc, hyps)?;
    Ok(Sequent::Trace { vars, hyps, goal })
}

/// The one premise, or TooLarge.
pub fn one_premise(alloc: Global, premise: Sequent) -> Result<Seq<Sequent>, RuleFault>
    ensures { Gives RuleFault.NoMemory sequent_trees result
        (within_limits (sequent_tree premise ∷ [])) }
{
    let mut premises = Seq::new(alloc);
    premises.push(premise)?;
    judge(premises)
}

/// The two premises, or TooLarge.
pub fn two_premises(
    alloc: Global,
    first: Sequent,
    second: Sequent,
) -> Result<Seq<Sequent>, RuleFault>
    ensures { Gives RuleFault.NoMemory sequent_trees result
        (within_limits (sequent_tree first ∷ sequent_tree second ∷ [])) }
{
    let mut premises = Seq::new(alloc);
    premises.push(first)?;
    premises.push(second)?;
    judge(premises)
}
