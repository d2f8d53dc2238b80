// The formulas on timestamps that facts are made of.
ghost use Rattle.std.specs.Prelude.{◌≡◌, IfOk};
ghost use Rattle.sq_term.specs.Formulas as formula;
ghost use Rattle.sq_term.specs.Syntax as syntax;
ghost use Rattle.sq_term.specs.View.{ts_tree, term_tree};
ghost use Rattle.sq_rules_trace.specs.ActionFacts as actions;

use sq_term::{NoMemory, Term, Ts, copy_ts, formulas};
use sqlite_items::Boxed;
use std::alloc::Global;

/// The timestamp happens.
#[tactic(auto, using(sq_term::proofs::Views::tree_rules))]
pub fn happens(alloc: Global, t: &Ts) -> Result<Term, NoMemory>
    ensures { IfOk result (λ f. term_tree f ≡ syntax.happens (ts_tree t.now)) }
{
    Ok(Term::Happens(copy_ts(alloc, t)?))
}

/// The one stands no later than the other.
#[tactic(auto, using(sq_term::proofs::Views::tree_rules))]
pub fn at_most(alloc: Global, t: &Ts, s: &Ts) -> Result<Term, NoMemory>
    ensures { IfOk result (λ f. term_tree f ≡ syntax.le (ts_tree t.now) (ts_tree s.now)) }
{
    let t = copy_ts(alloc, t)?;
    Ok(Term::Le(t, copy_ts(alloc, s)?))
}

/// The timestamps are equal.
#[tactic(auto, using(sq_term::proofs::Views::tree_rules))]
pub fn same_time(alloc: Global, t: &Ts, s: &Ts) -> Result<Term, NoMemory>
    ensures { IfOk result (λ f. term_tree f ≡ syntax.ts_eq (ts_tree t.now) (ts_tree s.now)) }
{
    let t = copy_ts(alloc, t)?;
    Ok(Term::TsEq(t, copy_ts(alloc, s)?))
}

/// The timestamps differ.
pub fn other_time(alloc: Global, t: &Ts, s: &Ts) -> Result<Term, NoMemory>
    ensures { IfOk result
        (λ f. term_tree f ≡ formula.negation (syntax.ts_eq (ts_tree t.now) (ts_tree s.now))) }
{
    let same = same_time(alloc, t, s)?;
    formulas::negation(alloc, same)
}

/// The one stands before the other.
pub fn is_before(alloc: Global, t: &Ts, s: &Ts) -> Result<Term, NoMemory>
    ensures { IfOk result (λ f. term_tree f ≡ actions.is_before (ts_tree t.now) (ts_tree s.now)) }
{
    let upto = at_most(alloc, t, s)?;
    let differs = other_time(alloc, t, s)?;
    formulas::both(alloc, upto, differs)
}

/// The timestamp before.
#[tactic(auto, using(sq_term::proofs::Views::tree_rules))]
pub fn before(alloc: Global, t: &Ts) -> Result<Ts, NoMemory>
    ensures { IfOk result (λ p. ts_tree p ≡ syntax.pred (ts_tree t.now)) }
{
    let t = copy_ts(alloc, t)?;
    Ok(Ts::Pred(Boxed::new(alloc, t)?))
}
