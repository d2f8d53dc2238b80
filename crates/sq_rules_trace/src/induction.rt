// Induction over time, and where a timestamp variable stands.
ghost use Rattle.std.specs.Prelude.{◌≡◌, [], ◌∷◌, IfOk, MatchResult, Some, map, option_map};
ghost use Rattle.std.specs.List.{list_all};
ghost use Rattle.std.specs.Option.{option_copied};
ghost use Rattle.sq_base.specs.Gives.{Gives};
ghost use Rattle.sq_base.specs.declared.sort.Sort.TheVariants as sort;
ghost use Rattle.sq_term.specs.Formulas as formula;
ghost use Rattle.sq_term.specs.Syntax as syntax;
ghost use Rattle.sq_term.specs.View.{ts_tree, term_tree, term_trees};
ghost use Rattle.sq_typing.specs.Typing.{has_sort_at};
ghost use Rattle.sq_subst.specs.Room.{fits};
ghost use Rattle.sq_system.specs.Limits.{most_nodes};
ghost use Rattle.sq_system.specs.Sequents.{sequent_tree};
ghost use Rattle.sq_formula.specs.Refusals.{IsPastLimits};
ghost use Rattle.sq_sequent.specs.Logic.{judged, sequent_trees};
ghost use Rattle.sq_sequent.specs.Premises as premise;
ghost use Rattle.sq_sequent.specs.Sites.{site_tree};
ghost use Rattle.sq_sequent.specs.Views as view;
ghost use Rattle.sq_system.specs.Sequents as sequents;
ghost use Rattle.sq_rules_trace.specs.ActionFacts as actions;
ghost use Rattle.sq_rules_trace.specs.Induction as spec;
ghost use Rattle.sq_rules_trace.specs.Time as rows;

use crate::times::is_before;
use sq_base::{NoMemory, Seq, Sort};
use sq_sequent::{
    MOST_NODES, RuleFault, Sequent, Site, assuming, copy_sequent, goal_of, hyps_of, one_premise,
};
use sq_subst::close_var;
use sq_term::{Term, Ts, formulas};
use sq_typing::Binders;
use sqlite_items::Boxed;
use std::alloc::Global;

#[tactic(auto, using(sq_term::proofs::Views::tree_rules))]
fn time_is_free_of(v: u32, t: &Ts) -> bool
    ensures { result ≡ spec.time_is_free_of v (ts_tree t.now) }
{
    match t {
        Ts::Free(k) => *k != v,
        Ts::Bound(_) | Ts::Init | Ts::Act(_, _) => true,
        Ts::Pred(inner) => time_is_free_of(v, inner.get()),
    }
}

/// Whether the timestamp variable stands at no place of the term.
#[cycle(free)]
#[tactic(auto, using(sq_term::proofs::Views::tree_rules))]
fn is_free_of(v: u32, t: &Term) -> bool
    ensures { result ≡ spec.is_free_of v (term_tree t.now) }
{
    match t {
        Term::Name(_, _) | Term::Schema(_) | Term::IdxEq(_, _) => true,
        Term::Fun(_, _, args) => are_free_of(v, args.as_slice()),
        Term::Macro(_, at) | Term::Happens(at) => time_is_free_of(v, at),
        Term::Diff(left, right) => is_free_of(v, left.get()) && is_free_of(v, right.get()),
        Term::Le(a, b) | Term::TsEq(a, b) => time_is_free_of(v, a) && time_is_free_of(v, b),
        Term::Forall(_, body) | Term::Exists(_, body) => is_free_of(v, body.get()),
        Term::Find(_, test, found, other) => {
            is_free_of(v, test.get()) && (is_free_of(v, found.get()) && is_free_of(v, other.get()))
        }
    }
}

#[cycle(free)]
#[tactic(auto, using(sq_term::proofs::Views::tree_rules))]
fn are_free_of(v: u32, terms: &[Term]) -> bool
    ensures { result ≡ spec.are_free_of v (term_trees terms.now) }
{
    let mut free = true;
    for term in terms {
        free &= is_free_of(v, term);
    }
    free
}

// No hypothesis holds the variable.
fn none_holds(v: u32, hyps: &[Term]) -> bool
    ensures { result ≡ list_all (spec.is_free_of v) (map term_tree hyps.now) }
{
    let mut free = true;
    for hyp in hyps {
        free &= is_free_of(v, hyp);
    }
    free
}

// Whether this is a timestamp variable of the sequent.
#[tactic(auto, using(sq_typing::proofs::Sorting::outermost_rules, sq_term::proofs::Views::tree_rules))]
fn is_time(at: &Site, v: u32) -> bool
    ensures { result
        ≡ has_sort_at (sequents.vars_of (sequent_tree at.now.sequent.now)) v sort.Timestamp }
{
    at.signature()
        .is_timestamp(&Binders::Outermost, &Ts::Free(v))
}

// The bound timestamp is before the variable.
#[tactic(auto, using(sq_term::proofs::Views::tree_rules))]
fn bound_before(alloc: Global, v: u32) -> Result<Term, NoMemory>
    ensures { IfOk result
        (λ f. term_tree f ≡ actions.is_before (syntax.bound 0) (syntax.free v)) }
{
    is_before(alloc, &Ts::Bound(0), &Ts::Free(v))
}

#[tactic(auto, using(sq_term::proofs::Views::tree_rules))]
fn for_each_before(alloc: Global, v: u32, body: Term) -> Result<Term, NoMemory>
    ensures { IfOk result
        (λ f. term_tree f ≡ syntax.all sort.Timestamp (formula.implies
        (actions.is_before (syntax.bound 0) (syntax.free v)) (term_tree body))) }
{
    let before = bound_before(alloc, v)?;
    let body = formulas::implies(alloc, before, body)?;
    Ok(Term::Forall(Sort::Timestamp, Boxed::new(alloc, body)?))
}

// The goal at every earlier timestamp, TooLarge where no sequent may hold it.
#[tactic(auto, using(crate::proofs::EarlierLimits::earlier_rules))]
fn earlier(alloc: Global, v: u32, goal: &Term) -> Result<Term, RuleFault>
    ensures { let there = spec.earlier v (term_tree goal.now) in
        MatchResult result (λ f. term_tree f ≡ there)
        (λ e. IsPastLimits e (fits most_nodes there)) }
{
    let body = close_var(alloc, goal, v, MOST_NODES)?;
    Ok(for_each_before(alloc, v, body)?)
}

#[tactic(auto, using(crate::proofs::EarlierLimits::past_rules))]
fn assuming_earlier(
    alloc: Global,
    s: &Sequent,
    v: u32,
    goal: &Term,
) -> Result<Seq<Sequent>, RuleFault>
    ensures { Gives RuleFault.NoMemory sequent_trees result
        (judged (Some (premise.assuming (sequent_tree s.now)
        (spec.earlier v (term_tree goal.now)) ∷ []))) }
{
    match earlier(alloc, v, goal) {
        Ok(known) => one_premise(alloc, assuming(copy_sequent(alloc, s)?, known)?),
        Err(fault) => Err(fault),
    }
}

/// The goal at every timestamp before the variable becomes a hypothesis, where no hypothesis holds
/// the variable.
pub fn tind(alloc: Global, at: &Site, v: u32) -> Result<Seq<Sequent>, RuleFault>
    ensures { let here = site_tree at.now in
        Gives RuleFault.NoMemory sequent_trees result
        (judged (rows.tind_on here.sequent v (view.goal_of here.sequent))) }
{
    match goal_of(at.sequent) {
        Some(goal) => {
            if is_time(at, v) && none_holds(v, hyps_of(at.sequent)) {
                assuming_earlier(alloc, at.sequent, v, goal)
            } else {
                Err(RuleFault::Shape)
            }
        }
        None => Err(RuleFault::Shape),
    }
}
