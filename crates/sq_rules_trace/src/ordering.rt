// The facts on the order of timestamps.
ghost use Rattle.std.specs.Prelude.{◌≡◌, IfOk};
ghost use Rattle.sq_term.specs.Formulas as formula;
ghost use Rattle.sq_term.specs.Syntax as syntax;
ghost use Rattle.sq_term.specs.View.{ts_tree, term_tree};
ghost use Rattle.sq_rules_trace.specs.OrderFacts as spec;

use crate::times::{at_most, before, happens, is_before, other_time, same_time};
use sq_term::{NoMemory, Term, Ts, formulas};
use std::alloc::Global;

pub fn o1(alloc: Global, t: &Ts) -> Result<Term, NoMemory>
    ensures { IfOk result (λ f. term_tree f ≡ spec.o1 (ts_tree t.now)) }
{
    let there = happens(alloc, t)?;
    let upto = at_most(alloc, t, t)?;
    formulas::implies(alloc, there, upto)
}

pub fn o2(alloc: Global, t: &Ts, s: &Ts, r: &Ts) -> Result<Term, NoMemory>
    ensures { IfOk result
        (λ f. term_tree f ≡ spec.o2 (ts_tree t.now) (ts_tree s.now) (ts_tree r.now)) }
{
    let further = at_most(alloc, s, r)?;
    let whole = at_most(alloc, t, r)?;
    let rest = formulas::implies(alloc, further, whole)?;
    let first = at_most(alloc, t, s)?;
    formulas::implies(alloc, first, rest)
}

pub fn o3(alloc: Global, t: &Ts, s: &Ts) -> Result<Term, NoMemory>
    ensures { IfOk result (λ f. term_tree f ≡ spec.o3 (ts_tree t.now) (ts_tree s.now)) }
{
    let back = at_most(alloc, s, t)?;
    let same = same_time(alloc, t, s)?;
    let rest = formulas::implies(alloc, back, same)?;
    let first = at_most(alloc, t, s)?;
    formulas::implies(alloc, first, rest)
}

fn in_some_order(alloc: Global, t: &Ts, s: &Ts) -> Result<Term, NoMemory>
    ensures { IfOk result
        (λ f. term_tree f ≡ formula.either (syntax.le (ts_tree t.now) (ts_tree s.now))
        (syntax.le (ts_tree s.now) (ts_tree t.now))) }
{
    let first = at_most(alloc, t, s)?;
    let second = at_most(alloc, s, t)?;
    formulas::either(alloc, first, second)
}

pub fn o4(alloc: Global, t: &Ts, s: &Ts) -> Result<Term, NoMemory>
    ensures { IfOk result (λ f. term_tree f ≡ spec.o4 (ts_tree t.now) (ts_tree s.now)) }
{
    let order = in_some_order(alloc, t, s)?;
    let second = happens(alloc, s)?;
    let rest = formulas::implies(alloc, second, order)?;
    let first = happens(alloc, t)?;
    formulas::implies(alloc, first, rest)
}

// What stands in the order happens.
fn both_happen(alloc: Global, t: &Ts, s: &Ts) -> Result<Term, NoMemory>
    ensures { IfOk result
        (λ f. term_tree f ≡ formula.implies (syntax.le (ts_tree t.now) (ts_tree s.now))
        (formula.both (syntax.happens (ts_tree t.now)) (syntax.happens (ts_tree s.now)))) }
{
    let first = happens(alloc, t)?;
    let second = happens(alloc, s)?;
    let both = formulas::both(alloc, first, second)?;
    let upto = at_most(alloc, t, s)?;
    formulas::implies(alloc, upto, both)
}

// One of them happens, or they are equal.
fn one_happens(alloc: Global, t: &Ts, s: &Ts) -> Result<Term, NoMemory>
    ensures { IfOk result
        (λ f. term_tree f ≡ formula.either (syntax.happens (ts_tree t.now))
        (formula.either (syntax.happens (ts_tree s.now))
        (syntax.ts_eq (ts_tree t.now) (ts_tree s.now)))) }
{
    let second = happens(alloc, s)?;
    let same = same_time(alloc, t, s)?;
    let rest = formulas::either(alloc, second, same)?;
    let first = happens(alloc, t)?;
    formulas::either(alloc, first, rest)
}

pub fn o5(alloc: Global, t: &Ts, s: &Ts) -> Result<Term, NoMemory>
    ensures { IfOk result (λ f. term_tree f ≡ spec.o5 (ts_tree t.now) (ts_tree s.now)) }
{
    let both = both_happen(alloc, t, s)?;
    let one = one_happens(alloc, t, s)?;
    formulas::both(alloc, both, one)
}

#[tactic(auto, using(sq_term::proofs::Views::tree_rules))]
pub fn o6(alloc: Global, t: &Ts) -> Result<Term, NoMemory>
    ensures { IfOk result (λ f. term_tree f ≡ spec.o6 (ts_tree t.now)) }
{
    let there = happens(alloc, t)?;
    let upto = at_most(alloc, &Ts::Init, t)?;
    let rest = formulas::implies(alloc, there, upto)?;
    let first = happens(alloc, &Ts::Init)?;
    formulas::both(alloc, first, rest)
}

// What stands before a timestamp is before it.
fn before_it(alloc: Global, t: &Ts) -> Result<Term, NoMemory>
    ensures { let p = syntax.pred (ts_tree t.now) in IfOk result
        (λ f. term_tree f ≡ formula.implies (syntax.happens p)
        (formula.both (syntax.le p (ts_tree t.now))
        (formula.negation (syntax.ts_eq p (ts_tree t.now))))) }
{
    let last = before(alloc, t)?;
    let there = happens(alloc, &last)?;
    let earlier = is_before(alloc, &last, t)?;
    formulas::implies(alloc, there, earlier)
}

// Each but init has one before it.
#[tactic(auto, using(sq_term::proofs::Views::tree_rules))]
fn behind_init(alloc: Global, t: &Ts) -> Result<Term, NoMemory>
    ensures { IfOk result
        (λ f. term_tree f ≡ formula.implies (syntax.happens (ts_tree t.now))
        (formula.implies (formula.negation (syntax.ts_eq (ts_tree t.now) syntax.init))
        (syntax.happens (syntax.pred (ts_tree t.now))))) }
{
    let last = before(alloc, t)?;
    let has_one = happens(alloc, &last)?;
    let other = other_time(alloc, t, &Ts::Init)?;
    let rest = formulas::implies(alloc, other, has_one)?;
    let there = happens(alloc, t)?;
    formulas::implies(alloc, there, rest)
}

// Init has none.
#[tactic(auto, using(sq_term::proofs::Views::tree_rules))]
fn none_before_init(alloc: Global) -> Result<Term, NoMemory>
    ensures { IfOk result
        (λ f. term_tree f ≡ formula.negation (syntax.happens (syntax.pred syntax.init))) }
{
    let last = before(alloc, &Ts::Init)?;
    let there = happens(alloc, &last)?;
    formulas::negation(alloc, there)
}

pub fn o7(alloc: Global, t: &Ts) -> Result<Term, NoMemory>
    ensures { IfOk result (λ f. term_tree f ≡ spec.o7 (ts_tree t.now)) }
{
    let behind = behind_init(alloc, t)?;
    let none = none_before_init(alloc)?;
    let rest = formulas::both(alloc, behind, none)?;
    let first = before_it(alloc, t)?;
    formulas::both(alloc, first, rest)
}

pub fn o10(alloc: Global, t: &Ts, s: &Ts) -> Result<Term, NoMemory>
    ensures { IfOk result (λ f. term_tree f ≡ spec.o10 (ts_tree t.now) (ts_tree s.now)) }
{
    let last = before(alloc, s)?;
    let upto = at_most(alloc, t, &last)?;
    let other = other_time(alloc, t, s)?;
    let rest = formulas::implies(alloc, other, upto)?;
    let first = at_most(alloc, t, s)?;
    formulas::implies(alloc, first, rest)
}
