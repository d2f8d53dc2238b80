// The facts of terms: what the calculus knows of a term by its shape.
ghost use Rattle.std.specs.Prelude.{◌≡◌, true, IfOk, MatchResult, Some, option_map};
ghost use Rattle.std.specs.Option.{option_copied};
ghost use Rattle.sq_term.specs.Formulas as formula;
ghost use Rattle.sq_term.specs.Symbols.{kind_of};
ghost use Rattle.sq_term.specs.Syntax.{fun};
ghost use Rattle.sq_term.specs.View.{term_tree, term_trees};
ghost use Rattle.sq_subst.specs.Room.{fits};
ghost use Rattle.sq_system.specs.Limits.{most_nodes};
ghost use Rattle.sq_formula.specs.Facts as spec;
ghost use Rattle.sq_formula.specs.FactSearch as finding;
ghost use Rattle.sq_formula.specs.FactSearch.{IsFactFault};
ghost use Rattle.sq_formula.specs.Refusals.{IsPastLimits};
ghost use Rattle.sq_formula.specs.Shapes.{is_plain};

use crate::shapes::{Shape, shape_of};
use crate::signatures::{DECLARED, check_fact, is_check};
use sq_base::{NoMemory, Sort};
use sq_system::{FunDecl, MOST_DEPTH, RuleFault};
use sq_term::{Idx, Term, copy, formulas};
use sqlite_items::Boxed;
use std::alloc::Global;

// The equation of copies of these terms.
fn equation(alloc: Global, u: &Term, v: &Term) -> Result<Term, NoMemory>
    ensures { IfOk result (λ t. term_tree t ≡ formula.equal (term_tree u.now) (term_tree v.now)) }
{
    let u = copy(alloc, u)?;
    let v = copy(alloc, v)?;
    formulas::equal(alloc, u, v)
}

// ---- the conditional

fn conditional_fact(alloc: Global, t: &Term, b: &Term, u: &Term, v: &Term) -> Result<Term, NoMemory>
    ensures { IfOk result (λ f. term_tree f ≡ spec.conditional_fact (term_tree t.now)
        (term_tree b.now) (term_tree u.now) (term_tree v.now)) }
{
    let test = copy(alloc, b)?;
    let equal = equation(alloc, t, u)?;
    let when_true = formulas::implies(alloc, test, equal)?;
    let test = copy(alloc, b)?;
    let denied = formulas::negation(alloc, test)?;
    let equal = equation(alloc, t, v)?;
    let when_false = formulas::implies(alloc, denied, equal)?;
    formulas::both(alloc, when_true, when_false)
}

// ---- Booleans as messages

fn is_true_message(alloc: Global, t: &Term) -> Result<Term, NoMemory>
    ensures { IfOk result
        (λ f. term_tree f ≡ formula.equal (term_tree t.now) (formula.of_bool formula.truth)) }
{
    let t = copy(alloc, t)?;
    let truth = formulas::of_bool(alloc, formulas::truth(alloc))?;
    formulas::equal(alloc, t, truth)
}

fn boolean_fact(alloc: Global, t: &Term, b: &Term) -> Result<Term, NoMemory>
    ensures { IfOk result
        (λ f. term_tree f ≡ spec.boolean_fact (term_tree t.now) (term_tree b.now)) }
{
    let is_true = is_true_message(alloc, t)?;
    let b = copy(alloc, b)?;
    formulas::equivalent(alloc, is_true, b)
}

// ---- find

#[tactic(auto, using(crate::proofs::FactParts::quantifier_rules))]
fn all_indices(alloc: Global, count: u32, body: Term) -> Result<Term, NoMemory>
    ensures { IfOk result (λ f. term_tree f ≡ spec.all_indices count (term_tree body)) }
{
    let mut whole = body;
    for _ in 0..count {
        whole = Term::Forall(Sort::Index, Boxed::new(alloc, whole)?);
    }
    Ok(whole)
}

#[tactic(auto, using(crate::proofs::FactParts::quantifier_rules))]
fn some_indices(alloc: Global, count: u32, body: Term) -> Result<Term, NoMemory>
    ensures { IfOk result (λ f. term_tree f ≡ spec.some_indices count (term_tree body)) }
{
    let mut whole = body;
    for _ in 0..count {
        whole = Term::Exists(Sort::Index, Boxed::new(alloc, whole)?);
    }
    Ok(whole)
}

// Some indices pass the test, and the find is what is found there.
fn some_pass(
    alloc: Global,
    t: &Term,
    count: u32,
    test: &Term,
    found: &Term,
) -> Result<Term, NoMemory>
    ensures { IfOk result (λ f. term_tree f ≡ spec.some_indices count
        (formula.both (term_tree test.now)
        (formula.equal (term_tree t.now) (term_tree found.now)))) }
{
    let passes = copy(alloc, test)?;
    let equal = equation(alloc, t, found)?;
    let passes = formulas::both(alloc, passes, equal)?;
    some_indices(alloc, count, passes)
}

fn all_fail(alloc: Global, count: u32, test: &Term) -> Result<Term, NoMemory>
    ensures { IfOk result
        (λ f. term_tree f ≡ spec.all_indices count (formula.negation (term_tree test.now))) }
{
    let fails = copy(alloc, test)?;
    let fails = formulas::negation(alloc, fails)?;
    all_indices(alloc, count, fails)
}

// No index passes the test, and the find is the other term.
fn none_passes(
    alloc: Global,
    t: &Term,
    count: u32,
    test: &Term,
    other: &Term,
) -> Result<Term, NoMemory>
    ensures { IfOk result
        (λ f. term_tree f ≡ formula.both
        (spec.all_indices count (formula.negation (term_tree test.now)))
        (formula.equal (term_tree t.now) (term_tree other.now))) }
{
    let fail = all_fail(alloc, count, test)?;
    let equal = equation(alloc, t, other)?;
    formulas::both(alloc, fail, equal)
}

// What a find of so many indices is.
fn first_that_passes(
    alloc: Global,
    t: &Term,
    count: u32,
    test: &Term,
    found: &Term,
    other: &Term,
) -> Result<Term, NoMemory>
    ensures { IfOk result (λ f. term_tree f ≡ spec.find_fact (term_tree t.now) count
        (term_tree test.now) (term_tree found.now) (term_tree other.now)) }
{
    let some = some_pass(alloc, t, count, test, found)?;
    let none = none_passes(alloc, t, count, test, other)?;
    formulas::either(alloc, some, none)
}

// A quantifier for each index: where they are past the depth of a sequent, so is the fact, which is
// not built then.
#[tactic(auto, using(crate::proofs::FactParts::depth_rules))]
fn find_fact(
    alloc: Global,
    t: &Term,
    count: u32,
    test: &Term,
    found: &Term,
    other: &Term,
) -> Result<Term, RuleFault>
    ensures { let there = spec.find_fact (term_tree t.now) count (term_tree test.now)
        (term_tree found.now) (term_tree other.now) in
        MatchResult result (λ f. term_tree f ≡ there)
        (λ e. IsPastLimits e (fits most_nodes there)) }
{
    if count as usize > MOST_DEPTH {
        Err(RuleFault::TooLarge)
    } else {
        Ok(first_that_passes(alloc, t, count, test, found, other)?)
    }
}

// ---- any term

// Of an application of a declared function, and of one without a shape.
#[tactic(auto, using(crate::proofs::FactParts::application_rules))]
fn application_fact(
    alloc: Global,
    funs: &[FunDecl],
    function: u32,
    indices: &[Idx],
    args: &[Term],
    t: &Term,
) -> Result<Option<Term>, NoMemory>
    requires { is_plain (Some (fun (kind_of function) indices.now (term_trees args.now))) ≡ true }
    ensures { IfOk result (λ f. option_map term_tree f ≡ finding.fact_by_shape funs.now
        (term_tree t.now) (fun (kind_of function) indices.now (term_trees args.now))) }
{
    if function < DECLARED {
        Ok(None)
    } else if indices.is_empty() {
        check_fact(alloc, funs, function - DECLARED, t, args)
    } else {
        Ok(None)
    }
}

// Of a term without a shape.
#[tactic(auto, using(crate::proofs::FactReads::plain_rules, crate::proofs::FactParts::fault_rules))]
fn plain_fact(alloc: Global, funs: &[FunDecl], t: &Term) -> Result<Option<Term>, RuleFault>
    requires { is_plain (Some (term_tree t.now)) ≡ true }
    ensures { let there = finding.fact_by_shape funs.now (term_tree t.now) (term_tree t.now) in
        MatchResult result (λ f. option_map term_tree f ≡ there) (λ e. IsFactFault e there) }
{
    match t {
        Term::Fun(f, indices, args) => {
            Ok(application_fact(alloc, funs, *f, indices.as_slice(), args.as_slice(), t)?)
        }
        Term::Find(count, test, found, other) => Ok(Some(find_fact(
            alloc,
            t,
            *count,
            test.get(),
            found.get(),
            other.get(),
        )?)),
        Term::Name(_, _)
        | Term::Macro(_, _)
        | Term::Schema(_)
        | Term::Diff(_, _)
        | Term::Le(_, _)
        | Term::TsEq(_, _)
        | Term::IdxEq(_, _)
        | Term::Happens(_)
        | Term::Forall(_, _)
        | Term::Exists(_, _) => Ok(None),
    }
}

// The left or the right part of a pair, where the term is one.
#[tactic(auto, using(crate::proofs::FactReads::pair_rules))]
fn part_of(pair: &Term, left: bool) -> Option<&Term>
    ensures { option_map term_tree (option_copied result)
        ≡ finding.part_of left (term_tree pair.now) }
{
    match shape_of(Some(pair)) {
        Shape::Pair(u, v) => { if left { Some(u) } else { Some(v) } }
        _ => None,
    }
}

fn part_fact(alloc: Global, t: &Term, part: Option<&Term>) -> Result<Option<Term>, NoMemory>
    ensures { IfOk result (λ f. option_map term_tree f
        ≡ finding.part_fact (term_tree t.now) (option_map term_tree (option_copied part.entry))) }
{
    match part {
        Some(u) => Ok(Some(equation(alloc, t, u)?)),
        None => Ok(None),
    }
}

/// The fact of a term, where it has one of the shapes. TooLarge comes where no sequent may hold it.
#[tactic(auto, using(crate::proofs::FactReads::shape_rules, crate::proofs::FactParts::fault_rules))]
pub fn fact_of(alloc: Global, funs: &[FunDecl], t: &Term) -> Result<Option<Term>, RuleFault>
    ensures { let there = finding.fact_of funs.now (term_tree t.now) in
        MatchResult result (λ f. option_map term_tree f ≡ there) (λ e. IsFactFault e there) }
{
    match shape_of(Some(t)) {
        Shape::Conditional(b, u, v) => Ok(Some(conditional_fact(alloc, t, b, u, v)?)),
        Shape::First(pair) => Ok(part_fact(alloc, t, part_of(pair, true))?),
        Shape::Second(pair) => Ok(part_fact(alloc, t, part_of(pair, false))?),
        Shape::OfBool(b) => Ok(Some(boolean_fact(alloc, t, b)?)),
        Shape::Other => plain_fact(alloc, funs, t),
        _ => Ok(None),
    }
}

/// The sort of a term that has a fact: a Boolean where it is of a declared checksign.
#[tactic(auto, using(sq_term::proofs::Views::open_rules), unfolding(crate::specs::FactSearch::fact_sort))]
pub fn fact_sort(funs: &[FunDecl], t: &Term) -> Sort
    ensures { result ≡ finding.fact_sort funs.now (term_tree t.now) }
{
    match t {
        Term::Fun(f, _, _) => {
            if is_check(funs, *f) {
                Sort::Boolean
            } else {
                Sort::Message
            }
        }
        _ => Sort::Message,
    }
}
