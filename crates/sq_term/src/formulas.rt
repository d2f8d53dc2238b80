// Terms of the functions that every file has.
ghost use Rattle.std.specs.Prelude.{◌≡◌, IfOk};
ghost use Rattle.sq_term.specs.Builtins.{builtin_kind};
ghost use Rattle.sq_term.specs.Formulas as spec;
ghost use Rattle.sq_term.specs.View.{term_tree};

use crate::builtin::Builtin;
use crate::copying::copy;
use crate::term::Term;
use sq_base::{NoMemory, Seq};
use sqlite_items::Items;
use std::alloc::Global;

/// A function without arguments. It takes no memory.
#[tactic(auto, using(crate::proofs::FormulaRules::formula_rules))]
pub fn constant(alloc: Global, function: Builtin) -> Term
    ensures { term_tree result ≡ spec.constant (builtin_kind function) }
{
    Term::Fun(function.number(), Seq::new(alloc), Items::new(alloc))
}

/// A function of one argument.
#[tactic(auto, using(crate::proofs::FormulaRules::formula_rules))]
pub fn unary(alloc: Global, function: Builtin, a: Term) -> Result<Term, NoMemory>
    ensures { IfOk result (λ t. term_tree t ≡ spec.unary (builtin_kind function) (term_tree a)) }
{
    let mut args = Items::new(alloc);
    args.push(a)?;
    Ok(Term::Fun(function.number(), Seq::new(alloc), args))
}

/// A function of two arguments.
#[tactic(auto, using(crate::proofs::FormulaRules::formula_rules))]
pub fn binary(alloc: Global, function: Builtin, a: Term, b: Term) -> Result<Term, NoMemory>
    ensures { IfOk result
        (λ t. term_tree t ≡ spec.binary (builtin_kind function) (term_tree a) (term_tree b)) }
{
    let mut args = Items::new(alloc);
    args.push(a)?;
    args.push(b)?;
    Ok(Term::Fun(function.number(), Seq::new(alloc), args))
}

/// A function of three arguments.
#[tactic(auto, using(crate::proofs::FormulaRules::formula_rules))]
pub fn ternary(
    alloc: Global,
    function: Builtin,
    a: Term,
    b: Term,
    c: Term,
) -> Result<Term, NoMemory>
    ensures { IfOk result
        (λ t. term_tree t
        ≡ spec.ternary (builtin_kind function) (term_tree a) (term_tree b) (term_tree c)) }
{
    let mut args = Items::new(alloc);
    args.push(a)?;
    args.push(b)?;
    args.push(c)?;
    Ok(Term::Fun(function.number(), Seq::new(alloc), args))
}

/// The formula that holds.
pub fn truth(alloc: Global) -> Term
    ensures { term_tree result ≡ spec.truth }
{
    constant(alloc, Builtin::True)
}

/// The formula that does not hold.
pub fn falsity(alloc: Global) -> Term
    ensures { term_tree result ≡ spec.falsity }
{
    constant(alloc, Builtin::False)
}

/// That the formula does not hold.
pub fn negation(alloc: Global, a: Term) -> Result<Term, NoMemory>
    ensures { IfOk result (λ t. term_tree t ≡ spec.negation (term_tree a)) }
{
    unary(alloc, Builtin::Not, a)
}

/// That both formulas hold.
pub fn both(alloc: Global, a: Term, b: Term) -> Result<Term, NoMemory>
    ensures { IfOk result (λ t. term_tree t ≡ spec.both (term_tree a) (term_tree b)) }
{
    binary(alloc, Builtin::And, a, b)
}

/// That one of the formulas holds.
pub fn either(alloc: Global, a: Term, b: Term) -> Result<Term, NoMemory>
    ensures { IfOk result (λ t. term_tree t ≡ spec.either (term_tree a) (term_tree b)) }
{
    binary(alloc, Builtin::Or, a, b)
}

/// That the first formula implies the second.
pub fn implies(alloc: Global, a: Term, b: Term) -> Result<Term, NoMemory>
    ensures { IfOk result (λ t. term_tree t ≡ spec.implies (term_tree a) (term_tree b)) }
{
    binary(alloc, Builtin::Implies, a, b)
}

fn copies_imply(alloc: Global, a: &Term, b: &Term) -> Result<Term, NoMemory>
    ensures { IfOk result (λ t. term_tree t ≡ spec.implies (term_tree a.now) (term_tree b.now)) }
{
    let a = copy(alloc, a)?;
    let b = copy(alloc, b)?;
    implies(alloc, a, b)
}

/// That the formulas imply each other: a conjunction, for which each of them is copied once.
pub fn equivalent(alloc: Global, a: Term, b: Term) -> Result<Term, NoMemory>
    ensures { IfOk result (λ t. term_tree t ≡ spec.equivalent (term_tree a) (term_tree b)) }
{
    let there = copies_imply(alloc, &a, &b)?;
    let back = implies(alloc, b, a)?;
    both(alloc, there, back)
}

/// That the messages are equal.
pub fn equal(alloc: Global, u: Term, v: Term) -> Result<Term, NoMemory>
    ensures { IfOk result (λ t. term_tree t ≡ spec.equal (term_tree u) (term_tree v)) }
{
    binary(alloc, Builtin::Eq, u, v)
}

/// The empty message.
pub fn empty(alloc: Global) -> Term
    ensures { term_tree result ≡ spec.empty }
{
    constant(alloc, Builtin::Empty)
}

/// The first message where the formula holds, and else the second.
pub fn conditional(alloc: Global, c: Term, u: Term, v: Term) -> Result<Term, NoMemory>
    ensures { IfOk result
        (λ t. term_tree t ≡ spec.conditional (term_tree c) (term_tree u) (term_tree v)) }
{
    ternary(alloc, Builtin::Ite, c, u, v)
}

/// The pair of the messages.
pub fn pair(alloc: Global, u: Term, v: Term) -> Result<Term, NoMemory>
    ensures { IfOk result (λ t. term_tree t ≡ spec.pair (term_tree u) (term_tree v)) }
{
    binary(alloc, Builtin::Pair, u, v)
}

/// The first part of a pair.
pub fn first(alloc: Global, u: Term) -> Result<Term, NoMemory>
    ensures { IfOk result (λ t. term_tree t ≡ spec.first (term_tree u)) }
{
    unary(alloc, Builtin::Fst, u)
}

/// The second part of a pair.
pub fn second(alloc: Global, u: Term) -> Result<Term, NoMemory>
    ensures { IfOk result (λ t. term_tree t ≡ spec.second (term_tree u)) }
{
    unary(alloc, Builtin::Snd, u)
}

/// The message of a Boolean.
pub fn of_bool(alloc: Global, a: Term) -> Result<Term, NoMemory>
    ensures { IfOk result (λ t. term_tree t ≡ spec.of_bool (term_tree a)) }
{
    unary(alloc, Builtin::OfBool, a)
}
