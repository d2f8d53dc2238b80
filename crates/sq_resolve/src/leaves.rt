// Terms without terms in them: constants, and what is said of indices and timestamps.
ghost use Rattle.std.specs.Prelude.{◌≡◌, IfOk, MatchResult, Ok, true, false};
ghost use Rattle.sq_ast.specs.View.{formula_tree};
ghost use Rattle.sq_term.specs.Syntax as t;
ghost use Rattle.sq_term.specs.View.{ts_tree, term_tree};
ghost use Rattle.sq_typing.specs.Typing as typing;
ghost use Rattle.sq_term.specs.TreeEquality.{is_same_sort};
ghost use Rattle.sq_resolve.specs.Built.{Builds};
ghost use Rattle.sq_resolve.specs.Heads.{context_of};
ghost use Rattle.sq_resolve.specs.Resolved as spec;
ghost use Rattle.sq_resolve.specs.Resolved.{mapped, index_of, time_of, constant_kind};
ghost use Rattle.sq_term.specs.Builtins.{builtin_kind};
ghost use Rattle.sq_term.specs.Formulas as formula;

use crate::built::{call_builtin, measured};
use crate::fault::ResolveFault;
use crate::head::Resolver;
use crate::judge::{constant_sort, macro_of, macro_sort};
use crate::row::no_row;
use crate::sized::Built;
use crate::times::{index, time};
use sq_ast::{Constant, Formula, MacroWord};
use sq_base::{NoMemory, Sort, Text};
use sq_term::formulas::{both, negation};
use sq_term::{Builtin, Term, Ts, copy_ts};
use std::alloc::Global;

/// A form of the sort `own` where `want` is wanted.
pub fn expect(want: Sort, own: Sort) -> Result<(), ResolveFault>
    ensures { MatchResult result (λ _. is_same_sort want own ≡ true)
        (λ e. (is_same_sort want own ≡ false) × (e ≡ ResolveFault.SortClash want own)) }
{
    if want == own {
        Ok(())
    } else {
        Err(ResolveFault::SortClash(want, own))
    }
}

fn constant_builtin(k: Constant) -> Builtin
    ensures { builtin_kind result ≡ constant_kind k }
{
    match k {
        Constant::True => Builtin::True,
        Constant::False => Builtin::False,
        Constant::Empty | Constant::Init => Builtin::Empty,
    }
}

pub fn constant(r: &Resolver<'_>, want: Sort, k: Constant) -> Result<Built, ResolveFault>
    ensures { Builds result
        (spec.expect want (spec.constant_sort k) (Ok (formula.constant (constant_kind k)))) }
{
    expect(want, constant_sort(k))?;
    let function = constant_builtin(k);
    Ok(call_builtin(r.alloc, function, no_row(r.alloc)))
}

#[tactic(auto, using(sq_term::proofs::Views::tree_rules))]
pub fn indices_equal(
    r: &Resolver<'_>,
    binders: &[(Text, Sort)],
    want: Sort,
    a: &Formula,
    b: &Formula,
) -> Result<Built, ResolveFault>
    ensures { Builds result (spec.expect want Sort.Boolean
        (spec.both t.idx_eq (index_of (context_of r.now) binders.now (formula_tree a.now))
        (index_of (context_of r.now) binders.now (formula_tree b.now)))) }
{
    expect(want, Sort::Boolean)?;
    let left = index(r, binders, a)?;
    let right = index(r, binders, b)?;
    Ok(measured(Term::IdxEq(left, right)))
}

#[tactic(auto, using(sq_term::proofs::Views::tree_rules))]
pub fn times_equal(
    r: &Resolver<'_>,
    binders: &[(Text, Sort)],
    want: Sort,
    a: &Formula,
    b: &Formula,
) -> Result<Built, ResolveFault>
    ensures { Builds result (spec.expect want Sort.Boolean
        (spec.both t.ts_eq (time_of (context_of r.now) binders.now (formula_tree a.now))
        (time_of (context_of r.now) binders.now (formula_tree b.now)))) }
{
    expect(want, Sort::Boolean)?;
    let left = time(r, binders, a)?;
    let right = time(r, binders, b)?;
    Ok(measured(Term::TsEq(left, right)))
}

#[tactic(auto, using(sq_term::proofs::Views::tree_rules))]
pub fn less_equal(
    r: &Resolver<'_>,
    binders: &[(Text, Sort)],
    want: Sort,
    a: &Formula,
    b: &Formula,
) -> Result<Built, ResolveFault>
    ensures { Builds result (spec.expect want Sort.Boolean
        (spec.both t.le (time_of (context_of r.now) binders.now (formula_tree a.now))
        (time_of (context_of r.now) binders.now (formula_tree b.now)))) }
{
    expect(want, Sort::Boolean)?;
    let left = time(r, binders, a)?;
    let right = time(r, binders, b)?;
    Ok(measured(Term::Le(left, right)))
}

// `T < S` is `T <= S && not(T = S)`.
#[tactic(auto, using(sq_term::proofs::Views::open_rules))]
fn before(alloc: Global, left: Ts, right: Ts) -> Result<Term, NoMemory>
    ensures { IfOk result (λ u. term_tree u ≡ spec.before (ts_tree left) (ts_tree right)) }
{
    let equal = Term::TsEq(copy_ts(alloc, &left)?, copy_ts(alloc, &right)?);
    both(alloc, Term::Le(left, right), negation(alloc, equal)?)
}

pub fn less(
    r: &Resolver<'_>,
    binders: &[(Text, Sort)],
    want: Sort,
    a: &Formula,
    b: &Formula,
) -> Result<Built, ResolveFault>
    ensures { Builds result (spec.expect want Sort.Boolean
        (spec.both spec.before (time_of (context_of r.now) binders.now (formula_tree a.now))
        (time_of (context_of r.now) binders.now (formula_tree b.now)))) }
{
    expect(want, Sort::Boolean)?;
    let left = time(r, binders, a)?;
    let right = time(r, binders, b)?;
    let term = before(r.alloc, left, right)?;
    Ok(measured(term))
}

#[tactic(auto, using(sq_term::proofs::Views::tree_rules))]
pub fn happens(
    r: &Resolver<'_>,
    binders: &[(Text, Sort)],
    want: Sort,
    a: &Formula,
) -> Result<Built, ResolveFault>
    ensures { Builds result
        (spec.expect want Sort.Boolean
        (mapped t.happens (time_of (context_of r.now) binders.now (formula_tree a.now)))) }
{
    expect(want, Sort::Boolean)?;
    let at = time(r, binders, a)?;
    Ok(measured(Term::Happens(at)))
}

#[tactic(auto, using(sq_term::proofs::Views::tree_rules))]
pub fn macro_at(
    r: &Resolver<'_>,
    binders: &[(Text, Sort)],
    want: Sort,
    word: MacroWord,
    a: &Formula,
) -> Result<Built, ResolveFault>
    ensures { Builds result (spec.expect want (typing.macro_sort (spec.macro_of word))
        (mapped (t.macro (spec.macro_of word))
        (time_of (context_of r.now) binders.now (formula_tree a.now)))) }
{
    let what = macro_of(word);
    expect(want, macro_sort(what))?;
    let at = time(r, binders, a)?;
    Ok(measured(Term::Macro(what, at)))
}
