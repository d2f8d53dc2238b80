// Formulas over lists.
ghost use Rattle.std.specs.Prelude.{◌≡◌, IfOk, map};
ghost use Rattle.sq_term.specs.Builtins.{builtin_kind};
ghost use Rattle.sq_term.specs.View.{term_tree};
ghost use Rattle.sq_occ.specs.Facts as occurrence;
ghost use Rattle.sq_rules_trace.specs.ActionFacts as actions;
ghost use Rattle.sq_rules_trace.specs.Nested as spec;

use sq_base::NoMemory;
use sq_term::{Builtin, Idx, Term, formulas};
use sqlite_items::Items;
use std::alloc::Global;

/// The formulas under a connective, nested to the right: its unit where there is none, and the
/// formula where there is one.
#[tactic(auto, using(crate::proofs::NestedLists::nested_rules))]
pub fn nested(
    alloc: Global,
    connective: Builtin,
    unit: Builtin,
    parts: Items<Term>,
) -> Result<Term, NoMemory>
    ensures { IfOk result (λ t. term_tree t
        ≡ spec.nested (builtin_kind connective) (builtin_kind unit) (map term_tree parts)) }
{
    let mut parts = parts;
    match parts.pop() {
        None => Ok(formulas::constant(alloc, unit)),
        Some(last) => {
            let mut whole = last;
            while let Some(part) = parts.pop() {
                whole = formulas::binary(alloc, connective, part, whole)?;
            }
            Ok(whole)
        }
    }
}

// An equation for each two indices at one place.
#[tactic(auto, using(crate::proofs::NestedLists::equation_rules))]
fn equations(alloc: Global, is: &[Idx], js: &[Idx]) -> Result<Items<Term>, NoMemory>
    ensures { IfOk result
        (λ ts. map term_tree ts ≡ occurrence.equations is.now js.now) }
{
    let mut out = Items::new(alloc);
    let mut left = is;
    let mut right = js;
    'equations: while let (Some((i, left_rest)), Some((j, right_rest))) = (
        left.split_first(),
        right.split_first(),
    ) {
        out.push(Term::IdxEq(*i, *j))?;
        left = left_rest;
        right = right_rest;
    }
    Ok(out)
}

/// All the indices are equal.
#[tactic(auto, using(crate::proofs::NestedLists::conj_rules))]
pub fn same_indices(alloc: Global, is: &[Idx], js: &[Idx]) -> Result<Term, NoMemory>
    ensures { IfOk result (λ t. term_tree t ≡ actions.same_indices is.now js.now) }
{
    let parts = equations(alloc, is, js)?;
    nested(alloc, Builtin::And, Builtin::True, parts)
}
