// Trace formulas.
ghost use Rattle.std.specs.Prelude.{◌≡◌};
ghost use Rattle.sq_term.specs.View.{term_tree, term_trees};
ghost use Rattle.sq_term.specs.Symbols.{kind_of};
ghost use Rattle.sq_term.specs.Pure as spec;

use crate::builtin::Builtin;
use crate::term::Term;
use sq_base::Sort;

#[tactic(auto, using(crate::proofs::Connectives::declared_is_no_connective))]
fn is_connective(function: u32, args: usize) -> bool
    ensures { result ≡ spec.is_connective (kind_of function) args }
{
    match Builtin::of(function) {
        Some(builtin) => builtin.is_connective(args),
        None => false,
    }
}

/// Whether a quantifier may bind a variable of this sort: an index or a timestamp.
pub fn is_binder_sort(sort: Sort) -> bool
    ensures { result ≡ spec.is_binder_sort sort }
{
    matches!(sort, Sort::Index | Sort::Timestamp)
}

/// Whether the term is a trace formula: built from the order and the equality of timestamps, the
/// equality of indices, `happens`, the connectives and quantifiers over indices and timestamps
/// alone.
#[cycle(pure)]
#[tactic(auto, using(crate::proofs::Connectives::pure_rules))]
pub fn is_pure(t: &Term) -> bool
    ensures { result ≡ spec.is_pure (term_tree t.now) }
{
    match t {
        Term::Fun(f, indices, args) => {
            is_connective(*f, args.len()) && indices.is_empty() && are_pure(args.as_slice())
        }
        Term::Le(_, _) | Term::TsEq(_, _) | Term::IdxEq(_, _) | Term::Happens(_) => true,
        Term::Forall(sort, body) | Term::Exists(sort, body) => is_binder_sort(*sort)
            && is_pure(body.get()),
        Term::Name(_, _) | Term::Macro(_, _) | Term::Schema(_) | Term::Diff(_, _) => false,
        Term::Find(_, _, _, _) => false,
    }
}

#[cycle(pure)]
#[tactic(auto, using(crate::proofs::Connectives::pure_rules))]
fn are_pure(terms: &[Term]) -> bool
    ensures { result ≡ spec.are_pure (term_trees terms.now) }
{
    for term in terms {
        if !is_pure(term) {
            return false;
        }
    }
    true
}
