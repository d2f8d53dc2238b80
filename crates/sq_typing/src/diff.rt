// Where the two sides of a term differ.
ghost use Rattle.std.specs.Prelude.{◌≡◌};
ghost use Rattle.sq_term.specs.View.{term_tree, term_trees};
ghost use Rattle.sq_typing.specs.Diffs as spec;

use sq_term::Term;

/// Whether the two sides of the term differ somewhere: it holds a `Diff`.
#[cycle(diff)]
#[tactic(auto, using(sq_term::proofs::Views::tree_rules))]
pub fn holds_diff(t: &Term) -> bool
    ensures { result ≡ spec.holds_diff (term_tree t.now) }
{
    match t {
        Term::Fun(_, _, args) => hold_diff(args.as_slice()),
        Term::Diff(_, _) => true,
        Term::Forall(_, body) | Term::Exists(_, body) => holds_diff(body.get()),
        Term::Find(_, test, found, other) => {
            holds_diff(test.get()) || (holds_diff(found.get()) || holds_diff(other.get()))
        }
        Term::Name(_, _)
        | Term::Macro(_, _)
        | Term::Schema(_)
        | Term::Le(_, _)
        | Term::TsEq(_, _)
        | Term::IdxEq(_, _)
        | Term::Happens(_) => false,
    }
}

#[cycle(diff)]
#[tactic(auto, using(sq_term::proofs::Views::tree_rules))]
fn hold_diff(terms: &[Term]) -> bool
    ensures { result ≡ spec.hold_diff (term_trees terms.now) }
{
    let mut found = false;
    for term in terms {
        found |= holds_diff(term);
    }
    found
}
