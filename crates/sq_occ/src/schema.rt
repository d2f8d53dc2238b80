// Whether a term holds a schema variable, and whether a side of it reads a macro.
ghost use Rattle.std.specs.Prelude.{◌≡◌};
ghost use Rattle.sq_term.specs.View.{term_tree, term_trees};
ghost use Rattle.sq_occ.specs.Searches as spec;
ghost use Rattle.sq_occ.specs.Calls.Scans as scans;

use sq_term::Term;

/// Whether a schema variable stands in the term, seen from a side or not.
#[cycle(schema)]
#[tactic(auto, using(sq_term::proofs::Views::tree_rules))]
pub fn holds_schema(t: &Term) -> bool
    ensures { result ≡ spec.holds_schema (term_tree t.now) }
{
    match t {
        Term::Schema(_) => true,
        Term::Fun(_, _, args) => hold_schema(args.as_slice()),
        Term::Diff(left, right) => holds_schema(left.get()) || holds_schema(right.get()),
        Term::Forall(_, body) | Term::Exists(_, body) => holds_schema(body.get()),
        Term::Find(_, test, found, other) => {
            holds_schema(test.get()) || (holds_schema(found.get()) || holds_schema(other.get()))
        }
        Term::Name(_, _)
        | Term::Macro(_, _)
        | Term::Le(_, _)
        | Term::TsEq(_, _)
        | Term::IdxEq(_, _)
        | Term::Happens(_) => false,
    }
}

#[cycle(schema)]
#[tactic(auto, using(sq_term::proofs::Views::tree_rules))]
fn hold_schema(terms: &[Term]) -> bool
    ensures { result ≡ spec.hold_schema (term_trees terms.now) }
{
    let mut found = false;
    for term in terms {
        found |= holds_schema(term);
    }
    found
}

/// Whether the side of the term reads a macro.
#[cycle(reading)]
#[tactic(auto, using(sq_term::proofs::Views::tree_rules))]
pub fn reads_macro(t: &Term, left: bool) -> bool
    ensures { result ≡ scans.reads_macro left (term_tree t.now) }
{
    match t {
        Term::Macro(_, _) => true,
        Term::Fun(_, _, args) => read_macro(args.as_slice(), left),
        Term::Diff(x, y) => reads_macro(if left { x.get() } else { y.get() }, left),
        Term::Forall(_, body) | Term::Exists(_, body) => reads_macro(body.get(), left),
        Term::Find(_, test, found, other) => {
            reads_macro(test.get(), left)
                || (reads_macro(found.get(), left) || reads_macro(other.get(), left))
        }
        Term::Name(_, _)
        | Term::Schema(_)
        | Term::Le(_, _)
        | Term::TsEq(_, _)
        | Term::IdxEq(_, _)
        | Term::Happens(_) => false,
    }
}

#[cycle(reading)]
#[tactic(auto, using(sq_term::proofs::Views::tree_rules))]
fn read_macro(terms: &[Term], left: bool) -> bool
    ensures { result ≡ scans.read_macro left (term_trees terms.now) }
{
    let mut found = false;
    for term in terms {
        found |= reads_macro(term, left);
    }
    found
}
