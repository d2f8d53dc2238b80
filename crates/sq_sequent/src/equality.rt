// The equations that hold by themselves.
ghost use Rattle.std.specs.Prelude.{◌≡◌};
ghost use Rattle.sq_term.specs.View.{term_tree};
ghost use Rattle.sq_sequent.specs.Logic as spec;

use sq_formula::{Shape, is_same, is_same_index, is_same_time, shape_of};
use sq_term::Term;

/// Whether the term is an equation of equal timestamps or indices, or, where these count, of equal
/// messages.
#[tactic(auto, using(crate::proofs::EqualityShapes::equality_rules))]
pub fn is_reflexive(messages: bool, t: &Term) -> bool
    ensures { result ≡ spec.is_reflexive messages (term_tree t.now) }
{
    match shape_of(Some(t)) {
        Shape::Equal(u, v) => messages && is_same(u, v),
        Shape::EqualTimes(u, v) => is_same_time(u, v),
        Shape::EqualIndices(i, j) => is_same_index(i, j),
        _ => false,
    }
}
