// What may stand in a sequent, by what it speaks of.
ghost use Rattle.std.specs.Prelude.{◌≡◌};
ghost use Rattle.sq_typing.specs.Standing as spec;

use crate::diff::holds_diff;
use crate::signature::{Binders, Signature};
use sq_base::Sort;
use sq_term::{Side, Term, is_pure};

/// What a term speaks of: the trace alone, what a side sees, or both sides.
#[derive(Clone, Copy, Debug, PartialEq, Eq)]
pub enum Subject {
    Trace,
    Side(Side),
}

impl Subject {
    ghost use Rattle.sq_term.specs.View.{term_tree};
    ghost use Rattle.sq_typing.specs.Views.{subject};

    // A trace formula of the trace alone, and a term without a `Diff` of one side.
    fn suits(self, t: &Term) -> bool
        ensures { result ≡ spec.suits (subject self) (term_tree t.now) }
    {
        match self {
            Subject::Trace => is_pure(t),
            Subject::Side(Side::Both) => true,
            Subject::Side(Side::Left) | Subject::Side(Side::Right) => !holds_diff(t),
        }
    }
}

impl Signature<'_> {
    ghost use Rattle.sq_term.specs.View.{term_tree};
    ghost use Rattle.sq_typing.specs.Views.{signature_tree, subject};

    /// Whether the term has this sort over the variables alone, and may speak of this.
    #[tactic(auto, using(crate::proofs::Sorting::outermost_rules))]
    pub fn may_stand(&self, about: Subject, sort: Sort, t: &Term) -> bool
        ensures { result
            ≡ spec.may_stand (signature_tree self.now) (subject about) sort (term_tree t.now) }
    {
        self.has_sort(t, &Binders::Outermost, sort) && about.suits(t)
    }
}
