// The fact of a term that an argument names.
ghost use Rattle.std.specs.Prelude.{◌≡◌, MatchResult, option_map};
ghost use Rattle.sq_term.specs.View.{term_tree};
ghost use Rattle.sq_formula.specs.FactSearch.{IsFactFault};
ghost use Rattle.sq_sequent.specs.Facts as spec;
ghost use Rattle.sq_sequent.specs.Places as places;
ghost use Rattle.sq_sequent.specs.Sites.{site_tree};

use crate::places::term_at;
use crate::site::Site;
use sq_formula::{fact_of, fact_sort};
use sq_step::TermArg;
use sq_system::RuleFault;
use sq_term::Term;
use std::alloc::Global;

/// The fact of an argument's term, where this may stand in the sequent and has one of the shapes.
/// TooLarge comes where no sequent may hold the fact.
pub fn fact_in(alloc: Global, at: &Site, arg: &TermArg) -> Result<Option<Term>, RuleFault>
    ensures { let here = site_tree at.now in
        let there = spec.standing_fact here (places.term_at here.sequent arg.now) in
        MatchResult result (λ f. option_map term_tree f ≡ there) (λ e. IsFactFault e there) }
{
    match term_at(at.sequent, arg) {
        Some(t) => {
            let funs = at.env.funs.as_slice();
            if at.may_stand(fact_sort(funs, t), t) {
                fact_of(alloc, funs, t)
            } else {
                Ok(None)
            }
        }
        None => Ok(None),
    }
}
