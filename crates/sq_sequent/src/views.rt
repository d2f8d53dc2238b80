// The parts of a sequent that rows ask for.
ghost use Rattle.std.specs.Prelude.{◌≡◌, map, option_map, option_copied};
ghost use Rattle.sq_term.specs.View.{term_tree};
ghost use Rattle.sq_system.specs.Sequents.{item_of, sequent_tree};
ghost use Rattle.sq_system.specs.Sequents as sequents;
ghost use Rattle.sq_sequent.specs.Views as spec;

use sq_base::{Seq, Sort};
use sq_system::{Both, Sequent};
use sq_term::Term;
use sqlite_items::at;

/// The sorts of the variables.
pub fn vars_of(s: &Sequent) -> &Seq<Sort>
    ensures { result.now ≡ sequents.vars_of (sequent_tree s.now) }
{
    match s {
        Sequent::Trace { vars, .. } | Sequent::Local { vars, .. } | Sequent::Equiv { vars, .. } =>
            vars,
    }
}

/// The hypotheses.
pub fn hyps_of(s: &Sequent) -> &[Term]
    ensures { map term_tree result.now ≡ sequents.hyps_of (sequent_tree s.now) }
{
    match s {
        Sequent::Trace { hyps, .. } | Sequent::Local { hyps, .. } | Sequent::Equiv { hyps, .. } =>
            hyps.as_slice(),
    }
}

/// The items; a sequent with a goal has none.
pub fn items_of(s: &Sequent) -> &[Both]
    ensures { map item_of result.now ≡ spec.items_of (sequent_tree s.now) }
{
    match s {
        Sequent::Trace { .. } | Sequent::Local { .. } => &[],
        Sequent::Equiv { items, .. } => items.as_slice(),
    }
}

/// Hypothesis h, counted from 0.
#[tactic(auto, unfolding(crate::specs::Views::hyp_of))]
pub fn hyp_of(s: &Sequent, h: u32) -> Option<&Term>
    ensures { option_map term_tree (option_copied result) ≡ spec.hyp_of (sequent_tree s.now) h }
{
    at(hyps_of(s), h as usize)
}

/// The goal; an equivalence has none.
#[tactic(auto, unfolding(crate::specs::Views::goal_of))]
pub fn goal_of(s: &Sequent) -> Option<&Term>
    ensures { option_map term_tree (option_copied result) ≡ spec.goal_of (sequent_tree s.now) }
{
    match s {
        Sequent::Trace { goal, .. } | Sequent::Local { goal, .. } => Some(goal),
        Sequent::Equiv { .. } => None,
    }
}

/// The goal of a local sequent.
#[tactic(auto, unfolding(crate::specs::Views::local_goal_of))]
pub fn local_goal_of(s: &Sequent) -> Option<&Term>
    ensures { option_map term_tree (option_copied result)
        ≡ spec.local_goal_of (sequent_tree s.now) }
{
    match s {
        Sequent::Local { goal, .. } => Some(goal),
        Sequent::Trace { .. } | Sequent::Equiv { .. } => None,
    }
}
