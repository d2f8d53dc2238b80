// How large a sequent is.
ghost use Rattle.std.specs.Prelude.{◌≡◌, min, map};
ghost use Rattle.sq_term.specs.View.{term_tree};
ghost use Rattle.sq_system.specs.Sequents.{item_of, sequent_tree};
ghost use Rattle.sq_system.specs.Sizes as spec;

use crate::sequent::{Both, Sequent};
use sq_base::Seq;
use sq_term::{Term, depth, size};

/// The most nodes of a sequent inside a derivation.
pub const MOST_NODES: usize = 8_388_608;

/// The greatest depth of a term of a sequent inside a derivation.
pub const MOST_DEPTH: usize = 1_024;

fn all_size(terms: &[Term]) -> usize
    ensures { result ≡ min (spec.all_size (map term_tree terms.now)) 18446744073709551615 }
{
    let mut nodes: usize = 0;
    for term in terms {
        nodes = nodes.saturating_add(size(term));
    }
    nodes
}

fn all_depth(terms: &[Term]) -> usize
    ensures { result ≡ min (spec.all_depth (map term_tree terms.now)) 18446744073709551615 }
{
    let mut most: usize = 0;
    for term in terms {
        most = most.max(depth(term));
    }
    most
}

fn items_size(items: &[Both]) -> usize
    ensures { result ≡ min (spec.items_size (map item_of items.now)) 18446744073709551615 }
{
    let mut nodes: usize = 0;
    for item in items {
        nodes = nodes.saturating_add(size(&item.left).saturating_add(size(&item.right)));
    }
    nodes
}

fn items_depth(items: &[Both]) -> usize
    ensures { result ≡ min (spec.items_depth (map item_of items.now)) 18446744073709551615 }
{
    let mut most: usize = 0;
    for item in items {
        most = most.max(depth(&item.left).max(depth(&item.right)));
    }
    most
}

fn known_size(known: &[Seq<Both>]) -> usize
    ensures { result ≡ min (spec.known_size (map (map item_of) known.now)) 18446744073709551615 }
{
    let mut nodes: usize = 0;
    for items in known {
        nodes = nodes.saturating_add(items_size(items.as_slice()));
    }
    nodes
}

fn known_depth(known: &[Seq<Both>]) -> usize
    ensures { result ≡ min (spec.known_depth (map (map item_of) known.now)) 18446744073709551615 }
{
    let mut most: usize = 0;
    for items in known {
        most = most.max(items_depth(items.as_slice()));
    }
    most
}

/// The nodes of all terms of the sequent. The count stops at the greatest `usize`.
pub fn sequent_size(s: &Sequent) -> usize
    ensures { result ≡ min (spec.sequent_size (sequent_tree s.now)) 18446744073709551615 }
{
    match s {
        Sequent::Trace { hyps, goal, .. } | Sequent::Local { hyps, goal, .. } => {
            all_size(hyps.as_slice()).saturating_add(size(goal))
        }
        Sequent::Equiv {
            hyps,
            known,
            items,
            ..
        } => {
            let listed = known_size(known.as_slice()).saturating_add(items_size(items.as_slice()));
            all_size(hyps.as_slice()).saturating_add(listed)
        }
    }
}

fn sequent_depth(s: &Sequent) -> usize
    ensures { result ≡ min (spec.sequent_depth (sequent_tree s.now)) 18446744073709551615 }
{
    match s {
        Sequent::Trace { hyps, goal, .. } | Sequent::Local { hyps, goal, .. } => {
            all_depth(hyps.as_slice()).max(depth(goal))
        }
        Sequent::Equiv {
            hyps,
            known,
            items,
            ..
        } => {
            let listed = known_depth(known.as_slice()).max(items_depth(items.as_slice()));
            all_depth(hyps.as_slice()).max(listed)
        }
    }
}

/// Whether a sequent may stand in a derivation: at most `MOST_NODES` nodes and depth `MOST_DEPTH`.
pub fn fits(s: &Sequent) -> bool
    ensures { result ≡ spec.fits (sequent_tree s.now) }
{
    sequent_size(s) <= MOST_NODES && sequent_depth(s) <= MOST_DEPTH
}

/// Whether each of them may.
pub fn all_fit(premises: &[Sequent]) -> bool
    ensures { result ≡ spec.all_fit (map sequent_tree premises.now) }
{
    for premise in premises {
        if !fits(premise) {
            return false;
        }
    }
    true
}
