// How much room a term takes. Each call counts nodes down from those that there are, and levels
// from those that a term may have, so that no sum can pass its type.
ghost use Rattle.std.specs.Prelude.{length};
ghost use Rattle.sq_term.specs.View.{ts_tree, term_tree, term_trees};
ghost use Rattle.sq_term.specs.Measure as measure;
ghost use Rattle.sq_subst.specs.Room.{Spends};

use sq_term::{Idx, Term, Ts};

/// How deep a term may be.
pub const MOST_LEVELS: u32 = 1024;

/// The nodes that the indices leave, or None where they pass the nodes or the levels.
#[tactic(auto, using(crate::proofs::Rooms::room_rules))]
pub fn indices_room(indices: &[Idx], nodes: usize, levels: u32) -> Option<usize>
    ensures { Spends (length indices.now) (measure.indices_depth indices.now) nodes levels result }
{
    if levels == 0 && !indices.is_empty() {
        return None;
    }
    nodes.checked_sub(indices.len())
}

/// The nodes that the timestamp leaves, or None where it passes the nodes or the levels.
#[tactic(auto, using(crate::proofs::Rooms::room_rules))]
pub fn ts_room(t: &Ts, nodes: usize, levels: u32) -> Option<usize>
    ensures { Spends (measure.ts_size (ts_tree t.now))
        (measure.ts_depth (ts_tree t.now)) nodes levels result }
{
    let nodes = nodes.checked_sub(1)?;
    let levels = levels.checked_sub(1)?;
    match t {
        Ts::Free(_) | Ts::Bound(_) | Ts::Init => Some(nodes),
        Ts::Pred(inner) => ts_room(inner.get(), nodes, levels),
        Ts::Act(_, indices) => indices_room(indices.as_slice(), nodes, levels),
    }
}

/// The nodes that the term leaves, or None where it passes the nodes or the levels.
#[cycle(room)]
#[tactic(auto, using(crate::proofs::Rooms::room_rules))]
pub fn term_room(t: &Term, nodes: usize, levels: u32) -> Option<usize>
    ensures { Spends (measure.size (term_tree t.now))
        (measure.depth (term_tree t.now)) nodes levels result }
{
    let nodes = nodes.checked_sub(1)?;
    let levels = levels.checked_sub(1)?;
    match t {
        Term::Name(_, indices) => indices_room(indices.as_slice(), nodes, levels),
        Term::Fun(_, indices, args) => {
            let nodes = indices_room(indices.as_slice(), nodes, levels)?;
            terms_room(args.as_slice(), nodes, levels)
        }
        Term::Macro(_, at) | Term::Happens(at) => ts_room(at, nodes, levels),
        Term::Schema(_) => Some(nodes),
        Term::Diff(left, right) => {
            let nodes = term_room(left.get(), nodes, levels)?;
            term_room(right.get(), nodes, levels)
        }
        Term::Le(a, b) | Term::TsEq(a, b) => {
            let nodes = ts_room(a, nodes, levels)?;
            ts_room(b, nodes, levels)
        }
        Term::IdxEq(i, j) => indices_room(&[*i, *j], nodes, levels),
        Term::Forall(_, body) | Term::Exists(_, body) => term_room(body.get(), nodes, levels),
        Term::Find(_, test, found, other) => {
            let nodes = term_room(test.get(), nodes, levels)?;
            let nodes = term_room(found.get(), nodes, levels)?;
            term_room(other.get(), nodes, levels)
        }
    }
}

#[cycle(room)]
#[tactic(auto, using(crate::proofs::Rooms::room_rules))]
fn terms_room(terms: &[Term], nodes: usize, levels: u32) -> Option<usize>
    ensures { Spends (measure.sizes (term_trees terms.now))
        (measure.depths (term_trees terms.now)) nodes levels result }
{
    let mut left = nodes;
    for term in terms {
        left = term_room(term, left, levels)?;
    }
    Some(left)
}
