// Nodes of a sequent's terms, by their number in preorder, and the arguments of steps.
ghost use Rattle.std.specs.Prelude.{◌≡◌, ◌++◌, map, Some, option_map};
ghost use Rattle.std.specs.Option.{option_copied};
ghost use Rattle.sq_term.specs.View.{ts_tree, term_tree, term_trees};
ghost use Rattle.sq_system.specs.Sequents.{sequent_tree};
ghost use Rattle.sq_sequent.specs.Places as spec;
ghost use Rattle.sq_sequent.specs.Places.{reached, reached_by, node_tree, idx_node, inner_times};
ghost use Rattle.sq_sequent.specs.Places.{ts_nodes, inner_nodes, all_nodes, nodes};

use crate::views::{goal_of, hyp_of, items_of};
use sq_step::{IdxArg, Place, TermArg, TsArg};
use sq_system::Sequent;
use sq_term::{Idx, Term, Ts};
use sqlite_items::{Boxed, at};

/// What stands at a node.
#[derive(Clone, Copy)]
pub enum Node<'a> {
    Term(&'a Term),
    Time(&'a Ts),
    Index(Idx),
}

// Each walk answers the node with this number, or by how much the number passes the nodes.
#[tactic(auto, using(crate::proofs::Walks::list_rules))]
fn index_node(indices: &[Idx], k: usize) -> Result<Node<'_>, usize>
    ensures { reached_by result ≡ reached (map idx_node indices.now) k }
{
    match at(indices, k) {
        Some(i) => Ok(Node::Index(*i)),
        None => Err(k.saturating_sub(indices.len())),
    }
}

#[tactic(auto, using(crate::proofs::Walks::walk_rules))]
fn inner_time(t: &Ts, k: usize) -> Result<Node<'_>, usize>
    ensures { reached_by result ≡ reached (inner_times (ts_tree t.now)) k }
{
    match t {
        Ts::Free(_) | Ts::Bound(_) | Ts::Init => Err(k),
        Ts::Pred(inner) => {
            if k == 0 {
                Ok(Node::Time(inner.get()))
            } else {
                inner_time(inner.get(), k - 1)
            }
        }
        Ts::Act(_, indices) => index_node(indices.as_slice(), k),
    }
}

#[tactic(auto, using(crate::proofs::Walks::list_rules))]
fn time_node(t: &Ts, k: usize) -> Result<Node<'_>, usize>
    ensures { reached_by result ≡ reached (ts_nodes (ts_tree t.now)) k }
{
    if k == 0 {
        Ok(Node::Time(t))
    } else {
        inner_time(t, k - 1)
    }
}

#[tactic(auto, using(crate::proofs::Walks::list_rules))]
fn node_of_two<'a>(a: &'a Ts, b: &'a Ts, k: usize) -> Result<Node<'a>, usize>
    ensures { reached_by result ≡ reached (ts_nodes (ts_tree a.now) ++ ts_nodes (ts_tree b.now)) k }
{
    match time_node(a, k) {
        Ok(node) => Ok(node),
        Err(rest) => time_node(b, rest),
    }
}

// The nodes behind the term itself.
#[cycle(walk)]
#[tactic(auto, using(crate::proofs::Walks::walk_rules))]
fn inner_node(t: &Term, k: usize) -> Result<Node<'_>, usize>
    ensures { reached_by result ≡ reached (inner_nodes (term_tree t.now)) k }
{
    match t {
        Term::Name(_, indices) => index_node(indices.as_slice(), k),
        Term::Fun(_, indices, args) => match index_node(indices.as_slice(), k) {
            Ok(node) => Ok(node),
            Err(rest) => node_among(args.as_slice(), rest),
        },
        Term::Macro(_, time) | Term::Happens(time) => time_node(time, k),
        Term::Schema(_) => Err(k),
        Term::Diff(left, right) => match part_node(left, k) {
            Ok(node) => Ok(node),
            Err(rest) => part_node(right, rest),
        },
        Term::Le(a, b) | Term::TsEq(a, b) => node_of_two(a, b, k),
        Term::IdxEq(i, j) => match k {
            0 => Ok(Node::Index(*i)),
            1 => Ok(Node::Index(*j)),
            _ => Err(k - 2),
        },
        Term::Forall(_, body) | Term::Exists(_, body) => part_node(body, k),
        Term::Find(_, test, found, other) => match part_node(test, k) {
            Ok(node) => Ok(node),
            Err(rest) => match part_node(found, rest) {
                Ok(node) => Ok(node),
                Err(rest) => part_node(other, rest),
            },
        },
    }
}

#[cycle(walk)]
#[tactic(auto, using(crate::proofs::Walks::list_rules))]
fn part_node(t: &Boxed<Term>, k: usize) -> Result<Node<'_>, usize>
    ensures { reached_by result ≡ reached (nodes (term_tree t.now)) k }
{
    if k == 0 {
        Ok(Node::Term(t.get()))
    } else {
        inner_node(t.get(), k - 1)
    }
}

#[cycle(walk)]
#[tactic(auto, using(crate::proofs::Walks::walk_rules))]
fn node_among(terms: &[Term], k: usize) -> Result<Node<'_>, usize>
    ensures { reached_by result ≡ reached (all_nodes (term_trees terms.now)) k }
{
    let mut rest = k;
    for term in terms {
        if rest == 0 {
            return Ok(Node::Term(term));
        }
        match inner_node(term, rest - 1) {
            Ok(node) => return Ok(node),
            Err(left) => rest = left,
        }
    }
    Err(rest)
}

#[tactic(auto, using(crate::proofs::Walks::list_rules))]
fn term_node(t: &Term, k: usize) -> Result<Node<'_>, usize>
    ensures { reached_by result ≡ reached (nodes (term_tree t.now)) k }
{
    if k == 0 {
        Ok(Node::Term(t))
    } else {
        inner_node(t, k - 1)
    }
}

fn at_place(s: &Sequent, place: Place) -> Option<&Term>
    ensures { option_map term_tree (option_copied result)
        ≡ spec.at_place (sequent_tree s.now) place }
{
    match place {
        Place::Goal => goal_of(s),
        Place::Hyp(h) => hyp_of(s, h),
        Place::Left(j) => match at(items_of(s), j as usize) {
            Some(item) => Some(&item.left),
            None => None,
        },
        Place::Right(j) => match at(items_of(s), j as usize) {
            Some(item) => Some(&item.right),
            None => None,
        },
    }
}

#[tactic(auto, using(crate::proofs::Walks::list_rules))]
fn node_at(s: &Sequent, place: Place, k: u32) -> Option<Node<'_>>
    ensures { option_map node_tree result
        ≡ spec.node_in (spec.at_place (sequent_tree s.now) place) k }
{
    match at_place(s, place) {
        Some(t) => match term_node(t, k as usize) {
            Ok(node) => Some(node),
            Err(_) => None,
        },
        None => None,
    }
}

fn as_term<'a>(node: Node<'a>) -> Option<&'a Term>
    ensures { option_map term_tree (option_copied result)
        ≡ spec.as_term (Some (node_tree node.entry)) }
{
    match node {
        Node::Term(t) => Some(t),
        Node::Time(_) => None,
        Node::Index(_) => None,
    }
}

fn as_time<'a>(node: Node<'a>) -> Option<&'a Ts>
    ensures { option_map ts_tree (option_copied result) ≡ spec.as_ts (Some (node_tree node.entry)) }
{
    match node {
        Node::Time(t) => Some(t),
        Node::Term(_) => None,
        Node::Index(_) => None,
    }
}

fn as_index(node: Node) -> Option<Idx>
    ensures { result ≡ spec.as_idx (Some (node_tree node.entry)) }
{
    match node {
        Node::Index(i) => Some(i),
        Node::Term(_) => None,
        Node::Time(_) => None,
    }
}

/// The term that the argument names, where it names one.
#[tactic(auto, unfolding(crate::specs::Places::term_at))]
pub fn term_at<'a>(s: &'a Sequent, arg: &'a TermArg) -> Option<&'a Term>
    ensures { option_map term_tree (option_copied result)
        ≡ spec.term_at (sequent_tree s.now) arg.now }
{
    match arg {
        TermArg::At(place, k) => match node_at(s, *place, *k) {
            Some(node) => as_term(node),
            None => None,
        },
        TermArg::Written(t) => Some(t),
    }
}

/// The timestamp that the argument names, where it names one.
#[tactic(auto, unfolding(crate::specs::Places::ts_at))]
pub fn ts_at<'a>(s: &'a Sequent, arg: &'a TsArg) -> Option<&'a Ts>
    ensures { option_map ts_tree (option_copied result) ≡ spec.ts_at (sequent_tree s.now) arg.now }
{
    match arg {
        TsArg::At(place, k) => match node_at(s, *place, *k) {
            Some(node) => as_time(node),
            None => None,
        },
        TsArg::Written(t) => Some(t),
    }
}

/// The index that the argument names, where it names one.
#[tactic(auto, unfolding(crate::specs::Places::idx_at))]
pub fn idx_at(s: &Sequent, arg: IdxArg) -> Option<Idx>
    ensures { result ≡ spec.idx_at (sequent_tree s.now) arg }
{
    match arg {
        IdxArg::At(place, k) => match node_at(s, place, k) {
            Some(node) => as_index(node),
            None => None,
        },
        IdxArg::Written(i) => Some(i),
    }
}
