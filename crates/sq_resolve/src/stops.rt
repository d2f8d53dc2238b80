// Where the walk over a process stops in a formula.
ghost use Rattle.std.specs.Prelude.{◌≡◌, ◌+◌, ◌++◌, ◌≤◌, MatchResult, None, Some};
ghost use Rattle.sq_ast.specs.View.{formula_tree, formula_trees};
ghost use Rattle.sq_resolve.specs.Limits.{most_formula_depth};
ghost use Rattle.sq_resolve.specs.Shapes.{shape_tree};
ghost use Rattle.sq_resolve.specs.Stops as spec;
ghost use Rattle.sq_resolve.specs.Stops.{all_nodes, nodes, passed, stop_at};

use crate::built::is_within;
use crate::shape::{Shape, shape_of};
use crate::stopped::Stopped;
use sq_ast::{Binders, Constant, Formula, Unary};
use sq_base::Sort;

fn bind_timestamp(groups: &[Binders]) -> bool
    ensures { result ≡ spec.bind_timestamp groups.now }
{
    let mut any = false;
    for group in groups {
        any |= group.1 == Sort::Timestamp;
    }
    any
}

/// Whether the form is one that no process may have.
fn speaks_of_time(shape: Shape<'_>) -> bool
    ensures { result ≡ spec.speaks_of_time (shape_tree shape.entry) }
{
    match shape {
        Shape::Quantified(_, groups, _) => bind_timestamp(groups),
        Shape::Constant(k) => k == Constant::Init,
        Shape::Unary(u, _) => u == Unary::Happens || u == Unary::Pred,
        Shape::Value(_, _) => true,
        _ => false,
    }
}

// One more node than the `before` that stand before it.
fn one_more(shape: Shape<'_>, before: usize, depth: usize) -> Result<usize, Stopped>
    ensures { MatchResult result
        (λ n. (stop_at before (shape_tree shape.entry) depth ≡ None) × (n ≡ before + 1)
        × (depth ≤ most_formula_depth))
        (λ s. stop_at before (shape_tree shape.entry) depth ≡ Some s) }
{
    if speaks_of_time(shape) {
        return Err(Stopped::Time(before));
    }
    match before.checked_add(1) {
        Some(count) if is_within(count, depth) => Ok(count),
        _ => Err(Stopped::Limit(before)),
    }
}

/// How many nodes there are behind a formula whose root has this depth, where `before` stand before
/// it, or the first node of it at which the walk over a process stops: one that speaks of time, or
/// that passes the limits of a formula. Nothing is built.
#[cycle(stops)]
pub fn stop(f: &Formula, before: usize, depth: usize) -> Result<usize, Stopped>
    ensures { result ≡ passed before (nodes depth (formula_tree f.now)) }
{
    let shape = shape_of(f);
    let here = one_more(shape, before, depth)?;
    let inner = depth + 1;
    match shape {
        Shape::Constant(_) => Ok(here),
        Shape::Name(_) => Ok(here),
        Shape::Quantified(_, _, a) => stop(a, here, inner),
        Shape::Group(a) => stop(a, here, inner),
        Shape::Unary(_, a) => stop(a, here, inner),
        Shape::Value(_, a) => stop(a, here, inner),
        Shape::Binary(_, a, b) => stop_in_two(a, b, here, inner),
        Shape::Pair(a, b) => stop_in_two(a, b, here, inner),
        Shape::Diff(a, b) => stop_in_two(a, b, here, inner),
        Shape::Conditional(a, b, c) => stop_in_three(a, b, c, here, inner),
        Shape::Find(_, a, b, c) => stop_in_three(a, b, c, here, inner),
        Shape::Apply(_, args) => stop_among(args, here, inner),
    }
}

#[cycle(stops)]
#[tactic(auto, using(crate::proofs::Passes::passed_fault, crate::proofs::Passes::passed_next))]
fn stop_in_two(a: &Formula, b: &Formula, before: usize, depth: usize) -> Result<usize, Stopped>
    ensures { result ≡ passed before
        (nodes depth (formula_tree a.now) ++ nodes depth (formula_tree b.now)) }
{
    let next = stop(a, before, depth)?;
    stop(b, next, depth)
}

#[cycle(stops)]
#[tactic(auto, using(crate::proofs::Passes::passed_fault, crate::proofs::Passes::passed_next))]
fn stop_in_three(
    a: &Formula,
    b: &Formula,
    c: &Formula,
    before: usize,
    depth: usize,
) -> Result<usize, Stopped>
    ensures { result ≡ passed before
        (nodes depth (formula_tree a.now)
        ++ (nodes depth (formula_tree b.now) ++ nodes depth (formula_tree c.now))) }
{
    let next = stop(a, before, depth)?;
    stop_in_two(b, c, next, depth)
}

#[cycle(stops)]
#[tactic(auto, using(crate::proofs::Passes::among_fault, crate::proofs::Passes::among_next))]
fn stop_among(args: &[Formula], before: usize, depth: usize) -> Result<usize, Stopped>
    ensures { result ≡ passed before (all_nodes depth (formula_trees args.now)) }
{
    let mut count = before;
    for arg in args {
        count = stop(arg, count, depth)?;
    }
    Ok(count)
}
