// The first places of a tree, judged by themselves. Nothing is built.
ghost use Rattle.std.specs.Prelude.{◌≡◌, ◌≢◌, ◌++◌, if◌then◌else◌, MatchOption, None, OnOk, Some, take};
ghost use Rattle.sq_ast.specs.View.{formula_tree, formula_trees};
ghost use Rattle.sq_resolve.specs.Among as among;
ghost use Rattle.sq_resolve.specs.Among.{Judges, Tells, behind};
ghost use Rattle.sq_resolve.specs.Heads.{context_of};
ghost use Rattle.sq_resolve.specs.Places as spec;
ghost use Rattle.sq_resolve.specs.Places.{argument_places, first_fault, places};
ghost use Rattle.sq_resolve.specs.Resolved as resolved;
ghost use Rattle.sq_resolve.specs.Resolved.{group_variables, variables};
ghost use Rattle.sq_resolve.specs.Scopes as scopes;
ghost use Rattle.sq_resolve.specs.Shapes.{shape_tree};

use crate::fault::ResolveFault;
use crate::head::{Head, Resolver, meaning};
use crate::judge::{index_head, moment_head, own_sort, value_head};
use crate::leaves::expect;
use crate::names::{bind_no_message, is_binder_sort, push_groups, push_names};
use crate::shape::{Shape, shape_of};
use crate::walk::Around;
use sq_ast::{Binary, Binders, Formula, Unary};
use sq_base::{Sort, Text};

fn identifier(
    r: &Resolver<'_>,
    binders: &[(Text, Sort)],
    want: Sort,
    name: &Text,
    args: usize,
) -> Result<(), ResolveFault>
    ensures { Tells result
        (spec.identifier_fault want name.now args
        (scopes.meaning (context_of r.now) binders.now name.now)) }
{
    match want {
        Sort::Index => {
            index_head(r, binders, name, args)?;
            Ok(())
        }
        Sort::Timestamp => {
            moment_head(r, binders, name, args)?;
            Ok(())
        }
        Sort::Message | Sort::Boolean => {
            value_head(r, binders, want, name, args)?;
            Ok(())
        }
    }
}

fn bound(want: Sort, groups: &[Binders]) -> Result<(), ResolveFault>
    ensures { Tells result
        (scopes.first_some (spec.clash want Sort.Boolean)
        (if resolved.bind_no_message groups.now then None
        else Some ResolveFault.MessageQuantifier)) }
{
    expect(want, Sort::Boolean)?;
    if bind_no_message(groups) {
        Ok(())
    } else {
        Err(ResolveFault::MessageQuantifier)
    }
}

/// The fault of a tree at its place, apart from those of its parts.
#[tactic(auto, using(crate::proofs::Rows::count_formula_trees))]
fn own_fault(
    r: &Resolver<'_>,
    binders: &[(Text, Sort)],
    want: Sort,
    f: &Formula,
) -> Result<(), ResolveFault>
    ensures { Tells result (spec.own_fault (context_of r.now) binders.now want
        (formula_tree f.now)) }
{
    match shape_of(f) {
        Shape::Group(_) => Ok(()),
        Shape::Quantified(_, groups, _) => bound(want, groups),
        Shape::Diff(_, _) if is_binder_sort(want) => {
            Err(ResolveFault::SortClash(want, own_sort(r, binders, f)))
        }
        Shape::Diff(_, _) => Ok(()),
        Shape::Name(name) => identifier(r, binders, want, name, 0),
        Shape::Apply(name, args) => identifier(r, binders, want, name, args.len()),
        _ => expect(want, own_sort(r, binders, f)),
    }
}

fn operand_sort(o: Binary, own: Sort) -> Sort
    ensures { result ≡ spec.operand_sort o own }
{
    match o {
        Binary::Equal | Binary::NotEqual => match own {
            Sort::Boolean => Sort::Message,
            _ => own,
        },
        Binary::LessEqual | Binary::Less => Sort::Timestamp,
        Binary::Implies | Binary::Or | Binary::And => Sort::Boolean,
    }
}

fn part_sort(u: Unary) -> Sort
    ensures { result ≡ spec.part_sort u }
{
    match u {
        Unary::Not | Unary::OfBool => Sort::Boolean,
        Unary::Fst | Unary::Snd => Sort::Message,
        Unary::Happens | Unary::Pred => Sort::Timestamp,
    }
}

fn index_count(head: Option<Head>) -> usize
    ensures { result ≡ spec.index_count head }
{
    match head {
        Some(Head::Name(_, indices) | Head::Action(_, indices)) => indices as usize,
        Some(Head::Function(_, indices, _, _)) => indices as usize,
        _ => 0,
    }
}

fn argument_sort(at: usize, indices: usize) -> Sort
    ensures { result ≡ among.argument_sort at indices }
{
    if at < indices {
        Sort::Index
    } else {
        Sort::Message
    }
}

/// The first fault among the first `count` places of a formula.
pub fn first_fault_among(
    r: &Resolver<'_>,
    around: &mut Around,
    want: Sort,
    f: &Formula,
    count: usize,
) -> Option<ResolveFault>
    ensures { MatchOption result
        (first_fault (context_of r.now)
        (take count (places (context_of r.now) around.old want (formula_tree f.now))) ≡ None)
        (λ e. e ≢ ResolveFault.NoMemory
        → first_fault (context_of r.now)
        (take count (places (context_of r.now) around.old want (formula_tree f.now))) ≡ Some e) }
{
    match judge_places(r, around, want, f, count) {
        Ok(_) => None,
        Err(fault) => Some(fault),
    }
}

#[cycle(places)]
#[tactic(auto, using(crate::proofs::Among::judging_rules))]
fn judge_places(
    r: &Resolver<'_>,
    around: &mut Around,
    want: Sort,
    f: &Formula,
    count: usize,
) -> Result<usize, ResolveFault>
    ensures judged { Judges (context_of r.now) count
        (places (context_of r.now) around.old want (formula_tree f.now)) result }
    ensures kept { OnOk result (around.new ≡ around.old) }
{
    if count == 0 {
        return Ok(0);
    }
    own_fault(r, around.as_slice(), want, f)?;
    judge_parts(r, around, want, shape_of(f), count - 1)
}

#[cycle(places)]
#[tactic(auto, using(crate::proofs::Among::judges_nothing))]
fn judge_parts(
    r: &Resolver<'_>,
    around: &mut Around,
    want: Sort,
    shape: Shape<'_>,
    count: usize,
) -> Result<usize, ResolveFault>
    ensures judged { Judges (context_of r.now) count
        (behind (places (context_of r.now) around.old want (shape_tree shape.entry))) result }
    ensures kept { OnOk result (around.new ≡ around.old) }
{
    match shape {
        Shape::Constant(_) => Ok(count),
        Shape::Name(_) => Ok(count),
        Shape::Group(a) => judge_places(r, around, want, a, count),
        Shape::Value(_, a) => judge_places(r, around, Sort::Timestamp, a, count),
        Shape::Unary(u, a) => judge_places(r, around, part_sort(u), a, count),
        Shape::Quantified(_, groups, a) => judge_bound(r, around, groups, a, count),
        Shape::Binary(o, a, b) => {
            let part = operand_sort(o, own_sort(r, around.as_slice(), a));
            judge_two(r, around, part, a, b, count)
        }
        Shape::Pair(a, b) => judge_two(r, around, Sort::Message, a, b, count),
        Shape::Diff(a, b) => judge_two(r, around, want, a, b, count),
        Shape::Conditional(a, b, c) => judge_conditional(r, around, a, b, c, count),
        Shape::Find(names, a, b, c) => judge_search(r, around, names, a, b, c, count),
        Shape::Apply(name, args) => {
            let indices = index_count(meaning(r, around.as_slice(), name.as_str()));
            judge_arguments(r, around, indices, args, count)
        }
    }
}

#[cycle(places)]
#[tactic(auto, using(crate::proofs::Among::judges_then, crate::proofs::Among::judges_fault))]
fn judge_two(
    r: &Resolver<'_>,
    around: &mut Around,
    want: Sort,
    a: &Formula,
    b: &Formula,
    count: usize,
) -> Result<usize, ResolveFault>
    ensures judged { Judges (context_of r.now) count
        (places (context_of r.now) around.old want (formula_tree a.now)
        ++ places (context_of r.now) around.old want (formula_tree b.now)) result }
    ensures kept { OnOk result (around.new ≡ around.old) }
{
    let left = judge_places(r, around, want, a, count)?;
    judge_places(r, around, want, b, left)
}

#[cycle(places)]
#[tactic(auto, using(crate::proofs::Among::judges_then, crate::proofs::Among::judges_fault))]
fn judge_conditional(
    r: &Resolver<'_>,
    around: &mut Around,
    a: &Formula,
    b: &Formula,
    c: &Formula,
    count: usize,
) -> Result<usize, ResolveFault>
    ensures judged { Judges (context_of r.now) count
        (places (context_of r.now) around.old Sort.Boolean (formula_tree a.now)
        ++ (places (context_of r.now) around.old Sort.Message (formula_tree b.now)
        ++ places (context_of r.now) around.old Sort.Message (formula_tree c.now))) result }
    ensures kept { OnOk result (around.new ≡ around.old) }
{
    let left = judge_places(r, around, Sort::Boolean, a, count)?;
    judge_two(r, around, Sort::Message, b, c, left)
}

#[cycle(places)]
fn judge_bound(
    r: &Resolver<'_>,
    around: &mut Around,
    groups: &[Binders],
    a: &Formula,
    count: usize,
) -> Result<usize, ResolveFault>
    ensures judged { Judges (context_of r.now) count
        (places (context_of r.now) (around.old ++ variables groups.now) Sort.Boolean
        (formula_tree a.now)) result }
    ensures kept { OnOk result (around.new ≡ around.old) }
{
    let outer = around.len();
    push_groups(r.alloc, around, groups)?;
    let left = judge_places(r, around, Sort::Boolean, a, count)?;
    around.truncate(outer);
    Ok(left)
}

#[cycle(places)]
fn judge_search(
    r: &Resolver<'_>,
    around: &mut Around,
    names: &[Text],
    a: &Formula,
    b: &Formula,
    c: &Formula,
    count: usize,
) -> Result<usize, ResolveFault>
    ensures judged { Judges (context_of r.now) count
        (places (context_of r.now) (around.old ++ group_variables Sort.Index names.now)
        Sort.Boolean (formula_tree a.now)
        ++ (places (context_of r.now) (around.old ++ group_variables Sort.Index names.now)
        Sort.Message (formula_tree b.now)
        ++ places (context_of r.now) around.old Sort.Message (formula_tree c.now))) result }
    ensures kept { OnOk result (around.new ≡ around.old) }
{
    let outer = around.len();
    push_names(r.alloc, around, names, Sort::Index)?;
    let first = judge_places(r, around, Sort::Boolean, a, count)?;
    let second = judge_places(r, around, Sort::Message, b, first)?;
    around.truncate(outer);
    judge_places(r, around, Sort::Message, c, second)
}

// The first of the arguments are indices, the others messages.
#[cycle(places)]
fn judge_arguments(
    r: &Resolver<'_>,
    around: &mut Around,
    indices: usize,
    args: &[Formula],
    count: usize,
) -> Result<usize, ResolveFault>
    ensures judged { Judges (context_of r.now) count
        (argument_places (context_of r.now) around.old indices (formula_trees args.now)) result }
    ensures kept { OnOk result (around.new ≡ around.old) }
{
    let mut left = count;
    for (at, arg) in args.iter().enumerate() {
        left = judge_places(r, around, argument_sort(at, indices), arg, left)?;
    }
    Ok(left)
}
