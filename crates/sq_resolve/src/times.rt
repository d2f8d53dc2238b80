// Indices and timestamps.
ghost use Rattle.std.specs.Prelude.{◌≡◌, length};
ghost use Rattle.sq_base.specs.Gives.{Gives};
ghost use Rattle.sq_ast.specs.View.{formula_tree, formula_trees};
ghost use Rattle.sq_term.specs.View.{ts_tree};
ghost use Rattle.sq_resolve.specs.Heads.{context_of};
ghost use Rattle.sq_resolve.specs.Scopes.{meaning};
ghost use Rattle.sq_resolve.specs.Resolved.{index_of, indices_of, time_of, judged, as_moment};
ghost use Rattle.sq_resolve.specs.Resolved as spec;

use crate::fault::ResolveFault;
use crate::head::Resolver;
use crate::judge::{Moment, index_head, moment_head, own_sort};
use crate::shape::{Shape, shape_of};
use sq_ast::{Constant, Formula, Unary};
use sq_base::{Seq, Sort, Text};
use sq_term::{Idx, Ts};
use sqlite_items::Boxed;

#[tactic(auto, using(crate::proofs::Rows::count_formula_trees))]
pub fn index(r: &Resolver<'_>, binders: &[(Text, Sort)], f: &Formula) -> Result<Idx, ResolveFault>
    ensures { Gives ResolveFault.NoMemory (λ i. i) result
        (index_of (context_of r.now) binders.now (formula_tree f.now)) }
{
    match shape_of(f) {
        Shape::Group(a) => index(r, binders, a),
        Shape::Name(name) => index_head(r, binders, name, 0),
        Shape::Apply(name, args) => index_head(r, binders, name, args.len()),
        _ => Err(ResolveFault::SortClash(Sort::Index, own_sort(r, binders, f))),
    }
}

pub fn indices(
    r: &Resolver<'_>,
    binders: &[(Text, Sort)],
    args: &[Formula],
) -> Result<Seq<Idx>, ResolveFault>
    ensures { Gives ResolveFault.NoMemory (λ is. is) result
        (indices_of (context_of r.now) binders.now (formula_trees args.now)) }
{
    let mut found = Seq::new(r.alloc);
    for arg in args {
        let i = index(r, binders, arg)?;
        found.push(i)?;
    }
    Ok(found)
}

#[tactic(auto, using(sq_term::proofs::Views::tree_rules))]
fn at_indices(
    r: &Resolver<'_>,
    binders: &[(Text, Sort)],
    name: &Text,
    args: &[Formula],
) -> Result<Ts, ResolveFault>
    ensures { Gives ResolveFault.NoMemory ts_tree result
        (spec.at_indices
        (judged as_moment Sort.Timestamp name.now (length args.now)
        (meaning (context_of r.now) binders.now name.now))
        (indices_of (context_of r.now) binders.now (formula_trees args.now))) }
{
    match moment_head(r, binders, name, args.len())? {
        Moment::Time(t) => Ok(t),
        Moment::Instance(a) => {
            let indices = indices(r, binders, args)?;
            Ok(Ts::Act(a, indices))
        }
    }
}

#[tactic(auto, using(sq_term::proofs::Views::tree_rules, crate::proofs::Rows::count_formula_trees))]
pub fn time(r: &Resolver<'_>, binders: &[(Text, Sort)], f: &Formula) -> Result<Ts, ResolveFault>
    ensures { Gives ResolveFault.NoMemory ts_tree result
        (time_of (context_of r.now) binders.now (formula_tree f.now)) }
{
    match shape_of(f) {
        Shape::Group(a) => time(r, binders, a),
        Shape::Constant(Constant::Init) => Ok(Ts::Init),
        Shape::Unary(Unary::Pred, a) => {
            let before = time(r, binders, a)?;
            Ok(Ts::Pred(Boxed::new(r.alloc, before)?))
        }
        Shape::Name(name) => at_indices(r, binders, name, &[]),
        Shape::Apply(name, args) => at_indices(r, binders, name, args),
        _ => Err(ResolveFault::SortClash(Sort::Timestamp, own_sort(r, binders, f))),
    }
}
