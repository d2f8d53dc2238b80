// Terms become ground terms.
ghost use Rattle.std.specs.Prelude.{◌≡◌, ◌-◌, ◌<◌, ◌^◌, length, map};
ghost use Rattle.sq_term.specs.View.{term_tree, term_trees};
ghost use Rattle.sq_term.specs.Translate as spec;
ghost use Rattle.sq_ground.specs.Calls.Builds.{Builds, BuildsAll};
ghost use Rattle.sq_ground.specs.Calls.Readings.{seen, given};
ghost use Rattle.sq_ground.specs.Calls.Rows.{BuildsEach};

use crate::building::{an_atom, apply, name, truth};
use crate::built::{Arguments, Built};
use crate::instances::{choices, over_domain};
use crate::instant::{idx_value, idx_values, is_same_time, is_upto, ts_value};
use crate::macros::macro_value;
use crate::reading::Reading;
use crate::row::{Row, join, nest};
use sq_base::Seq;
use sq_term::{Builtin, SizeFault, Term, Value};
use sqlite_items::{Boxed, Items};
use std::alloc::Global;

/// The ground term of a term. `bs` are the values of the binders around, the innermost first.
#[cycle(build)]
#[tactic(auto, using(sq_term::proofs::Views::tree_rules))]
pub fn build(
    alloc: Global,
    t: &Term,
    w: &Reading,
    bs: &[Value],
    room: usize,
) -> Result<Built, SizeFault>
    requires { length w.now.model.now.list < 2 ^ 32 - 1 }
    ensures { Builds room (spec.translate (seen w.now) (given w.now) bs.now (term_tree t.now))
        result }
{
    match t {
        Term::Name(n, is) => name(*n, idx_values(alloc, w, bs, is.as_slice())?, room),
        Term::Fun(f, is, args) => {
            let args = build_all(alloc, args.as_slice(), w, bs, room)?;
            apply(*f, idx_values(alloc, w, bs, is.as_slice())?, args, room)
        }
        Term::Macro(m, at) => {
            let at = ts_value(alloc, w, bs, at)?;
            macro_value(alloc, w, *m, at, room)
        }
        Term::Schema(k) => an_atom(*k, room),
        Term::Diff(left, right) => {
            if w.left {
                build(alloc, left.get(), w, bs, room)
            } else {
                build(alloc, right.get(), w, bs, room)
            }
        }
        Term::Le(s, t) => {
            let s = ts_value(alloc, w, bs, s)?;
            let t = ts_value(alloc, w, bs, t)?;
            truth(alloc, is_upto(s, t), room)
        }
        Term::TsEq(s, t) => {
            let s = ts_value(alloc, w, bs, s)?;
            let t = ts_value(alloc, w, bs, t)?;
            truth(alloc, is_same_time(s, t), room)
        }
        Term::IdxEq(i, j) => truth(alloc, idx_value(w, bs, *i) == idx_value(w, bs, *j), room),
        Term::Happens(at) => {
            let at = ts_value(alloc, w, bs, at)?;
            truth(alloc, at.is_some(), room)
        }
        Term::Forall(sort, body) => {
            let lists = over_domain(alloc, w.model, *sort, bs)?;
            let row = build_each(alloc, body, w, lists.as_slice(), room)?;
            join(alloc, Builtin::And, Builtin::True, row, room)
        }
        Term::Exists(sort, body) => {
            let lists = over_domain(alloc, w.model, *sort, bs)?;
            let row = build_each(alloc, body, w, lists.as_slice(), room)?;
            join(alloc, Builtin::Or, Builtin::False, row, room)
        }
        Term::Find(c, test, found, other) => {
            let lists = choices(alloc, w.model, *c, bs)?;
            let tests = build_each(alloc, test, w, lists.as_slice(), room)?;
            let left = room - tests.size;
            let founds = build_each(alloc, found, w, lists.as_slice(), left)?;
            let left = left - founds.size;
            let other = build(alloc, other.get(), w, bs, left)?;
            nest(alloc, tests, founds, other, room)
        }
    }
}

#[cycle(build)]
#[tactic(auto, using(sq_term::proofs::Views::tree_rules))]
fn build_all(
    alloc: Global,
    terms: &[Term],
    w: &Reading,
    bs: &[Value],
    room: usize,
) -> Result<Arguments, SizeFault>
    requires { length w.now.model.now.list < 2 ^ 32 - 1 }
    ensures { BuildsAll room
        (spec.translate_all (seen w.now) (given w.now) bs.now (term_trees terms.now)) result }
{
    let mut out = Items::new(alloc);
    let mut nodes: usize = 0;
    let mut deepest: usize = 0;
    for t in terms {
        let Built { term, size, depth } = build(alloc, t, w, bs, room - nodes)?;
        nodes += size;
        deepest = deepest.max(depth);
        out.push(term)?;
    }
    Ok(Arguments {
        terms: out,
        size: nodes,
        depth: deepest,
    })
}

// The body with each of these lists as the values of its binders.
#[cycle(build)]
#[tactic(auto, using(sq_term::proofs::Views::tree_rules))]
fn build_each(
    alloc: Global,
    body: &Boxed<Term>,
    w: &Reading,
    lists: &[Seq<Value>],
    room: usize,
) -> Result<Row, SizeFault>
    requires { length w.now.model.now.list < 2 ^ 32 - 1 }
    ensures { BuildsEach room
        (map (λ bs. spec.translate (seen w.now) (given w.now) bs (term_tree body.now)) lists.now)
        result }
{
    let mut parts = Items::new(alloc);
    let mut nodes: usize = 0;
    for bs in lists {
        let part = build(alloc, body.get(), w, bs.as_slice(), room - nodes)?;
        nodes += part.size;
        parts.push(part)?;
    }
    Ok(Row { parts, size: nodes })
}
