// The row that rewrites by a hypothesis.
ghost use Rattle.std.specs.Prelude.{[], ◌∷◌, map};
ghost use Rattle.sq_base.specs.Gives.{Gives};
ghost use Rattle.sq_term.specs.View.{term_tree};
ghost use Rattle.sq_system.specs.Sequents.{item_of, sequent_tree, equiv};
ghost use Rattle.sq_sequent.specs.Logic.{sequent_trees, judged, within_limits};
ghost use Rattle.sq_sequent.specs.RewriteRow as spec;
ghost use Rattle.sq_sequent.specs.Rewriting.{item_rewritten};
ghost use Rattle.sq_sequent.specs.RewriteRow.{rewriting_tree};
ghost use Rattle.sq_sequent.specs.Views as view;

use sq_base::{Seq, Sort};
use sq_sequent::{
    Both, Dir, Rewriting, RuleFault, Sequent, Target, asking, goal_of, hyp_of, one_premise,
    rewrite, rewrite_items, rewriting_in, with_hyp_at, with_items,
};
use sq_term::Term;
use std::alloc::Global;

#[tactic(auto, using(sq_sequent::proofs::Held::held_rules))]
fn in_goal(alloc: Global, s: &Sequent, by: &Rewriting) -> Result<Seq<Sequent>, RuleFault>
    ensures { Gives RuleFault.NoMemory sequent_trees result
        (judged (spec.goal_rewritten (sequent_tree s.now) (rewriting_tree by.now)
        (view.goal_of (sequent_tree s.now)))) }
{
    match goal_of(s) {
        Some(goal) => {
            let goal = rewrite(alloc, by, goal)?;
            one_premise(alloc, asking(alloc, s, goal)?)
        }
        None => Err(RuleFault::Shape),
    }
}

#[tactic(auto, using(sq_sequent::proofs::RewriteLimits::hyp_rules))]
fn in_hyp(alloc: Global, s: &Sequent, k: u32, by: &Rewriting) -> Result<Seq<Sequent>, RuleFault>
    ensures { Gives RuleFault.NoMemory sequent_trees result
        (judged (spec.hyp_rewritten (sequent_tree s.now) k (rewriting_tree by.now)
        (view.hyp_of (sequent_tree s.now) k))) }
{
    match hyp_of(s, k) {
        Some(hyp) => {
            let hyp = rewrite(alloc, by, hyp)?;
            one_premise(alloc, with_hyp_at(alloc, s, k, hyp)?)
        }
        None => Err(RuleFault::Shape),
    }
}

fn with_rewritten_items(
    alloc: Global,
    vars: &Seq<Sort>,
    hyps: &[Term],
    known: &[Seq<Both>],
    items: &[Both],
    by: &Rewriting,
) -> Result<Seq<Sequent>, RuleFault>
    ensures { let rewritten = map (item_rewritten (rewriting_tree by.now))
        (map item_of items.now) in
        Gives RuleFault.NoMemory sequent_trees result
        (within_limits (equiv vars.now (map term_tree hyps.now)
        (map (map item_of) known.now) rewritten ∷ [])) }
{
    match rewrite_items(alloc, by, items) {
        Ok(items) => one_premise(alloc, with_items(alloc, vars, hyps, known, items)?),
        Err(fault) => Err(fault),
    }
}

fn in_items(alloc: Global, s: &Sequent, by: &Rewriting) -> Result<Seq<Sequent>, RuleFault>
    ensures { Gives RuleFault.NoMemory sequent_trees result
        (judged (spec.items_rewritten (sequent_tree s.now) (rewriting_tree by.now))) }
{
    match s {
        Sequent::Trace { .. } | Sequent::Local { .. } => Err(RuleFault::Shape),
        Sequent::Equiv {
            vars,
            hyps,
            known,
            items,
        } => with_rewritten_items(
            alloc,
            vars,
            hyps.as_slice(),
            known.as_slice(),
            items.as_slice(),
            by,
        ),
    }
}

fn at_target(
    alloc: Global,
    s: &Sequent,
    h: u32,
    target: Target,
    by: &Rewriting,
) -> Result<Seq<Sequent>, RuleFault>
    ensures { Gives RuleFault.NoMemory sequent_trees result
        (judged (spec.rewriting_at (sequent_tree s.now) h target (rewriting_tree by.now))) }
{
    match target {
        Target::Goal => in_goal(alloc, s, by),
        Target::Items => in_items(alloc, s, by),
        Target::Hyp(k) => {
            if k == h {
                Err(RuleFault::Shape)
            } else {
                in_hyp(alloc, s, k, by)
            }
        }
    }
}

/// By an equation, or in a Local sequent an equivalence: a side of it for the other at each of its
/// occurrences in the target.
pub fn rew(
    alloc: Global,
    s: &Sequent,
    h: u32,
    dir: Dir,
    target: Target,
) -> Result<Seq<Sequent>, RuleFault>
    ensures { Gives RuleFault.NoMemory sequent_trees result
        (judged (spec.rew_row (sequent_tree s.now) h target
        (spec.rewriting_of (sequent_tree s.now) dir (view.hyp_of (sequent_tree s.now) h)))) }
{
    match rewriting_in(s, dir, hyp_of(s, h)) {
        Some(by) => at_target(alloc, s, h, target, &by),
        None => Err(RuleFault::Shape),
    }
}
