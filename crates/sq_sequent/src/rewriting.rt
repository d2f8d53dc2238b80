// What a hypothesis rewrites, and what it makes of terms.
ghost use Rattle.std.specs.Prelude.{◌≡◌, ◌<◌, length, IfOk, MatchResult, map, option_map};
ghost use Rattle.std.specs.Prelude.{option_copied, slice_set};
ghost use Rattle.sq_base.specs.Gives.{Gives};
ghost use Rattle.sq_term.specs.Formulas.{both};
ghost use Rattle.sq_system.specs.Limits.{most_nodes};
ghost use Rattle.sq_term.specs.View.{term_tree};
ghost use Rattle.sq_term.specs.declared.term.SizeFault.TheVariants as size_fault;
ghost use Rattle.sq_subst.specs.Room.{within};
ghost use Rattle.sq_system.specs.Sequents.{item_of, sequent_tree, equiv};
ghost use Rattle.sq_system.specs.Sequents as sequents;
ghost use Rattle.sq_sequent.specs.Premises as premises;
ghost use Rattle.sq_sequent.specs.RewriteRow as spec;
ghost use Rattle.sq_sequent.specs.Rewriting as rewriting;
ghost use Rattle.sq_sequent.specs.Rewriting.{rewritten, item_rewritten};
ghost use Rattle.sq_sequent.specs.RewriteRow.{rewriting_tree, item_fits, items_fit};
ghost use Rattle.sq_formula.specs.Refusals.{IsPastLimits};
ghost use Rattle.sq_sequent.specs.Logic.{held};

use crate::premises::{copy_known, copy_sorts, copy_terms, push_copies, with_hyps};
use crate::views::hyps_of;
use sq_base::{NoMemory, Seq, Sort};
use sq_formula::{Shape, is_same, shape_of};
use sq_step::Dir;
use sq_subst::{SizeFault, replace_idx, replace_term, replace_ts};
use sq_system::{Both, MOST_NODES, RuleFault, Sequent};
use sq_term::{Idx, Term, Ts};
use std::alloc::Global;

/// What is replaced, and by what.
#[derive(Clone, Copy)]
pub enum Rewriting<'a> {
    Terms(&'a Term, &'a Term),
    Times(&'a Ts, &'a Ts),
    Indices(Idx, Idx),
}

#[tactic(auto, using(crate::proofs::RewriteShapes::equation_rules))]
fn by_equation(t: &Term) -> Option<Rewriting<'_>>
    ensures { option_map rewriting_tree result ≡ spec.by_equation (term_tree t.now) }
{
    match shape_of(Some(t)) {
        Shape::Equal(a, b) => Some(Rewriting::Terms(a, b)),
        Shape::EqualTimes(a, b) => Some(Rewriting::Times(a, b)),
        Shape::EqualIndices(i, j) => Some(Rewriting::Indices(i, j)),
        _ => None,
    }
}

// Of `there && back`, which are to be `a => b` and `b => a`.
#[tactic(auto, using(crate::proofs::RewriteShapes::half_rules))]
fn by_halves<'a>(there: &'a Term, back: &Term) -> Option<Rewriting<'a>>
    ensures { option_map rewriting_tree result
        ≡ spec.by_equivalence (both (term_tree there.now) (term_tree back.now)) }
{
    match shape_of(Some(there)) {
        Shape::Implies(a, b) => match shape_of(Some(back)) {
            Shape::Implies(c, d) => {
                if is_same(a, d) && is_same(b, c) {
                    Some(Rewriting::Terms(a, b))
                } else {
                    None
                }
            }
            _ => None,
        },
        _ => None,
    }
}

#[tactic(auto, using(crate::proofs::RewriteShapes::equivalence_rules))]
fn by_equivalence(t: &Term) -> Option<Rewriting<'_>>
    ensures { option_map rewriting_tree result ≡ spec.by_equivalence (term_tree t.now) }
{
    match shape_of(Some(t)) {
        Shape::And(there, back) => by_halves(there, back),
        _ => None,
    }
}

fn read_in<'a>(s: &Sequent, t: &'a Term) -> Option<Rewriting<'a>>
    ensures { option_map rewriting_tree result
        ≡ spec.read_in (sequent_tree s.now) (term_tree t.now) }
{
    match by_equation(t) {
        Some(by) => Some(by),
        None => match s {
            Sequent::Local { .. } => by_equivalence(t),
            Sequent::Trace { .. } | Sequent::Equiv { .. } => None,
        },
    }
}

fn turned(dir: Dir, by: Rewriting) -> Rewriting
    ensures { rewriting_tree result ≡ rewriting.turned dir (rewriting_tree by.entry) }
{
    match dir {
        Dir::Forward => by,
        Dir::Backward => match by {
            Rewriting::Terms(a, b) => Rewriting::Terms(b, a),
            Rewriting::Times(a, b) => Rewriting::Times(b, a),
            Rewriting::Indices(i, j) => Rewriting::Indices(j, i),
        },
    }
}

/// What an equation rewrites in this direction, and in a Local sequent an equivalence.
#[tactic(auto, unfolding(crate::specs::RewriteRow::rewriting_of))]
pub fn rewriting_in<'a>(s: &Sequent, dir: Dir, t: Option<&'a Term>) -> Option<Rewriting<'a>>
    ensures { option_map rewriting_tree result
        ≡ spec.rewriting_of (sequent_tree s.now) dir
        (option_map term_tree (option_copied t.entry)) }
{
    match t {
        Some(t) => match read_in(s, t) {
            Some(by) => Some(turned(dir, by)),
            None => None,
        },
        None => None,
    }
}

fn replaced(alloc: Global, by: &Rewriting, t: &Term) -> Result<Term, SizeFault>
    ensures { Gives size_fault.NoMemory term_tree result
        (within most_nodes (rewritten (rewriting_tree by.now) (term_tree t.now))) }
{
    match by {
        Rewriting::Terms(from, to) => replace_term(alloc, t, from, to, MOST_NODES),
        Rewriting::Times(from, to) => replace_ts(alloc, t, from, to, MOST_NODES),
        Rewriting::Indices(from, to) => replace_idx(alloc, t, from, to, MOST_NODES),
    }
}

/// The term with each occurrence replaced, or TooLarge where no sequent may hold it.
pub fn rewrite(alloc: Global, by: &Rewriting, t: &Term) -> Result<Term, RuleFault>
    ensures { Gives RuleFault.NoMemory term_tree result
        (held (rewritten (rewriting_tree by.now) (term_tree t.now))) }
{
    Ok(replaced(alloc, by, t)?)
}

#[tactic(auto, using(crate::proofs::RewriteLimits::item_rules))]
fn rewrite_item(alloc: Global, by: &Rewriting, item: &Both) -> Result<Both, RuleFault>
    ensures { MatchResult result
        (λ c. item_of c ≡ item_rewritten (rewriting_tree by.now) (item_of item.now))
        (λ e. IsPastLimits e (item_fits (rewriting_tree by.now) (item_of item.now))) }
{
    let left = rewrite(alloc, by, &item.left)?;
    let right = rewrite(alloc, by, &item.right)?;
    Ok(Both { left, right })
}

/// The items with each occurrence replaced on both sides, or TooLarge where no sequent may hold
/// one.
#[tactic(auto, using(crate::proofs::RewriteLimits::items_rules))]
pub fn rewrite_items(alloc: Global, by: &Rewriting, items: &[Both]) -> Result<Seq<Both>, RuleFault>
    ensures { MatchResult result
        (λ c. map item_of c ≡ map (item_rewritten (rewriting_tree by.now)) (map item_of items.now))
        (λ e. IsPastLimits e (items_fit (rewriting_tree by.now) (map item_of items.now))) }
{
    let mut out = Seq::new(alloc);
    for item in items {
        out.push(rewrite_item(alloc, by, item)?)?;
    }
    Ok(out)
}

// The terms with this one at this place.
#[tactic(auto, using(crate::proofs::RewriteLimits::set_rules))]
fn copy_with(alloc: Global, terms: &[Term], at: usize, term: Term) -> Result<Seq<Term>, NoMemory>
    requires { at < length terms.now }
    ensures { IfOk result (λ c. c ≡ slice_set terms.now at term) }
{
    let mut out = copy_terms(alloc, &terms[..at])?;
    out.push(term)?;
    push_copies(alloc, &mut out, &terms[at + 1..])?;
    Ok(out)
}

/// The sequent with this term for its hypothesis k.
#[tactic(auto, using(crate::proofs::RewriteLimits::hyp_at_rules))]
pub fn with_hyp_at(alloc: Global, s: &Sequent, k: u32, hyp: Term) -> Result<Sequent, NoMemory>
    requires { k < length (sequents.hyps_of (sequent_tree s.now)) }
    ensures { IfOk result
        (λ p. sequent_tree p ≡ premises.with_hyps
        (slice_set (sequents.hyps_of (sequent_tree s.now)) k (term_tree hyp))
        (sequent_tree s.now)) }
{
    let hyps = copy_with(alloc, hyps_of(s), k as usize, hyp)?;
    with_hyps(alloc, s, hyps)
}

/// An equivalence of these items.
pub fn with_items(
    alloc: Global,
    vars: &Seq<Sort>,
    hyps: &[Term],
    known: &[Seq<Both>],
    items: Seq<Both>,
) -> Result<Sequent, NoMemory>
    ensures { IfOk result
        (λ p. sequent_tree p ≡ equiv vars.now (map term_tree hyps.now)
        (map (map item_of) known.now) (map item_of items)) }
{
    let vars = copy_sorts(alloc, vars)?;
    let hyps = copy_terms(alloc, hyps)?;
    let known = copy_known(alloc, known)?;
    Ok(Sequent::Equiv {
        vars,
        hyps,
        known,
        items,
    })
}
