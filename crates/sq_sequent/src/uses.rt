// What a sequent may take from an earlier axiom or lemma.
ghost use Rattle.std.specs.Prelude.{◌≡◌, [], IfOk, map, option_map, slice_get};
ghost use Rattle.std.specs.Option.{option_copied};
ghost use Rattle.sq_base.specs.Gives.{Gives};
ghost use Rattle.sq_term.specs.View.{term_tree};
ghost use Rattle.sq_system.specs.Environments.{env_tree};
ghost use Rattle.sq_system.specs.Statements.{stmt_tree};
ghost use Rattle.sq_subst.specs.Substitution.{instance_of};
ghost use Rattle.sq_sequent.specs.Logic.{held};
ghost use Rattle.sq_sequent.specs.Sites.{site_tree};
ghost use Rattle.sq_sequent.specs.Sides as sides;
ghost use Rattle.sq_sequent.specs.Uses as spec;

use crate::site::Site;
use crate::views::goal_of;
use sq_base::{NoMemory, Seq, Sort};
use sq_step::TermArg;
use sq_subst::{instance, project};
use sq_system::{Env, MOST_NODES, RuleFault, Stmt, is_usable, states_a_formula};
use sq_term::{Side, Term, copy};
use std::alloc::Global;

fn statement_there(env: &Env, k: u32) -> Option<&Stmt>
    ensures { option_map stmt_tree (option_copied result) ≡ slice_get (env_tree env.now).stmts k }
{
    sqlite_items::at(env.stmts.as_slice(), k as usize)
}

/// The formula of statement k, where it is an axiom or a lemma that the goal may use, and has so
/// many schema variables.
#[tactic(auto, unfolding(crate::specs::Uses::offered))]
pub fn offered<'a>(at: &Site<'a>, k: u32, count: usize) -> Option<&'a Term>
    ensures { option_map term_tree (option_copied result)
        ≡ spec.offered (site_tree at.now) k count }
{
    match statement_there(at.env, k) {
        Some(stmt) => {
            if is_usable(at.env, at.goal, k)
                && states_a_formula(stmt.kind)
                && count == stmt.schemas.len()
            {
                goal_of(&stmt.start)
            } else {
                None
            }
        }
        None => None,
    }
}

/// The messages of arguments, where each of them may stand in the sequent.
#[tactic(auto, using(crate::proofs::Messages::message_rules))]
pub fn messages_in(
    alloc: Global,
    at: &Site,
    args: &[TermArg],
) -> Result<Option<Seq<Term>>, NoMemory>
    ensures { IfOk result (λ ms. option_map (map term_tree) ms
        ≡ spec.messages_in (site_tree at.now) args.now) }
{
    let mut messages = Seq::new(alloc);
    for arg in args {
        match at.term_in(Sort::Message, arg) {
            Some(message) => messages.push(copy(alloc, message)?)?,
            None => return Ok(None),
        }
    }
    Ok(Some(messages))
}

fn with_messages(alloc: Global, formula: &Term, messages: &[Term]) -> Result<Term, RuleFault>
    ensures { Gives RuleFault.NoMemory term_tree result
        (held (instance_of [] (map term_tree messages.now) (term_tree formula.now))) }
{
    Ok(instance(alloc, formula, &[], messages, MOST_NODES)?)
}

/// What the formula says on a side of these messages, or TooLarge where no sequent may hold it.
#[tactic(auto, using(crate::proofs::InstanceLimits::instance_rules))]
pub fn instance_on(
    alloc: Global,
    side: Side,
    formula: &Term,
    messages: &[Term],
) -> Result<Term, RuleFault>
    ensures { Gives RuleFault.NoMemory term_tree result
        (held (sides.instance_on side (map term_tree messages.now) (term_tree formula.now))) }
{
    let there = project(alloc, formula, side, MOST_NODES)?;
    with_messages(alloc, &there, messages)
}
