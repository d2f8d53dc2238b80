// Steps of the calculus on a large sequent, and the same sequent copied.
use crate::fault::Fault;
use crate::substitution::tree;
use sq_rules_logic::premises;
use sq_sequent::{Dir, Env, Sequent, Site, Step, Target, copy_sequent};
use sq_term::formulas::negation;
use sq_term::{Idx, NoMemory, Seq, Side, Sort, Term};
use std::alloc::Global;

const LEAVES: u32 = 15_000;

/// Takes the negation of the goal as a hypothesis (`noti`), rewrites the goal by an equation of
/// indices (`rew`), copies the sequent (`copy`) or leaves it (`nothing`), so many times.
pub fn turned(alloc: Global, word: &str, turns: u32) -> Result<u32, Fault> {
    match word {
        "noti" => stepped(alloc, Step::Noti, turns),
        "rew" => stepped(alloc, Step::Rew(0, Dir::Forward, Target::Goal), turns),
        "copy" => copied(alloc, turns),
        "nothing" => built(alloc, turns),
        _ => Err(Fault::Usage),
    }
}

fn stepped(alloc: Global, step: Step, turns: u32) -> Result<u32, Fault> {
    let s = sequent(alloc)?;
    taken(alloc, &step, &s, turns)
}

fn taken(alloc: Global, step: &Step, s: &Sequent, turns: u32) -> Result<u32, Fault> {
    let env = Env::new(alloc)?;
    let at = Site {
        env: &env,
        goal: 0,
        sequent: s,
    };
    let mut done: u32 = 0;
    for _ in 0..turns {
        if premises(alloc, &at, step)?.len() == 1 {
            done = done.saturating_add(1);
        }
    }
    Ok(done)
}

fn built(alloc: Global, turns: u32) -> Result<u32, Fault> {
    sequent(alloc)?;
    Ok(turns)
}

fn copied(alloc: Global, turns: u32) -> Result<u32, Fault> {
    let s = sequent(alloc)?;
    copies(alloc, &s, turns)
}

fn copies(alloc: Global, s: &Sequent, turns: u32) -> Result<u32, Fault> {
    let mut done: u32 = 0;
    for _ in 0..turns {
        if let Sequent::Local { .. } = copy_sequent(alloc, s)? {
            done = done.saturating_add(1);
        }
    }
    Ok(done)
}

// Over two indices that are equal, the negation of a formula that names both at every leaf.
fn sequent(alloc: Global) -> Result<Sequent, NoMemory> {
    let mut hyps = Seq::new(alloc);
    hyps.push(Term::IdxEq(Idx::Free(0), Idx::Free(1)))?;
    let formula = tree(alloc, LEAVES, &[Idx::Free(0), Idx::Free(1)])?;
    Ok(Sequent::Local {
        side: Side::Both,
        vars: Seq::from_slice(alloc, &[Sort::Index, Sort::Index])?,
        hyps,
        goal: negation(alloc, formula)?,
    })
}
