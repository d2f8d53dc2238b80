// Equal steps.
ghost use Rattle.std.specs.Prelude.{◌≡◌, IfOk};

use crate::step::{Step, TermArg, TsArg, ValArg};
use sq_base::{NoMemory, Seq};
use sq_term::{copy, copy_ts};
use std::alloc::Global;

fn term(alloc: Global, arg: &TermArg) -> Result<TermArg, NoMemory>
    ensures { IfOk result (λ c. c ≡ arg.now) }
{
    match arg {
        TermArg::At(place, node) => Ok(TermArg::At(*place, *node)),
        TermArg::Written(term) => Ok(TermArg::Written(copy(alloc, term)?)),
    }
}

fn time(alloc: Global, arg: &TsArg) -> Result<TsArg, NoMemory>
    ensures { IfOk result (λ c. c ≡ arg.now) }
{
    match arg {
        TsArg::At(place, node) => Ok(TsArg::At(*place, *node)),
        TsArg::Written(time) => Ok(TsArg::Written(copy_ts(alloc, time)?)),
    }
}

fn value(alloc: Global, arg: &ValArg) -> Result<ValArg, NoMemory>
    ensures { IfOk result (λ c. c ≡ arg.now) }
{
    match arg {
        ValArg::Index(index) => Ok(ValArg::Index(*index)),
        ValArg::Time(at) => Ok(ValArg::Time(time(alloc, at)?)),
    }
}

fn terms(alloc: Global, args: &Seq<TermArg>) -> Result<Seq<TermArg>, NoMemory>
    ensures { IfOk result (λ c. c ≡ args.now) }
{
    let mut out = Seq::new(alloc);
    let args = args.as_slice();
    for arg in args {
        out.push(term(alloc, arg)?)?;
    }
    Ok(out)
}

fn values(alloc: Global, args: &Seq<ValArg>) -> Result<Seq<ValArg>, NoMemory>
    ensures { IfOk result (λ c. c ≡ args.now) }
{
    let mut out = Seq::new(alloc);
    let args = args.as_slice();
    for arg in args {
        out.push(value(alloc, arg)?)?;
    }
    Ok(out)
}

fn two_times(alloc: Global, first: &TsArg, second: &TsArg) -> Result<(TsArg, TsArg), NoMemory>
    ensures { IfOk result (λ c. c ≡ (first.now, second.now)) }
{
    Ok((time(alloc, first)?, time(alloc, second)?))
}

// o2
fn three_times(alloc: Global, t: &TsArg, s: &TsArg, r: &TsArg) -> Result<Step, NoMemory>
    ensures { IfOk result (λ c. c ≡ Step.O2 t.now s.now r.now) }
{
    Ok(Step::O2(time(alloc, t)?, time(alloc, s)?, time(alloc, r)?))
}

fn two_terms(
    alloc: Global,
    first: &TermArg,
    second: &TermArg,
) -> Result<(TermArg, TermArg), NoMemory>
    ensures { IfOk result (λ c. c ≡ (first.now, second.now)) }
{
    Ok((term(alloc, first)?, term(alloc, second)?))
}

/// An equal step.
pub fn copy_step(alloc: Global, step: &Step) -> Result<Step, NoMemory>
    ensures { IfOk result (λ c. c ≡ step.now) }
{
    match step {
        Step::Hyp(h) => Ok(Step::Hyp(*h)),
        Step::True => Ok(Step::True),
        Step::Absurd(h) => Ok(Step::Absurd(*h)),
        Step::Impi => Ok(Step::Impi),
        Step::Noti => Ok(Step::Noti),
        Step::Alli => Ok(Step::Alli),
        Step::Andi => Ok(Step::Andi),
        Step::Orl => Ok(Step::Orl),
        Step::Orr => Ok(Step::Orr),
        Step::Exi(witness) => value(alloc, witness).map(Step::Exi),
        Step::Ande(h) => Ok(Step::Ande(*h)),
        Step::Ore(h) => Ok(Step::Ore(*h)),
        Step::Impe(h) => Ok(Step::Impe(*h)),
        Step::Note(h) => Ok(Step::Note(*h)),
        Step::Alle(h, witness) => value(alloc, witness).map(|witness| Step::Alle(*h, witness)),
        Step::Exe(h) => Ok(Step::Exe(*h)),
        Step::Cut(formula) => term(alloc, formula).map(Step::Cut),
        Step::Em(formula) => term(alloc, formula).map(Step::Em),
        Step::Drop(h) => Ok(Step::Drop(*h)),
        Step::UseStmt(k, args) => terms(alloc, args).map(|args| Step::UseStmt(*k, args)),
        Step::Proj => Ok(Step::Proj),
        Step::Trace => Ok(Step::Trace),
        Step::Refl => Ok(Step::Refl),
        Step::Sym => Ok(Step::Sym),
        Step::Trans(between) => term(alloc, between).map(Step::Trans),
        Step::Arg => Ok(Step::Arg),
        Step::Rew(h, dir, target) => Ok(Step::Rew(*h, *dir, *target)),
        Step::Fact(of) => term(alloc, of).map(Step::Fact),
        Step::O1(t) => time(alloc, t).map(Step::O1),
        Step::O2(t, s, r) => three_times(alloc, t, s, r),
        Step::O3(t, s) => two_times(alloc, t, s).map(|(t, s)| Step::O3(t, s)),
        Step::O4(t, s) => two_times(alloc, t, s).map(|(t, s)| Step::O4(t, s)),
        Step::O5(t, s) => two_times(alloc, t, s).map(|(t, s)| Step::O5(t, s)),
        Step::O6(t) => time(alloc, t).map(Step::O6),
        Step::O7(t) => time(alloc, t).map(Step::O7),
        Step::O8(t, s) => two_times(alloc, t, s).map(|(t, s)| Step::O8(t, s)),
        Step::O9(t) => time(alloc, t).map(Step::O9),
        Step::O10(t, s) => two_times(alloc, t, s).map(|(t, s)| Step::O10(t, s)),
        Step::O11(t) => time(alloc, t).map(Step::O11),
        Step::O12(t, s, k) => two_times(alloc, t, s).map(|(t, s)| Step::O12(t, s, *k)),
        Step::Tind(v) => Ok(Step::Tind(*v)),
        Step::X(read, t) => time(alloc, t).map(|t| Step::X(*read, t)),
        Step::Xu(read, t) => time(alloc, t).map(|t| Step::Xu(*read, t)),
        Step::Fresh(h) => Ok(Step::Fresh(*h)),
        Step::Euf(h) => Ok(Step::Euf(*h)),
        Step::Coll(h) => Ok(Step::Coll(*h)),
        Step::Eass(j) => Ok(Step::Eass(*j)),
        Step::Erefl => Ok(Step::Erefl),
        Step::Esel(items) => Seq::from_slice(alloc, items.as_slice()).map(Step::Esel),
        Step::Efa(k) => Ok(Step::Efa(*k)),
        Step::Eatom(k) => Ok(Step::Eatom(*k)),
        Step::Efre(k) => Ok(Step::Efre(*k)),
        Step::Ecase(k, l) => Ok(Step::Ecase(*k, *l)),
        Step::Erep(hand, k, t) => term(alloc, t).map(|t| Step::Erep(*hand, *k, t)),
        Step::Eded(k, l) => Ok(Step::Eded(*k, *l)),
        Step::Eind(v) => Ok(Step::Eind(*v)),
        Step::Eprf(hand, k, t, n) => {
            two_terms(alloc, t, n).map(|(t, n)| Step::Eprf(*hand, *k, t, n))
        }
        Step::Euse(k, args) => values(alloc, args).map(|args| Step::Euse(*k, args)),
    }
}
