// The step of a line.
ghost use Rattle.std.specs.Prelude.{◌≡◌, ◌≢◌, [], ◌∷◌, IfOk, IsErrOf, IsTrue, map};
ghost use Rattle.sq_step.specs.declared.step.Step.{Step};
ghost use Rattle.sq_cert_steps.specs.Lines as line;
ghost use Rattle.sq_cert_words.specs.Reads.{Reads, left};
ghost use Rattle.sq_cert_steps.specs.Names.{name_of};
ghost use Rattle.sq_cert_steps.specs.Reading as spec;
ghost use Rattle.sq_cert_steps.specs.Reading.{of_time, ReadsStep, Tells, step_view};
ghost use Rattle.sq_cert_steps.specs.declared.name.StepName.TheVariants as name;

use crate::arguments::{direction, hand, macro_in, number_in, target, term, time, value};
use crate::name::StepName;
use sq_base::Seq;
use sq_cert_words::{CertFault, Words};
use sq_step::{Step, TermArg, TsArg, ValArg};
use std::alloc::Global;

// ---- arguments up to the end of the line

#[tactic(auto, using(crate::proofs::Rests::rest_rules))]
fn numbers(alloc: Global, words: &mut Words) -> Result<Seq<u32>, CertFault>
    ensures { Reads (map line.number) result (left words.new)
        (spec.all_arguments spec.of_number (left words.old)) }
{
    let mut numbers = Seq::new(alloc);
    'rest: while !words.is_empty() {
        numbers.push(number_in(words)?)?;
    }
    Ok(numbers)
}

#[tactic(auto, using(crate::proofs::Rests::rest_rules))]
fn terms(alloc: Global, words: &mut Words) -> Result<Seq<TermArg>, CertFault>
    ensures { Reads (map line.term_of) result (left words.new)
        (spec.all_arguments spec.of_term (left words.old)) }
{
    let mut terms = Seq::new(alloc);
    'rest: while !words.is_empty() {
        terms.push(term(alloc, words)?)?;
    }
    Ok(terms)
}

#[tactic(auto, using(crate::proofs::Rests::rest_rules))]
fn values(alloc: Global, words: &mut Words) -> Result<Seq<ValArg>, CertFault>
    ensures { Reads (map line.value_of) result (left words.new)
        (spec.all_arguments spec.of_value (left words.old)) }
{
    let mut values = Seq::new(alloc);
    'rest: while !words.is_empty() {
        values.push(value(alloc, words)?)?;
    }
    Ok(values)
}

// ---- the steps

// Two timestamps, or places of them.
fn two_times(alloc: Global, words: &mut Words) -> Result<(TsArg, TsArg), CertFault>
    ensures { Reads (λ p. line.time_of p.0 ∷ line.time_of p.1 ∷ []) result (left words.new)
        (spec.fixed_arguments (of_time ∷ of_time ∷ []) (left words.old)) }
{
    let first = time(alloc, words)?;
    let second = time(alloc, words)?;
    Ok((first, second))
}

// Each of these reads the arguments of the step of its name.

fn alle(alloc: Global, words: &mut Words) -> Result<Step, CertFault>
    ensures { ReadsStep name.Alle result (left words.old) (left words.new) }
{
    Ok(Step::Alle(number_in(words)?, value(alloc, words)?))
}

fn use_stmt(alloc: Global, words: &mut Words) -> Result<Step, CertFault>
    ensures { ReadsStep name.UseStmt result (left words.old) (left words.new) }
{
    Ok(Step::UseStmt(number_in(words)?, terms(alloc, words)?))
}

fn rew(words: &mut Words) -> Result<Step, CertFault>
    ensures { ReadsStep name.Rew result (left words.old) (left words.new) }
{
    Ok(Step::Rew(number_in(words)?, direction(words)?, target(words)?))
}

fn o2(alloc: Global, words: &mut Words) -> Result<Step, CertFault>
    ensures { ReadsStep name.O2 result (left words.old) (left words.new) }
{
    Ok(Step::O2(
        time(alloc, words)?,
        time(alloc, words)?,
        time(alloc, words)?,
    ))
}

fn o12(alloc: Global, words: &mut Words) -> Result<Step, CertFault>
    ensures { ReadsStep name.O12 result (left words.old) (left words.new) }
{
    Ok(Step::O12(time(alloc, words)?, time(alloc, words)?, number_in(words)?))
}

fn x(alloc: Global, words: &mut Words) -> Result<Step, CertFault>
    ensures { ReadsStep name.X result (left words.old) (left words.new) }
{
    Ok(Step::X(macro_in(words)?, time(alloc, words)?))
}

fn xu(alloc: Global, words: &mut Words) -> Result<Step, CertFault>
    ensures { ReadsStep name.Xu result (left words.old) (left words.new) }
{
    Ok(Step::Xu(macro_in(words)?, time(alloc, words)?))
}

fn ecase(words: &mut Words) -> Result<Step, CertFault>
    ensures { ReadsStep name.Ecase result (left words.old) (left words.new) }
{
    Ok(Step::Ecase(number_in(words)?, number_in(words)?))
}

fn erep(alloc: Global, words: &mut Words) -> Result<Step, CertFault>
    ensures { ReadsStep name.Erep result (left words.old) (left words.new) }
{
    Ok(Step::Erep(hand(words)?, number_in(words)?, term(alloc, words)?))
}

fn eded(words: &mut Words) -> Result<Step, CertFault>
    ensures { ReadsStep name.Eded result (left words.old) (left words.new) }
{
    Ok(Step::Eded(number_in(words)?, number_in(words)?))
}

fn eprf(alloc: Global, words: &mut Words) -> Result<Step, CertFault>
    ensures { ReadsStep name.Eprf result (left words.old) (left words.new) }
{
    Ok(Step::Eprf(
        hand(words)?,
        number_in(words)?,
        term(alloc, words)?,
        term(alloc, words)?,
    ))
}

fn euse(alloc: Global, words: &mut Words) -> Result<Step, CertFault>
    ensures { ReadsStep name.Euse result (left words.old) (left words.new) }
{
    Ok(Step::Euse(number_in(words)?, values(alloc, words)?))
}

// The step of this name with the arguments that follow.
fn step_of(alloc: Global, name: StepName, words: &mut Words) -> Result<Step, CertFault>
    ensures { ReadsStep name result (left words.old) (left words.new) }
{
    match name {
        StepName::Hyp => number_in(words).map(Step::Hyp),
        StepName::True => Ok(Step::True),
        StepName::Absurd => number_in(words).map(Step::Absurd),
        StepName::Impi => Ok(Step::Impi),
        StepName::Noti => Ok(Step::Noti),
        StepName::Alli => Ok(Step::Alli),
        StepName::Andi => Ok(Step::Andi),
        StepName::Orl => Ok(Step::Orl),
        StepName::Orr => Ok(Step::Orr),
        StepName::Exi => value(alloc, words).map(Step::Exi),
        StepName::Ande => number_in(words).map(Step::Ande),
        StepName::Ore => number_in(words).map(Step::Ore),
        StepName::Impe => number_in(words).map(Step::Impe),
        StepName::Note => number_in(words).map(Step::Note),
        StepName::Alle => alle(alloc, words),
        StepName::Exe => number_in(words).map(Step::Exe),
        StepName::Cut => term(alloc, words).map(Step::Cut),
        StepName::Em => term(alloc, words).map(Step::Em),
        StepName::Drop => number_in(words).map(Step::Drop),
        StepName::UseStmt => use_stmt(alloc, words),
        StepName::Proj => Ok(Step::Proj),
        StepName::Trace => Ok(Step::Trace),
        StepName::Refl => Ok(Step::Refl),
        StepName::Sym => Ok(Step::Sym),
        StepName::Trans => term(alloc, words).map(Step::Trans),
        StepName::Arg => Ok(Step::Arg),
        StepName::Rew => rew(words),
        StepName::Fact => term(alloc, words).map(Step::Fact),
        StepName::O1 => time(alloc, words).map(Step::O1),
        StepName::O2 => o2(alloc, words),
        StepName::O3 => two_times(alloc, words).map(|(first, second)| Step::O3(first, second)),
        StepName::O4 => two_times(alloc, words).map(|(first, second)| Step::O4(first, second)),
        StepName::O5 => two_times(alloc, words).map(|(first, second)| Step::O5(first, second)),
        StepName::O6 => time(alloc, words).map(Step::O6),
        StepName::O7 => time(alloc, words).map(Step::O7),
        StepName::O8 => two_times(alloc, words).map(|(first, second)| Step::O8(first, second)),
        StepName::O9 => time(alloc, words).map(Step::O9),
        StepName::O10 => two_times(alloc, words).map(|(first, second)| Step::O10(first, second)),
        StepName::O11 => time(alloc, words).map(Step::O11),
        StepName::O12 => o12(alloc, words),
        StepName::Tind => number_in(words).map(Step::Tind),
        StepName::X => x(alloc, words),
        StepName::Xu => xu(alloc, words),
        StepName::Fresh => number_in(words).map(Step::Fresh),
        StepName::Euf => number_in(words).map(Step::Euf),
        StepName::Coll => number_in(words).map(Step::Coll),
        StepName::Eass => number_in(words).map(Step::Eass),
        StepName::Erefl => Ok(Step::Erefl),
        StepName::Esel => numbers(alloc, words).map(Step::Esel),
        StepName::Efa => number_in(words).map(Step::Efa),
        StepName::Eatom => number_in(words).map(Step::Eatom),
        StepName::Efre => number_in(words).map(Step::Efre),
        StepName::Ecase => ecase(words),
        StepName::Erep => erep(alloc, words),
        StepName::Eded => eded(words),
        StepName::Eind => number_in(words).map(Step::Eind),
        StepName::Eprf => eprf(alloc, words),
        StepName::Euse => euse(alloc, words),
    }
}

fn name_in(words: &mut Words) -> Result<StepName, CertFault>
    ensures { Reads (λ n. n) result (left words.new) (spec.name_at (left words.old)) }
{
    match StepName::of(words.any()?) {
        Some(name) => Ok(name),
        None => Err(CertFault::BadStep),
    }
}

// The step whose words these are, to the last.
fn step_in(alloc: Global, words: &mut Words) -> Result<Step, CertFault>
    ensures { Tells step_view result (spec.step_in (left words.old)) }
{
    let name = name_in(words)?;
    let step = step_of(alloc, name, words)?;
    if words.is_empty() {
        return Ok(step);
    }
    drop(step);
    Err(CertFault::BadStep)
}

fn step_of_line(alloc: Global, text: &[u8]) -> Result<Step, CertFault>
    ensures { Tells step_view result (spec.step_read text.now) }
{
    let mut words = Words::new(text);
    step_in(alloc, &mut words)
}

/// The step whose line this is, without its newline. BadStep where it is the line of none.
pub fn read_step(alloc: Global, text: &[u8]) -> Result<Step, CertFault>
    ensures read { Tells step_view result (spec.step_read text.now) }
    ensures ok { IfOk result (λ s. (line.step_line s ≡ text.now) × IsTrue (line.is_spelled s)) }
    ensures writable { IfOk result (λ s. IsTrue (line.is_writable s)) }
    ensures bad { IsErrOf result CertFault.BadStep → (s : Step) → IsTrue (line.is_spelled s)
        → line.step_line s ≢ text.now }
{
    step_of_line(alloc, text)
}
