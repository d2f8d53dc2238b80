// The line of a step at the end of a text.
ghost use Rattle.std.specs.Prelude.{◌≡◌, [], ◌∷◌, ◌++◌, IfOk, OnOk, IsTrue, map};
ghost use Rattle.sq_cert_words.specs.Spelling.{blanked, index_word};
ghost use Rattle.sq_cert_steps.specs.Lines as line;
ghost use Rattle.sq_cert_steps.specs.Names.{name_of};
ghost use Rattle.sq_cert_steps.specs.Parts.{part_arguments, parts_arguments};

use crate::name::StepName;
use sq_base::{NoMemory, Text};
use sq_cert_terms::{macro_word, write_index, write_term, write_ts};
use sq_cert_words::{write_number, write_numbered, write_word};
use sq_step::{Dir, Hand, IdxArg, Place, Step, Target, TermArg, TsArg, ValArg};
use sq_term::Macro;
use std::alloc::Global;

/// Arguments of a step as they are written.
#[derive(Clone, Copy)]
pub enum Part<'a> {
    Nothing,
    Number(u32),
    Value(&'a ValArg),
    Time(&'a TsArg),
    Term(&'a TermArg),
    Direction(Dir),
    Target(Target),
    Hand(Hand),
    Macro(Macro),
    Numbers(&'a [u32]),
    Terms(&'a [TermArg]),
    Values(&'a [ValArg]),
}

/// A step as it is written: its word and its arguments, in order.
#[derive(Clone, Copy)]
pub struct Parts<'a> {
    pub name: StepName,
    pub first: Part<'a>,
    pub second: Part<'a>,
    pub third: Part<'a>,
    pub fourth: Part<'a>,
}

fn none<'a>(name: StepName) -> Parts<'a>
    ensures name { result.name ≡ name }
    ensures parts { parts_arguments result ≡ [] }
{
    one(name, Part::Nothing)
}

fn one<'a>(name: StepName, first: Part<'a>) -> Parts<'a>
    ensures name { result.name ≡ name }
    ensures parts { parts_arguments result ≡ part_arguments first.entry }
{
    two(name, first, Part::Nothing)
}

fn two<'a>(name: StepName, first: Part<'a>, second: Part<'a>) -> Parts<'a>
    ensures name { result.name ≡ name }
    ensures parts { parts_arguments result
        ≡ part_arguments first.entry ++ part_arguments second.entry }
{
    three(name, first, second, Part::Nothing)
}

#[tactic(auto, using(crate::proofs::Writes::part_rules))]
fn three<'a>(name: StepName, first: Part<'a>, second: Part<'a>, third: Part<'a>) -> Parts<'a>
    ensures name { result.name ≡ name }
    ensures parts { parts_arguments result
        ≡ part_arguments first.entry
        ++ (part_arguments second.entry ++ part_arguments third.entry) }
{
    four(name, first, second, third, Part::Nothing)
}

fn four<'a>(
    name: StepName,
    first: Part<'a>,
    second: Part<'a>,
    third: Part<'a>,
    fourth: Part<'a>,
) -> Parts<'a>
    ensures name { result.name ≡ name }
    ensures parts { parts_arguments result
        ≡ part_arguments first.entry
        ++ (part_arguments second.entry
        ++ (part_arguments third.entry ++ part_arguments fourth.entry)) }
{
    Parts {
        name,
        first,
        second,
        third,
        fourth,
    }
}

fn parts_of(step: &Step) -> Parts<'_>
    ensures name { result.name ≡ name_of step.now }
    ensures parts { parts_arguments result ≡ line.arguments step.now }
{
    match step {
        Step::Hyp(number) => one(StepName::Hyp, Part::Number(*number)),
        Step::True => none(StepName::True),
        Step::Absurd(number) => one(StepName::Absurd, Part::Number(*number)),
        Step::Impi => none(StepName::Impi),
        Step::Noti => none(StepName::Noti),
        Step::Alli => none(StepName::Alli),
        Step::Andi => none(StepName::Andi),
        Step::Orl => none(StepName::Orl),
        Step::Orr => none(StepName::Orr),
        Step::Exi(value) => one(StepName::Exi, Part::Value(value)),
        Step::Ande(number) => one(StepName::Ande, Part::Number(*number)),
        Step::Ore(number) => one(StepName::Ore, Part::Number(*number)),
        Step::Impe(number) => one(StepName::Impe, Part::Number(*number)),
        Step::Note(number) => one(StepName::Note, Part::Number(*number)),
        Step::Alle(number, value) => two(StepName::Alle, Part::Number(*number), Part::Value(value)),
        Step::Exe(number) => one(StepName::Exe, Part::Number(*number)),
        Step::Cut(term) => one(StepName::Cut, Part::Term(term)),
        Step::Em(term) => one(StepName::Em, Part::Term(term)),
        Step::Drop(number) => one(StepName::Drop, Part::Number(*number)),
        Step::UseStmt(number, terms) => two(
            StepName::UseStmt,
            Part::Number(*number),
            Part::Terms(terms.as_slice()),
        ),
        Step::Proj => none(StepName::Proj),
        Step::Trace => none(StepName::Trace),
        Step::Refl => none(StepName::Refl),
        Step::Sym => none(StepName::Sym),
        Step::Trans(term) => one(StepName::Trans, Part::Term(term)),
        Step::Arg => none(StepName::Arg),
        Step::Rew(number, direction, target) => three(
            StepName::Rew,
            Part::Number(*number),
            Part::Direction(*direction),
            Part::Target(*target),
        ),
        Step::Fact(term) => one(StepName::Fact, Part::Term(term)),
        Step::O1(time) => one(StepName::O1, Part::Time(time)),
        Step::O2(time, other, third) => three(
            StepName::O2,
            Part::Time(time),
            Part::Time(other),
            Part::Time(third),
        ),
        Step::O3(time, other) => two(StepName::O3, Part::Time(time), Part::Time(other)),
        Step::O4(time, other) => two(StepName::O4, Part::Time(time), Part::Time(other)),
        Step::O5(time, other) => two(StepName::O5, Part::Time(time), Part::Time(other)),
        Step::O6(time) => one(StepName::O6, Part::Time(time)),
        Step::O7(time) => one(StepName::O7, Part::Time(time)),
        Step::O8(time, other) => two(StepName::O8, Part::Time(time), Part::Time(other)),
        Step::O9(time) => one(StepName::O9, Part::Time(time)),
        Step::O10(time, other) => two(StepName::O10, Part::Time(time), Part::Time(other)),
        Step::O11(time) => one(StepName::O11, Part::Time(time)),
        Step::O12(time, other, number) => three(
            StepName::O12,
            Part::Time(time),
            Part::Time(other),
            Part::Number(*number),
        ),
        Step::Tind(number) => one(StepName::Tind, Part::Number(*number)),
        Step::X(word, time) => two(StepName::X, Part::Macro(*word), Part::Time(time)),
        Step::Xu(word, time) => two(StepName::Xu, Part::Macro(*word), Part::Time(time)),
        Step::Fresh(number) => one(StepName::Fresh, Part::Number(*number)),
        Step::Euf(number) => one(StepName::Euf, Part::Number(*number)),
        Step::Coll(number) => one(StepName::Coll, Part::Number(*number)),
        Step::Eass(number) => one(StepName::Eass, Part::Number(*number)),
        Step::Erefl => none(StepName::Erefl),
        Step::Esel(numbers) => one(StepName::Esel, Part::Numbers(numbers.as_slice())),
        Step::Efa(number) => one(StepName::Efa, Part::Number(*number)),
        Step::Eatom(number) => one(StepName::Eatom, Part::Number(*number)),
        Step::Efre(number) => one(StepName::Efre, Part::Number(*number)),
        Step::Ecase(number, other) => two(
            StepName::Ecase,
            Part::Number(*number),
            Part::Number(*other),
        ),
        Step::Erep(hand, number, term) => three(
            StepName::Erep,
            Part::Hand(*hand),
            Part::Number(*number),
            Part::Term(term),
        ),
        Step::Eded(number, other) => two(
            StepName::Eded,
            Part::Number(*number),
            Part::Number(*other),
        ),
        Step::Eind(number) => one(StepName::Eind, Part::Number(*number)),
        Step::Eprf(hand, number, term, name) => four(
            StepName::Eprf,
            Part::Hand(*hand),
            Part::Number(*number),
            Part::Term(term),
            Part::Term(name),
        ),
        Step::Euse(number, values) => two(
            StepName::Euse,
            Part::Number(*number),
            Part::Values(values.as_slice()),
        ),
    }
}

// ---- the arguments, each word with a blank before it

fn write_place(out: &mut Text, place: Place, node: u32) -> Result<(), NoMemory>
    ensures { OnOk result (out.new ≡ out.old ++ 32 ∷ line.place_word place node) }
{
    match place {
        Place::Goal => write_word(out, "@g")?,
        Place::Hyp(hypothesis) => write_numbered(out, "@h", hypothesis)?,
        Place::Left(item) => write_numbered(out, "@l", item)?,
        Place::Right(item) => write_numbered(out, "@r", item)?,
    }
    out.push_str(".")?;
    write_number(out, u64::from(node))
}

#[tactic(auto, using(crate::proofs::Writes::write_rules))]
fn write_index_argument(out: &mut Text, argument: IdxArg) -> Result<(), NoMemory>
    ensures { OnOk result (out.new ≡ out.old
        ++ blanked (line.spot_words (λ i. index_word i ∷ []) (line.index_spot argument))) }
{
    match argument {
        IdxArg::At(place, node) => write_place(out, place, node),
        IdxArg::Written(index) => write_index(out, index),
    }
}

#[tactic(auto, using(crate::proofs::Writes::write_rules))]
fn write_time(out: &mut Text, argument: &TsArg) -> Result<(), NoMemory>
    ensures { OnOk result
        (out.new ≡ out.old ++ blanked (line.argument_words (line.time_of argument.now))) }
{
    match argument {
        TsArg::At(place, node) => write_place(out, *place, *node),
        TsArg::Written(t) => write_ts(out, t),
    }
}

#[tactic(auto, using(crate::proofs::Writes::write_rules))]
fn write_term_argument(out: &mut Text, argument: &TermArg) -> Result<(), NoMemory>
    ensures { OnOk result
        (out.new ≡ out.old ++ blanked (line.argument_words (line.term_of argument.now))) }
{
    match argument {
        TermArg::At(place, node) => write_place(out, *place, *node),
        TermArg::Written(t) => write_term(out, t),
    }
}

#[tactic(auto, using(crate::proofs::Writes::write_rules))]
fn write_value(out: &mut Text, argument: &ValArg) -> Result<(), NoMemory>
    ensures { OnOk result
        (out.new ≡ out.old ++ blanked (line.argument_words (line.value_of argument.now))) }
{
    match argument {
        ValArg::Index(index) => {
            write_word(out, "i")?;
            write_index_argument(out, *index)
        }
        ValArg::Time(time) => {
            write_word(out, "t")?;
            write_time(out, time)
        }
    }
}

fn write_target(out: &mut Text, target: Target) -> Result<(), NoMemory>
    ensures { OnOk result (out.new ≡ out.old ++ 32 ∷ line.target_word target) }
{
    match target {
        Target::Goal => write_word(out, "g"),
        Target::Items => write_word(out, "i"),
        Target::Hyp(hypothesis) => write_numbered(out, "", hypothesis),
    }
}

fn direction_word(direction: Dir) -> &'static str
    ensures { result.now ≡ line.direction_word direction }
{
    match direction {
        Dir::Forward => ">",
        Dir::Backward => "<",
    }
}

fn hand_word(hand: Hand) -> &'static str
    ensures { result.now ≡ line.hand_word hand }
{
    match hand {
        Hand::Left => "l",
        Hand::Right => "r",
    }
}

fn write_numbers(out: &mut Text, numbers: &[u32]) -> Result<(), NoMemory>
    ensures { OnOk result
        (out.new ≡ out.old ++ blanked (line.arguments_words (map line.number numbers.now))) }
{
    for number in numbers {
        write_numbered(out, "", *number)?;
    }
    Ok(())
}

fn write_terms(out: &mut Text, terms: &[TermArg]) -> Result<(), NoMemory>
    ensures { OnOk result
        (out.new ≡ out.old ++ blanked (line.arguments_words (map line.term_of terms.now))) }
{
    for term in terms {
        write_term_argument(out, term)?;
    }
    Ok(())
}

fn write_values(out: &mut Text, values: &[ValArg]) -> Result<(), NoMemory>
    ensures { OnOk result
        (out.new ≡ out.old ++ blanked (line.arguments_words (map line.value_of values.now))) }
{
    for value in values {
        write_value(out, value)?;
    }
    Ok(())
}

#[tactic(auto, using(crate::proofs::Writes::part_rules))]
fn write_part(out: &mut Text, part: Part) -> Result<(), NoMemory>
    ensures { OnOk result
        (out.new ≡ out.old ++ blanked (line.arguments_words (part_arguments part.entry))) }
{
    match part {
        Part::Nothing => Ok(()),
        Part::Number(number) => write_numbered(out, "", number),
        Part::Value(value) => write_value(out, value),
        Part::Time(time) => write_time(out, time),
        Part::Term(term) => write_term_argument(out, term),
        Part::Direction(direction) => write_word(out, direction_word(direction)),
        Part::Target(target) => write_target(out, target),
        Part::Hand(hand) => write_word(out, hand_word(hand)),
        Part::Macro(word) => write_word(out, macro_word(word)),
        Part::Numbers(numbers) => write_numbers(out, numbers),
        Part::Terms(terms) => write_terms(out, terms),
        Part::Values(values) => write_values(out, values),
    }
}

/// Writes the line of a step at the end of a text, without a newline.
#[tactic(auto, using(crate::proofs::Writes::step_rules))]
pub fn write_line(out: &mut Text, step: &Step) -> Result<(), NoMemory>
    ensures { OnOk result (out.new ≡ out.old ++ line.step_line step.now) }
{
    let parts = parts_of(step);
    out.push_str(parts.name.text())?;
    write_part(out, parts.first)?;
    write_part(out, parts.second)?;
    write_part(out, parts.third)?;
    write_part(out, parts.fourth)
}

/// The line of a step, without its newline. Its written terms and timestamps have depth at most
/// 1,024, its quantifiers bind indices and timestamps, and its lists have below 2^32 parts.
pub fn write_step(alloc: Global, step: &Step) -> Result<Text, NoMemory>
    requires { IsTrue (line.is_writable step.now) }
    ensures { IfOk result (λ text. text ≡ line.step_line step.now) }
{
    let mut out = Text::new(alloc);
    write_line(&mut out, step)?;
    Ok(out)
}
