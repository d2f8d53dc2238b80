// Certificates, written and read.
ghost use Rattle.std.specs.Prelude.{◌≡◌, ◌≢◌, ◌≤◌, ◌<◌, ◌+◌, ◌^◌, ◌∷◌, ◌++◌, [], length, map};
ghost use Rattle.std.specs.Prelude.{IfOk, IfErr, OnOk, IsTrue, MatchOption, MatchResult};
ghost use Rattle.sq_cert_steps.specs.Lines.{step_line, is_spelled};
ghost use Rattle.sq_cert.specs.Certificates as spec;
ghost use Rattle.sq_cert.specs.Certificates.{lines_text, certificate};
ghost use Rattle.sq_cert.specs.Progress.{TakesSteps, StopsInSteps, TakesBlock, StopsInBlock};
ghost use Rattle.sq_cert.specs.Refusals.{IsOneLine, HasNoStep, IsRefused};

use crate::fault::ReadFault;
use crate::goal::goal_in;
use memchr::memchr;
use sq_base::{NoMemory, Seq, Text};
use sq_cert_steps::{read_step, write_line};
use sq_cert_words::{CertFault, write_number};
use sq_step::Step;
use std::alloc::Global;

// ---- writing

#[tactic(auto, using(crate::proofs::CertificateWrites::line_rules))]
fn write_steps(out: &mut Text, steps: &[Step]) -> Result<(), NoMemory>
    ensures { OnOk result (out.new ≡ out.old ++ lines_text (map step_line steps.now)) }
{
    for step in steps {
        write_line(out, step)?;
        out.push_str("\n")?;
    }
    Ok(())
}

#[tactic(auto, using(crate::proofs::CertificateWrites::block_rules))]
fn write_block(out: &mut Text, name: &Text, steps: &Seq<Step>) -> Result<(), NoMemory>
    ensures { OnOk result (out.new ≡ out.old
        ++ lines_text (spec.block_lines (name.now, steps.now))) }
{
    out.push_str("goal ")?;
    out.push_str(name.as_str())?;
    out.push_str(" ")?;
    write_number(out, steps.len() as u64)?;
    out.push_str("\n")?;
    write_steps(out, steps.as_slice())
}

/// The certificate of goals with their names and steps.
#[tactic(auto, using(crate::proofs::CertificateWrites::blocks_rules))]
pub fn write(alloc: Global, blocks: &[(Text, Seq<Step>)]) -> Result<Text, NoMemory>
    requires { IsTrue (spec.are_writable blocks.now) }
    ensures { IfOk result (λ text. text ≡ certificate blocks.now) }
{
    let mut out = Text::new(alloc);
    out.push_str("squirrel certificate 1\n")?;
    for (name, steps) in blocks {
        write_block(&mut out, name, steps)?;
    }
    out.push_str("end\n")?;
    Ok(out)
}

// ---- reading

/// The first line that ends with a newline, and what is behind it.
fn cut_line(text: &[u8]) -> Option<(&[u8], &[u8])>
    ensures { MatchOption result
        (IsOneLine text.now)
        (λ p. (text.now ≡ p.0.now ++ 10 ∷ p.1.now) × IsOneLine p.0.now) }
{
    let end = memchr(b'\n', text)?;
    let (line, rest) = text.split_at(end);
    let (_, behind) = rest.split_first()?;
    Some((line, behind))
}

/// What is left of a certificate, line by line, and how many lines were taken.
#[derive(Drop)]
struct Lines<'a> {
    rest: &'a [u8],
    taken: u64,
}

impl<'a> Lines<'a> {
    /// The next whole line.
    fn next(&mut self) -> Result<&'a [u8], ReadFault>
        requires { self.old.taken + length self.old.rest.now < 2 ^ 64 }
        ensures line { MatchResult result
            (λ l. (self.old.rest.now ≡ l.now ++ 10 ∷ self.new.rest.now) × IsOneLine l.now)
            (λ e. (e ≡ ReadFault.Truncated) × IsOneLine self.old.rest.now) }
        ensures counted { OnOk result (self.new.taken ≡ self.old.taken + 1) }
        ensures within { OnOk result
            (self.new.taken + length self.new.rest.now
            ≤ self.old.taken + length self.old.rest.now) }
    {
        match cut_line(self.rest) {
            Some((line, rest)) => {
                self.rest = rest;
                self.taken += 1;
                Ok(line)
            }
            None => Err(ReadFault::Truncated),
        }
    }
}

/// The step of the line with this number.
fn step_at(alloc: Global, line: &[u8], number: u64) -> Result<Step, ReadFault>
    ensures { MatchResult result
        (λ s. (step_line s ≡ line.now) × IsTrue (is_spelled s))
        (λ e. e ≢ ReadFault.NoMemory → (e ≡ ReadFault.BadStep number) × HasNoStep line.now) }
{
    match read_step(alloc, line) {
        Ok(step) => Ok(step),
        Err(CertFault::BadStep) => Err(ReadFault::BadStep(number)),
        Err(CertFault::NoMemory) => Err(ReadFault::NoMemory),
    }
}

#[tactic(auto, using(crate::proofs::Stops::steps_rules))]
fn read_steps(alloc: Global, lines: &mut Lines, owed: u64) -> Result<Seq<Step>, ReadFault>
    requires { lines.old.taken + length lines.old.rest.now < 2 ^ 64 }
    ensures steps { IfOk result (λ steps.
        (length steps ≡ owed) × TakesSteps steps lines.old.rest.now lines.new.rest.now) }
    ensures counted { OnOk result (lines.new.taken ≡ lines.old.taken + owed) }
    ensures within { OnOk result
        (lines.new.taken + length lines.new.rest.now
        ≤ lines.old.taken + length lines.old.rest.now) }
    ensures refused { IfErr result (StopsInSteps owed lines.old.taken lines.old.rest.now) }
{
    // A count makes room for a few steps; for more there is room as they come.
    let mut steps = Seq::from_vec(Vec::with_capacity(alloc, owed.min(16) as usize)?);
    'steps: for _ in 0..owed {
        let line = lines.next()?;
        steps.push(step_at(alloc, line, lines.taken)?)?;
    }
    Ok(steps)
}

/// The block that begins with this goal line.
#[tactic(auto, using(crate::proofs::Stops::block_rules))]
fn read_block(alloc: Global, line: &[u8], lines: &mut Lines) -> Result<(Text, Seq<Step>), ReadFault>
    requires { lines.old.taken + length lines.old.rest.now < 2 ^ 64 }
    ensures block { IfOk result (λ block.
        TakesBlock block line.now lines.old.rest.now lines.new.rest.now) }
    ensures counted { IfOk result (λ block. lines.new.taken ≡ lines.old.taken + length block.1) }
    ensures within { OnOk result
        (lines.new.taken + length lines.new.rest.now
        ≤ lines.old.taken + length lines.old.rest.now) }
    ensures refused { IfErr result (StopsInBlock line.now lines.old.taken lines.old.rest.now) }
{
    let Some((name, count)) = goal_in(alloc, line)? else {
        return Err(ReadFault::BadStep(lines.taken));
    };
    let steps = read_steps(alloc, lines, count)?;
    Ok((name, steps))
}

/// The blocks of a certificate, if nothing is behind its end line.
fn finished(
    blocks: Seq<(Text, Seq<Step>)>,
    lines: &Lines,
) -> Result<Seq<(Text, Seq<Step>)>, ReadFault>
    requires { lines.now.taken + length lines.now.rest.now < 2 ^ 64 }
    ensures { MatchResult result
        (λ found. (found ≡ blocks) × (lines.now.rest.now ≡ []))
        (λ e. (e ≡ ReadFault.Trailing (lines.now.taken + 1)) × (lines.now.rest.now ≢ [])) }
{
    if lines.rest.is_empty() {
        Ok(blocks)
    } else {
        Err(ReadFault::Trailing(lines.taken + 1))
    }
}

/// The blocks behind the first line, up to the end of the text.
#[tactic(auto, using(crate::proofs::Stops::blocks_rules))]
fn read_blocks(alloc: Global, lines: &mut Lines) -> Result<Seq<(Text, Seq<Step>)>, ReadFault>
    requires first { lines.old.taken ≡ 1 }
    requires fits { lines.old.taken + length lines.old.rest.now < 2 ^ 64 }
    ensures ok { IfOk result (λ blocks.
        (certificate blocks ≡ spec.header ++ 10 ∷ lines.old.rest.now) × IsTrue
        (spec.are_spelled blocks)) }
    ensures refused { IfErr result (IsRefused (spec.header ++ 10 ∷ lines.old.rest.now)) }
{
    let mut blocks = Seq::new(alloc);
    'goals: loop {
        let line = lines.next()?;
        if line == "end".as_bytes() {
            return finished(blocks, lines);
        }
        blocks.push(read_block(alloc, line, lines)?)?;
    }
}

/// Reads a certificate, whole.
pub fn read(alloc: Global, bytes: &[u8]) -> Result<Seq<(Text, Seq<Step>)>, ReadFault>
    ensures ok { IfOk result (λ blocks.
        (certificate blocks ≡ bytes.now) × IsTrue (spec.are_spelled blocks)) }
    ensures writable { IfOk result (λ blocks. IsTrue (spec.are_writable blocks)) }
    ensures refused { IfErr result (IsRefused bytes.now) }
{
    let mut lines = Lines {
        rest: bytes,
        taken: 0,
    };
    let header = lines.next()?;
    if header != "squirrel certificate 1".as_bytes() {
        return Err(ReadFault::BadStep(1));
    }
    read_blocks(alloc, &mut lines)
}
