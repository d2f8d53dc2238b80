// What is kept of a position's macros.
ghost use Rattle.std.specs.Prelude.{◌≡◌, ℕ, IfOk};
ghost use Rattle.sq_term.specs.Ground.{Ground};
ghost use Rattle.sq_term.specs.GroundFormulas as the;
ghost use Rattle.sq_term.specs.Records.{at_init, at_undefined, next_record};
ghost use Rattle.sq_ground.specs.Calls.Builds.{Builds};
ghost use Rattle.sq_ground.specs.Calls.Readings.{kept, kept_record};
ghost use Rattle.sq_ground.specs.Calls.Alike.{Alike, AlikeRecord};

use crate::building::{binary, conditional, empty_message, truth, unary};
use crate::built::Built;
use crate::macros::copy_kept;
use crate::reading::Entry;
use sq_base::NoMemory;
use sq_term::{Builtin, GTerm, SizeFault};
use std::alloc::Global;

/// What is kept of a term that was built, or was too large.
pub fn keep(built: Result<Built, SizeFault>) -> Result<Option<GTerm>, NoMemory>
    ensures { (room : ℕ) (g : Ground) → Builds room g built
        → IfOk result (λ k. Alike room (kept k) g) }
{
    match built {
        Ok(b) => {
            let Built {
                term,
                size: _,
                depth: _,
            } = b;
            Ok(Some(term))
        }
        Err(fault) => match fault {
            SizeFault::TooLarge => Ok(None),
            SizeFault::NoMemory => Err(NoMemory),
        },
    }
}

// What the attacker sends behind this frame.
fn input(alloc: Global, frame: &Option<GTerm>, room: usize) -> Result<Built, SizeFault>
    ensures { Builds room (the.attacked (kept frame.now)) result }
{
    let seen = copy_kept(alloc, frame, room)?;
    unary(alloc, Builtin::Att, seen, room)
}

fn exec(
    alloc: Global,
    before: &Option<GTerm>,
    cond: &Option<GTerm>,
    room: usize,
) -> Result<Built, SizeFault>
    ensures { Builds room (the.both (kept before.now) (kept cond.now)) result }
{
    let before = copy_kept(alloc, before, room)?;
    let own = copy_kept(alloc, cond, room - before.size)?;
    binary(alloc, Builtin::And, before, own, room)
}

// The output where it is executed, and else empty.
fn shown(
    alloc: Global,
    exec: &Option<GTerm>,
    output: &Option<GTerm>,
    room: usize,
) -> Result<Built, SizeFault>
    ensures { Builds room (the.conditional (kept exec.now) (kept output.now) the.empty) result }
{
    let test = copy_kept(alloc, exec, room)?;
    let left = room - test.size;
    let found = copy_kept(alloc, output, left)?;
    let other = empty_message(alloc, left - found.size)?;
    conditional(alloc, test, found, other, room)
}

// What a position adds to the frame.
fn added(
    alloc: Global,
    exec: &Option<GTerm>,
    output: &Option<GTerm>,
    room: usize,
) -> Result<Built, SizeFault>
    ensures { Builds room (the.pair (the.of_bool (kept exec.now))
        (the.conditional (kept exec.now) (kept output.now) the.empty)) result }
{
    let test = copy_kept(alloc, exec, room)?;
    let executed = unary(alloc, Builtin::OfBool, test, room)?;
    let output = shown(alloc, exec, output, room - executed.size)?;
    binary(alloc, Builtin::Pair, executed, output, room)
}

fn frame(
    alloc: Global,
    before: &Option<GTerm>,
    exec: &Option<GTerm>,
    output: &Option<GTerm>,
    room: usize,
) -> Result<Built, SizeFault>
    ensures { Builds room (the.pair (kept before.now) (the.pair (the.of_bool (kept exec.now))
        (the.conditional (kept exec.now) (kept output.now) the.empty))) result }
{
    let before = copy_kept(alloc, before, room)?;
    let more = added(alloc, exec, output, room - before.size)?;
    binary(alloc, Builtin::Pair, before, more, room)
}

/// What is kept at init.
pub fn init_entry(alloc: Global, room: usize) -> Result<Entry, NoMemory>
    ensures { IfOk result (λ e. AlikeRecord room (kept_record e) at_init) }
{
    Ok(Entry {
        input: keep(empty_message(alloc, room))?,
        output: keep(empty_message(alloc, room))?,
        cond: keep(truth(alloc, true, room))?,
        exec: keep(truth(alloc, true, room))?,
        frame: keep(empty_message(alloc, room))?,
    })
}

/// What is kept where nothing happens, with this input.
pub fn undefined_entry(alloc: Global, input: Option<GTerm>, room: usize) -> Result<Entry, NoMemory>
    ensures { IfOk result
        (λ e. AlikeRecord room (kept_record e) (record at_undefined { input = kept input })) }
{
    Ok(Entry {
        input,
        output: keep(empty_message(alloc, room))?,
        cond: keep(truth(alloc, false, room))?,
        exec: keep(truth(alloc, false, room))?,
        frame: keep(empty_message(alloc, room))?,
    })
}

/// What is kept of the input behind a position.
pub fn next_input(alloc: Global, last: &Entry, room: usize) -> Result<Option<GTerm>, NoMemory>
    ensures { IfOk result (λ k. Alike room (kept k) (the.attacked (kept_record last.now).frame)) }
{
    keep(input(alloc, &last.frame, room))
}

/// What is kept of the position behind one.
pub fn next_entry(
    alloc: Global,
    last: &Entry,
    input: Option<GTerm>,
    output: Option<GTerm>,
    cond: Option<GTerm>,
    room: usize,
) -> Result<Entry, NoMemory>
    ensures { IfOk result (λ e. AlikeRecord room (kept_record e)
        (next_record (kept_record last.now) (kept input) (kept output) (kept cond))) }
{
    let exec = keep(exec(alloc, &last.exec, &cond, room))?;
    let frame = keep(frame(alloc, &last.frame, &exec, &output, room))?;
    Ok(Entry {
        input,
        output,
        cond,
        exec,
        frame,
    })
}
