// The values of macros, as far as they are kept.
ghost use Rattle.std.specs.Prelude.{◌≡◌};
ghost use Rattle.sq_term.specs.Macros.{word};
ghost use Rattle.sq_term.specs.Records.{field, at_undefined};
ghost use Rattle.sq_ground.specs.Calls.Builds.{Builds};
ghost use Rattle.sq_ground.specs.Calls.Readings.{kept, kept_record, seen};

use crate::building::{empty_message, truth};
use crate::built::Built;
use crate::ground_copy::copy_ground;
use crate::reading::{Entry, Reading};
use sq_term::{GTerm, Macro, SizeFault};
use std::alloc::Global;

/// A copy of what is kept.
pub fn copy_kept(alloc: Global, t: &Option<GTerm>, room: usize) -> Result<Built, SizeFault>
    ensures { Builds room (kept t.now) result }
{
    match t {
        Some(t) => copy_ground(alloc, t, room),
        None => Err(SizeFault::TooLarge),
    }
}

fn of_entry(alloc: Global, e: &Entry, m: Macro, room: usize) -> Result<Built, SizeFault>
    ensures { Builds room (field (word m) (kept_record e.now)) result }
{
    match m {
        Macro::Input => copy_kept(alloc, &e.input, room),
        Macro::Output => copy_kept(alloc, &e.output, room),
        Macro::Cond => copy_kept(alloc, &e.cond, room),
        Macro::Exec => copy_kept(alloc, &e.exec, room),
        Macro::Frame => copy_kept(alloc, &e.frame, room),
    }
}

fn of_undefined(alloc: Global, m: Macro, room: usize) -> Result<Built, SizeFault>
    ensures { Builds room (field (word m) at_undefined) result }
{
    match m {
        Macro::Input | Macro::Output | Macro::Frame => { empty_message(alloc, room) }
        Macro::Cond | Macro::Exec => truth(alloc, false, room),
    }
}

/// The value of a macro at a position, or where there is none.
#[tactic(auto, using(crate::proofs::Kept::kept_rules))]
pub fn macro_value(
    alloc: Global,
    w: &Reading,
    m: Macro,
    at: Option<u32>,
    room: usize,
) -> Result<Built, SizeFault>
    ensures { Builds room ((seen w.now).values (word m) at) result }
{
    match at {
        None => of_undefined(alloc, m, room),
        Some(p) => match w.entries.get(p as usize) {
            Some(e) => of_entry(alloc, e, m, room),
            None => {
                if p as usize == w.entries.len() {
                    of_entry(alloc, w.own, m, room)
                } else {
                    of_undefined(alloc, m, room)
                }
            }
        },
    }
}
