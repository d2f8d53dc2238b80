// Rows of ground terms are joined from the right.
ghost use Rattle.std.specs.Prelude.{◌≡◌, length, map};
ghost use Rattle.sq_term.specs.Builtins.{builtin_kind};
ghost use Rattle.sq_term.specs.Ground.{ground};
ghost use Rattle.sq_ground.specs.Calls.Builds.{Builds};
ghost use Rattle.sq_ground.specs.Calls.Rows.{built_ground, joined, nested};

use crate::building::{binary, conditional, constant};
use crate::built::Built;
use sq_term::{Builtin, SizeFault};
use sqlite_items::Items;
use std::alloc::Global;

/// Ground terms with how many nodes they have.
#[derive(Debug, Drop)]
pub struct Row {
    pub parts: Items<Built>,
    pub size: usize,
}

// The term itself, where it is within the limits.
fn within(x: Built, room: usize) -> Result<Built, SizeFault>
    ensures { Builds room (ground x.term) result }
{
    if x.size > room || x.depth > 1024 {
        return Err(SizeFault::TooLarge);
    }
    Ok(x)
}

/// The parts under a connective nested to the right: its unit where there is none, and the part
/// where there is one.
pub fn join(
    alloc: Global,
    connective: Builtin,
    unit: Builtin,
    row: Row,
    room: usize,
) -> Result<Built, SizeFault>
    ensures { Builds room
        (joined (builtin_kind connective) (builtin_kind unit) (map built_ground row.parts)) result }
{
    let Row { mut parts, size: _ } = row;
    match parts.pop() {
        None => constant(alloc, unit, room),
        Some(last) => {
            let mut all = within(last, room)?;
            while let Some(part) = parts.pop() {
                all = binary(alloc, connective, part, all, room)?;
            }
            Ok(all)
        }
    }
}

/// The conditionals of these tests with these terms, nested to the right, with the other term at
/// the end.
pub fn nest(
    alloc: Global,
    tests: Row,
    founds: Row,
    other: Built,
    room: usize,
) -> Result<Built, SizeFault>
    requires { length tests.parts ≡ length founds.parts }
    ensures { Builds room
        (nested (map built_ground tests.parts) (map built_ground founds.parts) (ground other.term))
        result }
{
    let Row {
        parts: mut tests,
        size: _,
    } = tests;
    let Row {
        parts: mut founds,
        size: _,
    } = founds;
    let mut all = within(other, room)?;
    while let Some(test) = tests.pop() {
        match founds.pop() {
            Some(found) => {
                all = conditional(alloc, test, found, all, room)?;
            }
            None => unreachable!(),
        }
    }
    Ok(all)
}
