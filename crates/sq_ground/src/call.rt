// The ground term of a term at a trace model.
ghost use Rattle.std.specs.Prelude.{◌≡◌, ◌≢◌, ℕ, ◌-◌, ◌<◌, ◌^◌, length};
ghost use Rattle.sq_term.specs.View.{term_tree};
ghost use Rattle.sq_term.specs.Systems.{system_tree};
ghost use Rattle.sq_term.specs.Ground.{Ground};
ghost use Rattle.sq_ground.specs.Calls.Alike.{Alike};
ghost use Rattle.sq_ground.specs.Calls.Builds.{Builds};
ghost use Rattle.sq_ground.specs.Calls.Translations.{is_left, ground_translation, IsAnswer};

use crate::building::empty_message;
use crate::built::Built;
use crate::keeping::{keep, undefined_entry};
use crate::reading::Reading;
use crate::table::entries_of;
use crate::translation::build;
use sq_system::System;
use sq_term::{Assign, GTerm, Model, Side, SizeFault, Term};
use std::alloc::Global;

fn reads_left(side: Side) -> bool
    ensures { result ≡ is_left side }
{
    match side {
        Side::Left => true,
        Side::Right | Side::Both => false,
    }
}

fn answer(built: Result<Built, SizeFault>) -> Result<GTerm, SizeFault>
    ensures { (room : ℕ) (g whole : Ground) → Alike room g whole → Builds room g built
        → IsAnswer room whole result }
{
    match built {
        Ok(b) => {
            let Built { term, .. } = b;
            Ok(term)
        }
        Err(fault) => Err(fault),
    }
}

/// The ground term of a term at a model of the system, on one side, for these values of the
/// variables.
///
/// Names and functions carry numbers, atoms of the trace are true or false, a quantifier is the
/// conjunction or disjunction of all its instances, `find` is nested conditionals in ascending
/// order of its indices, `diff` is its side, and a macro has its value along the trace. A schema
/// variable stands as its atom.
///
/// TooLarge comes where the ground term has more than `room` nodes or depth above 1,024. Each
/// ground term is one node; the numbers of names and functions are none. Macros that the term does
/// not read may pass these limits.
pub fn translate(
    alloc: Global,
    t: &Term,
    s: &System,
    m: &Model,
    side: Side,
    a: &Assign,
    room: usize,
) -> Result<GTerm, SizeFault>
    requires few { length m.now.list < 2 ^ 32 - 1 }
    requires one_side { side ≢ Side.Both }
    ensures { IsAnswer room
        (ground_translation (system_tree s.now) m.now side a.now.vars (term_tree t.now)) result }
{
    let left = reads_left(side);
    let entries = entries_of(alloc, s, m, left, room)?;
    let nothing = keep(empty_message(alloc, room))?;
    let behind = undefined_entry(alloc, nothing, room)?;
    let w = Reading {
        model: m,
        left,
        values: a.vars.as_slice(),
        entries: entries.as_slice(),
        own: &behind,
    };
    answer(build(alloc, t, &w, &[], room))
}
