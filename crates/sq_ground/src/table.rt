// What is kept of the macros of a trace, position by position.
ghost use Rattle.std.specs.Prelude.{◌≡◌, ◌-◌, ◌<◌, ◌^◌, [], length, map, get_or, IfOk};
ghost use Rattle.sq_term.specs.Systems.{action_at, system_tree};
ghost use Rattle.sq_term.specs.Translate.{translate};
ghost use Rattle.sq_term.specs.Records.{at_undefined, record_of, records_of};
ghost use Rattle.sq_ground.specs.Calls.Readings.{kept, kept_record, kept_records, seen, given};
ghost use Rattle.sq_ground.specs.Calls.Alike.{Alike, AlikeRecord, AlikeRecords};

use crate::building::{empty_message, truth};
use crate::keeping::{init_entry, keep, next_entry, next_input, undefined_entry};
use crate::reading::{Entry, Reading};
use crate::translation::build;
use sq_base::{NoMemory, Seq};
use sq_system::System;
use sq_term::{GTerm, Inst, Model, Value};
use sqlite_items::Items;
use std::alloc::Global;

// The values of an instance's indices.
fn own_values(alloc: Global, idx: &[u32]) -> Result<Seq<Value>, NoMemory>
    ensures { IfOk result (λ vs. vs ≡ map Value.Index idx.now) }
{
    let mut values = Seq::new(alloc);
    for n in idx {
        values.push(Value::Index(*n))?;
    }
    Ok(values)
}

fn output_of(
    alloc: Global,
    s: &System,
    act: u32,
    w: &Reading,
    room: usize,
) -> Result<Option<GTerm>, NoMemory>
    requires { length w.now.model.now.list < 2 ^ 32 - 1 }
    ensures { IfOk result (λ k. Alike room (kept k)
        (translate (seen w.now) (given w.now) [] (action_at (system_tree s.now) act).output)) }
{
    match s.action(act) {
        Some(action) => keep(build(alloc, &action.output, w, &[], room)),
        None => keep(empty_message(alloc, room)),
    }
}

fn cond_of(
    alloc: Global,
    s: &System,
    act: u32,
    w: &Reading,
    room: usize,
) -> Result<Option<GTerm>, NoMemory>
    requires { length w.now.model.now.list < 2 ^ 32 - 1 }
    ensures { IfOk result (λ k. Alike room (kept k)
        (translate (seen w.now) (given w.now) [] (action_at (system_tree s.now) act).cond)) }
{
    match s.action(act) {
        Some(action) => keep(build(alloc, &action.cond, w, &[], room)),
        None => keep(truth(alloc, true, room)),
    }
}

fn own_input(e: Entry) -> Option<GTerm>
    ensures { result ≡ e.input }
{
    let Entry { input, .. } = e;
    input
}

// What is kept of the position of an instance, behind those of these entries.
fn entry_after(
    alloc: Global,
    s: &System,
    m: &Model,
    left: bool,
    entries: &[Entry],
    i: &Inst,
    room: usize,
) -> Result<Entry, NoMemory>
    requires few { length m.now.list < 2 ^ 32 - 1 }
    requires some { 0 < length entries.now }
    ensures { let before = kept_records entries.now in
        let last = get_or before (length entries.now - 1) at_undefined in
        IfOk result (λ e. AlikeRecord room (kept_record e)
        (record_of (system_tree s.now) m.now left before last i.now)) }
{
    let last = &entries[entries.len() - 1];
    let input = next_input(alloc, last, room)?;
    let half = undefined_entry(alloc, input, room)?;
    let values = own_values(alloc, i.idx.as_slice())?;
    let w = Reading {
        model: m,
        left,
        values: values.as_slice(),
        entries,
        own: &half,
    };
    let output = output_of(alloc, s, i.act, &w, room)?;
    let cond = cond_of(alloc, s, i.act, &w, room)?;
    next_entry(alloc, last, own_input(half), output, cond, room)
}

/// What is kept of each position, init first. A term that passes the room or depth 1,024 is not
/// kept.
pub fn entries_of(
    alloc: Global,
    s: &System,
    m: &Model,
    left: bool,
    room: usize,
) -> Result<Items<Entry>, NoMemory>
    requires { length m.now.list < 2 ^ 32 - 1 }
    ensures { IfOk result
        (λ es. AlikeRecords room (kept_records es) (records_of (system_tree s.now) m.now left)) }
{
    let mut entries = Items::new(alloc);
    entries.push(init_entry(alloc, room)?)?;
    for i in m.list.as_slice() {
        let entry = entry_after(alloc, s, m, left, entries.as_slice(), i, room)?;
        entries.push(entry)?;
    }
    Ok(entries)
}
