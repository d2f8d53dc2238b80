// The values of indices and timestamps.
ghost use Rattle.std.specs.Prelude.{◌≡◌, ◌-◌, ◌<◌, ◌^◌, None, length, IfOk, slice_index_or};
ghost use Rattle.sq_term.specs.View.{ts_tree};
ghost use Rattle.sq_term.specs.Models.{place_from};
ghost use Rattle.sq_term.specs.Translate as spec;
ghost use Rattle.sq_ground.specs.Calls.Readings.{seen, given};

use crate::model::is_instance;
use crate::reading::Reading;
use sq_base::{NoMemory, Seq};
use sq_term::{Idx, Inst, Ts, Value};
use std::alloc::Global;

fn number_at(values: &[Value], k: u32) -> u32
    ensures { result ≡ spec.number_of (slice_index_or values.now k (Value.Time None)) }
{
    match values.get(k as usize) {
        Some(Value::Index(n)) => *n,
        Some(Value::Time(_)) | None => 0,
    }
}

fn time_at(values: &[Value], k: u32) -> Option<u32>
    ensures { result ≡ spec.time_of (slice_index_or values.now k (Value.Time None)) }
{
    match values.get(k as usize) {
        Some(Value::Time(t)) => *t,
        Some(Value::Index(_)) | None => None,
    }
}

/// The value of an index. `bs` are the values of the binders around, the innermost first.
pub fn idx_value(w: &Reading, bs: &[Value], i: Idx) -> u32
    ensures { result ≡ spec.idx_value (given w.now) bs.now i }
{
    match i {
        Idx::Free(k) => number_at(w.values, k),
        Idx::Bound(k) => number_at(bs, k),
    }
}

/// The values of indices.
pub fn idx_values(
    alloc: Global,
    w: &Reading,
    bs: &[Value],
    is: &[Idx],
) -> Result<Seq<u32>, NoMemory>
    ensures { IfOk result (λ ns. ns ≡ spec.idx_values (given w.now) bs.now is.now) }
{
    let mut numbers = Seq::new(alloc);
    for i in is {
        numbers.push(idx_value(w, bs, *i))?;
    }
    Ok(numbers)
}

// The position of the instance of action n at these indices.
fn place(list: &[Inst], n: u32, is: &[u32]) -> Option<u32>
    requires { length list.now < 2 ^ 32 - 1 }
    ensures { result ≡ place_from 1 list.now n is.now }
{
    for k in 0..list.len() {
        if is_instance(n, is, &list[k]) {
            return Some(k as u32 + 1);
        }
    }
    None
}

fn before(t: Option<u32>) -> Option<u32>
    ensures { result ≡ spec.before t }
{
    match t {
        Some(0) | None => None,
        Some(p) => Some(p - 1),
    }
}

/// The value of a timestamp: its position, or none where it is undefined.
#[tactic(auto, using(sq_term::proofs::Views::tree_rules))]
pub fn ts_value(alloc: Global, w: &Reading, bs: &[Value], t: &Ts) -> Result<Option<u32>, NoMemory>
    requires { length w.now.model.now.list < 2 ^ 32 - 1 }
    ensures { IfOk result
        (λ v. v ≡ spec.ts_value (seen w.now).times (given w.now) bs.now (ts_tree t.now)) }
{
    match t {
        Ts::Free(k) => Ok(time_at(w.values, *k)),
        Ts::Bound(k) => Ok(time_at(bs, *k)),
        Ts::Init => Ok(Some(0)),
        Ts::Pred(inner) => Ok(before(ts_value(alloc, w, bs, inner.get())?)),
        Ts::Act(n, is) => {
            let numbers = idx_values(alloc, w, bs, is.as_slice())?;
            Ok(place(w.model.list.as_slice(), *n, numbers.as_slice()))
        }
    }
}

/// Whether both have positions, in this order.
pub fn is_upto(s: Option<u32>, t: Option<u32>) -> bool
    ensures { result ≡ spec.is_upto s t }
{
    match (s, t) {
        (Some(p), Some(q)) => p <= q,
        _ => false,
    }
}

/// Whether the values are equal, two undefined ones included.
pub fn is_same_time(s: Option<u32>, t: Option<u32>) -> bool
    ensures { result ≡ spec.is_same_time s t }
{
    match (s, t) {
        (Some(p), Some(q)) => p == q,
        (None, None) => true,
        _ => false,
    }
}
