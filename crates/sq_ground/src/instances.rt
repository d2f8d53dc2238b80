// The values of the binders around a body, the innermost first, for each value of its own binders.
ghost use Rattle.std.specs.Prelude.{◌≡◌, ◌-◌, ◌<◌, ◌^◌, [], ◌∷◌, ◌++◌, None, length, map, flat_map};
ghost use Rattle.std.specs.Prelude.{replicate, IfOk};
ghost use Rattle.sq_term.specs.Lists.{count};
ghost use Rattle.sq_term.specs.Translate.{domain, choices as all_choices};
ghost use Rattle.sq_term.specs.Models.{times_of};
ghost use Rattle.sq_ground.specs.Calls.Instances.{Lists, with_index, with_position};

use sq_base::{NoMemory, Seq, Sort};
use sq_term::{Model, SizeFault, Value};
use sqlite_items::Items;
use std::alloc::Global;

/// How many instances a ground term of depth 1,024 can join.
const MOST_INSTANCES: usize = 1024;

// The value and then those around it.
fn inside(alloc: Global, x: Value, bs: &[Value]) -> Result<Seq<Value>, NoMemory>
    ensures { IfOk result (λ ys. ys ≡ x ∷ bs.now) }
{
    let mut values = Seq::new(alloc);
    values.push(x)?;
    values.extend_from_slice(bs)?;
    Ok(values)
}

// One more binder over the indices below d.
fn over_indices(alloc: Global, d: u32, bs: &[Value]) -> Result<Items<Seq<Value>>, SizeFault>
    ensures { Lists (map (with_index bs.now) (count 0 d)) result }
{
    if d as usize > MOST_INSTANCES {
        return Err(SizeFault::TooLarge);
    }
    let mut lists = Items::new(alloc);
    for k in 0..d {
        lists.push(inside(alloc, Value::Index(k), bs)?)?;
    }
    Ok(lists)
}

// One more binder over the positions of so many, and then undefined.
fn over_times(alloc: Global, positions: usize, bs: &[Value]) -> Result<Items<Seq<Value>>, SizeFault>
    ensures { Lists
        (map (with_position bs.now) (count 0 positions) ++ (Value.Time None ∷ bs.now) ∷ [])
        result }
{
    if positions >= MOST_INSTANCES {
        return Err(SizeFault::TooLarge);
    }
    let mut lists = Items::new(alloc);
    for k in 0..positions {
        lists.push(inside(alloc, Value::Time(Some(k as u32)), bs)?)?;
    }
    lists.push(inside(alloc, Value::Time(None), bs)?)?;
    Ok(lists)
}

/// One list for each value of a variable of the sort, in ascending order.
pub fn over_domain(
    alloc: Global,
    m: &Model,
    sort: Sort,
    bs: &[Value],
) -> Result<Items<Seq<Value>>, SizeFault>
    requires { length m.now.list < 2 ^ 32 - 1 }
    ensures { Lists (map (λ x. x ∷ bs.now) (domain (times_of m.now) sort)) result }
{
    match sort {
        Sort::Message | Sort::Boolean => Ok(Items::new(alloc)),
        Sort::Index => over_indices(alloc, m.indices, bs),
        Sort::Timestamp => over_times(alloc, m.list.len() + 1, bs),
    }
}

// One more index in each list.
fn one_more(alloc: Global, d: u32, lists: &[Seq<Value>]) -> Result<Items<Seq<Value>>, SizeFault>
    ensures { Lists (flat_map (λ bs. map (with_index bs) (count 0 d)) lists.now) result }
{
    let mut longer = Items::new(alloc);
    for bs in lists {
        longer.append(over_indices(alloc, d, bs.as_slice())?)?;
        if longer.len() > MOST_INSTANCES {
            return Err(SizeFault::TooLarge);
        }
    }
    Ok(longer)
}

// The list for the only choice of c indices below 1.
fn only_choice(alloc: Global, c: u32, bs: &[Value]) -> Result<Seq<Value>, NoMemory>
    ensures { IfOk result (λ ys. ys ≡ replicate c (Value.Index 0) ++ bs.now) }
{
    let mut values = Seq::new(alloc);
    for k in 0..c {
        values.push(Value::Index(0))?;
    }
    values.extend_from_slice(bs)?;
    Ok(values)
}

// One list for each choice of c indices of several. All shorter choices together are no more than
// these.
fn choices_of_several(
    alloc: Global,
    m: &Model,
    c: u32,
    bs: &[Value],
) -> Result<Items<Seq<Value>>, SizeFault>
    ensures { Lists (all_choices (times_of m.now) c bs.now) result }
{
    let mut lists = Items::new(alloc);
    lists.push(Seq::from_slice(alloc, bs)?)?;
    for done in 0..c {
        lists = one_more(alloc, m.indices, lists.as_slice())?;
    }
    Ok(lists)
}

/// One list for each choice of c indices, in ascending lexicographic order. It takes time in what
/// it answers alone.
pub fn choices(
    alloc: Global,
    m: &Model,
    c: u32,
    bs: &[Value],
) -> Result<Items<Seq<Value>>, SizeFault>
    ensures { Lists (all_choices (times_of m.now) c bs.now) result }
{
    if c == 0 || m.indices > 1 {
        return choices_of_several(alloc, m, c, bs);
    }
    let mut lists = Items::new(alloc);
    if m.indices == 0 {
        return Ok(lists);
    }
    lists.push(only_choice(alloc, c, bs)?)?;
    Ok(lists)
}
