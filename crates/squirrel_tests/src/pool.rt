// Ids of equal and of different terms, marks, and a term that is large as a tree.
use sq_pool::{Node, Pool, TermId};
use sq_term::{Builtin, Idx, Macro, NoMemory, Seq, Sort, Ts};
use sqlite_items::Boxed;
use std::alloc::Global;

/// The ids under a function.
#[derive(Clone, Copy)]
enum Over {
    Nothing,
    One(usize),
    Two(usize, usize),
}

/// A node that is put, its id and the length of the pool after it.
#[derive(Clone, Copy)]
struct Row {
    function: Builtin,
    over: Over,
    id: usize,
    len: usize,
}

const BEFORE: [Row; 3] = [
    Row {
        function: Builtin::Empty,
        over: Over::Nothing,
        id: 0,
        len: 1,
    },
    Row {
        function: Builtin::Pair,
        over: Over::Two(0, 0),
        id: 1,
        len: 2,
    },
    Row {
        function: Builtin::Empty,
        over: Over::Nothing,
        id: 0,
        len: 2,
    },
];

const BEHIND: [Row; 3] = [
    Row {
        function: Builtin::Fst,
        over: Over::One(0),
        id: 2,
        len: 3,
    },
    Row {
        function: Builtin::Pair,
        over: Over::Two(0, 0),
        id: 1,
        len: 3,
    },
    Row {
        function: Builtin::Snd,
        over: Over::One(2),
        id: 3,
        len: 4,
    },
];

// The id of the row's node, if the pool has the ids under it.
fn put(alloc: Global, pool: &mut Pool, row: Row) -> Result<Option<TermId>, NoMemory> {
    let function = row.function.number();
    let indices = Seq::new(alloc);
    match row.over {
        Over::Nothing => {
            let id = pool.put(Node::Fun(function, indices, Seq::new(alloc)))?;
            Ok(Some(id))
        }
        Over::One(a) if a < pool.len() => {
            let ids = Seq::from_slice(alloc, &[TermId { at: a }])?;
            let id = pool.put(Node::Fun(function, indices, ids))?;
            Ok(Some(id))
        }
        Over::Two(a, b) if a < pool.len() && b < pool.len() => {
            let ids = Seq::from_slice(alloc, &[TermId { at: a }, TermId { at: b }])?;
            let id = pool.put(Node::Fun(function, indices, ids))?;
            Ok(Some(id))
        }
        Over::One(_) | Over::Two(_, _) => Ok(None),
    }
}

// How many of the rows are as they say.
fn right(alloc: Global, pool: &mut Pool, rows: &[Row]) -> Result<usize, NoMemory> {
    let mut count: usize = 0;
    for row in rows {
        let id = put(alloc, pool, *row)?;
        if id == Some(TermId { at: row.id }) && pool.len() == row.len {
            count = count.saturating_add(1);
        }
    }
    Ok(count)
}

fn is_pair_of_first(pool: &Pool) -> bool {
    match pool.get(TermId { at: 1 }) {
        Some(Node::Fun(function, indices, ids)) => {
            *function == Builtin::Pair.number()
                && indices.is_empty()
                && ids.as_slice() == [TermId { at: 0 }, TermId { at: 0 }].as_slice()
        }
        _ => false,
    }
}

#[test]
fn a_mark_is_come_back_to(rt: HostRuntime) {
    let alloc = rt.alloc();
    let mut pool = Pool::new(alloc);
    assert_eq!(rt; right(alloc, &mut pool, &BEFORE), Ok(3), "before the mark");
    let mark = pool.mark();
    for _ in 0..2 {
        assert_eq!(rt; right(alloc, &mut pool, &BEHIND), Ok(3), "behind the mark");
        pool.release(mark);
        assert_eq!(rt; pool.len(), 2, "length");
        assert!(rt; is_pair_of_first(&pool), "the pair stays");
        assert!(rt; pool.get(TermId { at: 2 }).is_none(), "released");
    }
    pool.release(mark);
    assert_eq!(rt; pool.len(), 2, "nothing to release");
}

/// A timestamp of one of the forms, with its numbers.
#[derive(Clone, Copy)]
enum Time {
    Init,
    Free(u32),
    Bound(u32),
    BeforeInit,
    Action(u32, Idx),
}

/// A node of one of the forms; its terms are the first of the pool.
#[derive(Clone, Copy)]
enum Shape {
    Name(u32, Idx),
    Plain(u32),
    Function(u32, Idx),
    Macro(Macro, Time),
    Schema(u32),
    Le(Time, Time),
    TsEq(Time, Time),
    IdxEq(Idx, Idx),
    Happens(Time),
    Forall(Sort),
    Exists(Sort),
    Find(u32),
}

/// No two are equal, and neighbours differ in one number or one form.
const SHAPES: [Shape; 33] = [
    Shape::Plain(0),
    Shape::Plain(1),
    Shape::Name(0, Idx::Free(0)),
    Shape::Name(1, Idx::Free(0)),
    Shape::Name(1, Idx::Free(1)),
    Shape::Name(1, Idx::Bound(1)),
    Shape::Function(1, Idx::Bound(1)),
    Shape::Function(2, Idx::Bound(1)),
    Shape::Function(2, Idx::Bound(0)),
    Shape::Macro(Macro::Input, Time::Init),
    Shape::Macro(Macro::Output, Time::Init),
    Shape::Macro(Macro::Output, Time::BeforeInit),
    Shape::Schema(0),
    Shape::Schema(u32::MAX),
    Shape::Le(Time::Free(0), Time::Free(1)),
    Shape::Le(Time::Free(1), Time::Free(0)),
    Shape::Le(Time::Free(1), Time::Bound(0)),
    Shape::TsEq(Time::Free(1), Time::Bound(0)),
    Shape::IdxEq(Idx::Free(0), Idx::Free(1)),
    Shape::IdxEq(Idx::Free(0), Idx::Free(2)),
    Shape::IdxEq(Idx::Free(0), Idx::Bound(2)),
    Shape::Happens(Time::Init),
    Shape::Happens(Time::BeforeInit),
    Shape::Happens(Time::Action(0, Idx::Free(0))),
    Shape::Happens(Time::Action(1, Idx::Free(0))),
    Shape::Happens(Time::Action(1, Idx::Free(1))),
    Shape::Happens(Time::Action(1, Idx::Bound(1))),
    Shape::Forall(Sort::Index),
    Shape::Forall(Sort::Timestamp),
    Shape::Exists(Sort::Timestamp),
    Shape::Find(0),
    Shape::Find(1),
    Shape::Find(2),
];

fn ts_of(alloc: Global, time: Time) -> Result<Ts, NoMemory> {
    Ok(match time {
        Time::Init => Ts::Init,
        Time::Free(n) => Ts::Free(n),
        Time::Bound(n) => Ts::Bound(n),
        Time::BeforeInit => Ts::Pred(Boxed::new(alloc, Ts::Init)?),
        Time::Action(n, i) => Ts::Act(n, Seq::from_slice(alloc, &[i])?),
    })
}

// The first term of the pool is the one under the others.
fn put_shape(alloc: Global, pool: &mut Pool, shape: Shape) -> Result<TermId, NoMemory> {
    let first = pool.put(Node::Name(0, Seq::new(alloc)))?;
    match shape {
        Shape::Plain(n) => pool.put(Node::Name(n, Seq::new(alloc))),
        Shape::Name(n, i) => pool.put(Node::Name(n, Seq::from_slice(alloc, &[i])?)),
        Shape::Function(n, i) => {
            let indices = Seq::from_slice(alloc, &[i])?;
            pool.put(Node::Fun(n, indices, Seq::new(alloc)))
        }
        Shape::Macro(m, t) => pool.put(Node::Macro(m, ts_of(alloc, t)?)),
        Shape::Schema(n) => pool.put(Node::Schema(n)),
        Shape::Le(s, t) => pool.put(Node::Le(ts_of(alloc, s)?, ts_of(alloc, t)?)),
        Shape::TsEq(s, t) => pool.put(Node::TsEq(ts_of(alloc, s)?, ts_of(alloc, t)?)),
        Shape::IdxEq(i, j) => pool.put(Node::IdxEq(i, j)),
        Shape::Happens(t) => pool.put(Node::Happens(ts_of(alloc, t)?)),
        Shape::Forall(s) => pool.put(Node::Forall(s, first)),
        Shape::Exists(s) => pool.put(Node::Exists(s, first)),
        Shape::Find(n) => pool.put(Node::Find(n, first, first, first)),
    }
}

// How many of the shapes have the id of their place.
fn in_place(alloc: Global, pool: &mut Pool) -> Result<usize, NoMemory> {
    let mut count: usize = 0;
    for at in 0..SHAPES.len() {
        if put_shape(alloc, pool, SHAPES[at])? == (TermId { at }) {
            count = count.saturating_add(1);
        }
    }
    Ok(count)
}

#[test]
fn terms_that_differ_have_ids_that_differ(rt: HostRuntime) {
    let alloc = rt.alloc();
    let mut pool = Pool::new(alloc);
    for turn in 0..2 {
        assert_eq!(rt; in_place(alloc, &mut pool), Ok(SHAPES.len()), "turn {turn}");
        assert_eq!(rt; pool.len(), SHAPES.len(), "length");
    }
}

// A term whose tree has 2^60 leaves, by 61 puts.
fn put_tower(alloc: Global, pool: &mut Pool) -> Result<TermId, NoMemory> {
    let mut top = pool.put(Node::Name(0, Seq::new(alloc)))?;
    for _ in 0..60 {
        if top.at < pool.len() {
            top = pool.put(Node::Diff(top, top))?;
        }
    }
    Ok(top)
}

#[test]
fn a_large_tree_has_few_nodes(rt: HostRuntime) {
    let alloc = rt.alloc();
    let mut pool = Pool::new(alloc);
    for _ in 0..1640 {
        assert_eq!(rt;
            put_tower(alloc, &mut pool),
            Ok(TermId { at: 60 }),
            "the top"
        );
    }
    assert_eq!(rt; pool.len(), 61, "length");
}
