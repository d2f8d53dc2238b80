// Terms: sizes, copies, equal ones, and the numbers of the built-in functions.
use indexmap::IndexSet;
use sq_base::{NoMemory, Seq, Sort};
use sq_term::formulas::negation;
use sq_term::{
    Builtin, Idx, Macro, Term, Ts, copies, copy, copy_ts, depth, is_closed, is_pure, is_ts_closed,
    same, same_ts, size, ts_depth, ts_size,
};
use sqlite_items::{Boxed, Items};
use std::alloc::Global;

/// A node that holds a timestamp, as a table of shared terms has.
#[derive(Debug, PartialEq, Eq, Hash, Drop)]
struct At {
    what: Macro,
    at: Ts,
}

fn pred(alloc: Global, t: Ts) -> Result<Ts, NoMemory> {
    Ok(Ts::Pred(Boxed::new(alloc, t)?))
}

fn action_before(alloc: Global, index: Idx) -> Result<Ts, NoMemory> {
    pred(alloc, Ts::Act(3, Seq::from_slice(alloc, &[index])?))
}

fn name(alloc: Global, indices: &[Idx]) -> Result<Term, NoMemory> {
    Ok(Term::Name(0, Seq::from_slice(alloc, indices)?))
}

fn forall(alloc: Global, sort: Sort, body: Term) -> Result<Term, NoMemory> {
    Ok(Term::Forall(sort, Boxed::new(alloc, body)?))
}

#[test]
fn measures_count_timestamps_and_indices(rt: HostRuntime) {
    let alloc = rt.alloc();
    let bare = name(alloc, &[]).expect(&rt, "memory");
    assert!(rt; size(&bare) == 1 && depth(&bare) == 1, "a name");
    let indexed = name(alloc, &[Idx::Free(0), Idx::Bound(2)]).expect(&rt, "memory");
    assert!(rt;
        size(&indexed) == 3 && depth(&indexed) == 2,
        "a name with indices"
    );
    assert!(rt;
        is_closed(&indexed, 3) && !is_closed(&indexed, 2),
        "the furthest index"
    );
    let before = pred(alloc, Ts::Init).expect(&rt, "memory");
    assert!(rt;
        ts_size(&before) == 2 && ts_depth(&before) == 2,
        "pred(init)"
    );
    let action = action_before(alloc, Idx::Bound(0)).expect(&rt, "memory");
    assert!(rt;
        ts_size(&action) == 3 && ts_depth(&action) == 3,
        "pred of an action"
    );
    assert!(rt;
        is_ts_closed(&action, 1) && !is_ts_closed(&action, 0),
        "the action's index"
    );
    let happens = negation(alloc, Term::Happens(action)).expect(&rt, "memory");
    let all = forall(alloc, Sort::Index, happens).expect(&rt, "memory");
    assert!(rt; size(&all) == 6 && depth(&all) == 6, "a formula");
    assert!(rt; is_closed(&all, 0) && is_pure(&all), "a trace formula");
    let of_messages = forall(
        alloc,
        Sort::Message,
        Term::IdxEq(Idx::Free(0), Idx::Free(1)),
    );
    assert!(rt;
        !is_pure(&of_messages.expect(&rt, "memory")),
        "a message quantifier"
    );
    assert!(rt; !is_pure(&bare), "a name is no trace formula");
}

#[test]
fn copies_are_equal(rt: HostRuntime) {
    let alloc = rt.alloc();
    let action = action_before(alloc, Idx::Free(4)).expect(&rt, "memory");
    let other = action_before(alloc, Idx::Bound(4)).expect(&rt, "memory");
    let twin = copy_ts(alloc, &action).expect(&rt, "memory");
    assert!(rt;
        same_ts(&twin, &action) && !same_ts(&action, &other),
        "timestamps"
    );
    let term = negation(alloc, Term::Le(action, other)).expect(&rt, "memory");
    let again = copy(alloc, &term).expect(&rt, "memory");
    assert!(rt; same(&again, &term), "a copy");
    let different = negation(alloc, again).expect(&rt, "memory");
    assert!(rt; !same(&different, &term), "another term");
    let mut row = Items::new(alloc);
    row.push(term).expect(&rt, "memory");
    row.push(different).expect(&rt, "memory");
    let rows = copies(alloc, row.as_slice()).expect(&rt, "memory");
    assert!(rt; rows.len() == 2, "both terms");
}

#[test]
fn equal_nodes_meet(rt: HostRuntime) {
    let alloc = rt.alloc();
    let mut nodes = IndexSet::new(alloc);
    for index in [Idx::Free(1), Idx::Bound(1), Idx::Free(1)] {
        let at = action_before(alloc, index).expect(&rt, "memory");
        nodes
            .insert(At {
                what: Macro::Frame,
                at,
            })
            .expect(&rt, "memory");
    }
    nodes
        .insert(At {
            what: Macro::Input,
            at: Ts::Init,
        })
        .expect(&rt, "memory");
    assert!(rt; nodes.len() == 3, "three different nodes");
}

#[test]
fn numbers_of_builtins(rt: HostRuntime) {
    assert!(rt; Builtin::Att.number() == 13, "the last");
    assert!(rt; Builtin::of(8) == Some(Builtin::Ite), "the conditional");
    assert!(rt; Builtin::of(14).is_none(), "a declared function");
    assert!(rt;
        Builtin::Or.is_connective(2) && !Builtin::Eq.is_connective(2),
        "connectives"
    );
}
