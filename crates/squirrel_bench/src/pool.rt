// Nodes put into a pool, half of which are there.
use crate::fault::Fault;
use sq_pool::{Node, Pool};
use sq_term::{Idx, NoMemory, Seq};
use std::alloc::Global;

/// Puts so many nodes and counts the terms of the pool (`puts`), or leaves it (`nothing`).
pub fn turned(alloc: Global, word: &str, turns: u32) -> Result<u32, Fault> {
    match word {
        "puts" => counted(alloc, turns),
        "nothing" => Ok(turns),
        _ => Err(Fault::Usage),
    }
}

fn counted(alloc: Global, turns: u32) -> Result<u32, Fault> {
    let pool = filled(alloc, turns)?;
    u32::try_from(pool.len()).or(Err(Fault::Limit))
}

// Each node comes twice.
fn filled(alloc: Global, turns: u32) -> Result<Pool, NoMemory> {
    let mut pool = Pool::new(alloc);
    for k in 0..turns / 2 {
        put_pair(alloc, &mut pool, k / 2)?;
    }
    Ok(pool)
}

// Puts the name with this number at an index, and a node over it.
fn put_pair(alloc: Global, pool: &mut Pool, number: u32) -> Result<(), NoMemory> {
    let indices = Seq::from_slice(alloc, &[Idx::Free(number)])?;
    let name = pool.put(Node::Name(number, indices))?;
    pool.put(Node::Diff(name, name))?;
    Ok(())
}
