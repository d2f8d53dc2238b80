// Copies of ground terms, within a room of nodes.
ghost use Rattle.std.specs.Prelude.{◌≡◌};
ghost use Rattle.sq_term.specs.Ground.{ground, grounds};
ghost use Rattle.sq_ground.specs.Calls.Builds.{Builds, BuildsAll};

use crate::building::{an_atom, apply, name};
use crate::built::{Arguments, Built};
use sq_base::Seq;
use sq_term::{GTerm, SizeFault};
use sqlite_items::Items;
use std::alloc::Global;

/// An equal ground term.
#[cycle(copy)]
#[tactic(auto, using(sq_term::proofs::GroundViews::ground_rules))]
pub fn copy_ground(alloc: Global, t: &GTerm, room: usize) -> Result<Built, SizeFault>
    ensures { Builds room (ground t.now) result }
{
    match t {
        GTerm::Name(n, numbers) => name(*n, Seq::from_slice(alloc, numbers.as_slice())?, room),
        GTerm::Fun(f, numbers, args) => {
            let args = copy_grounds(alloc, args.as_slice(), room)?;
            apply(*f, Seq::from_slice(alloc, numbers.as_slice())?, args, room)
        }
        GTerm::Atom(k) => an_atom(*k, room),
    }
}

#[cycle(copy)]
#[tactic(auto, using(crate::proofs::Grounds::onto_rules))]
fn copy_grounds(alloc: Global, terms: &[GTerm], room: usize) -> Result<Arguments, SizeFault>
    ensures { BuildsAll room (grounds terms.now) result }
{
    let mut out = Items::new(alloc);
    let mut nodes: usize = 0;
    let mut deepest: usize = 0;
    for t in terms {
        let Built { term, size, depth } = copy_ground(alloc, t, room - nodes)?;
        nodes += size;
        deepest = deepest.max(depth);
        out.push(term)?;
    }
    Ok(Arguments {
        terms: out,
        size: nodes,
        depth: deepest,
    })
}
