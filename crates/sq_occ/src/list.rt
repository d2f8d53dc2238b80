// An occurrence list as it grows.
ghost use Rattle.std.specs.Prelude.{◌≡◌, [], ◌∷◌, min};
ghost use Rattle.sq_occ.specs.Calls.Views.{role_tree, occ_tree};
ghost use Rattle.sq_occ.specs.Calls.Lists.{growing, Adds};
ghost use Rattle.sq_occ.specs.Sizes.{role_nodes, place_nodes};

use sq_base::Seq;
use sq_system::{Occ, OccFault, Role};
use sq_term::size;

/// The entries so far, and how many nodes more may take.
#[derive(Debug, Drop)]
pub struct List {
    pub entries: Seq<Occ>,
    pub room: u32,
}

/// How many nodes the message of a role has, or the largest number.
fn message_size(role: &Role) -> usize
    ensures { result ≡ min (role_nodes (role_tree role.now)) 18446744073709551615 }
{
    match role {
        Role::Bare | Role::Pub => 0,
        Role::Key(key) => size(&key.arg),
    }
}

/// How many nodes an entry has, or the largest number.
fn entry_size(occ: &Occ) -> usize
    ensures { result ≡ min (place_nodes (occ_tree occ.now)) 18446744073709551615 }
{
    let message = message_size(&occ.role);
    let guard = size(&occ.guard);
    occ.args.len().saturating_add(message.saturating_add(guard))
}

impl List {
    /// Adds an entry at the end, where there is room for its nodes.
    #[tactic(auto, using(crate::proofs::Growth::add_rules))]
    pub fn add(&mut self, occ: Occ) -> Result<(), OccFault>
        ensures { Adds (growing self.old) (growing self.new) result (occ_tree occ ∷ []) }
    {
        let nodes = entry_size(&occ);
        if nodes > self.room as usize {
            return Err(OccFault::TooLarge);
        }
        self.entries.push(occ)?;
        self.room -= nodes as u32;
        Ok(())
    }
}
