// Reading a file.
ghost use Rattle.std.specs.Prelude.{◌≡◌, ℕ, List, Some, take, IfOk, IsErrOf};
ghost use Rattle.sq_edge.specs.Edge.{held, HasCause, Lacks};

use sq_edge::{Shelf, ShelfError};
use std::alloc::Global;

// One byte more than a file may have.
pub const MOST: usize = 1_048_577;

const PIECE: usize = 65_536;

/// Reads to the end, or until one byte more is held than a file may have.
pub fn read_file<F: Shelf>(alloc: Global, shelf: &mut F, name: &str) -> Result<Vec<u8>, ShelfError>
    ensures bytes { IfOk result (λ bytes. (file : List ℕ)
        → held (F.files shelf.old) name.now ≡ Some file → bytes.items ≡ take 1048577 file) }
    ensures present { IfOk result (λ _. Lacks (F.files shelf.old) name.now → ⊥) }
    ensures absent { IsErrOf result ShelfError.Missing
        → (file : List ℕ) → held (F.files shelf.old) name.now ≡ Some file → ⊥ }
    ensures files { F.files shelf.new ≡ F.files shelf.old }
    ensures cause { HasCause (F.faults shelf.old) (F.misses shelf.old)
        (F.faults shelf.new) (F.misses shelf.new) result }
{
    let mut bytes = Vec::new(alloc);
    'pieces: while bytes.len() < MOST {
        let room = PIECE.min(MOST - bytes.len());
        let piece = shelf.read(alloc, name, bytes.len() as u64, room)?;
        if piece.is_empty() {
            return Ok(bytes);
        }
        bytes.extend_from_slice(&piece)?;
    }
    Ok(bytes)
}
