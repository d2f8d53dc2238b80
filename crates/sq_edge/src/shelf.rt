// Files by name.
ghost use Rattle.std.specs.Prelude.{◌≡◌, ◌⊎◌, ◌≤◌, [], ℕ, List, length, Some, IsOk, IfOk, OnOk, OnErr, IfErr, IsErrOf};
ghost use Rattle.std.specs.declared.option.Option.{Option};
ghost use Rattle.sq_edge.specs.declared.shelf.ShelfError.TheVariants.{NoMemory as ShelfNoMemory};
ghost use Rattle.sq_edge.specs.Edge.{Files, held, with_file, with_more, Lacks, IsPiece, HasCause, KeptOrFront};

use std::alloc::{AllocError, Global};

/// Why a call of a shelf gives nothing.
#[derive(Clone, Copy, Debug, PartialEq, Eq)]
pub enum ShelfError {
    /// The outside failed. The count of faults rose.
    Failed,
    /// No file has the name. The count of misses rose.
    Missing,
    /// Memory ran out. Only `read` answers it.
    NoMemory,
}

impl From<AllocError> for ShelfError {
    ghost from_gives = { λ _ e. e ≡ ShelfNoMemory };

    fn from(_: AllocError) -> Self {
        ShelfError::NoMemory
    }
}

/// Files by name, which are read and written in pieces.
/// A count that stands at the end of `u64` stays there, and a call that fails counts as one in which it rose.
pub trait Shelf {
    /// The bytes of each file, where the shelf tells them.
    ghost files: { Self → Option Files };

    /// How often the outside has failed.
    ghost faults: { Self → ℕ };

    /// How often a file that was to be read or extended was not there.
    ghost misses: { Self → ℕ };

    /// At most `room` bytes of the file from place `at` on. An empty piece for a room above 0 is the file's end.
    fn read(
        &mut self,
        alloc: Global,
        name: &str,
        at: u64,
        room: usize,
    ) -> Result<Vec<u8>, ShelfError>
        ensures room { IfOk result (λ piece. length piece.items ≤ room) }
        ensures bytes { IfOk result (λ piece. (file : List ℕ)
            → held (files self.old) name.now ≡ Some file → IsPiece file at room piece.items) }
        ensures present { IsOk result → Lacks (files self.old) name.now → ⊥ }
        ensures absent { IsErrOf result ShelfError.Missing → (file : List ℕ)
            → held (files self.old) name.now ≡ Some file → ⊥ }
        ensures files { files self.new ≡ files self.old }
        ensures cause { HasCause (faults self.old) (misses self.old) (faults self.new)
            (misses self.new) result };

    /// Makes the file empty, new or not. After an error it holds what it held or nothing.
    fn create(&mut self, name: &str) -> Result<(), ShelfError>
        ensures ok { OnOk result (files self.new ≡ with_file (files self.old) name.now []) }
        ensures err { OnErr result ((files self.new ≡ files self.old)
            ⊎ (files self.new ≡ with_file (files self.old) name.now [])) }
        ensures only { IfErr result (λ e. e ≡ ShelfError.Failed) }
        ensures cause { HasCause (faults self.old) (misses self.old) (faults self.new)
            (misses self.new) result };

    /// Adds the piece at the file's end. After an error the file holds what it held and a front of the piece.
    fn append(&mut self, name: &str, piece: &[u8]) -> Result<(), ShelfError>
        ensures ok { OnOk result (files self.new ≡ with_more (files self.old) name.now piece.now) }
        ensures err { OnErr result (KeptOrFront (files self.old)
            (files self.new) name.now piece.now) }
        ensures present { IsOk result → Lacks (files self.old) name.now → ⊥ }
        ensures absent { IsErrOf result ShelfError.Missing → (file : List ℕ)
            → held (files self.old) name.now ≡ Some file → ⊥ }
        ensures only { IsErrOf result ShelfError.NoMemory → ⊥ }
        ensures cause { HasCause (faults self.old) (misses self.old) (faults self.new)
            (misses self.new) result };
}
