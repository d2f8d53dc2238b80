use sq_base::{NoMemory, Sort, Text};
use std::alloc::{AllocError, AllocFailed};

/// Why a process has no actions.
///
/// The fault is that of the first place of the walk that has one. Of several at one place the one
/// that stands first here counts.
#[derive(Debug, Drop)]
pub enum ElabFault {
    /// The identifier stands for nothing that may be used here: no variable, name, function,
    /// channel or process that was declared before.
    Unknown(Text),
    /// The identifier, how many arguments it takes, and how many it has here.
    Arity(Text, u32, u32),
    /// The sort that is wanted here, and the sort of what stands here.
    SortClash(Sort, Sort),
    /// A binder of messages.
    MessageQuantifier,
    /// A macro, a timestamp, a binder of timestamps or `happens`.
    ProcessShape,
    /// The process with its calls replaced, or a condition or an output, has more than 65,536 nodes
    /// or depth 1,000.
    TooLarge,
    /// There are 1,024 actions already.
    TooManyActions,
    /// Memory ran out, or a number passes 2^32 - 1.
    NoMemory,
}

impl From<NoMemory> for ElabFault {
    ghost use Rattle.std.specs.Prelude.{◌≡◌};
    ghost use Rattle.sq_elab.specs.declared.fault.ElabFault.TheVariants.{NoMemory};

    ghost from_gives = { λ _ e. e ≡ NoMemory };

    fn from(_: NoMemory) -> Self {
        ElabFault::NoMemory
    }
}

impl From<AllocError> for ElabFault {
    ghost use Rattle.std.specs.Prelude.{◌≡◌};
    ghost use Rattle.sq_elab.specs.declared.fault.ElabFault.TheVariants.{NoMemory};

    ghost from_gives = { λ _ e. e ≡ NoMemory };

    fn from(_: AllocError) -> Self {
        ElabFault::from(NoMemory)
    }
}

impl<T: Drop> From<AllocFailed<T>> for ElabFault {
    ghost use Rattle.std.specs.Prelude.{◌≡◌};
    ghost use Rattle.sq_elab.specs.declared.fault.ElabFault.TheVariants.{NoMemory};

    ghost from_gives = { λ _ e. e ≡ NoMemory };

    fn from(_: AllocFailed<T>) -> Self {
        ElabFault::from(NoMemory)
    }
}
