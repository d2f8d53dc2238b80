use sq_base::{NoMemory, Sort, Text};
use std::alloc::{AllocError, AllocFailed};

/// Why a formula has no term.
///
/// The fault is that of the first place, in preorder, where no case of the sorts applies. Of
/// several at one place the one that stands first here counts.
#[derive(Debug, Drop)]
pub enum ResolveFault {
    /// The identifier stands for no variable, schema variable, name, function or action of the
    /// scope's system.
    Unknown(Text),
    /// The identifier, how many arguments it takes, and how many it has here.
    Arity(Text, u32, u32),
    /// The sort that is wanted here, and the sort of what stands here.
    SortClash(Sort, Sort),
    /// A binder of messages. Only the first `forall` of a statement may have one.
    MessageQuantifier,
    /// The term has more than 65,536 nodes or depth 1,000.
    TooLarge,
    /// Memory ran out, or a number passes 2^32 - 1.
    NoMemory,
}

impl From<NoMemory> for ResolveFault {
    ghost use Rattle.std.specs.Prelude.{◌≡◌};
    ghost use Rattle.sq_resolve.specs.declared.fault.ResolveFault.TheVariants.{NoMemory};

    ghost from_gives = { λ _ e. e ≡ NoMemory };

    fn from(_: NoMemory) -> Self {
        ResolveFault::NoMemory
    }
}

impl From<AllocError> for ResolveFault {
    ghost use Rattle.std.specs.Prelude.{◌≡◌};
    ghost use Rattle.sq_resolve.specs.declared.fault.ResolveFault.TheVariants.{NoMemory};

    ghost from_gives = { λ _ e. e ≡ NoMemory };

    fn from(_: AllocError) -> Self {
        ResolveFault::NoMemory
    }
}

impl<T: Drop> From<AllocFailed<T>> for ResolveFault {
    ghost use Rattle.std.specs.Prelude.{◌≡◌};
    ghost use Rattle.sq_resolve.specs.declared.fault.ResolveFault.TheVariants.{NoMemory};

    ghost from_gives = { λ _ e. e ≡ NoMemory };

    fn from(_: AllocFailed<T>) -> Self {
        ResolveFault::NoMemory
    }
}
