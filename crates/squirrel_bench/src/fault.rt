// Why a run stops.
use sq_base::NoMemory;
use sq_resolve::ResolveFault;
use sq_sequent::RuleFault;
use sq_sym::SymFault;
use sq_term::SizeFault;
use std::alloc::{AllocError, AllocFailed};

/// Its number is the exit status of the program.
#[derive(Clone, Copy, Debug, PartialEq, Eq)]
pub enum Fault {
    /// The words are none that the program knows.
    Usage = 2,
    /// Something is larger than it was built to be.
    Limit = 6,
    NoMemory = 7,
}

impl From<NoMemory> for Fault {
    ghost use Rattle.std.specs.Prelude.{◌≡◌};
    ghost use Rattle.squirrel_bench.specs.declared.fault.Fault.TheVariants.{NoMemory};

    ghost from_gives = { λ _ e. e ≡ NoMemory };

    fn from(_: NoMemory) -> Self {
        Fault::NoMemory
    }
}

impl From<AllocError> for Fault {
    ghost use Rattle.std.specs.Prelude.{◌≡◌};
    ghost use Rattle.squirrel_bench.specs.declared.fault.Fault.TheVariants.{NoMemory};

    ghost from_gives = { λ _ e. e ≡ NoMemory };

    fn from(_: AllocError) -> Self {
        Fault::NoMemory
    }
}

impl<T: Drop> From<AllocFailed<T>> for Fault {
    ghost use Rattle.std.specs.Prelude.{◌≡◌};
    ghost use Rattle.squirrel_bench.specs.declared.fault.Fault.TheVariants.{NoMemory};

    ghost from_gives = { λ _ e. e ≡ NoMemory };

    fn from(_: AllocFailed<T>) -> Self {
        Fault::NoMemory
    }
}

impl From<SizeFault> for Fault {
    ghost use Rattle.std.specs.Prelude.{◌≡◌};
    ghost use Rattle.squirrel_bench.specs.Faults.{fault_of};

    ghost from_gives = { λ fault e. e ≡ fault_of fault };

    fn from(fault: SizeFault) -> Self {
        match fault {
            SizeFault::TooLarge => Fault::Limit,
            SizeFault::NoMemory => Fault::NoMemory,
        }
    }
}

impl From<SymFault> for Fault {
    ghost use Rattle.std.specs.Prelude.{◌≡◌};
    ghost use Rattle.squirrel_bench.specs.Faults.{fault_of_table};

    ghost from_gives = { λ fault e. e ≡ fault_of_table fault };

    fn from(fault: SymFault) -> Self {
        match fault {
            SymFault::Twice => Fault::Usage,
            SymFault::NoMemory => Fault::NoMemory,
        }
    }
}

impl From<ResolveFault> for Fault {
    ghost use Rattle.std.specs.Prelude.{◌≡◌};
    ghost use Rattle.squirrel_bench.specs.Faults.{fault_of_formula};

    ghost from_gives = { λ fault e. e ≡ fault_of_formula fault };

    fn from(fault: ResolveFault) -> Self {
        match fault {
            ResolveFault::TooLarge => Fault::Limit,
            ResolveFault::NoMemory => Fault::NoMemory,
            ResolveFault::Unknown(_)
            | ResolveFault::Arity(_, _, _)
            | ResolveFault::SortClash(_, _)
            | ResolveFault::MessageQuantifier => Fault::Usage,
        }
    }
}

impl From<RuleFault> for Fault {
    ghost use Rattle.std.specs.Prelude.{◌≡◌};
    ghost use Rattle.squirrel_bench.specs.Faults.{fault_of_step};

    ghost from_gives = { λ fault e. e ≡ fault_of_step fault };

    fn from(fault: RuleFault) -> Self {
        match fault {
            RuleFault::TooLarge => Fault::Limit,
            RuleFault::NoMemory => Fault::NoMemory,
            RuleFault::Shape | RuleFault::HasSchema | RuleFault::BadOccurrence(_) => Fault::Usage,
        }
    }
}
