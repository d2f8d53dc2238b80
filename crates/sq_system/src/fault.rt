// Why a step has no premises, and the occurrences that such a reason names.
use sq_base::{NoMemory, Seq, Sort};
use sq_term::{Idx, SizeFault, Term};

/// How a name occurs as a key: under which hash or signature function, with which message, and
/// whether that application is itself a side of an equation.
#[derive(Debug, Drop)]
pub struct KeyUse {
    pub fun: u32,
    pub arg: Term,
    pub test: bool,
}

/// How a name occurs: as a key, under a public-key function, or anywhere else.
#[derive(Debug, Drop)]
pub enum Role {
    Bare,
    Pub,
    Key(KeyUse),
}

/// An occurrence of a name: its indices, its role, the sorts of the binders above it from outside
/// in, and the condition under which it is met.
#[derive(Debug, Drop)]
pub struct Occ {
    pub name: u32,
    pub args: Seq<Idx>,
    pub role: Role,
    pub bound: Seq<Sort>,
    pub guard: Term,
}

/// Why a step has no premises.
///
/// Shape: its row does not apply. HasSchema: a term that the step searches holds a schema variable.
/// BadOccurrence: the first occurrence of a name in a role that the row forbids. TooLarge: an
/// occurrence list or a premise would pass its limits.
#[derive(Debug, Drop)]
pub enum RuleFault {
    Shape,
    HasSchema,
    BadOccurrence(Occ),
    TooLarge,
    NoMemory,
}

/// Why there is no list of occurrences.
///
/// HasSchema: a term that is searched holds a schema variable. TooLarge: the list would pass its
/// limit.
#[derive(Clone, Copy, Debug, PartialEq, Eq)]
pub enum OccFault {
    HasSchema,
    TooLarge,
    NoMemory,
}

impl From<NoMemory> for OccFault {
    ghost use Rattle.std.specs.Prelude.{◌≡◌};
    ghost use Rattle.sq_system.specs.declared.fault.OccFault.TheVariants.{NoMemory as OutOfMemory};

    ghost from_gives = { λ _ e. e ≡ OutOfMemory };

    fn from(_: NoMemory) -> Self {
        OccFault::NoMemory
    }
}

impl From<NoMemory> for RuleFault {
    ghost use Rattle.std.specs.Prelude.{◌≡◌};
    ghost use Rattle.sq_system.specs.declared.fault.RuleFault.TheVariants.{NoMemory as OutOfMemory};

    ghost from_gives = { λ _ e. e ≡ OutOfMemory };

    fn from(_: NoMemory) -> Self {
        RuleFault::NoMemory
    }
}

impl From<SizeFault> for RuleFault {
    ghost use Rattle.std.specs.Prelude.{◌≡◌};
    ghost use Rattle.sq_system.specs.Faults.{fault_of};

    ghost from_gives = { λ f e. e ≡ fault_of f };

    fn from(fault: SizeFault) -> Self {
        match fault {
            SizeFault::TooLarge => RuleFault::TooLarge,
            SizeFault::NoMemory => RuleFault::NoMemory,
        }
    }
}

impl From<SizeFault> for OccFault {
    ghost use Rattle.std.specs.Prelude.{◌≡◌};
    ghost use Rattle.sq_system.specs.Faults.{list_fault};

    ghost from_gives = { λ f e. e ≡ list_fault f };

    fn from(fault: SizeFault) -> Self {
        match fault {
            SizeFault::TooLarge => OccFault::TooLarge,
            SizeFault::NoMemory => OccFault::NoMemory,
        }
    }
}

impl From<OccFault> for RuleFault {
    ghost use Rattle.std.specs.Prelude.{◌≡◌};
    ghost use Rattle.sq_system.specs.Faults.{unlisted};

    ghost from_gives = { λ f e. e ≡ unlisted f };

    fn from(fault: OccFault) -> Self {
        match fault {
            OccFault::HasSchema => RuleFault::HasSchema,
            OccFault::TooLarge => RuleFault::TooLarge,
            OccFault::NoMemory => RuleFault::NoMemory,
        }
    }
}
