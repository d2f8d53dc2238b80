// Why a text is no certificate.
use sq_base::NoMemory;
use std::alloc::{AllocError, AllocFailed};

/// Why a text was not read as a certificate.
///
/// `BadStep` has the number of the first line that has no form that may stand in its place, up to
/// the end line, where lines count from 1 and a line ends with a newline. `Trailing` has the number
/// of the line in which a byte stands behind a whole certificate. `Truncated` comes where no line
/// is refused and the end line has not come, whatever the unfinished last line holds.
#[derive(Clone, Copy, Debug, PartialEq, Eq)]
pub enum ReadFault {
    Truncated,
    Trailing(u64),
    BadStep(u64),
    NoMemory,
}

impl From<NoMemory> for ReadFault {
    ghost use Rattle.std.specs.Prelude.{◌≡◌};
    ghost use Rattle.sq_cert.specs.declared.fault.ReadFault.TheVariants.{NoMemory as OutOfMemory};

    ghost from_gives = { λ _ e. e ≡ OutOfMemory };

    fn from(_: NoMemory) -> Self {
        ReadFault::NoMemory
    }
}

impl From<AllocError> for ReadFault {
    ghost use Rattle.std.specs.Prelude.{◌≡◌};
    ghost use Rattle.sq_cert.specs.declared.fault.ReadFault.TheVariants.{NoMemory as OutOfMemory};

    ghost from_gives = { λ _ e. e ≡ OutOfMemory };

    fn from(_: AllocError) -> Self {
        ReadFault::NoMemory
    }
}

impl<T: Drop> From<AllocFailed<T>> for ReadFault {
    ghost use Rattle.std.specs.Prelude.{◌≡◌};
    ghost use Rattle.sq_cert.specs.declared.fault.ReadFault.TheVariants.{NoMemory as OutOfMemory};

    ghost from_gives = { λ _ e. e ≡ OutOfMemory };

    fn from(_: AllocFailed<T>) -> Self {
        ReadFault::NoMemory
    }
}
