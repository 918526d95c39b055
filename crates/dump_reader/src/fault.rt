//! Why a dump can't be read.
use std::alloc::{AllocError, AllocFailed};

/// Why a dump can't be read. Lines count from 1.
#[derive(Clone, Copy, Debug, PartialEq, Eq)]
pub enum ReadFault {
    /// The first line that can't be taken. It is one more than there are lines where the dump ends too early.
    Line(u32),
    /// No codec of the dump has an audio function group; the first, whose first line this is, has a modem's.
    Modem(u32),
    /// Memory was wanting. This says nothing of the dump.
    OutOfMemory,
}

impl From<AllocError> for ReadFault {
    ghost use Rattle.std.specs.Prelude.{◌≡◌};
    ghost use Rattle.dump_reader.specs.declared.fault.ReadFault.TheVariants.{OutOfMemory};

    ghost from_gives = { λ _ fault. fault ≡ OutOfMemory };

    fn from(_: AllocError) -> Self {
        ReadFault::OutOfMemory
    }
}

impl<T: Drop> From<AllocFailed<T>> for ReadFault {
    ghost use Rattle.std.specs.Prelude.{◌≡◌};
    ghost use Rattle.dump_reader.specs.declared.fault.ReadFault.TheVariants.{OutOfMemory};

    ghost from_gives = { λ _ fault. fault ≡ OutOfMemory };

    fn from(_: AllocFailed<T>) -> Self {
        ReadFault::OutOfMemory
    }
}
