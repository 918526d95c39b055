ghost use Rattle.std.specs.Prelude.{◌≡◌};
ghost use Rattle.hda_outside.specs.declared.fault.Fault.TheVariants.{OutOfMemory};

use std::alloc::AllocError;

/// Why a shelf or a sink gave or took nothing. This project's own.
#[derive(Clone, Copy, Debug, PartialEq, Eq)]
pub enum Fault {
    /// The shelf or the sink failed, and its count of faults rose.
    Failed,
    /// There was no memory for the call.
    OutOfMemory,
}

impl From<AllocError> for Fault {
    ghost from_gives = { λ _ e. e ≡ OutOfMemory };

    fn from(_error: AllocError) -> Fault {
        Fault::OutOfMemory
    }
}
