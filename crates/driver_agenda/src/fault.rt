//! Why an agenda ends.
ghost use Rattle.std.specs.Prelude.{◌≡◌};
ghost use Rattle.driver_agenda.specs.declared.fault.AgendaFault.TheVariants.{OutOfMemory};

use codec_walk::WalkFault;
use std::alloc::AllocError;

/// Why an agenda ends before its last command.
#[derive(Clone, Copy, Debug, PartialEq, Eq)]
pub enum AgendaFault {
    /// A codec's answers are not those of a well-formed graph.
    Malformed {
        /// The address of the codec.
        codec: u8,
        /// What its words have wrong.
        fault: WalkFault,
    },
    /// No plan of the graphs that were told has a route.
    NothingRouted,
    /// Memory was wanting.
    OutOfMemory,
}

impl From<AllocError> for AgendaFault {
    ghost from_gives = { λ _ error. error ≡ OutOfMemory };

    fn from(_: AllocError) -> Self {
        AgendaFault::OutOfMemory
    }
}
