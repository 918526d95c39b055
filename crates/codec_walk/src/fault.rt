//! What can be wrong with the words of a codec.
use codec_graph::GraphFault;
use std::alloc::AllocError;
use verb_codes::ListFault;

/// What the words of a codec have wrong. This project's own.
#[derive(Clone, Copy, Debug, PartialEq, Eq)]
pub enum WalkFault {
    /// The connection list of the widget with this node identifier has a faulty entry; no lesser one has a faulty list.
    List(u8, ListFault),
    /// No connection list is faulty, and the graph has this fault.
    Graph(GraphFault),
}

/// Why a walk gives no graph.
#[derive(Clone, Copy, Debug, PartialEq, Eq)]
pub enum WalkError {
    /// The words that were answered are no well-formed graph's.
    Malformed(WalkFault),
    /// There is no memory for the graph.
    OutOfMemory,
}

impl From<AllocError> for WalkError {
    ghost use Rattle.std.specs.Prelude.{◌≡◌};
    ghost use Rattle.codec_walk.specs.declared.fault.WalkError.TheVariants.{OutOfMemory};

    ghost from_gives = { λ _ error. error ≡ OutOfMemory };

    fn from(_: AllocError) -> Self {
        WalkError::OutOfMemory
    }
}
