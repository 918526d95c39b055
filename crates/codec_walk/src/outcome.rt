//! The graph of the words that were told.
ghost use Rattle.std.specs.Prelude.{◌≤◌, ◌+◌, length, All};
ghost use Rattle.codec_graph.specs.Listed.{HasEntries};
ghost use Rattle.codec_walk.specs.Outcomes.{IsOutcome};

use crate::fault::{WalkError, WalkFault};
use codec_graph::{Graph, RawCodec};

/// The graph of a codec's words, whose connection lists are still to be expanded.
///
/// # Errors
/// The faulty connection list of the least node identifier, or else the first fault of the graph; or want of memory.
pub(crate) fn graph_of(codec: RawCodec) -> Result<Graph, WalkError>
    requires few { codec.first + length codec.nodes ≤ 256 }
    requires entries { All HasEntries codec.nodes }
    ensures { IsOutcome codec result }
{
    let mut codec = codec;
    if let Some(faulty) = codec.expand_lists()? {
        let fault = WalkFault::List(faulty.nid, faulty.fault);
        return Err(WalkError::Malformed(fault));
    }
    match Graph::check(codec) {
        Ok(graph) => Ok(graph),
        Err(fault) => Err(WalkError::Malformed(WalkFault::Graph(fault))),
    }
}
