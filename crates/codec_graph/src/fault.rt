//! What can be wrong with a codec's graph.
use std::fmt;

/// The first fault of a graph, with the node identifier at which it is. This project's own.
#[derive(Clone, Copy, Debug, PartialEq, Eq)]
pub enum GraphFault {
    /// The function group is no audio function group: bits 7:0 of its type are not 01h (HDA 1.0a, 7.3.4.4).
    NoAudioGroup(u8),
    /// There is no widget, the widgets begin at node 0 or end above 7Fh, the nodes are not as many as the count says,
    /// or the group's identifier is 0, above 7Fh or a widget's. The identifier is 0.
    BadCount(u8),
    /// A connection list of this widget has a node that is no widget.
    ConnectionOutside(u8),
    /// The widget lists more than 64 connections, or a mixer more than 16.
    ListTooLong(u8),
    /// An amplifier word has its 0 dB step above its steps (HDA 1.0a, 7.3.4.10).
    AmpOffset(u8),
    /// Connections through mixers and selectors alone lead from this node back to itself, and from no lesser one.
    Cycle(u8),
}

impl GraphFault {
    ghost use Rattle.std.specs.Prelude.{◌≡◌};
    ghost use Rattle.codec_graph.specs.FaultText.{graph_fault_name, graph_fault_nid};

    /// What is wrong, in a word.
    pub fn name(&self) -> &'static str
        ensures { result.now ≡ graph_fault_name self.now }
    {
        match self {
            GraphFault::NoAudioGroup(_) => "NoAudioGroup",
            GraphFault::BadCount(_) => "BadCount",
            GraphFault::ConnectionOutside(_) => "ConnectionOutside",
            GraphFault::ListTooLong(_) => "ListTooLong",
            GraphFault::AmpOffset(_) => "AmpOffset",
            GraphFault::Cycle(_) => "Cycle",
        }
    }

    /// The node identifier at which it is.
    pub fn nid(&self) -> u8
        ensures { result ≡ graph_fault_nid self.now }
    {
        match *self {
            GraphFault::NoAudioGroup(nid)
            | GraphFault::BadCount(nid)
            | GraphFault::ConnectionOutside(nid)
            | GraphFault::ListTooLong(nid)
            | GraphFault::AmpOffset(nid)
            | GraphFault::Cycle(nid) => nid,
        }
    }
}

/// As `ListTooLong at 0c`: what is wrong, and the node identifier in two hexadecimal digits.
impl fmt::Display for GraphFault {
    ghost use Rattle.std.specs.Prelude.{Some};
    ghost use Rattle.codec_graph.specs.FaultText.{graph_fault_text};

    ghost output = { λ fault. Some (graph_fault_text fault) };

    fn fmt<W: fmt::Write>(&self, f: &mut fmt::Formatter<W>) -> fmt::Result {
        let name = self.name();
        let high = self.nid() / 16;
        let low = self.nid() % 16;
        write!(f, "{name} at {high:x}{low:x}")
    }
}

impl std::error::Error for GraphFault {}
