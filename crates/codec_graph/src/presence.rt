//! What is plugged in at a codec's pins.
ghost use Rattle.std.specs.Prelude.{◌≡◌, ◌<◌, false, length, replicate, slice_set};
ghost use Rattle.codec_graph.specs.Widget.{node_identifiers};
ghost use Rattle.codec_graph.specs.VerbMeaning.{is_present};

use crate::limits::NODE_IDENTIFIERS;
use std::marker::Model;

/// Whether something is plugged in, for each node identifier. Contracts see the list of these truth values.
#[derive(Debug, Drop)]
pub struct Presence {
    plugged: [bool; NODE_IDENTIFIERS],
}

impl Model for Presence {
    ghost use Rattle.std.specs.Prelude.{◌≡◌, List, Bool, length};
    ghost use Rattle.codec_graph.specs.Widget.{node_identifiers};

    ghost Value = { List Bool };

    ghost view = { λ presence. presence.plugged };

    ghost invariant = { λ presence. length presence.plugged ≡ node_identifiers };
}

impl Presence {
    /// Nothing is plugged in.
    pub fn none() -> Presence
        ensures value { result ≡ replicate node_identifiers false }
        ensures size { length result ≡ node_identifiers }
    {
        Presence {
            plugged: [false; NODE_IDENTIFIERS],
        }
    }

    /// Says whether something is plugged in at the node identifier, which has seven bits.
    pub fn set(&mut self, nid: u8, present: bool)
        requires { nid < node_identifiers }
        ensures value { self.new ≡ slice_set self.old nid present }
        ensures size { length self.new ≡ node_identifiers }
    {
        self.plugged[usize::from(nid)] = present;
    }

    /// Whether something is plugged in at the node identifier, which has seven bits.
    pub fn has(&self, nid: u8) -> bool
        requires { nid < node_identifiers }
        ensures value { result ≡ is_present self.now nid }
        ensures size { length self.now ≡ node_identifiers }
    {
        self.plugged[usize::from(nid)]
    }

    /// An equal value.
    pub fn copy(&self) -> Presence
        ensures value { result ≡ self.now }
        ensures size { length self.now ≡ node_identifiers }
    {
        Presence {
            plugged: self.plugged,
        }
    }
}
