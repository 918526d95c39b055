//! What a dump says of a codec.
use crate::labels::Label;
use hda_items::Items;

/// Mute, in bit 7, and gain of both sides of an amplifier (HDA 1.0a, 7.3.3.7). Of one side both are the same.
#[derive(Clone, Copy, Debug, PartialEq, Eq)]
pub struct Gain {
    /// The left side.
    pub left: u8,
    /// The right side.
    pub right: u8,
}

/// The numbers of the lines that say something of a node, and 0 where there is none.
#[derive(Clone, Copy, Debug, PartialEq, Eq)]
pub struct NodeLines {
    /// The line with which the node begins.
    pub node: u32,
    /// The line of the input amplifier's capabilities.
    pub amp_in: u32,
    /// The line of the output amplifier's capabilities.
    pub amp_out: u32,
    /// The line of the connection list.
    pub list: u32,
}

/// What a dump says of the function group or of a widget. What it does not say is `None`.
#[derive(Debug, Drop)]
pub struct NodeFacts {
    /// The node identifier.
    pub nid: u8,
    /// Audio widget capabilities (HDA 1.0a, 7.3.4.6).
    pub caps: u32,
    /// Supported PCM sizes and rates (7.3.4.7).
    pub pcm: Option<u32>,
    /// Supported stream formats (7.3.4.8).
    pub formats: Option<u32>,
    /// Pin capabilities (7.3.4.9).
    pub pin_caps: Option<u32>,
    /// Whether they stood behind a further 08, as old kernels print them.
    pub is_old_pin_caps: bool,
    /// Input amplifier capabilities (7.3.4.10).
    pub amp_in: Option<u32>,
    /// Output amplifier capabilities (7.3.4.10).
    pub amp_out: Option<u32>,
    /// Supported power states (7.3.4.12).
    pub power: Option<u32>,
    /// Configuration default (7.3.3.31).
    pub default: Option<u32>,
    /// The connection list, written out.
    pub list: Option<Items<u8>>,
    /// The selected place of the connection list (7.3.3.2).
    pub select: Option<u8>,
    /// The power state (7.3.3.10).
    pub power_state: Option<u8>,
    /// The stream tag and the channel (7.3.3.11).
    pub stream: Option<u8>,
    /// The pin control (7.3.3.13).
    pub control: Option<u8>,
    /// The control of unsolicited responses (7.3.3.14).
    pub unsol: Option<u8>,
    /// The external amplifier's control (7.3.3.16).
    pub eapd: Option<u8>,
    /// The low byte of the digital converter control (7.3.3.9).
    pub digital: Option<u8>,
    /// Mute and gain of the output amplifier.
    pub gain_out: Option<Gain>,
    /// Mute and gain of the input amplifiers, from the first place of the connection list on.
    pub gains_in: Option<Items<Gain>>,
    /// Where this stands in the dump.
    pub lines: NodeLines,
    /// The labels of lines that say what has no key, each once.
    pub notes: Items<Label>,
    /// How many lines have no label.
    pub others: u32,
    /// The number of the first of them, and 0 where there is none.
    pub first_other: u32,
}

/// What a dump says of a codec with an audio function group. What it does not say is `None`.
#[derive(Debug, Drop)]
pub struct CodecFacts {
    /// The codec's name, as Linux gives it.
    pub name: Items<u8>,
    /// The number of the line with the name.
    pub line: u32,
    /// The codec's address on the link, 0 to 14.
    pub address: Option<u8>,
    /// Vendor and device identification (HDA 1.0a, 7.3.4.1).
    pub vendor: Option<u32>,
    /// Revision identification (7.3.4.2).
    pub revision: Option<u32>,
    /// The function group's type (7.3.4.4).
    pub group_type: Option<u32>,
    /// The function group's node identifier.
    pub group_nid: Option<u8>,
    /// Whether it has a modem's function group.
    pub is_modem: bool,
    /// What the dump says of the function group.
    pub group: NodeFacts,
    /// Its widgets, whose node identifiers follow one another.
    pub nodes: Items<NodeFacts>,
}
