//! The controls of a codec's nodes: what a set verb changes and its get verb asks for.

/// A control of a node (HDA 1.0a, 7.3.3).
#[derive(Clone, Copy, Debug, PartialEq, Eq, PartialOrd, Ord)]
pub enum Control {
    /// The selected place of the connection list (7.3.3.2).
    Select,
    /// The power state, 0 to 3 (7.3.3.10).
    Power,
    /// The stream tag in bits 7:4 and the lowest channel in 3:0 (7.3.3.11).
    Stream,
    /// The pin control: bit 7 headphone, 6 out, 5 in (7.3.3.13).
    Pin,
    /// Unsolicited responses: bit 7 enables them, 5:0 is their tag (7.3.3.14).
    Unsol,
    /// The external amplifier: bit 1 turns it on (7.3.3.16).
    Eapd,
    /// The low byte of the digital converter control (7.3.3.9).
    Digital,
    /// The configuration default (7.3.3.31).
    Default,
    /// The stream format (7.3.3.8).
    Format,
    /// The left side of the output amplifier: mute in bit 7, the gain below (7.3.3.7).
    OutLeft,
    /// The right side of the output amplifier.
    OutRight,
    /// The left side of the input amplifier at this place of the connection list.
    InLeft(u8),
    /// The right side of the input amplifier at this place of the connection list.
    InRight(u8),
}

/// A control of the node with this identifier.
#[derive(Clone, Copy, Debug, PartialEq, Eq, PartialOrd, Ord)]
pub struct ControlKey {
    /// The node identifier.
    pub nid: u8,
    /// Its control.
    pub control: Control,
}
