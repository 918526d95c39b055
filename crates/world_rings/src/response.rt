//! What RIRB holds.

/// How many responses may wait in the controller for RIRB. This project's own.
pub const MOST_WAITING: usize = 256;

/// A response of a codec as RIRB holds it (HDA 1.0a, 4.4.2).
#[derive(Clone, Copy, Debug, PartialEq, Eq)]
pub struct Response {
    /// The address of the codec, 0 to 14.
    pub codec: u8,
    /// The answer to a command, or what the codec sent unasked.
    pub answer: u32,
    /// Whether it was sent unasked.
    pub unsolicited: bool,
}
