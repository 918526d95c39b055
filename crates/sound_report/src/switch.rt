//! A switch of a speaker.

/// A speaker was switched by a command that its codec took while the stream ran. This project's own.
#[derive(Clone, Copy, Debug, PartialEq, Eq)]
pub struct Switch {
    /// The codec's address.
    pub codec: u8,
    /// The node identifier of the pin.
    pub pin: u8,
    /// How many blocks the pin had heard before: the first that it hears by the switch, counted from 0.
    pub at: u64,
    /// Whether its output was enabled.
    pub on: bool,
}
