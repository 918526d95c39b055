//! What waits at a codec to be sent to the controller.

/// An item that waits at a codec.
#[derive(Clone, Copy, Debug, PartialEq, Eq)]
pub enum Waiting {
    /// The answer to a command.
    Answer(u32),
    /// An unsolicited response: its tag in bits 31:26 (HDA 1.0a, 7.3.3.14).
    Unsolicited(u32),
}
