//! What pins told of unasked.

/// How often responses that came unasked were read of a codec and a tag: something was plugged into a pin of the codec,
/// or unplugged (HDA 1.0a, 7.3.3.14). This project's own.
#[derive(Clone, Copy, Debug, PartialEq, Eq)]
pub struct Jack {
    /// The codec's address.
    pub codec: u8,
    /// The tag that the pin was given for its responses.
    pub tag: u8,
    /// How many of them were read.
    pub times: u32,
}
