//! Limits of codecs, each named once.

/// How many node identifiers there are: they have seven bits (HDA 1.0a, 7.1.2).
pub const NODE_IDENTIFIERS: usize = 128;

/// How many entries a connection list can have: their number has seven bits (HDA 1.0a, 7.3.4.11).
pub const MOST_ENTRIES: usize = 127;

/// How many connections a widget that is no mixer may list. This project's own.
pub const MOST_LISTED: usize = 64;

/// How many inputs of a widget can have an amplifier each: their place has four bits (HDA 1.0a, 7.3.3.7).
pub const MOST_AMPLIFIED: u8 = 16;

/// How many answers to commands can wait at a codec. This project's own.
pub const MOST_ANSWERS: usize = 64;

/// How many unsolicited responses can wait at a codec, beside the answers. This project's own.
pub const MOST_UNSOLICITED: usize = 64;
