//! The blocks that a link frame brings to an input stream, and what became of them.

/// The most bytes of a block: eight containers of 32 bits (HDA 1.0a, 3.7.1 and 4.5.1).
pub const MOST_BLOCK_BYTES: usize = 32;

/// Some blocks of a sound, in a row. A block past the sound's end is silence. This project's own.
#[derive(Clone, Copy, Debug, PartialEq, Eq)]
pub struct SoundBlocks {
    /// The number of the first of them in the sound, from 0.
    pub from: u64,
    /// How many bytes each of them has.
    pub size: u32,
    /// How many they are.
    pub count: u32,
}

/// What became of the blocks that a link frame brought. As all have one size and no byte leaves the FIFO between them,
/// those that were taken came first.
#[derive(Clone, Copy, Debug, PartialEq, Eq)]
pub struct Arrived {
    /// How many were taken.
    pub taken: u32,
    /// How many were dropped, since the FIFO had no room for them (HDA 1.0a, 3.3.36, FIFOE).
    pub dropped: u32,
}
