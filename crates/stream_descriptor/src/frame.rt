//! What a link frame carries of a stream.

/// The most bytes of a frame: four blocks of eight containers of 32 bits (HDA 1.0a, 3.7.1).
pub const MOST_FRAME_BYTES: usize = 128;

/// What a link frame carried of a stream.
#[derive(Clone, Copy, Debug, PartialEq, Eq)]
pub enum Frame {
    /// The stream does not run, or this frame set DESE.
    Idle,
    /// No block is due.
    Gap,
    /// So many blocks.
    Blocks(u32),
    /// The FIFO holds fewer bytes than are due.
    Hole,
}
