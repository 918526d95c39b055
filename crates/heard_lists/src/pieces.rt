//! The pieces of what was heard.

use stream_format::Format;

/// What the link frames between two changes of a signal or of the format brought: frames that missed their blocks, and
/// then blocks.
#[derive(Clone, Copy, Debug, PartialEq, Eq)]
pub(crate) struct Piece {
    /// How many frames missed their blocks.
    pub(crate) holes: usize,
    /// The format of the blocks.
    pub(crate) format: Format,
    /// How many blocks came.
    pub(crate) blocks: usize,
}

/// Where a piece begins, or all pieces end.
#[derive(Clone, Copy)]
pub(crate) struct PieceStart {
    /// How many pieces stand before it.
    pub(crate) piece: usize,
    /// How many items they have.
    pub(crate) item: usize,
    /// How many bytes their blocks have.
    pub(crate) byte: usize,
}
