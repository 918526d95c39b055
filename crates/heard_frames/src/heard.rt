//! The items of heard lists.

/// What a pin heard of one block of a stream, or of a link frame that missed its blocks. This project's own.
#[derive(Clone, Copy, Debug, PartialEq, Eq)]
pub enum Heard {
    /// The two samples of its pair.
    Sound(i32, i32),
    /// Nothing.
    Quiet,
    /// The bytes of the frame's blocks were missing.
    Hole,
    /// A signal that is not followed.
    Altered,
}
