//! Where a walk stands: the word that is asked for.
use crate::words::{CodecWord, NodeWord};

/// What is asked for.
#[derive(Clone, Copy, Debug, PartialEq, Eq)]
pub(crate) enum Step {
    /// A word of the root or of the function group.
    Codec(CodecWord),
    /// The capabilities of a widget.
    Capabilities,
    /// Something else of a widget.
    Widget(NodeStep),
    /// Nothing: the walk has all words.
    Done,
}

/// What is asked for of a widget whose capabilities are known.
#[derive(Clone, Copy, Debug, PartialEq, Eq)]
pub(crate) enum NodeStep {
    /// A word of its own.
    Word(NodeWord),
    /// The length and the form of its connection list.
    Length,
    /// The entries of its connection list from this place on, of which so many are left.
    Entries {
        /// The place, a multiple of the entries that a word has.
        place: u8,
        /// How many entries are left, this place's among them.
        left: u8,
    },
    /// Its power states.
    Power,
}
