//! The marks at which a pin is switched off and on.

/// A moment at which the control of a pin was set: how many items that are no holes its heard list had then, and whether
/// the pin was on from there. This project's own.
#[derive(Clone, Copy, Debug, PartialEq, Eq)]
pub struct Mark {
    /// The number of items that aren't holes, in blocks.
    pub at: u64,
    /// Bit 6 of what was set, out enable (HDA 1.0a, 7.3.3.13).
    pub on: bool,
}
