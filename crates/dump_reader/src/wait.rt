//! What a line of a dump has to be.

/// What the next line has to be.
#[derive(Clone, Copy, Debug, PartialEq, Eq)]
pub(crate) enum Wait {
    /// Any line.
    Nothing,
    /// PCM rates, or that there are none.
    Rates,
    /// PCM sizes, behind these rates.
    Bits(u16),
    /// Stream formats.
    Formats,
    /// A connection list of so many.
    List(u8),
    /// A line that says nothing of its own.
    Passed,
}
