//! Bytes as stretches that follow one another.
use std::alloc::AllocError;
use std::fmt::Write;

/// The byte that follows one in a stretch, which is never 0.
fn next_of(byte: u8) -> u8 {
    if byte == 255 { 1 } else { byte + 1 }
}

/// Puts so many bytes from a first one on.
fn push_stretch(text: &mut String, first: u8, count: u32) -> Result<(), AllocError> {
    if count == 0 {
        return Ok(());
    }
    write!(text, " {count}x{first:02x}")
}

/// Puts some bytes under a name: how many follow one another, each one more than the one before and 1 behind 255, and the
/// first of them, or how many are 0.
pub fn push_stretches(text: &mut String, name: &str, bytes: &[u8]) -> Result<(), AllocError> {
    write!(text, "\n  {name}")?;
    let mut first = 0;
    let mut expected = 0;
    let mut count: u32 = 0;
    for byte in bytes {
        let goes_on = count > 0 && *byte == expected;
        if !goes_on {
            push_stretch(text, first, count)?;
            first = *byte;
            count = 0;
        }
        count = count.saturating_add(1);
        expected = if *byte == 0 { 0 } else { next_of(*byte) };
    }
    push_stretch(text, first, count)
}
