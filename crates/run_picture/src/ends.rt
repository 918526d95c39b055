//! How a run ended, in words.
use sound_report::{CutLine, PlayFault, Played};
use std::alloc::{AllocError, Global};
use stream_format::{Bits, Format, Rate};

/// Why a run ended before it was done.
fn fault_words(alloc: Global, fault: &PlayFault) -> Result<String, AllocError> {
    match fault {
        PlayFault::Unanswered { codec, .. } => {
            format!(in alloc; "Codec {codec} left a command unanswered")
        }
        PlayFault::Late { from, to, limit } => {
            let frames = to.wrapping_sub(*from) / 500;
            format!(in alloc;
                "A run was late: {frames} link frames passed, of {limit} that may pass"
            )
        }
        PlayFault::CommandsLeft { sent, of } => {
            format!(in alloc; "The schedule ended when {sent} of {of} commands were sent")
        }
        PlayFault::FramesLeft { written, heard, of } => {
            format!(in alloc;
                "The schedule ended: of {of} frames {written} were written, {heard} heard"
            )
        }
    }
}

/// How a run ended.
///
/// # Errors
/// Want of memory.
pub(crate) fn end_words(alloc: Global, played: &Played) -> Result<String, AllocError> {
    match &played.cut {
        Some(CutLine::Failed(_)) => {
            return String::from_str(alloc, "The WAV file could not be read");
        }
        Some(CutLine::Short(place)) => {
            return format!(in alloc; "The WAV file ended at byte {place}, before its data did");
        }
        None => {}
    }
    match &played.fault {
        Some(fault) => fault_words(alloc, fault),
        None if played.walk => {
            format!(in alloc; "The codecs were set up by {} commands", played.commands)
        }
        None => format!(in alloc; "All {} frames of sound were played", played.total),
    }
}

/// The blocks of a second.
fn hertz(rate: Rate) -> u32 {
    match rate {
        Rate::R8 => 8000,
        Rate::R16 => 16_000,
        Rate::R44 => 44_100,
        Rate::R48 => 48_000,
        Rate::R96 => 96_000,
        Rate::R192 => 192_000,
    }
}

/// The bits of a sample.
fn size(bits: Bits) -> u32 {
    match bits {
        Bits::B16 => 16,
        Bits::B24 => 24,
        Bits::B32 => 32,
    }
}

/// A format in words.
///
/// # Errors
/// Want of memory.
pub(crate) fn format_words(alloc: Global, format: Format) -> Result<String, AllocError> {
    let rate = hertz(format.rate);
    let bits = size(format.bits);
    format!(in alloc; "{rate} Hz, {bits} bits, {} channels", format.channels)
}
