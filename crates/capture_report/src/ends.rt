//! The last line of a capture's text.
ghost use Rattle.std.specs.Prelude.{◌≡◌, ◌++◌, OnOk};
ghost use Rattle.sound_report.specs.Texts.{commands_left_line, unanswered_line};
ghost use Rattle.capture_report.specs.CaptureLines.{capture_fault_line, frames_read_line};
ghost use Rattle.capture_report.specs.CaptureTexts.{capture_last_line};

use crate::captured::Captured;
use sound_report::{PlayFault, push_hex, push_number, push_word};
use std::alloc::AllocError;
use std::io::Write;

/// A command that was left unanswered.
fn push_unanswered(
    out: &mut Vec<u8>,
    codec: u8,
    command: u32,
    issued: u32,
    noticed: u32,
) -> Result<(), AllocError>
    ensures { OnOk result (out.new.items ≡ out.old.items ++ unanswered_line codec command issued noticed) }
{
    push_word(out, "unanswered ")?;
    push_number(out, codec.into())?;
    push_word(out, " ")?;
    push_hex(out, &command.to_be_bytes())?;
    push_word(out, " ")?;
    push_number(out, issued.into())?;
    push_word(out, " ")?;
    push_number(out, noticed.into())?;
    push_word(out, "\n")
}

/// Commands that were not sent.
fn push_commands_left(out: &mut Vec<u8>, sent: u32, of: u32) -> Result<(), AllocError>
    ensures { OnOk result (out.new.items ≡ out.old.items ++ commands_left_line sent of) }
{
    push_word(out, "schedule ended: commands ")?;
    push_number(out, sent.into())?;
    push_word(out, " of ")?;
    push_number(out, of.into())?;
    push_word(out, "\n")
}

/// Frames that were not read.
fn push_frames_read(out: &mut Vec<u8>, read: u64, of: u64) -> Result<(), AllocError>
    ensures { OnOk result (out.new.items ≡ out.old.items ++ frames_read_line read of) }
{
    push_word(out, "schedule ended: frames ")?;
    push_number(out, read)?;
    push_word(out, " of ")?;
    push_number(out, of)?;
    push_word(out, "\n")
}

/// Why a capture ended early.
fn push_fault(out: &mut Vec<u8>, fault: PlayFault) -> Result<(), AllocError>
    ensures { OnOk result (out.new.items ≡ out.old.items ++ capture_fault_line fault) }
{
    match fault {
        PlayFault::Unanswered {
            codec,
            command,
            issued,
            noticed,
        } => push_unanswered(out, codec, command, issued, noticed),
        PlayFault::Late { from, to, limit } => {
            writeln!(out, "late {from} {to} {limit}").map_err(|_| AllocError)
        }
        PlayFault::CommandsLeft { sent, of } => push_commands_left(out, sent, of),
        PlayFault::FramesLeft { written, of, .. } => push_frames_read(out, written, of),
    }
}

/// Appends the last line: why the capture ended early, or else how much was recorded.
///
/// # Errors
/// Want of memory.
pub(crate) fn push_last(out: &mut Vec<u8>, captured: &Captured) -> Result<(), AllocError>
    ensures { OnOk result (out.new.items ≡ out.old.items ++ capture_last_line captured.now) }
{
    match captured.fault {
        Some(fault) => push_fault(out, fault),
        None => writeln!(out, "captured {}", captured.total).map_err(|_| AllocError),
    }
}
