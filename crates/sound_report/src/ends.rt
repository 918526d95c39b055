//! The last line of a run's text.
ghost use Rattle.std.specs.Prelude.{◌≡◌, ◌++◌, OnOk};
ghost use Rattle.sound_report.specs.Texts.{unanswered_line, commands_left_line, frames_left_line, fault_line, cut_line};
ghost use Rattle.sound_report.specs.Texts.{done_line, last_line};

use crate::pieces::{push_hex, push_number, push_word};
use crate::played::{CutLine, PlayFault, Played};
use std::alloc::AllocError;
use std::io::Write;

/// A command that was left unanswered.
fn push_unanswered(
    out: &mut Vec<u8>,
    codec: u8,
    command: u32,
    issued: u32,
    noticed: u32,
) -> Result<(), AllocError>
    ensures { OnOk result (out.new.items ≡ out.old.items ++ unanswered_line codec command issued noticed) }
{
    push_word(out, "unanswered ")?;
    push_number(out, codec.into())?;
    push_word(out, " ")?;
    push_hex(out, &command.to_be_bytes())?;
    push_word(out, " ")?;
    push_number(out, issued.into())?;
    push_word(out, " ")?;
    push_number(out, noticed.into())?;
    push_word(out, "\n")
}

/// Commands that were not sent.
fn push_commands_left(out: &mut Vec<u8>, sent: u32, of: u32) -> Result<(), AllocError>
    ensures { OnOk result (out.new.items ≡ out.old.items ++ commands_left_line sent of) }
{
    push_word(out, "schedule ended: commands ")?;
    push_number(out, sent.into())?;
    push_word(out, " of ")?;
    push_number(out, of.into())?;
    push_word(out, "\n")
}

/// Frames that were not played.
fn push_frames_left(out: &mut Vec<u8>, written: u64, heard: u64, of: u64) -> Result<(), AllocError>
    ensures { OnOk result (out.new.items ≡ out.old.items ++ frames_left_line written heard of) }
{
    push_word(out, "schedule ended: frames ")?;
    push_number(out, written)?;
    push_word(out, " written ")?;
    push_number(out, heard)?;
    push_word(out, " heard of ")?;
    push_number(out, of)?;
    push_word(out, "\n")
}

/// Why a run ended early.
fn push_fault(out: &mut Vec<u8>, fault: PlayFault) -> Result<(), AllocError>
    ensures { OnOk result (out.new.items ≡ out.old.items ++ fault_line fault) }
{
    match fault {
        PlayFault::Unanswered {
            codec,
            command,
            issued,
            noticed,
        } => push_unanswered(out, codec, command, issued, noticed),
        PlayFault::Late { from, to, limit } => {
            writeln!(out, "late {from} {to} {limit}").map_err(|_| AllocError)
        }
        PlayFault::CommandsLeft { sent, of } => push_commands_left(out, sent, of),
        PlayFault::FramesLeft { written, heard, of } => push_frames_left(out, written, heard, of),
    }
}

/// How the reading of the sound was cut.
fn push_cut(out: &mut Vec<u8>, cut: &CutLine) -> Result<(), AllocError>
    ensures { OnOk result (out.new.items ≡ out.old.items ++ cut_line cut.now) }
{
    match cut {
        CutLine::Failed(name) => writeln!(out, "cannot read: {name}").map_err(|_| AllocError),
        CutLine::Short(place) => writeln!(out, "wav shrank: {place}").map_err(|_| AllocError),
    }
}

/// What was done.
fn push_done(out: &mut Vec<u8>, walk: bool, commands: u32, total: u64) -> Result<(), AllocError>
    ensures { OnOk result (out.new.items ≡ out.old.items ++ done_line walk commands total) }
{
    if walk {
        writeln!(out, "set up {commands}").map_err(|_| AllocError)
    } else {
        writeln!(out, "played {total}").map_err(|_| AllocError)
    }
}

/// Appends the last line: how the reading of the sound was cut, or else why the run ended early, or else what was done.
///
/// # Errors
/// Want of memory.
pub(crate) fn push_last(out: &mut Vec<u8>, played: &Played) -> Result<(), AllocError>
    ensures { OnOk result (out.new.items ≡ out.old.items ++ last_line played.now) }
{
    if let Some(cut) = &played.cut {
        return push_cut(out, cut);
    }
    match played.fault {
        Some(fault) => push_fault(out, fault),
        None => push_done(out, played.walk, played.commands, played.total),
    }
}
