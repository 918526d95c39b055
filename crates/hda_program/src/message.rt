//! Texts with a status, and the lines of refusals.
ghost use Rattle.std.specs.Prelude.{◌≡◌, IfOk, string_bytes};
ghost use Rattle.hda_program.specs.Meanings.{telling, message_meant};
ghost use Rattle.hda_program.specs.Text.{codec_refused_line, geometry_refused_line, nothing_routed_line, refused_line};
ghost use Rattle.hda_program.specs.Text.{schedule_refused_line, usage_line, wav_refused_line};
ghost use Rattle.sound_report.specs.Texts.{unreadable_line};

use sound_report::Status;
use std::alloc::{AllocError, Global};

/// The line for words that are no command.
const USAGE: &str =
    "usage: hda_play route CODEC [--rate R] [--channels C] [--bits B] | walk CODEC SCHEDULE | play CODEC WAV SCHEDULE [--periods K] [--period M] | make N | spdif CODEC WAV SCHEDULE [--periods K] [--period M] | capture CODEC WAV SCHEDULE [--periods K] [--period M]\n";

/// A text, and the status with which the program ends that writes it. This project's own.
#[derive(Drop)]
pub struct Message {
    /// The status of the program's end, where the text is written whole.
    pub status: Status,
    /// All that is written.
    pub text: String,
}

/// The words are those of no command.
///
/// # Errors
/// Want of memory.
pub(crate) fn words_refused(alloc: Global) -> Result<Message, AllocError>
    ensures { IfOk result (λ message. message_meant message ≡ telling Status.WordsRefused usage_line) }
{
    Ok(Message {
        status: Status::WordsRefused,
        text: String::from_str(alloc, USAGE)?,
    })
}

/// No codec has an input.
///
/// # Errors
/// Want of memory.
pub(crate) fn no_input(alloc: Global) -> Result<Message, AllocError>
    ensures { IfOk result (λ message. message_meant message ≡ telling Status.NothingRouted nothing_routed_line) }
{
    Ok(Message {
        status: Status::NothingRouted,
        text: String::from_str(alloc, "nothing routed\n")?,
    })
}

/// The file of this name cannot be read.
///
/// # Errors
/// Want of memory.
pub(crate) fn unreadable(alloc: Global, name: &str) -> Result<Message, AllocError>
    ensures { IfOk result (λ message. message_meant message ≡ telling Status.ShelfFailed (unreadable_line name.now)) }
{
    Ok(Message {
        status: Status::ShelfFailed,
        text: format!(in alloc; "cannot read: {name}\n")?,
    })
}

/// What was read is refused for this fault.
fn refused(alloc: Global, status: Status, what: &str, fault: &str) -> Result<Message, AllocError>
    ensures { IfOk result (λ message. message_meant message ≡ telling status (refused_line what.now fault.now)) }
{
    Ok(Message {
        status,
        text: format!(in alloc; "{what} refused: {fault}\n")?,
    })
}

/// The codec file is refused for this fault.
///
/// # Errors
/// Want of memory.
pub(crate) fn codec_refused(alloc: Global, fault: &str) -> Result<Message, AllocError>
    ensures { IfOk result (λ message. message_meant message ≡ telling Status.CodecRefused
        (codec_refused_line fault.now)) }
{
    refused(alloc, Status::CodecRefused, "codec", fault)
}

/// The WAV file is refused for this fault.
///
/// # Errors
/// Want of memory.
pub(crate) fn wav_refused(alloc: Global, fault: &str) -> Result<Message, AllocError>
    ensures { IfOk result (λ message. message_meant message ≡ telling Status.WavRefused (wav_refused_line fault.now)) }
{
    refused(alloc, Status::WavRefused, "wav", fault)
}

/// The schedule is refused for this fault.
///
/// # Errors
/// Want of memory.
pub(crate) fn schedule_refused(alloc: Global, fault: &str) -> Result<Message, AllocError>
    ensures { IfOk result (λ message. message_meant message ≡ telling Status.ScheduleRefused
        (schedule_refused_line fault.now)) }
{
    refused(alloc, Status::ScheduleRefused, "schedule", fault)
}

/// The ring of sound is refused for this fault.
///
/// # Errors
/// Want of memory.
pub(crate) fn geometry_refused(alloc: Global, fault: &str) -> Result<Message, AllocError>
    ensures { IfOk result (λ message. message_meant message ≡ telling Status.GeometryRefused
        (geometry_refused_line fault.now)) }
{
    refused(alloc, Status::GeometryRefused, "geometry", fault)
}
