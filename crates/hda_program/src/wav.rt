//! The WAV file of a command.
ghost use Rattle.std.specs.Prelude.{◌≡◌, ◌≢◌, ◌≤◌, ℕ, List, IfOk};
ghost use Rattle.hda_program.specs.Files.{FailedUnder, GivenAtMost, IsWavOpened};
ghost use Rattle.hda_program.specs.Meanings.{message_meant, telling};
ghost use Rattle.hda_program.specs.Text.{wav_refused_line};
ghost use Rattle.wav_reader.specs.FaultText as wav;

use crate::message::{Message, unreadable, wav_refused};
use hda_outside::Shelf;
use sound_report::Status;
use std::alloc::{AllocError, Global};
use wav_reader::{WavFault, WavHead, WavOpen, open_wav};

/// Opens the WAV file of this name: what it says before its sound, or the message with which the command ends.
///
/// # Errors
/// Want of memory.
pub(crate) fn open_wav_file<S: Shelf>(
    alloc: Global,
    shelf: &mut S,
    name: &str,
) -> Result<Result<WavHead, Message>, AllocError>
    ensures read { IfOk result (IsWavOpened (S.told shelf.old) (FailedUnder (S.faults shelf.old) (S.faults shelf.new))
        (GivenAtMost (S.given shelf.old) (S.given shelf.new)) name.now) }
    ensures asked { (other : List ℕ) → other ≢ name.now → S.asked shelf.new other ≡ S.asked shelf.old other }
    ensures told { S.told shelf.new ≡ S.told shelf.old }
    ensures later { (other : List ℕ) → S.faults shelf.old other ≤ S.faults shelf.new other }
    ensures empties_later { (other : List ℕ) → S.empties shelf.old other ≤ S.empties shelf.new other }
{
    match open_wav(alloc, shelf, name) {
        Ok(head) => Ok(Ok(head)),
        Err(WavOpen::Failed) => Ok(Err(unreadable(alloc, name)?)),
        Err(WavOpen::TooLong) => Ok(Err(wav_refused(alloc, "TooLong")?)),
        Err(WavOpen::Wav(fault)) => Ok(Err(faulty(alloc, fault)?)),
        Err(WavOpen::OutOfMemory) => Err(AllocError),
    }
}

/// The WAV file has this fault.
///
/// # Errors
/// Want of memory.
pub(crate) fn faulty(alloc: Global, fault: WavFault) -> Result<Message, AllocError>
    ensures { IfOk result (λ message.
        message_meant message ≡ telling Status.WavRefused (wav_refused_line (wav.wav_fault_text fault))) }
{
    let text = fault.to_string(alloc)?;
    wav_refused(alloc, text.as_str())
}
