//! The WAV file whose sound input pins are given.
ghost use Rattle.std.specs.Prelude.{◌≡◌, ◌≢◌, ◌≤◌, ℕ, List, IfOk, length};
ghost use Rattle.hda_program.specs.Files.{FailedUnder};
ghost use Rattle.hda_program.specs.Given.{AreGivenBytesRead, IsGivenRead, IsStereo};

use crate::message::{Message, unreadable, wav_refused};
use crate::wav::faulty;
use hda_outside::{ReadAll, Shelf, read_all};
use std::alloc::{AllocError, Global};
use wav_reader::{MOST_WAV_BYTES, Wav, WavFault, read_wav};

/// Reads the WAV file of this name whole: its sound, where that has two channels, or the message with which the command
/// ends.
///
/// # Errors
/// Want of memory.
pub(crate) fn read_given_file<S: Shelf>(
    alloc: Global,
    shelf: &mut S,
    name: &str,
) -> Result<Result<Wav, Message>, AllocError>
    ensures read { IfOk result (IsGivenRead (S.told shelf.old) (FailedUnder (S.faults shelf.old) (S.faults shelf.new))
        name.now) }
    ensures asked { (other : List ℕ) → other ≢ name.now → S.asked shelf.new other ≡ S.asked shelf.old other }
    ensures told { S.told shelf.new ≡ S.told shelf.old }
    ensures later { (other : List ℕ) → S.faults shelf.old other ≤ S.faults shelf.new other }
    ensures empties_later { (other : List ℕ) → S.empties shelf.old other ≤ S.empties shelf.new other }
{
    match read_all(alloc, shelf, name, MOST_WAV_BYTES) {
        Ok(bytes) => read_bytes(alloc, bytes.as_slice()),
        Err(ReadAll::TooLong) => Ok(Err(wav_refused(alloc, "TooLong")?)),
        Err(ReadAll::Failed) => Ok(Err(unreadable(alloc, name)?)),
        Err(ReadAll::OutOfMemory) => Err(AllocError),
    }
}

/// Reads the bytes of a WAV file.
fn read_bytes(alloc: Global, bytes: &[u8]) -> Result<Result<Wav, Message>, AllocError>
    requires { length bytes.now ≤ MOST_WAV_BYTES }
    ensures { IfOk result (AreGivenBytesRead bytes.now) }
{
    match read_wav(alloc, bytes) {
        Ok(wav) => in_stereo(alloc, wav),
        Err(WavFault::OutOfMemory) => Err(AllocError),
        Err(fault) => Ok(Err(faulty(alloc, fault)?)),
    }
}

/// A sound of two channels, or the message that names how many it has.
fn in_stereo(alloc: Global, wav: Wav) -> Result<Result<Wav, Message>, AllocError>
    ensures { IfOk result (IsStereo wav) }
{
    let channels = wav.format.channels;
    if channels == 2 {
        return Ok(Ok(wav));
    }
    let message = faulty(alloc, WavFault::Channels(channels as u16))?;
    Ok(Err(message))
}
