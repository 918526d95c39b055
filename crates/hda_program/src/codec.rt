//! The codec file of a command.
ghost use Rattle.std.specs.Prelude.{◌≡◌, ◌≢◌, ◌≤◌, ℕ, List, IfOk};
ghost use Rattle.hda_program.specs.Files.{AreCodecBytesRead, FailedUnder, GivenAtMost, IsCodecRead};

use crate::message::{Message, codec_refused, unreadable};
use hda_files::{FileFault, Machine, read_machine};
use hda_outside::{ReadAll, Shelf, read_all};
use std::alloc::{AllocError, Global};

/// How many bytes a codec file may have.
const MOST_CODEC_BYTES: u64 = 262_144;

/// Reads the codec file of this name: its machine, or the message with which the command ends.
///
/// # Errors
/// Want of memory.
pub fn read_codec_file<S: Shelf>(
    alloc: Global,
    shelf: &mut S,
    name: &str,
) -> Result<Result<Machine, Message>, AllocError>
    ensures read { IfOk result (IsCodecRead (S.told shelf.old) (FailedUnder (S.faults shelf.old) (S.faults shelf.new))
        (GivenAtMost (S.given shelf.old) (S.given shelf.new)) name.now) }
    ensures asked { (other : List ℕ) → other ≢ name.now → S.asked shelf.new other ≡ S.asked shelf.old other }
    ensures told { S.told shelf.new ≡ S.told shelf.old }
    ensures later { (other : List ℕ) → S.faults shelf.old other ≤ S.faults shelf.new other }
    ensures empties_later { (other : List ℕ) → S.empties shelf.old other ≤ S.empties shelf.new other }
{
    match read_all(alloc, shelf, name, MOST_CODEC_BYTES) {
        Ok(bytes) => read_bytes(alloc, bytes.as_slice()),
        Err(ReadAll::TooLong) => Ok(Err(codec_refused(alloc, "TooLong")?)),
        Err(ReadAll::Failed) => Ok(Err(unreadable(alloc, name)?)),
        Err(ReadAll::OutOfMemory) => Err(AllocError),
    }
}

/// Reads the bytes of a codec file.
fn read_bytes(alloc: Global, bytes: &[u8]) -> Result<Result<Machine, Message>, AllocError>
    ensures { IfOk result (AreCodecBytesRead bytes.now) }
{
    match read_machine(alloc, bytes) {
        Ok(machine) => Ok(Ok(machine)),
        Err(FileFault::OutOfMemory) => Err(AllocError),
        Err(fault) => {
            let text = fault.to_string(alloc)?;
            Ok(Err(codec_refused(alloc, text.as_str())?))
        }
    }
}
