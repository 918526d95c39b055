//! The schedule of a command.
ghost use Rattle.std.specs.Prelude.{◌≡◌, ◌≢◌, ◌≤◌, ℕ, List, IfOk, length};
ghost use Rattle.hda_program.specs.Files.{AreScheduleBytesRead, FailedUnder, GivenAtMost, IsScheduleRead};

use crate::message::{Message, schedule_refused, unreadable};
use hda_outside::{ReadAll, Shelf, read_all};
use schedule_reader::{MOST_SCHEDULE_BYTES, SchedFault, Schedule, read_schedule};
use std::alloc::{AllocError, Global};

/// Reads the schedule of this name: the schedule, or the message with which the command ends.
///
/// # Errors
/// Want of memory.
pub(crate) fn read_schedule_file<S: Shelf>(
    alloc: Global,
    shelf: &mut S,
    name: &str,
) -> Result<Result<Schedule, Message>, AllocError>
    ensures read { IfOk result (IsScheduleRead (S.told shelf.old)
        (FailedUnder (S.faults shelf.old) (S.faults shelf.new))
        (GivenAtMost (S.given shelf.old) (S.given shelf.new)) name.now) }
    ensures asked { (other : List ℕ) → other ≢ name.now → S.asked shelf.new other ≡ S.asked shelf.old other }
    ensures told { S.told shelf.new ≡ S.told shelf.old }
    ensures later { (other : List ℕ) → S.faults shelf.old other ≤ S.faults shelf.new other }
    ensures empties_later { (other : List ℕ) → S.empties shelf.old other ≤ S.empties shelf.new other }
{
    match read_all(alloc, shelf, name, MOST_SCHEDULE_BYTES as u64) {
        Ok(bytes) => read_bytes(alloc, bytes.as_slice()),
        Err(ReadAll::TooLong) => Ok(Err(schedule_refused(alloc, "TooLong")?)),
        Err(ReadAll::Failed) => Ok(Err(unreadable(alloc, name)?)),
        Err(ReadAll::OutOfMemory) => Err(AllocError),
    }
}

/// Reads the bytes of a schedule.
fn read_bytes(alloc: Global, bytes: &[u8]) -> Result<Result<Schedule, Message>, AllocError>
    requires { length bytes.now ≤ MOST_SCHEDULE_BYTES }
    ensures { IfOk result (AreScheduleBytesRead bytes.now) }
{
    match read_schedule(alloc, bytes) {
        Ok(schedule) => Ok(Ok(schedule)),
        Err(SchedFault::OutOfMemory) => Err(AllocError),
        Err(fault) => {
            let text = fault.to_string(alloc)?;
            Ok(Err(schedule_refused(alloc, text.as_str())?))
        }
    }
}
