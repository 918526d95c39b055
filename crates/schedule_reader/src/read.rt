//! Reads a whole schedule.
ghost use Rattle.std.specs.Prelude.{◌≡◌, ◌≤◌, length, IfOk};
ghost use Rattle.schedule_reader.specs.Schedules.{IsReadingOf, IsLimited};
ghost use Rattle.schedule_reader.specs.Schedules as schedules;
ghost use Rattle.schedule_reader.specs.Ranges.{IsInRange};

use crate::counts::tally_of;
use crate::fault::SchedFault;
use crate::parts::{MOST_SCHEDULE_BYTES, check_lines, parts_of};
use crate::schedule::Schedule;
use std::alloc::Global;

/// The most steps of a schedule, with repeats written out.
const MOST_STEPS: u64 = 1_000_000;

/// The most link frames of a schedule, with repeats written out.
const MOST_FRAMES: u64 = 2_000_000;

/// The schedule, where it has neither too many steps nor too many link frames.
#[tactic(auto, unfolding(crate::specs::Schedules::limited, crate::specs::Left::held))]
fn limited(schedule: Schedule) -> Result<Schedule, SchedFault>
    ensures value { result ≡ schedules.limited schedule }
    ensures limits { IfOk result IsLimited }
{
    let tally = tally_of(&schedule);
    if tally.steps > MOST_STEPS {
        return Err(SchedFault::TooManySteps);
    }
    if tally.frames > MOST_FRAMES {
        return Err(SchedFault::TooManyFrames);
    }
    Ok(schedule)
}

/// Reads a schedule: its bytes, at most [`MOST_SCHEDULE_BYTES`].
///
/// # Errors
/// The fault of the first faulty line, [`SchedFault::Line`] or [`SchedFault::Nested`] with its number from 1. Where no
/// line is faulty, [`SchedFault::Unclosed`], then [`SchedFault::TooManySteps`] and last [`SchedFault::TooManyFrames`].
/// [`SchedFault::OutOfMemory`] says nothing of the schedule.
pub fn read_schedule(alloc: Global, bytes: &[u8]) -> Result<Schedule, SchedFault>
    requires { length bytes.now ≤ MOST_SCHEDULE_BYTES }
    ensures reading { IsReadingOf bytes.now result }
    ensures ranges { IfOk result IsInRange }
    ensures limits { IfOk result IsLimited }
{
    check_lines(alloc, bytes)?;
    let parts = parts_of(alloc, bytes)?;
    limited(Schedule { parts })
}
