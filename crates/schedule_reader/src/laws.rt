//! Laws of schedules, each the contract of a function that does nothing.
ghost use Rattle.std.specs.Prelude.{◌≡◌, ◌≢◌, List, ℕ, Result, Err};
ghost use Rattle.schedule_reader.specs.declared.parts.TheConstants.{MOST_SCHEDULE_BYTES};
ghost use Rattle.schedule_reader.specs.declared.schedule.Schedule.{Schedule};
ghost use Rattle.schedule_reader.specs.declared.fault.SchedFault.{SchedFault};
ghost use Rattle.schedule_reader.specs.declared.fault.SchedFault.TheVariants.{OutOfMemory};
ghost use Rattle.schedule_reader.specs.Schedules.{schedule_of, IsReadingOf};

/// A schedule has at most 4 MiB; this project's own.
pub fn schedules_have_a_limit()
    ensures { MOST_SCHEDULE_BYTES ≡ 4194304 }
{}

/// Bytes have one reading, a schedule or a fault, and this fault is never want of memory.
pub fn one_schedule()
    ensures memory { (bytes : List ℕ) → schedule_of bytes ≢ Err OutOfMemory }
    ensures reading { (bytes : List ℕ) (one other : Result Schedule SchedFault) → IsReadingOf bytes one
        → IsReadingOf bytes other
        → one ≢ Err OutOfMemory → other ≢ Err OutOfMemory → one ≡ other }
{}
