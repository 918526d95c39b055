//! Why a schedule is refused.
ghost use Rattle.std.specs.Prelude.{◌≡◌};

use std::alloc::{AllocError, AllocFailed};
use std::fmt;

/// The first fault of a schedule. Lines count from 1, and the first faulty one counts; the others come in the order in
/// which they stand here.
#[derive(Clone, Copy, Debug, PartialEq, Eq)]
pub enum SchedFault {
    /// The line of this number has no reading, or is an `end` without `repeat`.
    Line(u32),
    /// The line of this number is a `repeat` inside a `repeat`.
    Nested(u32),
    /// The last `repeat` has no `end`.
    Unclosed,
    /// There are more than 1,000,000 steps, with repeats written out.
    TooManySteps,
    /// There are more than 2,000,000 link frames, with repeats written out.
    TooManyFrames,
    /// Memory was wanting. This says nothing of the schedule.
    OutOfMemory,
}

impl fmt::Display for SchedFault {
    ghost use Rattle.std.specs.Prelude.{Some};
    ghost use Rattle.schedule_reader.specs.FaultText.{schedule_fault_text};

    ghost output = { λ fault. Some (schedule_fault_text fault) };

    fn fmt<W: fmt::Write>(&self, f: &mut fmt::Formatter<W>) -> fmt::Result {
        match self {
            SchedFault::Line(number) => write!(f, "Line {number}"),
            SchedFault::Nested(number) => write!(f, "Nested {number}"),
            SchedFault::Unclosed => f.write_str("Unclosed"),
            SchedFault::TooManySteps => f.write_str("TooManySteps"),
            SchedFault::TooManyFrames => f.write_str("TooManyFrames"),
            SchedFault::OutOfMemory => f.write_str("out of memory"),
        }
    }
}

impl std::error::Error for SchedFault {}

impl From<AllocError> for SchedFault {
    ghost use Rattle.std.specs.Prelude.{◌≡◌};
    ghost use Rattle.schedule_reader.specs.declared.fault.SchedFault.TheVariants.{OutOfMemory};

    ghost from_gives = { λ _ fault. fault ≡ OutOfMemory };

    fn from(_: AllocError) -> Self {
        SchedFault::OutOfMemory
    }
}

impl<T: Drop> From<AllocFailed<T>> for SchedFault {
    ghost use Rattle.std.specs.Prelude.{◌≡◌};
    ghost use Rattle.schedule_reader.specs.declared.fault.SchedFault.TheVariants.{OutOfMemory};

    ghost from_gives = { λ _ fault. fault ≡ OutOfMemory };

    fn from(_: AllocFailed<T>) -> Self {
        SchedFault::OutOfMemory
    }
}
