//! How many accesses the runs of a writer make at most. Each is the sum of its parts.
ghost use Rattle.std.specs.Prelude.{◌≡◌};

use crate::geometry::MOST_PERIODS;

/// The reset of the stream (HDA 1.0a, 3.3.35).
pub(crate) const RESET_ACCESSES: u32 = 4;
/// What sets the stream's registers, and RUN at last (HDA 1.0a, 3.3.35 to 3.3.42).
pub(crate) const GOING_ACCESSES: u32 = 7;
/// The first run beside two accesses for each period, its entry in the list and its bytes: the clock, the reset, the
/// registers, and the clock again.
pub const FIRST_RUN_ACCESSES: u32 = 1 + RESET_ACCESSES + GOING_ACCESSES + 1;

/// A later run up to its stop, beside one access for each period: the clock, LPIB and the clock again, and the ends of
/// what it writes, over silence and from the line's end on, which can lie within a period.
pub(crate) const TURN_ACCESSES: u32 = 3 + 2;
/// A later run beside one access for each period: also the stop.
pub const RUN_ACCESSES: u32 = TURN_ACCESSES + 1;
/// A later run, whatever its ring.
pub const MOST_RUN_ACCESSES: u32 = RUN_ACCESSES + MOST_PERIODS;

/// These numbers in digits.
pub fn writer_room_is_fixed()
    ensures first_run { FIRST_RUN_ACCESSES ≡ 13 }
    ensures run { RUN_ACCESSES ≡ 6 }
    ensures most { MOST_RUN_ACCESSES ≡ 38 }
{}
