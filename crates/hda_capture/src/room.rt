//! How many accesses the runs of a recorder make at most, and how many bytes they read or write. Each is the sum of its
//! parts.
ghost use Rattle.std.specs.Prelude.{◌≡◌, ◌≤◌};
ghost use Rattle.period_writer.specs.declared.geometry.Geometry.{Geometry};
ghost use Rattle.period_writer.specs.Rings.{ring_bytes, list_bytes};

use period_writer::{MOST_PERIODS, PERIOD_UNIT};
use world_streams::BUFFER_ENTRY_BYTES;

/// The reset of the stream (HDA 1.0a, 3.3.35).
pub(crate) const RESET_ACCESSES: u32 = 4;
/// What sets the stream's registers, and RUN at last (HDA 1.0a, 3.3.35 to 3.3.42).
pub(crate) const GOING_ACCESSES: u32 = 7;
/// The first run beside an access for each period, its entry in the list: the clock, the reset, the registers, and the
/// clock again.
pub const FIRST_RECORD_ACCESSES: u32 = 1 + RESET_ACCESSES + GOING_ACCESSES + 1;
/// The bytes that a first run writes at most: the list.
pub const MOST_LIST_BYTES: u32 = BUFFER_ENTRY_BYTES * MOST_PERIODS;

/// A later run up to its stop, beside an access for each period: the clock, LPIB and the clock again, and the end of
/// what it reads, which can lie within the period that it began in.
pub(crate) const TURN_ACCESSES: u32 = 3 + 1;
/// A later run beside an access for each period: also the stop.
pub const RECORD_ACCESSES: u32 = TURN_ACCESSES + 1;
/// A later run, whatever its ring.
pub const MOST_RECORD_ACCESSES: u32 = RECORD_ACCESSES + MOST_PERIODS;
/// The bytes that a later run reads at most: those of the longest ring.
pub const MOST_RECORD_BYTES: u32 = PERIOD_UNIT * 128 * MOST_PERIODS;

/// These numbers in digits, and that no ring has more bytes.
pub fn recorder_room_is_fixed()
    ensures first_run { FIRST_RECORD_ACCESSES ≡ 13 }
    ensures run { RECORD_ACCESSES ≡ 5 }
    ensures most { MOST_RECORD_ACCESSES ≡ 37 }
    ensures first_bytes { MOST_LIST_BYTES ≡ 512 }
    ensures bytes { MOST_RECORD_BYTES ≡ 1572864 }
    ensures list { (geometry : Geometry) → list_bytes geometry.periods ≤ MOST_LIST_BYTES }
    ensures ring { (geometry : Geometry) → ring_bytes geometry.periods geometry.period ≤ MOST_RECORD_BYTES }
{}
