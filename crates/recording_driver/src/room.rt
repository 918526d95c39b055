//! How many accesses the calls of a driver that records make at most, and how many bytes of memory these read and write
//! beside those of the ring. Each is the sum of its parts.
ghost use Rattle.std.specs.Prelude.{◌≡◌};

use command_engine::{POLL_ACCESSES, POLL_BYTES};
use driver_progress::{INTERRUPT_ACCESSES, SHUT_ACCESSES};
use hda_capture::MOST_RECORD_ACCESSES;

/// A call: a look for an interrupt, one for what codecs told unasked, and a run of the recorder. A first run makes
/// fewer.
pub const RECORD_CALL_ACCESSES: u32 = INTERRUPT_ACCESSES + POLL_ACCESSES + MOST_RECORD_ACCESSES;
/// The bytes of a call beside the ring's: those of a look for what codecs told.
pub const RECORD_CALL_BYTES: u32 = POLL_BYTES;
/// The last call: a look for what codecs told unasked, a run, the stop, and the end.
pub const RECORD_END_ACCESSES: u32 = POLL_ACCESSES + MOST_RECORD_ACCESSES + 1 + SHUT_ACCESSES;

/// These numbers in digits.
pub fn recording_room_is_fixed()
    ensures call { RECORD_CALL_ACCESSES ≡ 298 }
    ensures bytes { RECORD_CALL_BYTES ≡ 2040 }
    ensures end { RECORD_END_ACCESSES ≡ 299 }
{}
