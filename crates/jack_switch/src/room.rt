//! How many accesses the calls of a driver that switches make at most, and how many bytes of memory these read and
//! write beside those of the ring. Each is the sum of its parts.
ghost use Rattle.std.specs.Prelude.{◌≡◌};

use command_engine::{POLL_ACCESSES, POLL_BYTES, SUBMIT_ACCESSES, SUBMIT_BYTES};
use driver_progress::{INTERRUPT_ACCESSES, SHUT_ACCESSES};
use period_writer::MOST_RUN_ACCESSES;

/// A call: a look for answers, a run of the writer, and the next command.
pub const SWITCH_ACCESSES: u32 = POLL_ACCESSES + MOST_RUN_ACCESSES + SUBMIT_ACCESSES;
/// The bytes of a call beside the ring's.
pub const SWITCH_BYTES: u32 = POLL_BYTES + SUBMIT_BYTES;
/// A call for an interrupt: the look for it, and the call.
pub const SWITCH_INTERRUPT_ACCESSES: u32 = INTERRUPT_ACCESSES + SWITCH_ACCESSES;
/// The last call: a look for answers, a run of the writer, and the end.
pub const SWITCH_END_ACCESSES: u32 = POLL_ACCESSES + MOST_RUN_ACCESSES + SHUT_ACCESSES;

/// These numbers in digits.
pub fn switching_room_is_fixed()
    ensures call { SWITCH_ACCESSES ≡ 298 }
    ensures bytes { SWITCH_BYTES ≡ 2044 }
    ensures interrupt { SWITCH_INTERRUPT_ACCESSES ≡ 301 }
    ensures end { SWITCH_END_ACCESSES ≡ 299 }
{}
