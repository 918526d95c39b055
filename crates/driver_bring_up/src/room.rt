//! How many accesses the calls of a bring-up make at most, and how many bytes of memory these read and write. Each is
//! the sum of its parts.
ghost use Rattle.std.specs.Prelude.{◌≡◌};

use command_engine::{POLL_BYTES, SUBMIT_ACCESSES, SUBMIT_BYTES};
use driver_progress::{ASK_ACCESSES, INTERRUPT_ACCESSES, SHUT_ACCESSES};

/// A call: while commands are sent, a look for an answer, and the next command. A reset, and a start of the rings, make
/// fewer.
pub const BRING_UP_ACCESSES: u32 = ASK_ACCESSES + SUBMIT_ACCESSES;
/// The bytes of a call.
pub const BRING_UP_BYTES: u32 = POLL_BYTES + SUBMIT_BYTES;
/// A call for an interrupt: the look for it, and the call.
pub const BRING_UP_INTERRUPT_ACCESSES: u32 = INTERRUPT_ACCESSES + BRING_UP_ACCESSES;
/// The last call: a look for an answer, and the end.
pub const BRING_UP_END_ACCESSES: u32 = ASK_ACCESSES + SHUT_ACCESSES;

/// These numbers in digits.
pub fn bring_up_room_is_fixed()
    ensures call { BRING_UP_ACCESSES ≡ 261 }
    ensures bytes { BRING_UP_BYTES ≡ 2044 }
    ensures interrupt { BRING_UP_INTERRUPT_ACCESSES ≡ 264 }
    ensures end { BRING_UP_END_ACCESSES ≡ 262 }
{}
