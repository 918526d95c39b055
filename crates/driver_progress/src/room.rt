//! How many accesses the stretches of a driver make at most. Each is the sum of its parts.
ghost use Rattle.std.specs.Prelude.{◌≡◌};

use command_engine::{POLL_ACCESSES, START_ACCESSES};

/// A reset of the controller (HDA 1.0a, 4.3).
pub const RESET_ACCESSES: u32 = 5;
/// A look whether the codecs had their time: the clock, and then the start of the rings.
pub const SETTLE_ACCESSES: u32 = 1 + START_ACCESSES;
/// A look for an answer: the clock, and then the poll.
pub const ASK_ACCESSES: u32 = 1 + POLL_ACCESSES;
/// What clears the status of the output stream (HDA 1.0a, 3.3.36).
pub(crate) const CLEAR_ACCESSES: u32 = 2;
/// A look for an interrupt: INTSTS, and then what clears it.
pub const INTERRUPT_ACCESSES: u32 = 1 + CLEAR_ACCESSES;
/// What stops both rings and leaves the controller in reset.
pub const SHUT_ACCESSES: u32 = 3;

/// These numbers in digits.
pub fn stretch_room_is_fixed()
    ensures reset { RESET_ACCESSES ≡ 5 }
    ensures settle { SETTLE_ACCESSES ≡ 17 }
    ensures ask { ASK_ACCESSES ≡ 259 }
    ensures interrupt { INTERRUPT_ACCESSES ≡ 3 }
    ensures shut { SHUT_ACCESSES ≡ 3 }
{}
