//! How many accesses the calls of a driver make at most, how many bytes of memory these read and write beside those of
//! the ring, and for how many a call asks room. All but the last are the sum of their parts.
ghost use Rattle.std.specs.Prelude.{◌≡◌};

use command_engine::POLL_ACCESSES;
use driver_bring_up::BRING_UP_BYTES;
use driver_progress::{INTERRUPT_ACCESSES, SHUT_ACCESSES};
use period_writer::MOST_RUN_ACCESSES;

/// A call: once it plays, a look for what codecs told unasked, and a run of the writer. The calls before make fewer.
pub const PLAY_ACCESSES: u32 = POLL_ACCESSES + MOST_RUN_ACCESSES;
/// The bytes of a call beside the ring's: most of them while commands are sent.
pub const CALL_BYTES: u32 = BRING_UP_BYTES;
/// A call for an interrupt: the look for it, and the call.
pub const PLAY_INTERRUPT_ACCESSES: u32 = INTERRUPT_ACCESSES + PLAY_ACCESSES;
/// The last call: once it plays, what a call makes, and the end.
pub const PLAY_END_ACCESSES: u32 = PLAY_ACCESSES + SHUT_ACCESSES;

/// For how many accesses each call asks room: more than any makes. This project's own.
pub const ROOM_ACCESSES: u32 = 400;
/// For how many bytes each call asks room beside the ring's: more than any reads and writes. This project's own.
pub const ROOM_BYTES: u32 = 8_192;

/// These numbers in digits.
pub fn driver_room_is_fixed()
    ensures call { PLAY_ACCESSES ≡ 296 }
    ensures bytes { CALL_BYTES ≡ 2044 }
    ensures interrupt { PLAY_INTERRUPT_ACCESSES ≡ 299 }
    ensures end { PLAY_END_ACCESSES ≡ 299 }
    ensures room { ROOM_ACCESSES ≡ 400 }
    ensures bytes_room { ROOM_BYTES ≡ 8192 }
{}
