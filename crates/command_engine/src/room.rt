//! How many accesses the calls of an engine make at most, and how many bytes of memory these read and write. Each is
//! the sum of its parts.
ghost use Rattle.std.specs.Prelude.{◌≡◌};

use world_rings::{COMMAND_BYTES, RESPONSE_BYTES};

/// What a start goes by: the state change status, and the size of each ring (HDA 1.0a, 3.3.9, 3.3.24 and 3.3.31).
const FOUND_ACCESSES: u32 = 3;
/// What sets CORB going (HDA 1.0a, 4.4.1.3).
pub(crate) const CORB_ACCESSES: u32 = 8;
/// What sets RIRB going (HDA 1.0a, 4.4.2.2).
pub(crate) const RIRB_ACCESSES: u32 = 5;
/// A start of both rings.
pub const START_ACCESSES: u32 = FOUND_ACCESSES + CORB_ACCESSES + RIRB_ACCESSES;

/// A submission: the command, and CORB's write pointer (HDA 1.0a, 4.4.1).
pub const SUBMIT_ACCESSES: u32 = 2;
/// The bytes of a submission.
pub const SUBMIT_BYTES: u32 = COMMAND_BYTES as u32;

/// How many responses a look can find: RIRB has at most 256 entries, and that of the last response is never new.
pub const MOST_RESPONSES: u32 = 255;
/// What reads the new responses: RIRB's write pointer, each of them, and the flag, which is cleared (HDA 1.0a, 4.4.2).
pub(crate) const BATCH_ACCESSES: u32 = 1 + MOST_RESPONSES + 1;
/// A look for an answer: the flag, and the new responses.
pub const POLL_ACCESSES: u32 = 1 + BATCH_ACCESSES;
/// The bytes of a look.
pub const POLL_BYTES: u32 = MOST_RESPONSES * RESPONSE_BYTES as u32;

/// These numbers in digits.
pub fn engine_room_is_fixed()
    ensures start { START_ACCESSES ≡ 16 }
    ensures submit { SUBMIT_ACCESSES ≡ 2 }
    ensures submit_bytes { SUBMIT_BYTES ≡ 4 }
    ensures responses { MOST_RESPONSES ≡ 255 }
    ensures poll { POLL_ACCESSES ≡ 258 }
    ensures poll_bytes { POLL_BYTES ≡ 2040 }
{}
