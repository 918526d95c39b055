//! Laws of memory and of the ring of responses, each the contract of a function that does nothing.
ghost use Rattle.std.specs.Prelude.{◌≡◌, ◌≤◌, ◌<◌, ◌+◌, ◌/◌, ◌%◌, ◌^◌, if◌then◌else◌, ℕ, List, Some, length, slice_get};
ghost use Rattle.std.specs.Prelude.{slice_index};
ghost use Rattle.hda_registers.specs.Fields.{Fields, entries_of};
ghost use Rattle.world_rings.specs.declared.response.Response.{Response};
ghost use Rattle.world_rings.specs.Memory.{stored, IsOutside, PieceStored};
ghost use Rattle.world_rings.specs.Entries.{response_source, responses_stored};
ghost use Rattle.world_rings.specs.Standing.{StandsAt, IsRirbInside};

use crate::entries::{COMMAND_BYTES, RESPONSE_BYTES};
use crate::response::MOST_WAITING;

/// A command has 4 bytes and a response 8, as the standard has them (HDA 1.0a, 4.4.1 and 4.4.2), and 256 responses may
/// wait.
pub fn sizes_are_fixed()
    ensures command { COMMAND_BYTES ≡ 4 }
    ensures response { RESPONSE_BYTES ≡ 8 }
    ensures waiting { MOST_WAITING ≡ 256 }
{}

/// The second word of a response has the codec's address, at most 14, in bits 3:0 and the mark of an unsolicited one in
/// bit 4, and no other bit (HDA 1.0a, 4.4.2).
pub fn sources_are_read_back()
    ensures codec { (response : Response) → response.codec ≤ 14 → response_source response % 2 ^ 4 ≡ response.codec }
    ensures mark { (response : Response) → response.codec ≤ 14
        → response_source response / 2 ^ 4 ≡ (if response.unsolicited then 1 else 0) }
{}

/// A piece that lies in the memory stands there once it is stored. Whether or not it does, the memory keeps its length
/// and every byte outside the piece.
pub fn stored_pieces_stand()
    ensures piece { (at : ℕ) (piece memory : List ℕ) → at + length piece ≤ length memory
        → PieceStored at piece memory (stored memory at piece) }
    ensures size { (at : ℕ) (piece memory : List ℕ) → length (stored memory at piece) ≡ length memory }
    ensures outside { (at : ℕ) (piece memory : List ℕ) (other : ℕ) → IsOutside at (length piece) other
        → slice_index (stored memory at piece) other ≡ slice_index memory other }
{}

/// Fewer responses than RIRB has entries overwrite none of one another: each stands in the entry that is as many places
/// after the write pointer as it comes in the order of acceptance, from 1.
pub fn responses_stand()
    ensures { (fields : Fields) (memory : List ℕ) (responses : List Response) (place : ℕ) (response : Response)
        → length responses < entries_of fields.shape.rirb → IsRirbInside fields memory
        → slice_get responses place ≡ Some response
        → StandsAt fields (responses_stored fields memory responses) (place + 1) response }
{}
