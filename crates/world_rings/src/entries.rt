//! The entries of both rings in memory: a command of 4 bytes, a response of 8, lowest byte first (HDA 1.0a, 4.4).
ghost use Rattle.std.specs.Prelude.{◌≡◌, ◌≤◌, ◌<◌, ◌+◌, ◌*◌, ◌^◌, ◌%◌, length, slice_index};
ghost use Rattle.world_rings.specs.Memory.{word_at, stored};
ghost use Rattle.world_rings.specs.Entries as spec;

use crate::response::Response;
use byteorder::{ByteOrder, LittleEndian};

/// How many bytes a command has in CORB (HDA 1.0a, 4.4.1).
pub const COMMAND_BYTES: usize = 4;
/// How many bytes a response has in RIRB (HDA 1.0a, 4.4.2).
pub const RESPONSE_BYTES: usize = 8;
/// The bit of a response's second word that says that it was sent unasked (HDA 1.0a, 4.4.2).
const UNSOLICITED: u32 = 1 << 4;

/// The place after this one in a ring of so many entries.
pub fn next_place(place: u8, entries: u16) -> u8
    requires some { 1 ≤ entries }
    requires few { entries ≤ 256 }
    ensures value { result ≡ spec.next_place place entries }
    ensures within { result < entries }
{
    ((u16::from(place) + 1) % entries) as u8
}

/// The byte at an address, 0 outside the memory.
fn byte_at(memory: &[u8], at: usize) -> u8
    ensures { result ≡ slice_index memory.now at }
{
    memory.get(at).copied().unwrap_or(0)
}

/// The word of 32 bits at an address, lowest byte first: bytes outside the memory are 0.
pub fn word_from(memory: &[u8], at: usize) -> u32
    requires { at < 2 ^ 33 }
    ensures { result ≡ word_at memory.now at }
{
    let bytes = [
        byte_at(memory, at),
        byte_at(memory, at + 1),
        byte_at(memory, at + 2),
        byte_at(memory, at + 3),
    ];
    LittleEndian::read_u32(&bytes)
}

/// The bytes of a response: the answer, and then its codec with the mark of an unsolicited one.
fn bytes_of(response: Response) -> [u8; RESPONSE_BYTES]
    ensures { result ≡ spec.response_bytes response }
{
    let mut bytes = [0; RESPONSE_BYTES];
    LittleEndian::write_u32(&mut bytes[..4], response.answer);
    LittleEndian::write_u32(&mut bytes[4..], source_of(response));
    bytes
}

/// The second word of a response.
fn source_of(response: Response) -> u32
    ensures { result ≡ spec.response_source response }
{
    let mark = if response.unsolicited { UNSOLICITED } else { 0 };
    u32::from(response.codec) + mark
}

/// Stores a response at an address, where all of it lies in the memory, and else nothing.
pub fn store_response(memory: &mut [u8], at: usize, response: Response)
    requires { at < 2 ^ 33 }
    ensures { memory.new ≡ stored memory.old at (spec.response_bytes response) }
{
    if at + RESPONSE_BYTES <= memory.len() {
        memory[at..at + RESPONSE_BYTES].copy_from_slice(&bytes_of(response));
    }
}
