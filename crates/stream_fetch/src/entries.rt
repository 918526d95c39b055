//! Entries of a list of buffers (HDA 1.0a, 3.6.3).
ghost use Rattle.std.specs.Prelude.{◌≡◌, ◌<◌, ◌≤◌, ◌+◌, ◌^◌, IfSome, length};
ghost use Rattle.world_streams.specs.Lists as lists;
ghost use Rattle.stream_fetch.specs.Bytes as spec;

use world_rings::word_from;
use world_streams::{BUFFER_ALIGNMENT, BUFFER_ENTRY_BYTES, Buffer, ListPlace};

/// The buffer of an entry of the list at an address.
pub(crate) fn buffer_at(memory: &[u8], base: u32, index: u8) -> Buffer
    ensures { result ≡ lists.buffer_of memory.now base index }
{
    let at = base as usize + BUFFER_ENTRY_BYTES as usize * usize::from(index);
    let lower = word_from(memory, at);
    let upper = word_from(memory, at + 4);
    let bytes = word_from(memory, at + 8);
    let flags = word_from(memory, at + 12);
    Buffer {
        address: u64::from(lower) + (1 << 32) * u64::from(upper),
        bytes,
        interrupts: flags % 2 == 1,
    }
}

/// Whether a stream can use the buffer.
pub(crate) fn is_good(memory: &[u8], buffer: Buffer) -> bool
    ensures { result ≡ lists.is_good memory.now buffer }
{
    let len = memory.len() as u64;
    let bytes = u64::from(buffer.bytes);
    buffer.address % BUFFER_ALIGNMENT == 0
        && bytes != 0
        && bytes <= len
        && buffer.address <= len - bytes
}

/// The place in the list after so many more bytes of the buffer, of a list with this last entry.
pub(crate) fn after_bytes(last: u8, buffer: Buffer, place: ListPlace, count: u32) -> ListPlace
    requires { place.fetched + count ≤ buffer.bytes }
    ensures { result ≡ spec.after_bytes count last buffer place }
{
    if place.fetched + count == buffer.bytes {
        let index = if place.index < last {
            place.index + 1
        } else {
            0
        };
        ListPlace {
            index,
            buffer: None,
            fetched: 0,
        }
    } else {
        ListPlace {
            index: place.index,
            buffer: Some(buffer),
            fetched: place.fetched + count,
        }
    }
}
