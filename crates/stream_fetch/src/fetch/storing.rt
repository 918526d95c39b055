//! What the FIFO of an input stream does: blocks come into it from the link, and its bytes go to a list of buffers.
ghost use Rattle.std.specs.Prelude.{◌≡◌, ◌≤◌, ◌+◌, ◌++◌, true, false, IsTrue, length, min, nat_le, drop, take};
ghost use Rattle.world_rings.specs.Memory as region;
ghost use Rattle.world_streams.specs.Streams.{StreamState};
ghost use Rattle.world_streams.specs.Input as input;
ghost use Rattle.stream_fetch.specs.Fetching.{StandsFor};
ghost use Rattle.stream_fetch.specs.Storing.{IsPortion, IsWithin, gone_in};
ghost use Rattle.circular_buffer.specs.Buffer.{buffer};

use super::{Fetch, ListAt, fill};
use crate::entries::{after_bytes, is_good};
use circular_buffer::HeapCircularBuffer;

/// What a store came to.
#[derive(Clone, Copy, Debug, PartialEq, Eq)]
pub struct Stored {
    /// How many bytes were stored.
    pub bytes: u32,
    /// The last byte of a buffer with IOC was among them.
    pub done: bool,
    /// It came to an entry of the list that can't be used.
    pub broken: bool,
}

/// What the store of some bytes in one buffer came to.
#[derive(Clone, Copy, Debug, PartialEq, Eq)]
pub(crate) enum Portion {
    /// The FIFO is empty.
    Empty,
    /// The entry of the list can't be used.
    Jammed,
    /// So many bytes went; whether the last of a buffer with IOC was among them.
    Went(u32, bool),
}

impl Fetch {
    /// Puts all bytes of a block last in the FIFO. False exactly where it has no room for all of them, and then nothing
    /// changes (HDA 1.0a, 3.3.36, FIFOE; that a block is taken whole or not at all is this project's own).
    pub fn accept(&mut self, block: &[u8]) -> bool
        ensures fits { result ≡ nat_le (length self.old.bytes + length block.now) self.old.capacity }
        ensures room { (state : StreamState) → StandsFor self.old state
            → result ≡ input.fits_block self.old.capacity state.left state.entered block.now }
        ensures taken { IsTrue result → self.new ≡ record self.old { bytes = self.old.bytes ++ block.now } }
        ensures stands { IsTrue result → (state : StreamState) → StandsFor self.old state
            → StandsFor self.new (record state { entered = state.entered ++ block.now }) }
        ensures kept { result ≡ false → self.new ≡ self.old }
        ensures capacity { self.new.capacity ≡ self.old.capacity }
    {
        if block.len() > self.fifo.capacity() - self.fifo.len() {
            return false;
        }
        fill(&mut self.fifo, block);
        true
    }

    /// Stores the oldest bytes in one buffer, at most so many, as far as the FIFO holds some and the buffer can be
    /// used.
    fn store_bytes(&mut self, list: ListAt, memory: &mut [u8], most: u32) -> Portion
        requires { 1 ≤ most }
        ensures stands { (state : StreamState) → StandsFor self.old state
            → StandsFor self.new (input.bytes_went (gone_in result) list.address list.last
            (record { memory = memory.old; state = state })).state }
        ensures memory { (state : StreamState) → StandsFor self.old state
            → memory.new ≡ (input.bytes_went (gone_in result) list.address list.last
            (record { memory = memory.old; state = state })).memory }
        ensures found { (state : StreamState) → StandsFor self.old state
            → IsPortion list.address list.last (record { memory = memory.old; state = state }) result }
        ensures count { length self.new.bytes + gone_in result ≡ length self.old.bytes }
        ensures within { IsWithin most result }
        ensures capacity { self.new.capacity ≡ self.old.capacity }
    {
        if self.fifo.is_empty() {
            return Portion::Empty;
        }
        let buffer = self.next_buffer(memory, list.address);
        if !is_good(memory, buffer) {
            return Portion::Jammed;
        }
        let place = buffer.address as usize + self.list.fetched as usize;
        let left = (buffer.bytes - self.list.fetched).min(most) as usize;
        let count = put(&mut self.fifo, memory, place, left) as u32;
        let ends = self.list.fetched + count == buffer.bytes;
        self.list = after_bytes(list.last, buffer, self.list, count);
        Portion::Went(count, ends && buffer.interrupts)
    }

    /// Stores at most so many bytes of the FIFO, the oldest first, in the list's buffers, in the list's order and round
    /// again. An entry of the list is looked at where the FIFO holds a byte for it (HDA 1.0a, 3.6.2 and 3.6.3; that a
    /// buffer which can't be used stops the store is this project's own).
    pub fn store(&mut self, list: ListAt, memory: &mut [u8], most: u32) -> Stored
        ensures stands { (state : StreamState) → StandsFor self.old state
            → StandsFor self.new (input.bytes_went most list.address list.last
            (record { memory = memory.old; state = state })).state }
        ensures memory { (state : StreamState) → StandsFor self.old state
            → memory.new ≡ (input.bytes_went most list.address list.last
            (record { memory = memory.old; state = state })).memory }
        ensures bytes { length self.new.bytes + result.bytes ≡ length self.old.bytes }
        ensures done { (state : StreamState) → StandsFor self.old state
            → result.done ≡ input.some_fills most list.address list.last
            (record { memory = memory.old; state = state }) }
        ensures broken { (state : StreamState) → StandsFor self.old state
            → result.broken ≡ input.some_jams most list.address list.last
            (record { memory = memory.old; state = state }) }
        ensures size { length memory.new ≡ length memory.old }
        ensures capacity { self.new.capacity ≡ self.old.capacity }
    {
        let mut stored = Stored {
            bytes: 0,
            done: false,
            broken: false,
        };
        while stored.bytes < most {
            match self.store_bytes(list, memory, most - stored.bytes) {
                Portion::Empty => return stored,
                Portion::Jammed => {
                    stored.broken = true;
                    return stored;
                }
                Portion::Went(count, ends) => {
                    stored.bytes += count;
                    stored.done |= ends;
                }
            }
        }
        stored
    }
}

/// Moves the oldest bytes to memory from a place on, at most so many, and says how many.
fn put(fifo: &mut HeapCircularBuffer<u8>, memory: &mut [u8], place: usize, most: usize) -> usize
    requires { place + most ≤ length memory.old }
    ensures count { result ≡ min most (length fifo.old.items) }
    ensures memory { memory.new ≡ region.stored memory.old place (take result fifo.old.items) }
    ensures items { fifo.new ≡ buffer (drop result fifo.old.items) fifo.old.capacity }
{
    fifo.read_into(&mut memory[place..place + most])
}
