//! A FIFO with its place in a list of buffers: that of an output stream is filled from the list.
ghost use Rattle.std.specs.Prelude.{◌≡◌, ◌≤◌, ◌<◌, ◌+◌, ◌-◌, [], ◌∷◌, ◌++◌, true, false, IsTrue, IfOk, length, min};
ghost use Rattle.std.specs.Prelude.{nat_le, drop, take};
ghost use Rattle.world_streams.specs.Streams.{StreamState, begun, held, held_bytes};
ghost use Rattle.world_streams.specs.Output as output;
ghost use Rattle.world_streams.specs.Lists.{is_good};
ghost use Rattle.stream_fetch.specs.Fetching.{StandsFor};
ghost use Rattle.stream_fetch.specs.Bytes.{AreAtMost, AreBytes, count_of};
ghost use Rattle.circular_buffer.specs.Buffer.{buffer};

mod storing;

use crate::entries::{after_bytes, buffer_at, is_good};
use circular_buffer::HeapCircularBuffer;
use std::alloc::{AllocError, Global};
use std::marker::Model;
pub use storing::Stored;
use world_streams::{Buffer, ListPlace};

/// Before the first byte of a list.
const LIST_START: ListPlace = ListPlace {
    index: 0,
    buffer: None,
    fetched: 0,
};

/// Where a list of buffers stands (HDA 1.0a, 3.6.2).
#[derive(Clone, Copy, Debug, PartialEq, Eq)]
pub struct ListAt {
    /// The address of its first entry.
    pub address: u32,
    /// The index of its last entry: LVI.
    pub last: u8,
}

/// What a fetch came to.
#[derive(Clone, Copy, Debug, PartialEq, Eq)]
pub struct Fetched {
    /// How many bytes were fetched.
    pub bytes: u32,
    /// The last byte of a buffer with IOC was among them.
    pub done: bool,
    /// It came to an entry of the list that can't be used.
    pub broken: bool,
}

/// What the fetch of some bytes of one buffer came to.
#[derive(Clone, Copy, Debug, PartialEq, Eq)]
pub(crate) enum Bytes {
    /// The FIFO is full.
    Full,
    /// The entry of the list can't be used.
    Broken,
    /// So many bytes came; whether the last of a buffer with IOC was among them.
    Came(u32, bool),
}

/// The FIFO of a stream, with its place in the list of buffers. Contracts see how much it can hold, its bytes and the
/// place.
#[derive(Drop)]
pub struct Fetch {
    fifo: HeapCircularBuffer<u8>,
    list: ListPlace,
}

impl Model for Fetch {
    ghost use Rattle.stream_fetch.specs.Fetching.{Fetching};
    ghost use Rattle.stream_fetch.specs.InUse.{IsKept};

    ghost Value = { Fetching };

    ghost view = { λ fetch. record { capacity = fetch.fifo.capacity; bytes = fetch.fifo.items; list = fetch.list } };

    ghost invariant = { λ fetch. IsKept fetch.fifo fetch.list };
}

impl Fetch {
    /// An empty FIFO of so many bytes, before the first entry of a list.
    ///
    /// # Errors
    /// Want of memory.
    pub fn new(alloc: Global, fifo: u16) -> Result<Fetch, AllocError>
        ensures stands { IfOk result (λ fetch. StandsFor fetch begun) }
        ensures capacity { IfOk result (λ fetch. fetch.capacity ≡ fifo) }
    {
        Ok(Fetch {
            fifo: HeapCircularBuffer::with_capacity(alloc, usize::from(fifo))?,
            list: LIST_START,
        })
    }

    /// Empties the FIFO and begins before the first entry of the list again.
    pub fn start(&mut self)
        ensures stands { StandsFor self.new begun }
        ensures capacity { self.new.capacity ≡ self.old.capacity }
    {
        self.fifo.clear();
        self.list = LIST_START;
    }

    /// How many bytes the FIFO holds.
    pub fn held(&self) -> u32
        ensures bytes { result ≡ length self.now.bytes }
        ensures held { (state : StreamState) → StandsFor self.now state → result ≡ held state }
    {
        self.fifo.len() as u32
    }

    /// The buffer that the next byte comes from, or goes to.
    fn next_buffer(&self, memory: &[u8], base: u32) -> Buffer
        ensures next { (state : StreamState) → StandsFor self.now state
            → result ≡ output.next_of memory.now base state }
        ensures more { is_good memory.now result ≡ true → self.now.list.fetched < result.bytes }
    {
        match self.list.buffer {
            Some(buffer) => buffer,
            None => buffer_at(memory, base, self.list.index),
        }
    }

    /// Fetches the next bytes of one buffer, at most so many, as far as there is room and the buffer can be used.
    fn fetch_bytes(&mut self, list: ListAt, memory: &[u8], most: u32) -> Bytes
        requires { 1 ≤ most }
        ensures stands { (state : StreamState) → StandsFor self.old state
            → StandsFor self.new (output.bytes_came (count_of result) self.old.capacity memory.now list.address
            list.last state) }
        ensures found { (state : StreamState) → StandsFor self.old state
            → AreBytes self.old.capacity memory.now list.address list.last state result }
        ensures count { length self.new.bytes ≡ length self.old.bytes + count_of result }
        ensures within { AreAtMost most result }
        ensures capacity { self.new.capacity ≡ self.old.capacity }
    {
        if self.fifo.is_full() {
            return Bytes::Full;
        }
        let buffer = self.next_buffer(memory, list.address);
        if !is_good(memory, buffer) {
            return Bytes::Broken;
        }
        let place = buffer.address as usize + self.list.fetched as usize;
        let left = (buffer.bytes - self.list.fetched).min(most) as usize;
        let count = fill(&mut self.fifo, &memory[place..place + left]) as u32;
        let ends = self.list.fetched + count == buffer.bytes;
        self.list = after_bytes(list.last, buffer, self.list, count);
        Bytes::Came(count, ends && buffer.interrupts)
    }

    /// Fetches at most so many bytes of the list's buffers, in the list's order and round again, as far as there is
    /// room.
    pub fn fetch(&mut self, list: ListAt, memory: &[u8], most: u32) -> Fetched
        ensures stands { (state : StreamState) → StandsFor self.old state
            → StandsFor self.new (output.bytes_came most self.old.capacity memory.now list.address list.last state) }
        ensures bytes { length self.old.bytes + result.bytes ≡ length self.new.bytes }
        ensures done { (state : StreamState) → StandsFor self.old state
            → result.done ≡ output.some_completes most self.old.capacity memory.now list.address list.last state }
        ensures broken { (state : StreamState) → StandsFor self.old state
            → result.broken ≡ output.some_breaks most self.old.capacity memory.now list.address list.last state }
        ensures capacity { self.new.capacity ≡ self.old.capacity }
    {
        let mut fetched = Fetched {
            bytes: 0,
            done: false,
            broken: false,
        };
        while fetched.bytes < most {
            match self.fetch_bytes(list, memory, most - fetched.bytes) {
                Bytes::Full => return fetched,
                Bytes::Broken => {
                    fetched.broken = true;
                    return fetched;
                }
                Bytes::Came(count, ends) => {
                    fetched.bytes += count;
                    fetched.done |= ends;
                }
            }
        }
        fetched
    }

    /// Moves the oldest bytes out of the FIFO. False exactly where it holds fewer than asked for, and then nothing
    /// changes.
    pub fn send(&mut self, into: &mut [u8]) -> bool
        ensures enough { result ≡ nat_le (length into.old) (length self.old.bytes) }
        ensures sent { IsTrue result → into.new ≡ take (length into.old) self.old.bytes }
        ensures stands { IsTrue result → (state : StreamState) → StandsFor self.old state
            → StandsFor self.new (record state { left = state.left + length into.old }) }
        ensures unsent { result ≡ false → into.new ≡ into.old }
        ensures kept { result ≡ false → self.new ≡ self.old }
        ensures capacity { self.new.capacity ≡ self.old.capacity }
    {
        if self.fifo.len() < into.len() {
            return false;
        }
        self.fifo.read_into(into);
        true
    }
}

/// Puts the first of the bytes last, as many as there is room for, and says how many.
fn fill(fifo: &mut HeapCircularBuffer<u8>, bytes: &[u8]) -> usize
    ensures count { result ≡ min (length bytes.now) (fifo.old.capacity - length fifo.old.items) }
    ensures items { fifo.new ≡ buffer (fifo.old.items ++ take result bytes.now) fifo.old.capacity }
{
    fifo.fill_from_slice(bytes)
}
