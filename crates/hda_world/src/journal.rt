//! The journal of a run: what driver and device did, in order.
ghost use Rattle.std.specs.Prelude.{◌≡◌, ◌≤◌, ◌<◌, ◌+◌, ◌^◌, [], ◌∷◌, ◌++◌, OnOk, length, nat_le, vec_len};
ghost use Rattle.std.specs.Prelude.{vec_capacity};
ghost use Rattle.hda_world.specs.Events.{Stepped, Begin, End, Read, Write, DmaRead, DmaWrite};
ghost use Rattle.hda_world.specs.JournalEvents.{events_of};
ghost use Rattle.hda_world.specs.Journals.{Used, event_of, pieces_named};

use crate::entry::{Entry, MemoryPiece};
use crate::step::Step;
use hda_items::{extend_within_capacity, push_within_capacity};
use hda_registers::Width;
use std::alloc::{AllocError, Global};
use std::marker::Model;

/// For how many entries room is made at the least.
const LEAST_ROOM: usize = 64;

/// How many pieces have a number.
const MOST_PIECES: usize = 0x1_0000_0000;

/// What happened, in order, and the pieces of memory that were read and written, with their bytes. Contracts see a
/// `JournalState`. This project's own.
#[derive(Drop)]
pub struct Journal {
    /// Oldest first.
    entries: Vec<Entry>,
    pieces: Vec<MemoryPiece>,
    /// The bytes of all pieces, one after another.
    bytes: Vec<u8>,
    /// For how many more entries and bytes there is room.
    spare_entries: usize,
    spare_bytes: usize,
}

impl Model for Journal {
    ghost use Rattle.std.specs.Prelude.{◌≤◌, ◌+◌, ◌^◌, vec_len, vec_capacity};
    ghost use Rattle.hda_world.specs.Journals.{JournalState, AreNoted};

    ghost Value = { JournalState };

    ghost view = { λ j. record {
      entries = j.entries.items;
      pieces = j.pieces.items;
      bytes = j.bytes.items;
      spare_entries = j.spare_entries;
      spare_bytes = j.spare_bytes;
    } };

    ghost invariant = { λ j. AreNoted j.entries.items j.pieces.items j.bytes.items
        × (vec_len j.entries + j.spare_entries ≤ vec_capacity j.entries)
        × (vec_len j.pieces + j.spare_entries ≤ vec_capacity j.pieces)
        × (vec_len j.pieces + j.spare_entries ≤ 2 ^ 32)
        × (vec_len j.bytes + j.spare_bytes ≤ vec_capacity j.bytes) };
}

impl Journal {
    /// An empty journal, without room.
    pub fn new(alloc: Global) -> Journal
        ensures { events_of result ≡ [] }
    {
        Journal {
            entries: Vec::new(alloc),
            pieces: Vec::new(alloc),
            bytes: Vec::new(alloc),
            spare_entries: 0,
            spare_bytes: 0,
        }
    }

    /// Makes room for so many more entries, each with a piece of memory, and bytes of pieces.
    ///
    /// # Errors
    /// Want of memory, or of numbers for the pieces, of which there are 2^32.
    pub fn reserve(&mut self, entries: usize, bytes: usize) -> Result<(), AllocError>
        ensures entries { OnOk result (entries ≤ self.new.spare_entries) }
        ensures bytes { OnOk result (bytes ≤ self.new.spare_bytes) }
        ensures events { events_of self.new ≡ events_of self.old }
    {
        if entries <= self.spare_entries && bytes <= self.spare_bytes {
            return Ok(());
        }
        self.make_room(entries.max(LEAST_ROOM), bytes.max(self.spare_bytes))
    }

    /// Makes room, whatever room there is.
    fn make_room(&mut self, entries: usize, bytes: usize) -> Result<(), AllocError>
        ensures entries { OnOk result (entries ≤ self.new.spare_entries) }
        ensures bytes { OnOk result (bytes ≤ self.new.spare_bytes) }
        ensures events { events_of self.new ≡ events_of self.old }
    {
        if !has_numbers(self.pieces.len(), entries) {
            return Err(AllocError);
        }
        self.entries.reserve(entries)?;
        self.pieces.reserve(entries)?;
        self.bytes.reserve(bytes)?;
        self.spare_entries = entries;
        self.spare_bytes = bytes;
        Ok(())
    }

    /// Notes that the device made a step.
    pub fn note_step(&mut self, step: Step)
        requires { 0 < self.old.spare_entries }
        ensures events { events_of self.new ≡ events_of self.old ++ Stepped step ∷ [] }
        ensures used { Used 1 0 self.old self.new }
    {
        self.note(Entry::Step(step));
    }

    /// Notes that a run of the driver begins.
    pub fn note_begin(&mut self)
        requires { 0 < self.old.spare_entries }
        ensures events { events_of self.new ≡ events_of self.old ++ Begin ∷ [] }
        ensures used { Used 1 0 self.old self.new }
    {
        self.note(Entry::Begin);
    }

    /// Notes that it ends.
    pub fn note_end(&mut self)
        requires { 0 < self.old.spare_entries }
        ensures events { events_of self.new ≡ events_of self.old ++ End ∷ [] }
        ensures used { Used 1 0 self.old self.new }
    {
        self.note(Entry::End);
    }

    /// Notes that the driver read a register.
    pub fn note_read(&mut self, at: u16, width: Width, value: u32)
        requires { 0 < self.old.spare_entries }
        ensures events { events_of self.new ≡ events_of self.old ++ Read at width value ∷ [] }
        ensures used { Used 1 0 self.old self.new }
    {
        self.note(Entry::Read { at, width, value });
    }

    /// Notes that the driver wrote a register.
    pub fn note_write(&mut self, at: u16, width: Width, value: u32)
        requires { 0 < self.old.spare_entries }
        ensures events { events_of self.new ≡ events_of self.old ++ Write at width value ∷ [] }
        ensures used { Used 1 0 self.old self.new }
    {
        self.note(Entry::Write { at, width, value });
    }

    /// Notes that the driver read a piece of memory, from this address on.
    pub fn note_dma_read(&mut self, at: u32, piece: &[u8])
        requires entries { 0 < self.old.spare_entries }
        requires bytes { length piece.now ≤ self.old.spare_bytes }
        requires size { length piece.now < 2 ^ 32 }
        ensures events { events_of self.new ≡ events_of self.old ++ DmaRead at piece.now ∷ [] }
        ensures used { Used 1 (length piece.now) self.old self.new }
    {
        let number = self.next_number();
        self.note_piece(at, piece, Entry::DmaRead(number));
    }

    /// Notes that the driver wrote a piece of memory, from this address on.
    pub fn note_dma_write(&mut self, at: u32, piece: &[u8])
        requires entries { 0 < self.old.spare_entries }
        requires bytes { length piece.now ≤ self.old.spare_bytes }
        requires size { length piece.now < 2 ^ 32 }
        ensures events { events_of self.new ≡ events_of self.old ++ DmaWrite at piece.now ∷ [] }
        ensures used { Used 1 (length piece.now) self.old self.new }
    {
        let number = self.next_number();
        self.note_piece(at, piece, Entry::DmaWrite(number));
    }

    /// Notes an entry without a piece of memory.
    fn note(&mut self, entry: Entry)
        requires room { 0 < self.old.spare_entries }
        requires none { pieces_named entry ≡ 0 }
        ensures events { events_of self.new
            ≡ events_of self.old ++ event_of self.old.pieces self.old.bytes entry ∷ [] }
        ensures used { Used 1 0 self.old self.new }
    {
        push_within_capacity(&mut self.entries, entry);
        self.spare_entries -= 1;
    }

    /// The number of the next piece of memory.
    fn next_number(&self) -> u32
        requires { 0 < self.now.spare_entries }
        ensures { result ≡ length self.now.pieces }
    {
        self.pieces.len() as u32
    }

    /// Notes a piece of memory and an entry that names it.
    fn note_piece(&mut self, at: u32, piece: &[u8], entry: Entry)
        requires entries { 0 < self.old.spare_entries }
        requires bytes { length piece.now ≤ self.old.spare_bytes }
        requires size { length piece.now < 2 ^ 32 }
        requires named { pieces_named entry ≡ length self.old.pieces + 1 }
        ensures events { events_of self.new ≡ events_of self.old ++ event_of (self.old.pieces ++ record {
          at = at;
          len = length piece.now;
          from = length self.old.bytes;
        } ∷ []) (self.old.bytes ++ piece.now) entry ∷ [] }
        ensures used { Used 1 (length piece.now) self.old self.new }
    {
        let from = self.bytes.len() as u64;
        let len = piece.len();
        extend_within_capacity(&mut self.bytes, piece);
        push_within_capacity(
            &mut self.pieces,
            MemoryPiece {
                at,
                len: len as u32,
                from,
            },
        );
        push_within_capacity(&mut self.entries, entry);
        self.spare_entries -= 1;
        self.spare_bytes -= len;
    }

    /// How many entries there are.
    pub fn len(&self) -> usize
        ensures { result ≡ length (events_of self.now) }
    {
        self.entries.len()
    }

    /// What happened, oldest first.
    pub fn entries(&self) -> &[Entry]
        ensures { result.now ≡ self.now.entries }
    {
        self.entries.as_slice()
    }

    /// The pieces of memory that were read and written, oldest first.
    pub fn pieces(&self) -> &[MemoryPiece]
        ensures { result.now ≡ self.now.pieces }
    {
        self.pieces.as_slice()
    }

    /// The bytes of all pieces, one after another.
    pub fn bytes(&self) -> &[u8]
        ensures { result.now ≡ self.now.bytes }
    {
        self.bytes.as_slice()
    }
}

/// Whether there are numbers for so many more pieces.
fn has_numbers(pieces: usize, more: usize) -> bool
    ensures { result ≡ nat_le (pieces + more) (2 ^ 32) }
{
    pieces <= MOST_PIECES && more <= MOST_PIECES - pieces
}
