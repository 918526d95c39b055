//! Ring bytes that are read from a file while they are taken.
ghost use Rattle.std.specs.Prelude.{◌≡◌, ◌≢◌, ◌≤◌, ◌<◌, ℕ, ◌+◌, ◌*◌, ◌%◌, List, [], take, length, string_bytes, Some};
ghost use Rattle.std.specs.Prelude.{IfOk};
ghost use Rattle.stream_format.specs.Cadence.{block_bytes};
ghost use Rattle.stream_format.specs.Layouts.{layout};
ghost use Rattle.wav_reader.specs.Fills.{Fills};
ghost use Rattle.wav_reader.specs.Heads.{frame_length};
ghost use Rattle.wav_reader.specs.Opening.{head_in_file};
ghost use Rattle.wav_reader.specs.Shelves.{seen_as};
ghost use Rattle.wav_reader.specs.Streams.{stream_seen, source_of, IsStream};
ghost use Rattle.wav_reader.specs.Supplies.{without};

use crate::opened::WavHead;
use crate::sound_files::{PIECE_BYTES, SoundFile};
use circular_buffer::HeapCircularBuffer;
use hda_outside::{Cut, Shelf};
use std::alloc::{AllocError, Global};

/// The sound of a file, of which a part is held.
#[derive(Drop)]
pub(crate) struct Stream {
    /// The file.
    pub file: SoundFile,
    /// The ring bytes that are held, as many as may be at a time.
    pub held: HeapCircularBuffer<u8>,
    /// What the file's bytes are read into.
    pub piece: Vec<u8>,
    /// How many ring bytes were taken.
    pub taken: u64,
    /// Whether a fill was cut: then nothing more is read.
    pub is_cut: bool,
}

impl Stream {
    /// The sound of the file `name`, of which at most `ring` bytes are held.
    pub(crate) fn new(
        alloc: Global,
        head: WavHead,
        name: &str,
        ring: usize,
    ) -> Result<Stream, AllocError>
        requires blocks { ring % block_bytes head.format ≡ 0 }
        requires short { head.length ≤ 67108864 }
        requires within { head.from + head.frames * frame_length head.mono (layout head.format) ≤ head.length }
        ensures seen { IfOk result (λ stream. stream_seen stream ≡ record {
          held = [];
          left = head.frames * block_bytes head.format;
          taken = 0;
          source = Some (record { name = name.now; head = head_in_file head; ring = ring });
        }) }
        ensures is_stream { IfOk result IsStream }
    {
        let file = SoundFile {
            name: String::from_str(alloc, name)?,
            head,
        };
        Ok(Stream {
            file,
            held: HeapCircularBuffer::with_capacity(alloc, ring)?,
            piece: vec![in alloc; 0; PIECE_BYTES]?,
            taken: 0,
            is_cut: false,
        })
    }

    /// How many bytes are held.
    pub(crate) fn held(&self) -> usize
        ensures { result ≡ length self.now.held.items }
    {
        self.held.len()
    }

    /// How many bytes are still to come.
    pub(crate) fn left(&self) -> u64
        requires { IsStream self.now }
        ensures value { result ≡ (stream_seen self.now).left }
        ensures most { length self.now.held.items ≤ result }
    {
        if self.is_cut {
            self.held.len() as u64
        } else {
            self.file.total() - self.taken
        }
    }

    /// How many bytes were read.
    pub(crate) fn read(&self) -> u64
        requires { IsStream self.now }
        ensures { result ≡ self.now.taken + length self.now.held.items }
    {
        self.taken + self.held.len() as u64
    }

    /// Takes the next bytes, as many as `into` has.
    pub(crate) fn take(&mut self, into: &mut [u8])
        requires is_stream { IsStream self.old }
        requires held { length into.old ≤ length self.old.held.items }
        ensures bytes { into.new ≡ take (length into.old) self.old.held.items }
        ensures rest { stream_seen self.new ≡ without (length into.old) (stream_seen self.old) }
        ensures is_stream { IsStream self.new }
    {
        let n = self.held.read_into(into);
        self.taken += n as u64;
    }

    /// Reads on until as many bytes are held as may be or as are left.
    pub(crate) fn fill<S: Shelf>(&mut self, alloc: Global, shelf: &mut S) -> Result<(), Cut>
        requires is_stream { IsStream self.old }
        ensures fills { Fills (source_of self.old) (stream_seen self.old) (stream_seen self.new)
            (seen_as (S.told shelf.old) (S.faults shelf.old (source_of self.old).name)
            (S.empties shelf.old (source_of self.old).name) (S.given shelf.old))
            (seen_as (S.told shelf.new) (S.faults shelf.new (source_of self.old).name)
            (S.empties shelf.new (source_of self.old).name) (S.given shelf.new)) result }
        ensures is_stream { IsStream self.new }
        ensures told { S.told shelf.new ≡ S.told shelf.old }
        ensures asked { (other : List ℕ) → other ≢ (source_of self.old).name
            → S.asked shelf.new other ≡ S.asked shelf.old other }
        ensures later { (other : List ℕ) → S.faults shelf.old other ≤ S.faults shelf.new other }
        ensures empties_later { (other : List ℕ) → S.empties shelf.old other ≤ S.empties shelf.new other }
    {
        let most = self.left().min(self.held.capacity() as u64) as usize;
        let count = most - self.held.len();
        if count == 0 {
            return Ok(());
        }
        let read = self.file.read_next(
            alloc,
            shelf,
            self.taken,
            count,
            &mut self.piece,
            &mut self.held,
        );
        if read.is_err() {
            let block = self.file.block_len();
            self.held.truncate_back(self.held.len() / block * block);
            self.is_cut = true;
        }
        read
    }
}
