//! The sound of a file on a shelf, from which ring bytes are read.
ghost use Rattle.std.specs.Prelude.{◌≡◌, ◌≢◌, ◌≤◌, ℕ, ◌+◌, ◌*◌, ◌%◌, List, length, string_bytes};
ghost use Rattle.wav_reader.specs.Formats.{sample_length};
ghost use Rattle.stream_format.specs.Cadence.{block_bytes};
ghost use Rattle.stream_format.specs.Layouts.{layout};
ghost use Rattle.wav_reader.specs.Heads.{frame_length};
ghost use Rattle.wav_reader.specs.Opening.{head_in_file, total_of};
ghost use Rattle.wav_reader.specs.Readers.{AreGivenFor, ReadsOn, place_of, seen_under, slot_length};
ghost use Rattle.wav_reader.specs.Readers as spec;

use crate::formats::sample_len;
use crate::opened::WavHead;
use crate::ring_parts::{put_last, put_samples};
use crate::slots::slot_len;
use circular_buffer::HeapCircularBuffer;
use hda_outside::{Cut, Shelf, read_piece};
use std::alloc::Global;
use stream_format::Bits;

/// The most bytes of the file that one read asks for.
pub(crate) const PIECE_BYTES: usize = 4_096;

/// A WAV file by its name, and what it says before its sound.
#[derive(Drop)]
pub(crate) struct SoundFile {
    /// Its name on the shelf.
    pub name: String,
    /// What it says before its sound.
    pub head: WavHead,
    pub ghost short: { head.length ≤ 67108864 },
    pub ghost within: { head.from + head.frames * frame_length head.mono (layout head.format) ≤ head.length },
    pub ghost few: { total_of head ≤ 178956970 },
}

/// What is answered of a piece of the file.
fn answer_of(cut: Option<Cut>) -> Result<(), Cut>
    ensures { result ≡ spec.answer_of cut }
{
    match cut {
        None => Ok(()),
        Some(cut) => Err(cut),
    }
}

/// Whether the byte at a place of the ring bytes is the 0 before a sample of 24 bits.
fn is_pad(bits: Bits, at: u64) -> bool
    ensures { result ≡ spec.is_pad bits at }
{
    match bits {
        Bits::B24 => at % 4 == 0,
        Bits::B16 | Bits::B32 => false,
    }
}

/// The place in its sample of the byte that stands at a place of the ring bytes.
fn in_sample(bits: Bits, at: u64) -> u64
    ensures { result ≡ spec.in_sample bits at }
{
    match bits {
        Bits::B16 => at % 2,
        Bits::B24 => (at % 4).saturating_sub(1),
        Bits::B32 => at % 4,
    }
}

impl SoundFile {
    /// The bytes of a sample in the file.
    fn sample_len(&self) -> usize
        ensures value { result ≡ sample_length self.now.head.format.bits }
        ensures some { 2 ≤ result }
        ensures most { result ≤ 4 }
    {
        sample_len(self.head.format.bits)
    }

    /// The bytes that the ring gets for a sample.
    fn slot_len(&self) -> usize
        ensures value { result ≡ slot_length self.now.head.mono self.now.head.format.bits }
        ensures some { 2 ≤ result }
    {
        slot_len(self.head.mono, self.head.format.bits)
    }

    /// The bytes of a block of the ring.
    pub(crate) fn block_len(&self) -> usize
        ensures value { result ≡ block_bytes self.now.head.format }
        ensures some { 1 ≤ result }
    {
        self.head.format.block_bytes() as usize
    }

    /// The bytes of all blocks that the ring gets.
    pub(crate) fn total(&self) -> u64
        ensures { result ≡ total_of self.now.head }
    {
        self.head.frames * u64::from(self.head.format.block_bytes())
    }

    /// The place in the file of the byte that stands at a place of its ring bytes.
    fn place_of(&self, at: u64) -> u64
        requires { at ≤ total_of self.now.head }
        ensures { result ≡ place_of (head_in_file self.now.head) at }
    {
        let samples = at / self.slot_len() as u64;
        let first = self.head.from + samples * self.sample_len() as u64;
        first + in_sample(self.head.format.bits, at)
    }

    /// Reads the next ring byte, and puts it last.
    fn read_byte<S: Shelf>(
        &self,
        alloc: Global,
        shelf: &mut S,
        taken: u64,
        held: &mut HeapCircularBuffer<u8>,
    ) -> Result<(), Cut>
        requires room { length held.old.items + 1 ≤ held.old.capacity }
        requires there { taken + length held.old.items + 1 ≤ total_of self.now.head }
        ensures reads { ReadsOn 1 (string_bytes self.now.name) (head_in_file self.now.head) taken
            (seen_under (S.told shelf.old) (S.faults shelf.old) (S.empties shelf.old) (S.given shelf.old)
            (string_bytes self.now.name))
            (seen_under (S.told shelf.new) (S.faults shelf.new) (S.empties shelf.new) (S.given shelf.new)
            (string_bytes self.now.name))
            held.old held.new result }
        ensures asked { (other : List ℕ) → other ≢ string_bytes self.now.name
            → S.asked shelf.new other ≡ S.asked shelf.old other }
        ensures later { (other : List ℕ) → S.faults shelf.old other ≤ S.faults shelf.new other }
        ensures empties_later { (other : List ℕ) → S.empties shelf.old other ≤ S.empties shelf.new other }
    {
        let at = taken + held.len() as u64;
        if is_pad(self.head.format.bits, at) {
            put_last(held, &[0]);
            return Ok(());
        }
        let mut byte = [0; 1];
        let read = read_piece(alloc, shelf, &self.name, self.place_of(at), &mut byte);
        put_last(held, &byte[..read.count]);
        answer_of(read.cut)
    }

    /// Reads the next ring bytes one by one, so many, and puts them last.
    fn read_bytes<S: Shelf>(
        &self,
        alloc: Global,
        shelf: &mut S,
        taken: u64,
        count: usize,
        held: &mut HeapCircularBuffer<u8>,
    ) -> Result<(), Cut>
        requires room { length held.old.items + count ≤ held.old.capacity }
        requires there { taken + length held.old.items + count ≤ total_of self.now.head }
        ensures reads { ReadsOn count (string_bytes self.now.name) (head_in_file self.now.head) taken
            (seen_under (S.told shelf.old) (S.faults shelf.old) (S.empties shelf.old) (S.given shelf.old)
            (string_bytes self.now.name))
            (seen_under (S.told shelf.new) (S.faults shelf.new) (S.empties shelf.new) (S.given shelf.new)
            (string_bytes self.now.name))
            held.old held.new result }
        ensures asked { (other : List ℕ) → other ≢ string_bytes self.now.name
            → S.asked shelf.new other ≡ S.asked shelf.old other }
        ensures later { (other : List ℕ) → S.faults shelf.old other ≤ S.faults shelf.new other }
        ensures empties_later { (other : List ℕ) → S.empties shelf.old other ≤ S.empties shelf.new other }
    {
        for _ in 0..count {
            self.read_byte(alloc, shelf, taken, held)?;
        }
        Ok(())
    }

    /// Reads the next samples, no more than a piece has, and puts what the ring gets for those that were read last.
    fn read_few_samples<S: Shelf>(
        &self,
        alloc: Global,
        shelf: &mut S,
        taken: u64,
        samples: usize,
        piece: &mut [u8],
        held: &mut HeapCircularBuffer<u8>,
    ) -> Result<(), Cut>
        requires piece { length piece.old ≡ 4096 }
        requires few { samples * sample_length self.now.head.format.bits ≤ 4096 }
        requires slots { (taken + length held.old.items)
            % slot_length self.now.head.mono self.now.head.format.bits ≡ 0 }
        requires room { length held.old.items + samples * slot_length self.now.head.mono self.now.head.format.bits
            ≤ held.old.capacity }
        requires there { taken + length held.old.items + samples * slot_length self.now.head.mono
            self.now.head.format.bits
            ≤ total_of self.now.head }
        ensures given { AreGivenFor self.now.head.mono self.now.head.format.bits held.old held.new
            (S.given shelf.old) (S.given shelf.new) result }
        ensures reads { ReadsOn (samples * slot_length self.now.head.mono self.now.head.format.bits)
            (string_bytes self.now.name) (head_in_file self.now.head) taken
            (seen_under (S.told shelf.old) (S.faults shelf.old) (S.empties shelf.old) (S.given shelf.old)
            (string_bytes self.now.name))
            (seen_under (S.told shelf.new) (S.faults shelf.new) (S.empties shelf.new) (S.given shelf.new)
            (string_bytes self.now.name))
            held.old held.new result }
        ensures asked { (other : List ℕ) → other ≢ string_bytes self.now.name
            → S.asked shelf.new other ≡ S.asked shelf.old other }
        ensures later { (other : List ℕ) → S.faults shelf.old other ≤ S.faults shelf.new other }
        ensures empties_later { (other : List ℕ) → S.empties shelf.old other ≤ S.empties shelf.new other }
    {
        let size = self.sample_len();
        let part = &mut piece[..samples * size];
        let at = self.place_of(taken + held.len() as u64);
        let read = read_piece(alloc, shelf, &self.name, at, part);
        let whole = read.count / size * size;
        put_samples(held, &part[..whole], self.head.mono, self.head.format.bits);
        answer_of(read.cut)
    }

    /// Reads the next samples, so many, and puts what the ring gets for them last.
    fn read_samples<S: Shelf>(
        &self,
        alloc: Global,
        shelf: &mut S,
        taken: u64,
        samples: usize,
        piece: &mut [u8],
        held: &mut HeapCircularBuffer<u8>,
    ) -> Result<(), Cut>
        requires piece { length piece.old ≡ 4096 }
        requires slots { 1 ≤ samples → (taken + length held.old.items)
            % slot_length self.now.head.mono self.now.head.format.bits ≡ 0 }
        requires room { length held.old.items + samples * slot_length self.now.head.mono self.now.head.format.bits
            ≤ held.old.capacity }
        requires there { taken + length held.old.items + samples * slot_length self.now.head.mono
            self.now.head.format.bits
            ≤ total_of self.now.head }
        ensures given { AreGivenFor self.now.head.mono self.now.head.format.bits held.old held.new
            (S.given shelf.old) (S.given shelf.new) result }
        ensures reads { ReadsOn (samples * slot_length self.now.head.mono self.now.head.format.bits)
            (string_bytes self.now.name) (head_in_file self.now.head) taken
            (seen_under (S.told shelf.old) (S.faults shelf.old) (S.empties shelf.old) (S.given shelf.old)
            (string_bytes self.now.name))
            (seen_under (S.told shelf.new) (S.faults shelf.new) (S.empties shelf.new) (S.given shelf.new)
            (string_bytes self.now.name))
            held.old held.new result }
        ensures asked { (other : List ℕ) → other ≢ string_bytes self.now.name
            → S.asked shelf.new other ≡ S.asked shelf.old other }
        ensures later { (other : List ℕ) → S.faults shelf.old other ≤ S.faults shelf.new other }
        ensures empties_later { (other : List ℕ) → S.empties shelf.old other ≤ S.empties shelf.new other }
    {
        let most = PIECE_BYTES / self.sample_len();
        let mut done = 0;
        while done < samples {
            let count = (samples - done).min(most);
            self.read_few_samples(alloc, shelf, taken, count, piece, held)?;
            done += count;
        }
        Ok(())
    }

    /// Reads the next ring bytes, so many, and puts them last behind those that are held, of which the first is that
    /// after `taken`.
    pub(crate) fn read_next<S: Shelf>(
        &self,
        alloc: Global,
        shelf: &mut S,
        taken: u64,
        count: usize,
        piece: &mut [u8],
        held: &mut HeapCircularBuffer<u8>,
    ) -> Result<(), Cut>
        requires piece { length piece.old ≡ 4096 }
        requires room { length held.old.items + count ≤ held.old.capacity }
        requires there { taken + length held.old.items + count ≤ total_of self.now.head }
        ensures given { (taken + length held.old.items) % slot_length self.now.head.mono self.now.head.format.bits ≡ 0
            → count % slot_length self.now.head.mono self.now.head.format.bits ≡ 0
            → AreGivenFor self.now.head.mono self.now.head.format.bits held.old held.new
            (S.given shelf.old) (S.given shelf.new) result }
        ensures reads { ReadsOn count (string_bytes self.now.name) (head_in_file self.now.head) taken
            (seen_under (S.told shelf.old) (S.faults shelf.old) (S.empties shelf.old) (S.given shelf.old)
            (string_bytes self.now.name))
            (seen_under (S.told shelf.new) (S.faults shelf.new) (S.empties shelf.new) (S.given shelf.new)
            (string_bytes self.now.name))
            held.old held.new result }
        ensures asked { (other : List ℕ) → other ≢ string_bytes self.now.name
            → S.asked shelf.new other ≡ S.asked shelf.old other }
        ensures later { (other : List ℕ) → S.faults shelf.old other ≤ S.faults shelf.new other }
        ensures empties_later { (other : List ℕ) → S.empties shelf.old other ≤ S.empties shelf.new other }
    {
        let slot = self.slot_len();
        let begun = (taken + held.len() as u64) % slot as u64;
        let first = count.min((slot - begun as usize) % slot);
        let rest = count - first;
        self.read_bytes(alloc, shelf, taken, first, held)?;
        self.read_samples(alloc, shelf, taken, rest / slot, piece, held)?;
        self.read_bytes(alloc, shelf, taken, rest % slot, held)
    }
}
