//! The supply of sound.
ghost use Rattle.std.specs.Prelude.{◌≡◌, ◌≢◌, ◌≤◌, ◌<◌, ℕ, ◌+◌, ◌*◌, ◌%◌, List, [], take, length, drop, None, Some};
ghost use Rattle.std.specs.Prelude.{IfOk};
ghost use Rattle.stream_format.specs.Cadence.{block_bytes};
ghost use Rattle.stream_format.specs.Layouts.{layout};
ghost use Rattle.wav_reader.specs.Heads.{frame_length};
ghost use Rattle.wav_reader.specs.Opening.{head_in_file};
ghost use Rattle.wav_reader.specs.Shelves.{seen_as};
ghost use Rattle.wav_reader.specs.Supplies.{Supplied, without};
ghost use Rattle.wav_reader.specs.Fills.{FillsBy, IsBeside};

use crate::opened::WavHead;
use crate::streams::Stream;
use crate::wav::Wav;
use hda_outside::{Cut, Shelf};
use std::alloc::{AllocError, Global};
use std::marker::Model;

/// Where ring bytes come from.
#[derive(Drop)]
enum Origin {
    /// All of them were given at once, and so many of them were taken.
    Whole { pcm: Vec<u8>, taken: usize },
    /// They are read from a file while they are taken.
    Streamed(Stream),
}

/// Ring bytes that are given out in order. Contracts see those that are held, how many are still to come and were
/// taken, and where more are read.
#[derive(Drop)]
pub struct Supply {
    origin: Origin,
}

impl Model for Supply {
    ghost use Rattle.wav_reader.specs.Supplies.{Supplied};

    ghost Value = { Supplied };

    ghost use Rattle.wav_reader.specs.Streams.{supplied_by, IsOrigin};

    ghost view = { λ supply. supplied_by supply.origin };

    ghost invariant = { λ supply. IsOrigin supply.origin };
}

impl Supply {
    /// All ring bytes of a file that was read whole.
    pub fn whole(wav: Wav) -> Supply
        ensures { result ≡ record { held = wav.pcm; left = length wav.pcm; taken = 0; source = None } }
    {
        let Wav {
            format: _,
            mono: _,
            frames: _,
            pcm,
        } = wav;
        Supply {
            origin: Origin::Whole {
                pcm: pcm.into_vec(),
                taken: 0,
            },
        }
    }

    /// The sound of the WAV file `name`, which is read while it is taken: at most `ring` bytes of it are held at a
    /// time, none at first. `head` is what the file says before its sound, as [`open_wav`](crate::open_wav) answers it.
    ///
    /// # Errors
    /// Want of memory.
    pub fn stream(alloc: Global, head: WavHead, name: &str, ring: u32) -> Result<Supply, AllocError>
        requires some { 1 ≤ ring }
        requires blocks { ring % block_bytes head.format ≡ 0 }
        requires short { head.length ≤ 67108864 }
        requires within { head.from + head.frames * frame_length head.mono (layout head.format) ≤ head.length }
        ensures { IfOk result (λ supply. supply ≡ record {
          held = [];
          left = head.frames * block_bytes head.format;
          taken = 0;
          source = Some (record { name = name.now; head = head_in_file head; ring = ring });
        }) }
    {
        let stream = Stream::new(alloc, head, name, ring as usize)?;
        Ok(Supply {
            origin: Origin::Streamed(stream),
        })
    }

    /// How many bytes are still to come.
    pub fn left(&self) -> u64
        ensures value { result ≡ self.now.left }
        ensures most { length self.now.held ≤ result }
    {
        match &self.origin {
            Origin::Whole { pcm, taken } => (pcm.len() - taken) as u64,
            Origin::Streamed(stream) => stream.left(),
        }
    }

    /// How many bytes can be taken at once.
    pub fn held(&self) -> u64
        ensures { result ≡ length self.now.held }
    {
        match &self.origin {
            Origin::Whole { pcm, taken } => (pcm.len() - taken) as u64,
            Origin::Streamed(stream) => stream.held() as u64,
        }
    }

    /// How many bytes were taken and are held: all that were given to it or that it read.
    pub fn read(&self) -> u64
        ensures { result ≡ self.now.taken + length self.now.held }
    {
        match &self.origin {
            Origin::Whole { pcm, taken: _ } => pcm.len() as u64,
            Origin::Streamed(stream) => stream.read(),
        }
    }

    /// Reads more of the file, in pieces of at most 4,096 bytes, until as many bytes are held as may be or as are left.
    /// One that was given whole reads nothing. Memory is taken in the shelf's calls alone.
    ///
    /// # Errors
    /// `Failed` where the shelf failed, `Short` with the place in the file at which it answered that there was no byte
    /// more, and `OutOfMemory` where the shelf answered that. From then on nothing more is read: what is held is all
    /// that is left.
    pub fn fill<S: Shelf>(&mut self, alloc: Global, shelf: &mut S) -> Result<(), Cut>
        ensures fills { FillsBy self.old.source self.old self.new
            (λ name. seen_as (S.told shelf.old) (S.faults shelf.old name) (S.empties shelf.old name)
            (S.given shelf.old))
            (λ name. seen_as (S.told shelf.new) (S.faults shelf.new name) (S.empties shelf.new name)
            (S.given shelf.new)) result }
        ensures whole { self.old.source ≡ None → shelf.new ≡ shelf.old }
        ensures told { S.told shelf.new ≡ S.told shelf.old }
        ensures asked { (other : List ℕ) → IsBeside self.old.source other
            → S.asked shelf.new other ≡ S.asked shelf.old other }
        ensures later { (other : List ℕ) → S.faults shelf.old other ≤ S.faults shelf.new other }
        ensures empties_later { (other : List ℕ) → S.empties shelf.old other ≤ S.empties shelf.new other }
    {
        match &mut self.origin {
            Origin::Whole { pcm: _, taken: _ } => Ok(()),
            Origin::Streamed(stream) => stream.fill(alloc, shelf),
        }
    }

    /// Takes the next bytes, as many as `into` has.
    pub fn take(&mut self, into: &mut [u8])
        requires { length into.old ≤ length self.old.held }
        ensures bytes { into.new ≡ take (length into.old) self.old.held }
        ensures rest { self.new ≡ without (length into.old) self.old }
    {
        match &mut self.origin {
            Origin::Whole { pcm, taken } => {
                let end = *taken + into.len();
                into.copy_from_slice(&pcm[*taken..end]);
                *taken = end;
            }
            Origin::Streamed(stream) => stream.take(into),
        }
    }
}
