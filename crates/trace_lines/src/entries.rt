//! The entries of a journal, one after another.
ghost use Rattle.std.specs.Prelude.{◌≡◌, ◌++◌, OnOk};
ghost use Rattle.hda_world.specs.Journals.{bytes_of, piece_at};
ghost use Rattle.trace_lines.specs.Lines as text;

use crate::memory::{buffer_in, push_piece};
use crate::phases::{phase_after, phase_word};
use crate::purposes::{Bases, Listed, Purpose, purpose_of};
use crate::registers::push_access;
use crate::situations::{Call, Situation};
use crate::steps::push_step;
use hda_registers::Width;
use hda_world::{Entry, Journal, MemoryPiece};
use sound_report::{PlayFault, push_word};
use std::alloc::AllocError;

/// What is known between two entries of a journal.
#[derive(Drop)]
pub(crate) struct Reader {
    /// Where rings and list lie, by the whole journal.
    pub bases: Bases,
    /// Why the run ended before it was done.
    pub end: Option<PlayFault>,
    /// The entries of the list of buffers that were written so far.
    pub buffers: Vec<Listed>,
    /// Where the driver stands.
    pub situation: Situation,
}

/// A piece of memory that a journal notes.
#[derive(Clone, Copy)]
pub(crate) struct Noted<'a> {
    /// The address of its first byte.
    pub at: u32,
    /// Its bytes.
    pub bytes: &'a [u8],
}

/// The bytes of a piece, of the bytes of all pieces.
fn bytes_of(bytes: &[u8], piece: MemoryPiece) -> &[u8]
    ensures { result.now ≡ bytes_of bytes.now piece }
{
    let most = bytes.len() as u64;
    let from = piece.from.min(most);
    let end = piece.from.saturating_add(u64::from(piece.len)).min(most);
    &bytes[from as usize..end as usize]
}

/// The piece with this number, which is empty where there is none.
pub(crate) fn piece_noted(journal: &Journal, number: u32) -> Noted<'_>
    ensures at { result.at ≡ (piece_at journal.now.pieces number).at }
    ensures bytes { result.bytes.now ≡ bytes_of journal.now.bytes (piece_at journal.now.pieces number) }
{
    let piece = match journal.pieces().get(number as usize) {
        Some(piece) => *piece,
        None => MemoryPiece {
            at: 0,
            len: 0,
            from: 0,
        },
    };
    Noted {
        at: piece.at,
        bytes: bytes_of(journal.bytes(), piece),
    }
}

/// A line with an access to a register behind its letter.
fn push_register_line(
    out: &mut Vec<u8>,
    letter: &str,
    at: u16,
    width: Width,
    value: u32,
) -> Result<(), AllocError>
    ensures { OnOk result (out.new.items ≡ out.old.items ++ text.access_line letter.now at width value) }
{
    push_word(out, letter)?;
    push_access(out, at, width, value)?;
    push_word(out, "\n")
}

impl Reader {
    ghost use Rattle.std.specs.Prelude.{◌≡◌, ◌++◌, OnOk, length};
    ghost use Rattle.hda_world.specs.Journals.{event_of};
    ghost use Rattle.trace_lines.specs.Purposes as purposes;
    ghost use Rattle.trace_lines.specs.Lines as text;
    ghost use Rattle.trace_lines.specs.Situations as spec;

    /// What a piece is.
    fn purpose_of(&self, piece: Noted<'_>) -> Purpose
        ensures { result ≡ purposes.purpose_of self.now.bases self.now.buffers.items piece.entry.at
            (length piece.entry.bytes.now) }
    {
        purpose_of(
            self.bases,
            self.buffers.as_slice(),
            piece.at,
            piece.bytes.len() as u64,
        )
    }

    /// A line with a piece of memory behind its letters.
    fn push_memory_line(
        &self,
        out: &mut Vec<u8>,
        letters: &str,
        piece: Noted<'_>,
    ) -> Result<(), AllocError>
        ensures { OnOk result (out.new.items ≡ out.old.items ++ text.memory_line letters.now self.now.bases
            self.now.buffers.items self.now.situation piece.entry.at piece.entry.bytes.now) }
    {
        push_word(out, letters)?;
        push_piece(
            out,
            &self.situation,
            self.purpose_of(piece),
            piece.at,
            piece.bytes,
        )?;
        push_word(out, "\n")
    }

    /// Appends the line of an entry.
    ///
    /// # Errors
    /// Want of memory.
    pub(crate) fn push_line(
        &self,
        out: &mut Vec<u8>,
        journal: &Journal,
        entry: &Entry,
    ) -> Result<(), AllocError>
        ensures { OnOk result (out.new.items ≡ out.old.items ++ text.line_of self.now.bases self.now.end
            self.now.buffers.items self.now.situation (event_of journal.now.pieces journal.now.bytes entry.now)) }
    {
        match *entry {
            Entry::Step(step) => {
                push_step(out, step)?;
                push_word(out, "\n")
            }
            Entry::Begin => push_word(out, "begin\n"),
            Entry::End => {
                push_word(out, "end ")?;
                push_word(out, phase_word(phase_after(self.end, &self.situation)))?;
                push_word(out, "\n")
            }
            Entry::Read { at, width, value } => push_register_line(out, "R", at, width, value),
            Entry::Write { at, width, value } => push_register_line(out, "W", at, width, value),
            Entry::DmaRead(number) => {
                self.push_memory_line(out, "DR ", piece_noted(journal, number))
            }
            Entry::DmaWrite(number) => {
                self.push_memory_line(out, "DW ", piece_noted(journal, number))
            }
        }
    }

    /// What a piece that was written leaves.
    fn store(&mut self, piece: Noted<'_>) -> Result<(), AllocError>
        ensures situation { OnOk result (self.new.situation ≡ spec.after_store (purposes.purpose_of self.old.bases
            self.old.buffers.items piece.entry.at (length piece.entry.bytes.now)) piece.entry.bytes.now
            self.old.situation) }
        ensures buffers { OnOk result (self.new.buffers.items ≡ self.old.buffers.items
            ++ spec.listed_by (purposes.purpose_of self.old.bases self.old.buffers.items piece.entry.at
            (length piece.entry.bytes.now)) piece.entry.bytes.now) }
        ensures bases { self.new.bases ≡ self.old.bases }
        ensures end { self.new.end ≡ self.old.end }
    {
        let purpose = self.purpose_of(piece);
        if let Purpose::Buffer(index) = purpose {
            let buffer = buffer_in(piece.bytes);
            self.buffers.push(Listed { index, buffer })?;
        }
        self.situation = self.situation.after_store(purpose, piece.bytes);
        Ok(())
    }

    /// Goes on behind an entry.
    ///
    /// # Errors
    /// Want of memory.
    pub(crate) fn pass(&mut self, journal: &Journal, entry: &Entry) -> Result<(), AllocError>
        ensures situation { OnOk result (self.new.situation ≡ spec.after_entry self.old.bases self.old.end
            self.old.buffers.items self.old.situation (event_of journal.now.pieces journal.now.bytes entry.now)) }
        ensures buffers { OnOk result (self.new.buffers.items ≡ self.old.buffers.items ++ spec.listed_in self.old.bases
            self.old.buffers.items (event_of journal.now.pieces journal.now.bytes entry.now)) }
        ensures bases { self.new.bases ≡ self.old.bases }
        ensures end { self.new.end ≡ self.old.end }
    {
        match *entry {
            Entry::Step(_) => {}
            Entry::Begin => self.situation.call = Call::opened(),
            Entry::End => self.situation.phase = phase_after(self.end, &self.situation),
            Entry::Read { at, value, .. } => {
                self.situation.call = self.situation.call.after_get(at, value);
            }
            Entry::Write { at, value, .. } => {
                self.situation.call = self.situation.call.after_put(at, value);
            }
            Entry::DmaRead(number) => {
                let piece = piece_noted(journal, number);
                let purpose = self.purpose_of(piece);
                self.situation = self.situation.after_load(purpose, piece.bytes);
            }
            Entry::DmaWrite(number) => self.store(piece_noted(journal, number))?,
        }
        Ok(())
    }
}
