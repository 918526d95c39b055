//! The entries of a journal as lines of JSON (RFC 8259).
ghost use Rattle.std.specs.Prelude.{◌≡◌, ◌++◌, OnOk};
ghost use Rattle.hda_world.specs.Journals.{event_of};
ghost use Rattle.trace_lines.specs.Raw as text;

use crate::entries::{Noted, piece_noted};
use crate::steps::push_step;
use hda_registers::Width;
use hda_world::{Entry, Journal, Step};
use sound_report::{push_hex, push_number, push_word};
use std::alloc::AllocError;

/// The front of an array whose first item is this word in quotes.
fn push_front(out: &mut Vec<u8>, word: &str) -> Result<(), AllocError>
    ensures { OnOk result (out.new.items ≡ out.old.items ++ text.front word.now) }
{
    push_word(out, "[\"")?;
    push_word(out, word)?;
    push_word(out, "\"")
}

/// An item that is a number.
fn push_item(out: &mut Vec<u8>, number: u64) -> Result<(), AllocError>
    ensures { OnOk result (out.new.items ≡ out.old.items ++ text.item number) }
{
    push_word(out, ", ")?;
    push_number(out, number)
}

/// A mark of a call.
fn push_mark(out: &mut Vec<u8>, word: &str) -> Result<(), AllocError>
    ensures { OnOk result (out.new.items ≡ out.old.items ++ text.mark_line word.now) }
{
    push_front(out, word)?;
    push_word(out, "]\n")
}

/// A step of the device.
fn push_step_line(out: &mut Vec<u8>, step: Step) -> Result<(), AllocError>
    ensures { OnOk result (out.new.items ≡ out.old.items ++ text.step_line step) }
{
    push_front(out, "S")?;
    push_word(out, ", \"")?;
    push_step(out, step)?;
    push_word(out, "\"]\n")
}

/// An access to a register.
fn push_register_line(
    out: &mut Vec<u8>,
    letter: &str,
    at: u16,
    width: Width,
    value: u32,
) -> Result<(), AllocError>
    ensures { OnOk result (out.new.items ≡ out.old.items ++ text.access_line letter.now at width value) }
{
    push_front(out, letter)?;
    push_item(out, at.into())?;
    push_item(out, width.bytes().into())?;
    push_item(out, value.into())?;
    push_word(out, "]\n")
}

/// An access to memory.
fn push_memory_line(out: &mut Vec<u8>, letters: &str, piece: Noted<'_>) -> Result<(), AllocError>
    ensures { OnOk result (out.new.items ≡ out.old.items ++ text.memory_line letters.now piece.entry.at
        piece.entry.bytes.now) }
{
    push_front(out, letters)?;
    push_item(out, piece.at.into())?;
    push_word(out, ", \"")?;
    push_hex(out, piece.bytes)?;
    push_word(out, "\"]\n")
}

/// Appends the line of an entry.
///
/// # Errors
/// Want of memory.
pub(crate) fn push_raw_line(
    out: &mut Vec<u8>,
    journal: &Journal,
    entry: &Entry,
) -> Result<(), AllocError>
    ensures { OnOk result (out.new.items ≡ out.old.items
        ++ text.raw_line (event_of journal.now.pieces journal.now.bytes entry.now)) }
{
    match *entry {
        Entry::Step(step) => push_step_line(out, step),
        Entry::Begin => push_mark(out, "begin"),
        Entry::End => push_mark(out, "end"),
        Entry::Read { at, width, value } => push_register_line(out, "R", at, width, value),
        Entry::Write { at, width, value } => push_register_line(out, "W", at, width, value),
        Entry::DmaRead(number) => push_memory_line(out, "DR", piece_noted(journal, number)),
        Entry::DmaWrite(number) => push_memory_line(out, "DW", piece_noted(journal, number)),
    }
}
