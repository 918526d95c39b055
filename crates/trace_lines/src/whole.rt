//! The whole text of a journal.
ghost use Rattle.std.specs.Prelude.{◌≡◌, ◌≤◌, max, ◌++◌, map, OnOk, OnErr};
ghost use Rattle.std.specs.List.{flat_map};
ghost use Rattle.hda_outside.specs.Counts.{Rose};
ghost use Rattle.hda_outside.specs.Sink.{taken_with, TookFront};
ghost use Rattle.hda_world.specs.Journals.{event_of};
ghost use Rattle.sound_report.specs.Pages.{Writes};
ghost use Rattle.trace_lines.specs.Lines.{lines_from};
ghost use Rattle.trace_lines.specs.Raw.{raw_entry};
ghost use Rattle.trace_lines.specs.Traces as text;

use crate::entries::Reader;
use crate::purposes::bases_in;
use crate::raw::push_raw_line;
use crate::situations::Situation;
use hda_outside::{Fault, Sink, write_all};
use hda_world::{Entry, Journal};
use sound_report::{PAGE_LEN, Played, turn};
use std::alloc::Global;

/// The form of a trace. This project's own.
#[derive(Clone, Copy, Debug, PartialEq, Eq)]
pub enum Form {
    /// Lines for people.
    Lines,
    /// Lines of JSON for programs.
    Raw,
}

/// Writes the lines of entries of a journal, page by page, but for what stands on the page at the end.
fn write_lines<K: Sink>(
    out: &mut K,
    page: &mut Vec<u8>,
    reader: &mut Reader,
    journal: &Journal,
    entries: &[Entry],
) -> Result<(), Fault>
    ensures text { Writes result (K.taken out.old) (K.taken out.new) (page.old.items ++ lines_from reader.old.bases
        reader.old.end reader.old.buffers.items reader.old.situation
        (map (event_of journal.now.pieces journal.now.bytes) entries.now)) page.new.items }
    ensures pieces { K.longest out.new ≤ max (K.longest out.old) 4096 }
    ensures later { K.faults out.old ≤ K.faults out.new }
    ensures failed { result ≡ Err Fault.Failed → Rose (K.faults out.old) (K.faults out.new) }
{
    for entry in entries {
        reader.push_line(page, journal, entry)?;
        reader.pass(journal, entry)?;
        turn(out, page)?;
    }
    Ok(())
}

/// Writes their lines of JSON.
fn write_raw_lines<K: Sink>(
    out: &mut K,
    page: &mut Vec<u8>,
    journal: &Journal,
    entries: &[Entry],
) -> Result<(), Fault>
    ensures text { Writes result (K.taken out.old) (K.taken out.new) (page.old.items
        ++ flat_map (raw_entry journal.now) entries.now) page.new.items }
    ensures pieces { K.longest out.new ≤ max (K.longest out.old) 4096 }
    ensures later { K.faults out.old ≤ K.faults out.new }
    ensures failed { result ≡ Err Fault.Failed → Rose (K.faults out.old) (K.faults out.new) }
{
    for entry in entries {
        push_raw_line(page, journal, entry)?;
        turn(out, page)?;
    }
    Ok(())
}

/// Writes the lines of a run's journal in a form.
fn write_form<K: Sink>(
    alloc: Global,
    out: &mut K,
    page: &mut Vec<u8>,
    form: Form,
    walks: u128,
    played: &Played,
) -> Result<(), Fault>
    ensures text { Writes result (K.taken out.old) (K.taken out.new)
        (page.old.items ++ text.trace_text form walks played.now)
        page.new.items }
    ensures pieces { K.longest out.new ≤ max (K.longest out.old) 4096 }
    ensures later { K.faults out.old ≤ K.faults out.new }
    ensures failed { result ≡ Err Fault.Failed → Rose (K.faults out.old) (K.faults out.new) }
{
    let entries = played.journal.entries();
    match form {
        Form::Lines => {
            let mut reader = Reader {
                bases: bases_in(entries),
                end: played.fault,
                buffers: Vec::new(alloc),
                situation: Situation::opened(played.commands, walks),
            };
            write_lines(out, page, &mut reader, &played.journal, entries)
        }
        Form::Raw => write_raw_lines(out, page, &played.journal, entries),
    }
}

/// Writes the journal of a run as a text, an entry a line, where so many of its commands are those of the walks over
/// the codecs. Each line ends in a line feed. The text goes out in pages of 61,440 bytes and up to a line more, so that
/// its length takes no memory. This project's own.
///
/// # Errors
/// The sink's fault, or want of memory. The sink then took the first of the text's bytes, maybe none.
pub fn write_trace<K: Sink>(
    alloc: Global,
    out: &mut K,
    form: Form,
    walks: u128,
    played: &Played,
) -> Result<(), Fault>
    ensures all { OnOk result (K.taken out.new ≡ taken_with (K.taken out.old) (text.trace_text form walks played.now)) }
    ensures front { OnErr result (TookFront (K.taken out.old) (K.taken out.new)
        (text.trace_text form walks played.now)) }
    ensures pieces { K.longest out.new ≤ max (K.longest out.old) 4096 }
    ensures later { K.faults out.old ≤ K.faults out.new }
    ensures failed { result ≡ Err Fault.Failed → Rose (K.faults out.old) (K.faults out.new) }
{
    let mut page = Vec::new(alloc);
    page.reserve(PAGE_LEN)?;
    write_form(alloc, out, &mut page, form, walks, played)?;
    write_all(alloc, out, page.as_slice())
}
