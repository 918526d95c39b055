//! The program over any shelf, outlet and sink.
ghost use Rattle.std.specs.Prelude.{◌≡◌, ◌≤◌, ℕ, List, length, drop, map, string_bytes, IfOk, OnErr};
ghost use Rattle.std.specs.Option.{option_map};
ghost use Rattle.hda_outside.specs.Counts.{Rose};
ghost use Rattle.codec_dump.specs.Words as asks;
ghost use Rattle.codec_dump.specs.Programs as programs;
ghost use Rattle.codec_dump.specs.Programs.{ComesOf, ComesOfBytes, ComesOfDump, ComesOfFurther, ComesOfTexts};
ghost use Rattle.codec_dump.specs.Programs.{FailedUnder, HasEnded, LeftOf, LeftOfDump, MayHaveWritten, WroteFirst};
ghost use Rattle.codec_dump.specs.Seen.{asked_seen};

use crate::fault::DumpFault;
use crate::import::{further_name, import_dump};
use crate::outlet::Outlet;
use crate::words::{Asked, read_words};
use hda_outside::{Fault, ReadAll, Shelf, Sink, read_all, write_all};
use std::alloc::{AllocError, Global};

/// How the program ended, as the exit status says it. This project's own.
#[derive(Clone, Copy, Debug, PartialEq, Eq)]
pub enum ImportStatus {
    /// 0: the codec files were written.
    Done,
    /// 2: the words are not those of the program.
    WordsRefused,
    /// 3: the dump cannot be read.
    ShelfFailed,
    /// 4: standard output or a further file cannot be written.
    SinkFailed,
    /// 5: the dump is refused.
    DumpRefused,
    /// 12: memory was wanting.
    OutOfMemory,
}

impl ImportStatus {
    ghost use Rattle.std.specs.Prelude.{◌≡◌};
    ghost use Rattle.codec_dump.specs.Programs.{status_number};

    /// The exit status.
    pub fn number(&self) -> u8
        ensures { result ≡ status_number self.now }
    {
        match self {
            ImportStatus::Done => 0,
            ImportStatus::WordsRefused => 2,
            ImportStatus::ShelfFailed => 3,
            ImportStatus::SinkFailed => 4,
            ImportStatus::DumpRefused => 5,
            ImportStatus::OutOfMemory => 12,
        }
    }
}

/// The line for other words.
const USAGE: &str = "usage: hda_import DUMP [--mend]\n";

/// The most bytes of a dump.
const MOST_BYTES: u64 = 262_144;

/// A text, and the status with which the program ends that writes it.
#[derive(Drop)]
struct Message {
    /// The status where the text is written whole.
    status: ImportStatus,
    /// All that is written.
    text: String,
}

/// The words are not those of the program.
fn words_refused(alloc: Global) -> Result<Message, AllocError>
    ensures { IfOk result (λ message. programs.told_by message
        ≡ programs.telling ImportStatus.WordsRefused programs.usage_line) }
{
    Ok(Message {
        status: ImportStatus::WordsRefused,
        text: String::from_str(alloc, USAGE)?,
    })
}

/// A file cannot be read or written.
fn failed(
    alloc: Global,
    status: ImportStatus,
    what: &str,
    name: &str,
) -> Result<Message, AllocError>
    ensures { IfOk result (λ message. programs.told_by message
        ≡ programs.telling status (programs.cannot_line what.now name.now)) }
{
    Ok(Message {
        status,
        text: format!(in alloc; "cannot {what}: {name}\n")?,
    })
}

/// The dump is refused.
fn dump_refused(alloc: Global, fault: &str) -> Result<Message, AllocError>
    ensures { IfOk result (λ message. programs.told_by message
        ≡ programs.telling ImportStatus.DumpRefused (programs.refused_line fault.now)) }
{
    Ok(Message {
        status: ImportStatus::DumpRefused,
        text: format!(in alloc; "dump refused: {fault}\n")?,
    })
}

/// Writes the further codec files, of those behind the first. Where one cannot be written, its name is
/// in the message.
fn write_further<O: Outlet>(
    alloc: Global,
    outlet: &mut O,
    name: &str,
    texts: &[String],
) -> Result<Option<Message>, AllocError>
    ensures told { IfOk result (λ failure. ComesOfFurther name.now texts.now (O.written outlet.old)
        (O.written outlet.new) (Rose (O.faults outlet.old) (O.faults outlet.new))
        (option_map programs.told_by failure)) }
    ensures wanting { OnErr result (WroteFirst name.now texts.now (O.written outlet.old) (O.written outlet.new)) }
    ensures later { O.faults outlet.old ≤ O.faults outlet.new }
{
    for place in 0..texts.len() {
        let further = further_name(alloc, name, place + 2)?;
        match outlet.write_new(alloc, further.as_str(), texts[place].as_bytes()) {
            Ok(()) => {}
            Err(Fault::Failed) => {
                let status = ImportStatus::SinkFailed;
                let message = failed(alloc, status, "write", further.as_str())?;
                return Ok(Some(message));
            }
            Err(Fault::OutOfMemory) => return Err(AllocError),
        }
    }
    Ok(None)
}

/// Writes the further codec files, and gives the first to be written.
fn answer_texts<O: Outlet>(
    alloc: Global,
    outlet: &mut O,
    name: &str,
    texts: &[String],
) -> Result<Message, AllocError>
    ensures told { IfOk result (λ message. ComesOfTexts name.now texts.now (O.written outlet.old)
        (O.written outlet.new) (Rose (O.faults outlet.old) (O.faults outlet.new)) (programs.told_by message)) }
    ensures wanting { OnErr result (WroteFirst name.now (drop 1 texts.now) (O.written outlet.old)
        (O.written outlet.new)) }
    ensures later { O.faults outlet.old ≤ O.faults outlet.new }
{
    let [first, further @ ..] = texts else {
        return Ok(Message {
            status: ImportStatus::Done,
            text: String::new(alloc),
        });
    };
    match write_further(alloc, outlet, name, further)? {
        Some(message) => Ok(message),
        None => Ok(Message {
            status: ImportStatus::Done,
            text: String::from_str(alloc, first.as_str())?,
        }),
    }
}

/// What is answered for a dump of these bytes.
fn answer_bytes<O: Outlet>(
    alloc: Global,
    outlet: &mut O,
    asked: Asked<'_>,
    bytes: &[u8],
) -> Result<Message, AllocError>
    requires { length bytes.now ≤ MOST_BYTES }
    ensures told { IfOk result (λ message. ComesOfBytes (asked_seen asked.entry) bytes.now (O.written outlet.old)
        (O.written outlet.new) (Rose (O.faults outlet.old) (O.faults outlet.new)) (programs.told_by message)) }
    ensures wanting { OnErr result (MayHaveWritten (asked_seen asked.entry) bytes.now (O.written outlet.old)
        (O.written outlet.new)) }
    ensures later { O.faults outlet.old ≤ O.faults outlet.new }
{
    match import_dump(alloc, bytes, asked.is_mended, asked.name) {
        Ok(texts) => answer_texts(alloc, outlet, asked.name, texts.as_slice()),
        Err(DumpFault::OutOfMemory) => Err(AllocError),
        Err(fault) => {
            let text = fault.to_string(alloc)?;
            dump_refused(alloc, text.as_str())
        }
    }
}

/// What is answered for the dump of this name.
fn answer_dump<S: Shelf, O: Outlet>(
    alloc: Global,
    shelf: &mut S,
    outlet: &mut O,
    asked: Asked<'_>,
) -> Result<Message, AllocError>
    ensures told { IfOk result (λ message. ComesOfDump (S.told shelf.old)
        (FailedUnder (S.faults shelf.old) (S.faults shelf.new)) (asked_seen asked.entry) (O.written outlet.old)
        (O.written outlet.new) (Rose (O.faults outlet.old) (O.faults outlet.new)) (programs.told_by message)) }
    ensures wanting { OnErr result (LeftOfDump (S.told shelf.old) (asked_seen asked.entry) (O.written outlet.old)
        (O.written outlet.new)) }
    ensures same { S.told shelf.new ≡ S.told shelf.old }
    ensures shelf_later { (name : List ℕ) → S.faults shelf.old name ≤ S.faults shelf.new name }
    ensures outlet_later { O.faults outlet.old ≤ O.faults outlet.new }
{
    match read_all(alloc, shelf, asked.name, MOST_BYTES) {
        Ok(bytes) => answer_bytes(alloc, outlet, asked, bytes.as_slice()),
        Err(ReadAll::TooLong) => dump_refused(alloc, "TooLong"),
        Err(ReadAll::Failed) => failed(alloc, ImportStatus::ShelfFailed, "read", asked.name),
        Err(ReadAll::OutOfMemory) => Err(AllocError),
    }
}

/// What is answered for the words.
fn answer_words<S: Shelf, O: Outlet>(
    alloc: Global,
    words: &[String],
    shelf: &mut S,
    outlet: &mut O,
) -> Result<Message, AllocError>
    ensures told { IfOk result (λ message. ComesOf (S.told shelf.old)
        (FailedUnder (S.faults shelf.old) (S.faults shelf.new)) (asks.asked_of (map string_bytes words.now))
        (O.written outlet.old) (O.written outlet.new) (Rose (O.faults outlet.old) (O.faults outlet.new))
        (programs.told_by message)) }
    ensures wanting { OnErr result (LeftOf (S.told shelf.old) (asks.asked_of (map string_bytes words.now))
        (O.written outlet.old) (O.written outlet.new)) }
    ensures same { S.told shelf.new ≡ S.told shelf.old }
    ensures shelf_later { (name : List ℕ) → S.faults shelf.old name ≤ S.faults shelf.new name }
    ensures outlet_later { O.faults outlet.old ≤ O.faults outlet.new }
{
    match read_words(words) {
        Some(asked) => answer_dump(alloc, shelf, outlet, asked),
        None => words_refused(alloc),
    }
}

/// Writes the codec file of the dump that the words name, those after the program's name: `DUMP`, and `--mend` anywhere
/// before a `--`. Of a dump with several codecs the first one's file goes to the sink, and each further one's to the
/// outlet, whose names stand in the first.
///
/// The statuses are those of [`ImportStatus`].
pub fn import_main<S: Shelf, O: Outlet, K: Sink>(
    alloc: Global,
    words: &[String],
    shelf: &mut S,
    outlet: &mut O,
    out: &mut K,
) -> u8
    // What is meant was written, or its front at a fault of the sink or at want of memory.
    ensures ended { HasEnded (S.told shelf.old) (FailedUnder (S.faults shelf.old) (S.faults shelf.new))
        (map string_bytes words.now) (O.written outlet.old) (O.written outlet.new)
        (Rose (O.faults outlet.old) (O.faults outlet.new)) (K.taken out.old) (K.taken out.new)
        (Rose (K.faults out.old) (K.faults out.new)) result }

    // The shelf's files stay as they are, and no count of faults falls.
    ensures told { S.told shelf.new ≡ S.told shelf.old }
    ensures shelf_later { (name : List ℕ) → S.faults shelf.old name ≤ S.faults shelf.new name }
    ensures outlet_later { O.faults outlet.old ≤ O.faults outlet.new }
    ensures sink_later { K.faults out.old ≤ K.faults out.new }
{
    match answer_words(alloc, words, shelf, outlet) {
        Ok(message) => match write_all(alloc, out, message.text.as_bytes()) {
            Ok(()) => message.status.number(),
            Err(Fault::Failed) => ImportStatus::SinkFailed.number(),
            Err(Fault::OutOfMemory) => ImportStatus::OutOfMemory.number(),
        },
        Err(_) => ImportStatus::OutOfMemory.number(),
    }
}
