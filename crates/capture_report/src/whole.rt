//! The whole text of a capture.
ghost use Rattle.std.specs.Prelude.{◌≡◌, ◌≤◌, max, ◌++◌, IfOk, OnOk, OnErr};
ghost use Rattle.hda_outside.specs.Counts.{Rose};
ghost use Rattle.hda_outside.specs.Sink.{taken_with, TookFront};
ghost use Rattle.sound_report.specs.Pages.{Writes};
ghost use Rattle.capture_report.specs.CaptureTexts.{capture_middle, capture_text};

use crate::captured::Captured;
use crate::ends::push_last;
use crate::file::write_file;
use crate::inputs::push_inputs;
use crate::overruns::write_overruns;
use crate::runs::write_runs;
use hda_outside::{Fault, Sink, SureSink, write_all};
use sound_report::PAGE_LEN;
use std::alloc::{AllocError, Global};

/// The lines between the input and the last one.
fn write_middle<K: Sink>(out: &mut K, page: &mut Vec<u8>, captured: &Captured) -> Result<(), Fault>
    ensures text { Writes result (K.taken out.old) (K.taken out.new) (page.old.items ++ capture_middle captured.now)
        page.new.items }
    ensures pieces { K.longest out.new ≤ max (K.longest out.old) 4096 }
    ensures later { K.faults out.old ≤ K.faults out.new }
    ensures failed { result ≡ Err Fault.Failed → Rose (K.faults out.old) (K.faults out.new) }
{
    write_runs(out, page, captured.runs.as_slice())?;
    write_overruns(out, page, captured.taken.as_slice())?;
    write_file(out, page, captured.file.as_slice())
}

/// Writes the text of a capture in pieces, in the order of its lines: the input, the recorded runs, the overruns, the
/// file that was recorded, and how it ended. Each line ends in a line feed. The text goes out in pages of 61,440 bytes
/// and up to a line more, so that its length takes no memory. This project's own.
///
/// # Errors
/// The sink's fault, or want of memory. The sink then took the first of the text's bytes, maybe none.
pub fn write_capture<K: Sink>(alloc: Global, out: &mut K, captured: &Captured) -> Result<(), Fault>
    ensures all { OnOk result (K.taken out.new ≡ taken_with (K.taken out.old) (capture_text captured.now)) }
    ensures front { OnErr result (TookFront (K.taken out.old) (K.taken out.new) (capture_text captured.now)) }
    ensures pieces { K.longest out.new ≤ max (K.longest out.old) 4096 }
    ensures later { K.faults out.old ≤ K.faults out.new }
    ensures failed { result ≡ Err Fault.Failed → Rose (K.faults out.old) (K.faults out.new) }
{
    let mut inputs = String::new(alloc);
    push_inputs(
        &mut inputs,
        captured.machine.codecs.as_slice(),
        captured.plans.as_slice(),
    )?;
    let mut page = inputs.into_bytes();
    page.reserve(PAGE_LEN)?;
    write_middle(out, &mut page, captured)?;
    push_last(&mut page, captured)?;
    write_all(alloc, out, page.as_slice())
}

/// The text of a capture, whole.
///
/// # Errors
/// Want of memory.
pub fn capture_report(alloc: Global, captured: &Captured) -> Result<Vec<u8>, AllocError>
    ensures { IfOk result (λ text. text.items ≡ capture_text captured.now) }
{
    let mut out = SureSink::new(alloc);
    match write_capture(alloc, &mut out, captured) {
        Ok(()) => Vec::from_slice(alloc, out.bytes()),
        Err(_) => Err(AllocError),
    }
}
