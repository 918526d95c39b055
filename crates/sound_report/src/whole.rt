//! The whole text of a run.
ghost use Rattle.std.specs.Prelude.{◌≡◌, ◌≤◌, max, ◌++◌, IfOk, OnOk, OnErr};
ghost use Rattle.hda_outside.specs.Counts.{Rose};
ghost use Rattle.hda_outside.specs.Sink.{taken_with, TookFront};
ghost use Rattle.sound_report.specs.Pages.{Writes};
ghost use Rattle.sound_report.specs.Texts.{switched_lines, text_of, switched_text};

use crate::ends::push_last;
use crate::lines::write_lines;
use crate::pages::PAGE_LEN;
use crate::pins::write_pins;
use crate::plans::push_plans;
use crate::played::Played;
use crate::switch::Switch;
use hda_outside::{Fault, Sink, SureSink, write_all};
use std::alloc::{AllocError, Global};

/// The lines between the plans and the last one.
fn write_middle<K: Sink>(
    out: &mut K,
    page: &mut Vec<u8>,
    played: &Played,
    switches: &[Switch],
) -> Result<(), Fault>
    ensures text { Writes result (K.taken out.old) (K.taken out.new)
        (page.old.items ++ switched_lines played.now switches.now) page.new.items }
    ensures pieces { K.longest out.new ≤ max (K.longest out.old) 4096 }
    ensures later { K.faults out.old ≤ K.faults out.new }
    ensures failed { result ≡ Err Fault.Failed → Rose (K.faults out.old) (K.faults out.new) }
{
    write_lines(out, page, played.runs.as_slice())?;
    write_lines(out, page, played.silences.as_slice())?;
    write_lines(out, page, played.jacks.as_slice())?;
    write_lines(out, page, switches)?;
    write_pins(out, page, played.format.bits, &played.heard)
}

/// Writes the text of a run of the driver in which speakers were switched, as [`write_report`] does: the switches have
/// lines of their own, behind those of the jacks. This project's own.
///
/// # Errors
/// The sink's fault, or want of memory. The sink then took the first of the text's bytes, maybe none.
pub fn write_switched<K: Sink>(
    alloc: Global,
    out: &mut K,
    played: &Played,
    switches: &[Switch],
) -> Result<(), Fault>
    ensures all { OnOk result (K.taken out.new ≡ taken_with (K.taken out.old)
        (switched_text played.now switches.now)) }
    ensures front { OnErr result (TookFront (K.taken out.old) (K.taken out.new)
        (switched_text played.now switches.now)) }
    ensures pieces { K.longest out.new ≤ max (K.longest out.old) 4096 }
    ensures later { K.faults out.old ≤ K.faults out.new }
    ensures failed { result ≡ Err Fault.Failed → Rose (K.faults out.old) (K.faults out.new) }
{
    let mut plans = String::new(alloc);
    push_plans(
        &mut plans,
        played.machine.codecs.as_slice(),
        played.plans.as_slice(),
    )?;
    let mut page = plans.into_bytes();
    page.reserve(PAGE_LEN)?;
    write_middle(out, &mut page, played, switches)?;
    push_last(&mut page, played)?;
    write_all(alloc, out, page.as_slice())
}

/// Writes the text of a run of the driver in pieces, in the order of its lines: the plans, the recorded runs, the
/// silences, the jacks, what each candidate pin heard, and how it ended. Each line ends in a line feed. The text goes
/// out in pages of 61,440 bytes and up to a line more, so that its length takes no memory. This project's own.
///
/// # Errors
/// The sink's fault, or want of memory. The sink then took the first of the text's bytes, maybe none.
pub fn write_report<K: Sink>(alloc: Global, out: &mut K, played: &Played) -> Result<(), Fault>
    ensures all { OnOk result (K.taken out.new ≡ taken_with (K.taken out.old) (text_of played.now)) }
    ensures front { OnErr result (TookFront (K.taken out.old) (K.taken out.new) (text_of played.now)) }
    ensures pieces { K.longest out.new ≤ max (K.longest out.old) 4096 }
    ensures later { K.faults out.old ≤ K.faults out.new }
    ensures failed { result ≡ Err Fault.Failed → Rose (K.faults out.old) (K.faults out.new) }
{
    write_switched(alloc, out, played, &[])
}

/// The text of a run of the driver, whole.
///
/// # Errors
/// Want of memory.
pub fn report(alloc: Global, played: &Played) -> Result<Vec<u8>, AllocError>
    ensures { IfOk result (λ text. text.items ≡ text_of played.now) }
{
    let mut out = SureSink::new(alloc);
    match write_report(alloc, &mut out, played) {
        Ok(()) => Vec::from_slice(alloc, out.bytes()),
        Err(_) => Err(AllocError),
    }
}

/// The text of a run of the driver in which speakers were switched, whole.
///
/// # Errors
/// Want of memory.
pub fn report_switched(
    alloc: Global,
    played: &Played,
    switches: &[Switch],
) -> Result<Vec<u8>, AllocError>
    ensures { IfOk result (λ text. text.items ≡ switched_text played.now switches.now) }
{
    let mut out = SureSink::new(alloc);
    match write_switched(alloc, &mut out, played, switches) {
        Ok(()) => Vec::from_slice(alloc, out.bytes()),
        Err(_) => Err(AllocError),
    }
}
