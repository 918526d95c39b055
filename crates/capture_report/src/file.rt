//! The lines of the file that was recorded.
ghost use Rattle.std.specs.Prelude.{◌≡◌, ◌≤◌, max, ◌++◌, OnOk};
ghost use Rattle.hda_outside.specs.Counts.{Rose};
ghost use Rattle.sound_report.specs.Pages.{Writes};
ghost use Rattle.capture_report.specs.WavLines.{wav_line, wav_lines};

use hda_outside::{Fault, Sink};
use sound_report::{push_hex, push_word, turn};
use std::alloc::AllocError;

/// How many bytes of the file a line has.
const LINE_BYTES: usize = 48;

/// A line with bytes of the file.
fn push_wav_line(page: &mut Vec<u8>, bytes: &[u8]) -> Result<(), AllocError>
    ensures { OnOk result (page.new.items ≡ page.old.items ++ wav_line bytes.now) }
{
    push_word(page, "wav ")?;
    push_hex(page, bytes)?;
    push_word(page, "\n")
}

/// The lines of a file.
///
/// # Errors
/// The sink's fault, or want of memory.
pub(crate) fn write_file<K: Sink>(out: &mut K, page: &mut Vec<u8>, file: &[u8]) -> Result<(), Fault>
    ensures text { Writes result (K.taken out.old) (K.taken out.new) (page.old.items ++ wav_lines file.now)
        page.new.items }
    ensures pieces { K.longest out.new ≤ max (K.longest out.old) 4096 }
    ensures later { K.faults out.old ≤ K.faults out.new }
    ensures failed { result ≡ Err Fault.Failed → Rose (K.faults out.old) (K.faults out.new) }
{
    for line in file.chunks(LINE_BYTES) {
        push_wav_line(page, line)?;
        turn(out, page)?;
    }
    Ok(())
}
