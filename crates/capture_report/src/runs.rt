//! The lines of recorded runs.
ghost use Rattle.std.specs.Prelude.{◌≡◌, ◌≤◌, max, ◌++◌, OnOk};
ghost use Rattle.std.specs.List.{flat_map};
ghost use Rattle.hda_outside.specs.Counts.{Rose};
ghost use Rattle.sound_report.specs.Pages.{Writes};
ghost use Rattle.capture_report.specs.CaptureLines.{record_line};

use hda_capture::RecordedRun;
use hda_outside::{Fault, Sink};
use sound_report::turn;
use std::alloc::AllocError;
use std::io::Write;

/// The line of a run.
fn push_run(page: &mut Vec<u8>, run: RecordedRun) -> Result<(), AllocError>
    ensures { OnOk result (page.new.items ≡ page.old.items ++ record_line run) }
{
    write!(page, "run {} {}", run.at, run.from).map_err(|_| AllocError)?;
    writeln!(page, " {} {}", run.to, run.read).map_err(|_| AllocError)
}

/// The lines of runs, in order.
///
/// # Errors
/// The sink's fault, or want of memory.
pub(crate) fn write_runs<K: Sink>(
    out: &mut K,
    page: &mut Vec<u8>,
    runs: &[RecordedRun],
) -> Result<(), Fault>
    ensures text { Writes result (K.taken out.old) (K.taken out.new) (page.old.items ++ flat_map record_line runs.now)
        page.new.items }
    ensures pieces { K.longest out.new ≤ max (K.longest out.old) 4096 }
    ensures later { K.faults out.old ≤ K.faults out.new }
    ensures failed { result ≡ Err Fault.Failed → Rose (K.faults out.old) (K.faults out.new) }
{
    for run in runs {
        push_run(page, *run)?;
        turn(out, page)?;
    }
    Ok(())
}
