//! The items of a schedule, one after another.
ghost use Rattle.std.specs.Prelude.{◌≡◌, ◌≤◌, ◌+◌, [], ◌∷◌, length, false, IfOk};
ghost use Rattle.schedule_reader.specs.Counts.{items_in, items_of};
ghost use Rattle.rig.specs.Rigs.{setting_of};
ghost use Rattle.program_runs.specs.Lines.{lines_in, lines_of};
ghost use Rattle.program_captures.specs.Capturing as spec;

use crate::calls::run_line;
use crate::capturer::Capturer;
use crate::terms::CaptureTerms;
use analog_in::Input;
use laws_capture::drivers_that_capture_keep_to_progress;
use rig::{Rig, pieces_follow};
use schedule_reader::{Item, Part, Schedule};
use std::alloc::{AllocError, Global};
use world_steps::Step;

/// Runs a step of the device.
///
/// # Errors
/// Want of memory.
fn run_step(
    rig: &mut Rig,
    capturer: Capturer,
    step: &Step,
    terms: CaptureTerms,
) -> Result<Capturer, AllocError>
    requires between { (setting_of rig.old).in_run ≡ false }
    requires is { spec.IsCapturerFor terms capturer }
    ensures { IfOk result (λ later. spec.CaptureRan terms (Item.Device step.now ∷ []) capturer later rig.old rig.new) }
{
    drivers_that_capture_keep_to_progress::<Input>();
    pieces_follow();
    match rig.step(step) {
        Ok(()) => Ok(capturer),
        Err(failed) => {
            capturer.abandon();
            Err(failed)
        }
    }
}

/// Runs an item: a step of the device, or a call of the driver.
///
/// # Errors
/// Want of memory.
fn run_item(
    alloc: Global,
    rig: &mut Rig,
    capturer: Capturer,
    item: &Item,
    terms: CaptureTerms,
) -> Result<Capturer, AllocError>
    requires between { (setting_of rig.old).in_run ≡ false }
    requires is { spec.IsCapturerFor terms capturer }
    requires few { spec.calls_of capturer + length (lines_in (item.now ∷ [])) ≤ terms.runs }
    ensures { IfOk result (λ later. spec.CaptureRan terms (item.now ∷ []) capturer later rig.old rig.new) }
{
    match item {
        Item::Device(step) => run_step(rig, capturer, step, terms),
        Item::Drive(line) => run_line(alloc, rig, capturer, line, terms),
    }
}

/// Runs some items in turn.
///
/// # Errors
/// Want of memory.
fn run_items(
    alloc: Global,
    rig: &mut Rig,
    capturer: Capturer,
    items: &[Item],
    terms: CaptureTerms,
) -> Result<Capturer, AllocError>
    requires between { (setting_of rig.old).in_run ≡ false }
    requires is { spec.IsCapturerFor terms capturer }
    requires few { spec.calls_of capturer + length (lines_in items.now) ≤ terms.runs }
    ensures { IfOk result (λ later. spec.CaptureRan terms items.now capturer later rig.old rig.new) }
{
    pieces_follow();
    let mut capturer = capturer;
    for item in items {
        capturer = run_item(alloc, rig, capturer, item, terms)?;
    }
    Ok(capturer)
}

/// Runs the items of a part, as often as it is repeated.
///
/// # Errors
/// Want of memory.
fn run_part(
    alloc: Global,
    rig: &mut Rig,
    capturer: Capturer,
    part: &Part,
    terms: CaptureTerms,
) -> Result<Capturer, AllocError>
    requires between { (setting_of rig.old).in_run ≡ false }
    requires is { spec.IsCapturerFor terms capturer }
    requires few { spec.calls_of capturer + length (lines_in (items_in part.now)) ≤ terms.runs }
    ensures { IfOk result (λ later. spec.CaptureRan terms (items_in part.now) capturer later rig.old rig.new) }
{
    pieces_follow();
    let mut capturer = capturer;
    for _ in 0..part.times {
        capturer = run_items(alloc, rig, capturer, part.items.as_slice(), terms)?;
    }
    Ok(capturer)
}

/// Runs the items of a schedule with its repeats written out.
///
/// # Errors
/// Want of memory.
pub(crate) fn run_schedule(
    alloc: Global,
    rig: &mut Rig,
    capturer: Capturer,
    schedule: &Schedule,
    terms: CaptureTerms,
) -> Result<Capturer, AllocError>
    requires between { (setting_of rig.old).in_run ≡ false }
    requires is { spec.IsCapturerFor terms capturer }
    requires few { spec.calls_of capturer + length (lines_of schedule.now) ≤ terms.runs }
    ensures { IfOk result (λ later. spec.CaptureRan terms (items_of schedule.now) capturer later rig.old rig.new) }
{
    pieces_follow();
    let mut capturer = capturer;
    for part in schedule.parts.as_slice() {
        capturer = run_part(alloc, rig, capturer, part, terms)?;
    }
    Ok(capturer)
}
