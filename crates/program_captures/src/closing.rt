//! The last call of the driver of a capture, and a whole schedule.
ghost use Rattle.std.specs.Prelude.{◌≡◌, ◌≤◌, ◌+◌, length, false, IfOk};
ghost use Rattle.rig.specs.Rigs.{setting_of};
ghost use Rattle.program_runs.specs.Lines.{lines_of};
ghost use Rattle.program_captures.specs.Capturing as spec;
ghost use Rattle.program_captures.specs.Ending as ending;

use crate::capturer::{Capturer, boxed_coming};
use crate::items::run_schedule;
use crate::terms::CaptureTerms;
use analog_in::Input;
use audio_driver::{Driver, ROOM_ACCESSES};
use codec_graph::Graph;
use driver_progress::Phase;
use hda_capture::RecordedRun;
use laws_capture::drivers_that_capture_keep_to_progress;
use recording_driver::{RecordingClosed, RecordingDriver};
use rig::{Rig, runs_follow};
use schedule_reader::Schedule;
use std::alloc::{AllocError, Global};

/// What is left of the driver of a capture that was closed.
#[derive(Drop)]
pub(crate) struct Driven {
    /// How far it came.
    pub phase: Phase,
    /// The graphs of the codecs that were walked.
    pub graphs: Vec<Graph>,
    /// How many commands were submitted.
    pub sent: u32,
    /// The recorded runs, in order.
    pub runs: Vec<RecordedRun>,
    /// The bytes that were recorded, in order.
    pub bytes: Vec<u8>,
}

/// The last call of a driver that did not record, in a run without steps.
///
/// # Errors
/// Want of memory.
fn close_coming(
    alloc: Global,
    rig: &mut Rig,
    driver: Box<Driver<Input>>,
    terms: CaptureTerms,
) -> Result<Driven, AllocError>
    requires between { (setting_of rig.old).in_run ≡ false }
    requires coming { spec.IsComingFor terms driver.value }
    ensures { IfOk result (λ driven. ending.CaptureEnds terms (Capturer.Coming driver) driven rig.old rig.new) }
{
    drivers_that_capture_keep_to_progress::<Input>();
    runs_follow();
    match rig.begin(&[], ROOM_ACCESSES, terms.room()) {
        Ok(()) => {}
        Err(failed) => {
            let _ = Box::into_inner(driver).abandon();
            return Err(failed);
        }
    }
    let closed = Box::into_inner(driver).close(rig)?;
    rig.end();
    Ok(Driven {
        phase: closed.phase,
        graphs: closed.graphs,
        sent: closed.sent,
        runs: Vec::new(alloc),
        bytes: Vec::new(alloc),
    })
}

/// The last call of a driver that records, in a run without steps.
///
/// # Errors
/// Want of memory.
fn close_recording(
    rig: &mut Rig,
    driver: Box<RecordingDriver>,
    terms: CaptureTerms,
) -> Result<Driven, AllocError>
    requires between { (setting_of rig.old).in_run ≡ false }
    requires recording { spec.IsRecordingFor terms driver.value }
    ensures { IfOk result (λ driven. ending.CaptureEnds terms (Capturer.Recording driver) driven rig.old rig.new) }
{
    drivers_that_capture_keep_to_progress::<Input>();
    runs_follow();
    match rig.begin(&[], ROOM_ACCESSES, terms.room()) {
        Ok(()) => {}
        Err(failed) => {
            let _ = Box::into_inner(driver).abandon();
            return Err(failed);
        }
    }
    let _phase = driver.phase();
    let closed = Box::into_inner(driver).close(rig);
    rig.end();
    let RecordingClosed {
        phase,
        graphs,
        plans: _,
        sent,
        runs,
        bytes,
        pool: _,
    } = closed;
    Ok(Driven {
        phase,
        graphs,
        sent,
        runs,
        bytes,
    })
}

/// Runs a schedule over a rig from first to last: its items with repeats written out, and then the last call of the
/// driver.
///
/// # Errors
/// Want of memory.
pub(crate) fn drive(
    alloc: Global,
    rig: &mut Rig,
    driver: Driver<Input>,
    schedule: &Schedule,
    terms: CaptureTerms,
) -> Result<Driven, AllocError>
    requires between { (setting_of rig.old).in_run ≡ false }
    requires coming { spec.IsComingFor terms driver }
    requires few { driver.calls + length (lines_of schedule.now) ≤ terms.runs }
    ensures { IfOk result (λ driven. ending.CaptureDriven terms schedule.now driver driven rig.old rig.new) }
{
    let driver = boxed_coming(alloc, driver)?;
    let capturer = run_schedule(alloc, rig, Capturer::Coming(driver), schedule, terms)?;
    match capturer {
        Capturer::Coming(driver) => close_coming(alloc, rig, driver, terms),
        Capturer::Recording(driver) => close_recording(rig, driver, terms),
    }
}
