//! Calls of the driver of a capture over a rig.
ghost use Rattle.std.specs.Prelude.{◌≡◌, ◌≤◌, ◌<◌, ◌+◌, [], ◌∷◌, false, OnOk, IfOk};
ghost use Rattle.schedule_reader.specs.declared.schedule.Item.TheVariants.{Drive};
ghost use Rattle.period_writer.specs.Rings.{ring_bytes};
ghost use Rattle.hda_capture.specs.Recorders.{ring_size};
ghost use Rattle.driver_progress.specs.Phases.{is_ready};
ghost use Rattle.driver_bring_up.specs.Calls.{IsKept};
ghost use Rattle.audio_driver.specs.declared.room.TheConstants.{ROOM_ACCESSES, ROOM_BYTES};
ghost use Rattle.audio_driver.specs.Drivers.{KeepsTerms};
ghost use Rattle.laws_driver.specs.Keeping.{Calls};
ghost use Rattle.recording_driver.specs.RecordingCalls.{Records};
ghost use Rattle.recording_driver.specs.RecordingDrivers.{KeepsRecording};
ghost use Rattle.rig.specs.Rigs.{setting_of};
ghost use Rattle.program_captures.specs.Inputs.{capture_means};
ghost use Rattle.program_captures.specs.Capturing as spec;

use crate::capturer::{Capturer, boxed_coming, boxed_recording};
use crate::opening::open_recording;
use crate::terms::CaptureTerms;
use analog_in::Input;
use audio_driver::{Driver, ROOM_ACCESSES};
use driver_progress::Phase;
use hda_platform::Platform;
use laws_capture::drivers_that_capture_keep_to_progress;
use recording_driver::RecordingDriver;
use rig::{Rig, runs_follow};
use schedule_reader::DriverLine;
use std::alloc::{AllocError, Global};

/// Calls a driver that plays nothing as a line says: for an interrupt or not.
///
/// # Errors
/// Want of memory.
fn call_coming<P: Platform>(
    platform: &mut P,
    driver: &mut Driver<Input>,
    line: &DriverLine,
) -> Result<Phase, AllocError>
    requires silent { driver.old.play ≡ false }
    requires few { driver.old.calls < driver.old.runs }
    requires room { ROOM_ACCESSES ≤ P.spare_accesses platform.old }
    requires bytes_room { ring_bytes driver.old.writer.geometry.periods
        driver.old.writer.geometry.period + ROOM_BYTES ≤ P.spare_bytes platform.old }
    ensures leads { OnOk result (Calls
        (capture_means driver.old.setter.codec driver.old.bring_up.agenda.format) false line.now.irq line.now.budget
        (spec.parts_with driver.old.bring_up driver.old.writer) (spec.parts_with driver.new.bring_up driver.new.writer)
        (P.told platform.old) (P.told platform.new)) }
    ensures kept { IsKept driver.old.bring_up driver.new.bring_up }
    ensures writer { driver.new.writer ≡ driver.old.writer }
    ensures supply { driver.new.supply ≡ driver.old.supply }
    ensures keeps { KeepsTerms driver.old driver.new }
    ensures calls { driver.new.calls ≡ driver.old.calls + 1 }
    ensures fixed { P.fixed platform.new ≡ P.fixed platform.old }
{
    if line.irq {
        driver.irq(platform, line.budget)
    } else {
        driver.run(platform, line.budget)
    }
}

/// Calls a driver that records as a line says.
fn call_recording<P: Platform>(platform: &mut P, driver: &mut RecordingDriver, line: &DriverLine)
    requires few { driver.old.calls < driver.old.runs }
    requires room { ROOM_ACCESSES ≤ P.spare_accesses platform.old }
    requires bytes_room { ring_size driver.old.recorder + ROOM_BYTES ≤ P.spare_bytes platform.old }
    ensures records { Records line.now.irq driver.old driver.new (P.told platform.old) (P.told platform.new) }
    ensures keeps { KeepsRecording driver.old driver.new }
    ensures calls { driver.new.calls ≡ driver.old.calls + 1 }
    ensures fixed { P.fixed platform.new ≡ P.fixed platform.old }
{
    if line.irq {
        driver.irq(platform);
    } else {
        driver.run(platform);
    }
}

/// Runs a driver line of a schedule for a driver that brings its codecs up: a call of it with the steps of the line's
/// groups between its accesses.
///
/// # Errors
/// Want of memory.
fn coming_line(
    rig: &mut Rig,
    driver: &mut Box<Driver<Input>>,
    line: &DriverLine,
    terms: CaptureTerms,
) -> Result<(), AllocError>
    requires between { (setting_of rig.old).in_run ≡ false }
    requires coming { spec.IsComingFor terms driver.old.value }
    requires early { is_ready driver.old.value.bring_up.phase ≡ false }
    requires few { driver.old.value.calls < driver.old.value.runs }
    ensures { OnOk result (spec.CaptureRan terms (Drive line.now ∷ []) (Capturer.Coming driver.old)
        (Capturer.Coming driver.new) rig.old rig.new) }
{
    drivers_that_capture_keep_to_progress::<Input>();
    runs_follow();
    rig.begin(line.groups.as_slice(), ROOM_ACCESSES, terms.room())?;
    call_coming(rig, driver, line)?;
    rig.end();
    Ok(())
}

/// The same, and the driver is let go where memory is wanting.
///
/// # Errors
/// Want of memory.
fn run_coming(
    rig: &mut Rig,
    mut driver: Box<Driver<Input>>,
    line: &DriverLine,
    terms: CaptureTerms,
) -> Result<Box<Driver<Input>>, AllocError>
    requires between { (setting_of rig.old).in_run ≡ false }
    requires coming { spec.IsComingFor terms driver.value }
    requires early { is_ready driver.value.bring_up.phase ≡ false }
    requires few { driver.value.calls < driver.value.runs }
    ensures { IfOk result (λ later. spec.CaptureRan terms (Drive line.now ∷ []) (Capturer.Coming driver)
        (Capturer.Coming later) rig.old rig.new) }
{
    match coming_line(rig, &mut driver, line, terms) {
        Ok(()) => Ok(driver),
        Err(failed) => {
            let _ = Box::into_inner(driver).abandon();
            Err(failed)
        }
    }
}

/// Runs a driver line of a schedule for a driver that records.
///
/// # Errors
/// Want of memory.
fn recording_line(
    rig: &mut Rig,
    driver: &mut RecordingDriver,
    line: &DriverLine,
    terms: CaptureTerms,
) -> Result<(), AllocError>
    requires between { (setting_of rig.old).in_run ≡ false }
    requires recording { spec.IsRecordingFor terms driver.old }
    requires few { driver.old.calls < driver.old.runs }
    ensures { OnOk result (spec.RecordsLine terms line.now driver.old driver.new rig.old rig.new) }
{
    runs_follow();
    rig.begin(line.groups.as_slice(), ROOM_ACCESSES, terms.room())?;
    let _phase = driver.phase();
    call_recording(rig, driver, line);
    rig.end();
    Ok(())
}

/// The same, and the driver is let go where memory is wanting.
///
/// # Errors
/// Want of memory.
fn run_recording(
    rig: &mut Rig,
    mut driver: Box<RecordingDriver>,
    line: &DriverLine,
    terms: CaptureTerms,
) -> Result<Box<RecordingDriver>, AllocError>
    requires between { (setting_of rig.old).in_run ≡ false }
    requires recording { spec.IsRecordingFor terms driver.value }
    requires few { driver.value.calls < driver.value.runs }
    ensures { IfOk result (λ later. spec.RecordsLine terms line.now driver.value later.value rig.old rig.new) }
{
    match recording_line(rig, &mut driver, line, terms) {
        Ok(()) => Ok(driver),
        Err(failed) => {
            let _ = Box::into_inner(driver).abandon();
            Err(failed)
        }
    }
}

/// Runs a driver line of a schedule. At the first line at which the codecs are set up a driver that records is made of
/// the parts of the one that set them up, and the line is its first call.
///
/// # Errors
/// Want of memory.
pub(crate) fn run_line(
    alloc: Global,
    rig: &mut Rig,
    capturer: Capturer,
    line: &DriverLine,
    terms: CaptureTerms,
) -> Result<Capturer, AllocError>
    requires between { (setting_of rig.old).in_run ≡ false }
    requires is { spec.IsCapturerFor terms capturer }
    requires few { spec.calls_of capturer < terms.runs }
    ensures { IfOk result (λ later. spec.CaptureRan terms (Drive line.now ∷ []) capturer later rig.old rig.new) }
{
    drivers_that_capture_keep_to_progress::<Input>();
    match capturer {
        Capturer::Recording(driver) => {
            let driver = run_recording(rig, driver, line, terms)?;
            Ok(Capturer::Recording(driver))
        }
        Capturer::Coming(driver) => match Box::into_inner(driver).into_parts() {
            Ok(parts) => {
                let driver = open_recording(alloc, parts, terms)?;
                let driver = boxed_recording(alloc, driver)?;
                let driver = run_recording(rig, driver, line, terms)?;
                Ok(Capturer::Recording(driver))
            }
            Err(driver) => {
                let driver = boxed_coming(alloc, driver)?;
                let driver = run_coming(rig, driver, line, terms)?;
                Ok(Capturer::Coming(driver))
            }
        },
    }
}
