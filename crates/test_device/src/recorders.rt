//! Recorders over rigs, once a driver has set the codec up for its input.
ghost use Rattle.std.specs.Prelude.{◌≡◌, ◌≤◌, false, IfOk, IfSome, OnOk};
ghost use Rattle.hda_files.specs.Machines.{IsSound};
ghost use Rattle.period_writer.specs.Writers.{ring_size};
ghost use Rattle.rig.specs.Rigs.{setting_of, telling_of};
ghost use Rattle.hda_capture.specs.Recorders as recorders;
ghost use Rattle.hda_capture.specs.Recorders.{KeepsRecorderRing};
ghost use Rattle.hda_capture.specs.declared.room.TheConstants.{MOST_RECORD_ACCESSES};

use crate::drivers::{BLOCKS, CALLS, format, no_sound};
use analog_in::Input;
use audio_driver::{Driver, OpenFault, ROOM_ACCESSES, ROOM_BYTES};
use dma_pool::Pool;
use hda_capture::{MOST_RECORD_ACCESSES, Recorded, RecordedRun, Recorder, Recording};
use hda_files::{Machine, read_machine};
use hda_platform::{Platform, Step};
use hda_registers::Width;
use hda_registers::places::{CORBCTL, RIRBCTL};
use period_writer::Geometry;
use rig::Rig;
use std::alloc::{AllocError, Global};
use std::fmt::Write;
use test_cases::{number_of, push_stretches, text_of};

/// The bytes of the ring here.
const RING_BYTES: u32 = 768;

/// The most frames that are given and recorded here.
const MOST_FRAMES: u32 = 4_096;

/// What the device does for a command of the codec at address 0.
const ANSWER: [Step; 3] = [Step::Corb, Step::Answer(0), Step::Rirb];

/// A driver that sets the codec at address 0 up for its input. `None` where it is not opened, which does not happen.
fn input_driver(alloc: Global) -> Result<Option<Driver<Input>>, AllocError>
    ensures silent { IfOk result (λ made. IfSome made (λ driver. driver.play ≡ false)) }
    ensures ring { IfOk result (λ made. IfSome made (λ driver. ring_size driver.writer ≡ 768)) }
{
    let Ok(geometry) = Geometry::new(2, 1, 192, format()) else {
        return Ok(None);
    };
    let pool = Pool::new(alloc, BLOCKS)?;
    let sound = no_sound(alloc);
    match Driver::open_with(alloc, Input::new(0), pool, geometry, sound, CALLS, false) {
        Ok(driver) => Ok(Some(driver)),
        Err(OpenFault::NoRun) => Ok(None),
        Err(OpenFault::OutOfMemory) => Err(AllocError),
    }
}

/// A call of the driver, where one is left.
fn call(rig: &mut Rig, driver: &mut Driver<Input>) -> Result<(), AllocError>
    requires between { (setting_of rig.old).in_run ≡ false }
    requires silent { driver.old.play ≡ false }
    requires ring { ring_size driver.old.writer ≡ 768 }
    ensures between { OnOk result ((setting_of rig.new).in_run ≡ false) }
    ensures silent { driver.new.play ≡ false }
    ensures ring { ring_size driver.new.writer ≡ 768 }
{
    if !driver.has_call_left() {
        return Ok(());
    }
    rig.begin(&[], ROOM_ACCESSES, RING_BYTES + ROOM_BYTES)?;
    let _phase = driver.run(rig, 0)?;
    rig.end();
    Ok(())
}

/// The device makes some steps.
fn make(rig: &mut Rig, steps: &[Step]) -> Result<(), AllocError>
    requires { (setting_of rig.old).in_run ≡ false }
    ensures { (setting_of rig.new).in_run ≡ false }
{
    for step in steps {
        rig.step(step)?;
    }
    Ok(())
}

/// The bring-up, and so many commands, each of which is answered.
fn set_up(rig: &mut Rig, driver: &mut Driver<Input>, commands: u32) -> Result<(), AllocError>
    requires between { (setting_of rig.old).in_run ≡ false }
    requires silent { driver.old.play ≡ false }
    requires ring { ring_size driver.old.writer ≡ 768 }
    ensures between { OnOk result ((setting_of rig.new).in_run ≡ false) }
{
    call(rig, driver)?;
    make(rig, &[Step::Link(25)])?;
    call(rig, driver)?;
    for _command in 0..commands {
        make(rig, &ANSWER)?;
        call(rig, driver)?;
    }
    Ok(())
}

/// Stops the rings of commands and responses, so that their blocks can be taken again.
fn stop_rings(rig: &mut Rig) -> Result<(), AllocError>
    requires { (setting_of rig.old).in_run ≡ false }
    ensures { OnOk result ((setting_of rig.new).in_run ≡ false) }
{
    rig.begin(&[], 2, 0)?;
    rig.write(CORBCTL, Width::One, 0);
    rig.write(RIRBCTL, Width::One, 0);
    rig.end();
    Ok(())
}

/// The first run of a recorder, or a later one where there is one to be.
fn run_next<P: Platform>(platform: &mut P, recorder: &mut Recorder) -> Option<Recorded>
    requires ring { recorders.ring_size recorder.old ≡ 768 }
    requires room { MOST_RECORD_ACCESSES ≤ P.spare_accesses platform.old }
    requires bytes_room { 768 ≤ P.spare_bytes platform.old }
    ensures keeps { KeepsRecorderRing recorder.old recorder.new }
    ensures fixed { P.fixed platform.new ≡ P.fixed platform.old }
{
    let course = recorder.course();
    if !course.started {
        recorder.start(platform);
        return None;
    }
    if course.recorded == Recorded::Recording && recorder.has_free_record() {
        return Some(recorder.run(platform));
    }
    None
}

/// The next run of a recorder over a rig.
fn record(rig: &mut Rig, recorder: &mut Recorder) -> Result<(), AllocError>
    requires between { (setting_of rig.old).in_run ≡ false }
    requires ring { recorders.ring_size recorder.old ≡ 768 }
    ensures between { OnOk result ((setting_of rig.new).in_run ≡ false) }
    ensures keeps { KeepsRecorderRing recorder.old recorder.new }
{
    rig.begin(&[], MOST_RECORD_ACCESSES, RING_BYTES)?;
    let _recorded = run_next(rig, recorder);
    rig.end();
    Ok(())
}

/// Follows pairs of words: a run of the recorder, or a step of the device with its number.
fn follow(rig: &mut Rig, recorder: &mut Recorder, words: &[Vec<u8>]) -> Result<(), AllocError>
    requires between { (setting_of rig.old).in_run ≡ false }
    requires ring { recorders.ring_size recorder.old ≡ 768 }
    ensures keeps { KeepsRecorderRing recorder.old recorder.new }
{
    for pair in words.chunks(2) {
        let [what, number] = pair else {
            continue;
        };
        let number = number_of(number);
        match text_of(what) {
            "link" => rig.step(&Step::Link(number))?,
            "fetch" => rig.step(&Step::Fetch(0, u16::try_from(number).unwrap_or(0)))?,
            _ => record(rig, recorder)?,
        }
    }
    Ok(())
}

/// What came of a recording.
#[derive(Drop)]
struct Told {
    recorded: Recorded,
    bytes: Vec<u8>,
    runs: Vec<RecordedRun>,
    free: u32,
}

/// Records so many frames over the rig, by these words. `None` where the recorder is not opened, which does not happen.
fn record_all(
    alloc: Global,
    rig: &mut Rig,
    mut pool: Pool,
    frames: u32,
    words: &[Vec<u8>],
) -> Result<Option<Told>, AllocError>
    requires { (setting_of rig.old).in_run ≡ false }
{
    let Ok(geometry) = Geometry::new(2, 1, 192, format()) else {
        return Ok(None);
    };
    let Ok(mut recorder) = Recorder::open(
        alloc,
        &mut pool,
        geometry,
        16,
        u64::from(frames.min(MOST_FRAMES)),
    ) else {
        return Ok(None);
    };
    let outcome = follow(rig, &mut recorder, words);
    let recorded = recorder.course().recorded;
    let Recording { bytes, runs } = recorder.close(&mut pool);
    outcome?;
    Ok(Some(Told {
        recorded,
        bytes,
        runs,
        free: pool.free(),
    }))
}

/// So many frames of sound, whose bytes follow one another.
fn sound_of(alloc: Global, frames: u32) -> Result<Vec<u8>, AllocError> {
    let mut sound = Vec::new(alloc);
    for at in 0..4 * frames.min(MOST_FRAMES) {
        sound.push((at % 255) as u8 + 1)?;
    }
    Ok(sound)
}

/// A rig of this machine whose input pins are given this sound, between runs.
fn rig_given(alloc: Global, machine: Machine, sound: Vec<u8>) -> Result<Rig, AllocError>
    requires { IsSound machine }
    ensures { IfOk result (λ rig. (setting_of rig).in_run ≡ false) }
{
    let mut rig = Rig::new(alloc, machine)?;
    rig.give(sound);
    Ok(rig)
}

/// Puts how many blocks in a row were taken or dropped.
fn push_taken(text: &mut String, taken: &[bool]) -> Result<(), AllocError> {
    text.push_str("\n  blocks")?;
    let mut was = true;
    let mut count: u32 = 0;
    for is in taken {
        if *is != was {
            push_row(text, was, count)?;
            count = 0;
        }
        was = *is;
        count = count.saturating_add(1);
    }
    push_row(text, was, count)
}

/// Puts how many blocks were taken, or dropped, if some were.
fn push_row(text: &mut String, taken: bool, count: u32) -> Result<(), AllocError> {
    if count == 0 {
        return Ok(());
    }
    write!(text, " {} {count}", if taken { "taken" } else { "dropped" })
}

/// Sets the codec up by a driver with so many commands, lets the driver go, and records.
fn record_over(
    alloc: Global,
    rig: &mut Rig,
    commands: u32,
    frames: u32,
    words: &[Vec<u8>],
) -> Result<Option<Told>, AllocError>
    requires { (setting_of rig.old).in_run ≡ false }
{
    let Some(mut driver) = input_driver(alloc)? else {
        return Ok(None);
    };
    let outcome = set_up(rig, &mut driver, commands);
    let pool = driver.abandon();
    outcome?;
    stop_rings(rig)?;
    record_all(alloc, rig, pool, frames, words)
}

/// What is recorded over the machine of a codec file that is set up with so many commands, whose pins are given so many
/// frames, and of which so many are to be recorded.
pub fn tell(alloc: Global, words: &[Vec<u8>]) -> Result<String, AllocError> {
    let [file, commands, given, frames, words @ ..] = words else {
        return format!(in alloc; "no codec");
    };
    let Ok(machine) = read_machine(alloc, file) else {
        return format!(in alloc; "refused");
    };
    let sound = sound_of(alloc, number_of(given))?;
    let mut rig = rig_given(alloc, machine, sound)?;
    let commands = number_of(commands);
    let frames = number_of(frames);
    let Some(told) = record_over(alloc, &mut rig, commands, frames, words)? else {
        return format!(in alloc; "not opened");
    };
    let mut text = format!(in alloc; "{:?}, {} free", told.recorded, told.free)?;
    for run in &told.runs {
        write!(
            text,
            "\n  run {} {} {} {}",
            run.at, run.from, run.to, run.read
        )?;
    }
    push_stretches(&mut text, "bytes", told.bytes.as_slice())?;
    push_taken(&mut text, rig.taken())?;
    Ok(text)
}
