//! Recordings over the scripted platform: the recorder's first run and later ones over a ring that is filled meanwhile,
//! and what came of them.
ghost use Rattle.std.specs.Prelude.{◌≡◌, ◌≤◌, ◌<◌, ◌+◌, ◌*◌, ◌^◌, false, true};
ghost use Rattle.stream_format.specs.Cadence.{block_bytes};
ghost use Rattle.wav_writer.specs.declared.file.TheConstants.{MOST_RING_BYTES};
ghost use Rattle.hda_capture.specs.Recorders.{KeepsRecorderRing};

use crate::play::{CLOCK, ring_place, sound_at};
use crate::scripted::{Access, Answer, Scripted};
use dma_pool::Pool;
use hda_capture::{Recorded, RecordedRun, Recorder, Recording};
use hda_platform::OpenFault;
use period_writer::Geometry;
use std::alloc::{AllocError, Global};
use wav_writer::MOST_RING_BYTES;

/// LPIB of the input stream.
const INPUT_POSITION: u16 = 0x84;

/// A later run: the clock that it reads first, LPIB, up to which position bytes were stored by then, and the clock that
/// it reads last.
pub type RecordTurn = (u32, u32, u32, u32);

/// What is read, and what is stored meanwhile: the frames to record, the two clocks of the first run, the later runs,
/// and the value of all other reads.
#[derive(Drop)]
pub struct RecordScript {
    pub frames: u32,
    pub first: (u32, u32),
    pub turns: Vec<RecordTurn>,
    pub otherwise: u32,
}

/// What came of a recording.
#[derive(Drop)]
pub struct RecordPlayed {
    /// What each later run answered.
    pub answers: Vec<Recorded>,
    pub runs: Vec<RecordedRun>,
    pub bytes: Vec<u8>,
    pub accesses: Vec<Access>,
    /// The limit, how many runs are recorded, and how many bytes, as the recorder told before it was closed.
    pub told: (u32, usize, usize),
    /// How much room the first run left of that which it asks for.
    pub room: (usize, usize),
    /// How many answers were not asked for, and how many granules are free in the end.
    pub rest: (usize, u32),
}

/// The answers to the reads of the clock and of LPIB, in order.
fn record_answers(alloc: Global, script: &RecordScript) -> Result<Vec<Answer>, AllocError> {
    let (from, to) = script.first;
    let mut answers = Vec::new(alloc);
    for value in [from, to] {
        answers.push(Answer { at: CLOCK, value })?;
    }
    for (from, lpib, _, to) in &script.turns {
        answers.push(Answer {
            at: CLOCK,
            value: *from,
        })?;
        answers.push(Answer {
            at: INPUT_POSITION,
            value: *lpib,
        })?;
        answers.push(Answer {
            at: CLOCK,
            value: *to,
        })?;
    }
    Ok(answers)
}

/// Whether a WAV file can hold so many frames.
fn can_hold(geometry: &Geometry, frames: u32) -> bool
    ensures { result ≡ true → frames * block_bytes geometry.now.format ≤ MOST_RING_BYTES }
{
    u64::from(frames) * u64::from(geometry.format().block_bytes()) <= u64::from(MOST_RING_BYTES)
}

/// Stores the bytes of the sound at the positions from one on up to another, round the ring.
fn store(platform: &mut Scripted, geometry: &Geometry, from: u32, to: u32) {
    let place = ring_place(geometry);
    for at in from..to {
        if let Some(offset) = at.checked_rem(geometry.ring()) {
            platform.put(place + offset as usize, sound_at(at));
        }
    }
}

/// The first run, with the room that it asks for and no more.
fn start(platform: &mut Scripted, recorder: &mut Recorder, geometry: &Geometry)
    requires fresh { recorder.old.course.started ≡ false }
    requires geometry { recorder.old.geometry ≡ geometry.now }
    ensures keeps { KeepsRecorderRing recorder.old recorder.new }
{
    let periods = usize::from(geometry.periods());
    platform.make_room(13 + periods, 16 * periods);
    recorder.start(platform);
}

/// A later run, with the room that it asks for and no more, where the stream records and there is room to record it.
fn run(platform: &mut Scripted, recorder: &mut Recorder, geometry: &Geometry) -> Option<Recorded>
    requires geometry { recorder.old.geometry ≡ geometry.now }
    ensures keeps { KeepsRecorderRing recorder.old recorder.new }
{
    let course = recorder.course();
    if course.started && course.recorded == Recorded::Recording && recorder.has_free_record() {
        platform.make_room(
            5 + usize::from(geometry.periods()),
            geometry.ring() as usize,
        );
        return Some(recorder.run(platform));
    }
    None
}

/// The later runs, each after what is stored by then, and what they answer.
fn run_all(
    platform: &mut Scripted,
    recorder: &mut Recorder,
    geometry: &Geometry,
    script: &RecordScript,
    answers: &mut Vec<Recorded>,
) -> Result<(), AllocError>
    requires geometry { recorder.old.geometry ≡ geometry.now }
    ensures keeps { KeepsRecorderRing recorder.old recorder.new }
{
    let mut stored = 0;
    for (_, _, up_to, _) in &script.turns {
        store(platform, geometry, stored, *up_to);
        stored = *up_to;
        if let Some(answer) = run(platform, recorder, geometry) {
            answers.push(answer)?;
        }
    }
    Ok(())
}

/// Records a script over a ring, in a pool of which nothing was taken.
///
/// # Errors
/// That of [`Recorder::open`]; `OutOfMemory` also where memory is wanting elsewhere.
pub fn record_over(
    alloc: Global,
    geometry: Geometry,
    mut pool: Pool,
    script: &RecordScript,
) -> Result<RecordPlayed, OpenFault> {
    if !can_hold(&geometry, script.frames) {
        return Err(OpenFault::OutOfMemory);
    }
    let Ok(answers) = record_answers(alloc, script) else {
        return Err(OpenFault::OutOfMemory);
    };
    let Ok(mut platform) = Scripted::new(alloc, answers, script.otherwise, true) else {
        return Err(OpenFault::OutOfMemory);
    };
    let mut recorder = Recorder::open(alloc, &mut pool, geometry, 8, u64::from(script.frames))?;
    start(&mut platform, &mut recorder, &geometry);
    let room = platform.room();
    let mut answers = Vec::new(alloc);
    let outcome = run_all(
        &mut platform,
        &mut recorder,
        &geometry,
        script,
        &mut answers,
    );
    let told = (
        recorder.limit(),
        recorder.runs().len(),
        recorder.bytes().len(),
    );
    let Recording { bytes, runs } = recorder.close(&mut pool);
    if outcome.is_err() {
        return Err(OpenFault::OutOfMemory);
    }
    let mut accesses = Vec::new(alloc);
    if accesses.extend_from_slice(platform.accesses()).is_err() {
        return Err(OpenFault::OutOfMemory);
    }
    Ok(RecordPlayed {
        answers,
        runs,
        bytes,
        accesses,
        told,
        room,
        rest: (platform.answers_left(), pool.free()),
    })
}
