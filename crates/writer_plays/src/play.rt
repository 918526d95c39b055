//! A play over the scripted platform: the writer's first run and later ones over a ring, and what came of them.
ghost use Rattle.std.specs.Prelude.{◌≡◌, ◌≤◌, false, true, ℕ};
ghost use Rattle.wav_reader.specs.Supplies.{Suffices};
ghost use Rattle.period_writer.specs.Writers.{KeepsRing};

use crate::scripted::{Access, Answer, Scripted};
use dma_pool::Pool;
use period_writer::{Geometry, GeometryFault, OpenFault, Ran, Writer};
use std::alloc::{AllocError, Global};
use stream_format::{Bits, Format, Rate};
use wav_reader::{Supply, read_wav};

/// The head of a WAV file at 48 kHz with 16 bits and two channels, up to the length of its sound.
const HEAD: &[u8] =
    b"RIFF\0\0\0\0WAVEfmt \x10\0\0\0\x01\0\x02\0\x80\xbb\0\0\0\xee\x02\0\x04\0\x10\0data";

/// The clock, and LPIB of the output stream.
pub(crate) const CLOCK: u16 = 0x30;

const POSITION: u16 = 0xA4;

/// In a pool of which nothing was taken the list stands first, and then the ring, after the granules of the list.
const LIST_PLACE: usize = 0;

/// How many bytes of the ring are looked at: all that the small ring has.
const SEEN_BYTES: usize = 768;

/// Where the ring stands then: an entry of the list has 16 bytes, and a granule 128.
pub(crate) fn ring_place(geometry: &Geometry) -> usize
    ensures { result ≤ 4096 }
{
    (16 * usize::from(geometry.periods())).div_ceil(128) * 128
}

/// A later run: the clock that it reads first, LPIB, the clock that it reads last, and its budget.
pub type Turn = (u32, u32, u32, u32);

/// What is read and asked for: the frames of sound, the two clocks and the budget of the first run, the later runs, and
/// the value of all other reads.
#[derive(Drop)]
pub struct Script {
    pub frames: u32,
    pub first: (u32, u32, u32),
    pub turns: Vec<Turn>,
    pub otherwise: u32,
}

/// A recorded run: `at`, `from`, `to`, `budget` and `written`.
pub type RunRow = (u64, u32, u32, u32, u64);

/// What came of a play.
#[derive(Drop)]
pub struct Played {
    /// What each later run answered.
    pub rans: Vec<Ran>,
    pub runs: Vec<RunRow>,
    pub silences: Vec<(u64, u64)>,
    /// The bytes of the ring after each run, one after another.
    pub rings: Vec<u8>,
    /// The bytes of the list's first two entries.
    pub list: Vec<u8>,
    pub accesses: Vec<Access>,
    /// How much room the first run left of that which it asks for.
    pub room: (usize, usize),
    /// How many bytes of sound are left.
    pub left: u64,
    /// How many answers were not asked for, and how many granules are free in the end.
    pub rest: (usize, u32),
}

/// Byte `at` of the sound, never 0.
pub fn sound_at(at: u32) -> u8 {
    (at % 255) as u8 + 1
}

/// A WAV file of so many frames.
fn file_of(alloc: Global, frames: u32) -> Result<Vec<u8>, AllocError> {
    let len = frames.saturating_mul(4);
    let mut bytes = Vec::from_slice(alloc, HEAD)?;
    bytes.extend_from_slice(&len.to_le_bytes())?;
    for at in 0..len {
        bytes.push(sound_at(at))?;
    }
    Ok(bytes)
}

/// So many frames of sound, unless memory is wanting.
pub fn supply_of(alloc: Global, frames: u32) -> Option<Supply> {
    let file = file_of(alloc, frames).ok()?;
    let wav = read_wav(alloc, file.as_slice()).ok()?;
    Some(Supply::whole(wav))
}

/// Whether a supply holds all that is left, so that it suffices for every run.
fn holds_all(supply: &Supply) -> bool
    ensures { (ring budget : ℕ) → result ≡ true → Suffices ring budget supply.now }
{
    supply.held() >= supply.left()
}

/// Sound from a rate on, of 16 bits and two channels.
pub fn format_at(rate: Rate) -> Format {
    Format {
        rate,
        bits: Bits::B16,
        channels: 2,
    }
}

/// Two periods of 384 bytes for a FIFO of 192, at 48 kHz: 768 bytes, of which 576 are 144 link frames of 4.
pub fn small_ring() -> Result<Geometry, GeometryFault> {
    Geometry::new(2, 1, 192, format_at(Rate::R48))
}

/// The answers to the reads of the clock and of LPIB in a play, in order.
pub fn answers_of(alloc: Global, script: &Script) -> Result<Vec<Answer>, AllocError> {
    let (from, to, _) = script.first;
    let mut answers = Vec::new(alloc);
    for value in [from, to] {
        answers.push(Answer { at: CLOCK, value })?;
    }
    for (from, lpib, to, _) in &script.turns {
        answers.push(Answer {
            at: CLOCK,
            value: *from,
        })?;
        answers.push(Answer {
            at: POSITION,
            value: *lpib,
        })?;
        answers.push(Answer {
            at: CLOCK,
            value: *to,
        })?;
    }
    Ok(answers)
}

/// The first run, with the room that it asks for and no more, from a supply that holds all that is left.
pub fn start(
    platform: &mut Scripted,
    writer: &mut Writer,
    supply: &mut Supply,
    geometry: &Geometry,
    budget: u32,
)
    requires fresh { writer.old.course.started ≡ false }
    requires geometry { writer.old.geometry ≡ geometry.now }
    ensures keeps { KeepsRing writer.old writer.new }
{
    if !holds_all(supply) {
        return;
    }
    let periods = usize::from(geometry.periods());
    platform.make_room(13 + 2 * periods, 16 * periods + geometry.ring() as usize);
    writer.start(platform, supply, budget);
}

/// A later run, with the room that it asks for and no more, where the stream plays, there is room to record it, and the
/// supply holds all that is left.
pub fn run(
    platform: &mut Scripted,
    writer: &mut Writer,
    supply: &mut Supply,
    geometry: &Geometry,
    budget: u32,
) -> Option<Ran>
    requires geometry { writer.old.geometry ≡ geometry.now }
    ensures keeps { KeepsRing writer.old writer.new }
{
    let course = writer.course();
    let is_open = course.started && course.ran == Ran::Playing && writer.has_free_record();
    if is_open && holds_all(supply) {
        platform.make_room(
            6 + usize::from(geometry.periods()),
            geometry.ring() as usize,
        );
        return Some(writer.run(platform, supply, budget));
    }
    None
}

/// The later runs, with what they answer and leave in the ring.
fn run_all(
    platform: &mut Scripted,
    writer: &mut Writer,
    supply: &mut Supply,
    geometry: &Geometry,
    script: &Script,
    played: &mut Played,
) -> Result<(), AllocError>
    requires geometry { writer.old.geometry ≡ geometry.now }
    ensures keeps { KeepsRing writer.old writer.new }
{
    for (_, _, _, budget) in &script.turns {
        if let Some(ran) = run(platform, writer, supply, geometry, *budget) {
            played.rans.push(ran)?;
            platform.copy_memory(ring_place(geometry), SEEN_BYTES, &mut played.rings)?;
        }
    }
    Ok(())
}

/// All runs of a script.
fn play_all(
    platform: &mut Scripted,
    writer: &mut Writer,
    supply: &mut Supply,
    geometry: &Geometry,
    script: &Script,
    played: &mut Played,
) -> Result<(), AllocError>
    requires fresh { writer.old.course.started ≡ false }
    requires geometry { writer.old.geometry ≡ geometry.now }
    ensures keeps { KeepsRing writer.old writer.new }
{
    let (_, _, budget) = script.first;
    start(platform, writer, supply, geometry, budget);
    played.room = platform.room();
    platform.copy_memory(ring_place(geometry), SEEN_BYTES, &mut played.rings)?;
    run_all(platform, writer, supply, geometry, script, played)?;
    record(platform, writer, played)
}

/// What the writer and the platform recorded.
pub fn record(platform: &Scripted, writer: &Writer, played: &mut Played) -> Result<(), AllocError> {
    for run in writer.runs() {
        played
            .runs
            .push((run.at, run.from, run.to, run.budget, run.written))?;
    }
    for silence in writer.silences() {
        played.silences.push((silence.start, silence.end))?;
    }
    platform.copy_memory(LIST_PLACE, 32, &mut played.list)?;
    played.accesses.extend_from_slice(platform.accesses())?;
    Ok(())
}

/// Nothing came yet.
pub fn nothing(alloc: Global) -> Played {
    Played {
        rans: Vec::new(alloc),
        runs: Vec::new(alloc),
        silences: Vec::new(alloc),
        rings: Vec::new(alloc),
        list: Vec::new(alloc),
        accesses: Vec::new(alloc),
        room: (0, 0),
        left: 0,
        rest: (0, 0),
    }
}

/// Plays a script over a ring, in a pool of which nothing was taken, unless a run or memory is wanting.
pub fn play_over(
    alloc: Global,
    geometry: Geometry,
    mut pool: Pool,
    script: &Script,
) -> Option<Played> {
    let mut supply = supply_of(alloc, script.frames)?;
    let answers = answers_of(alloc, script).ok()?;
    let mut platform = Scripted::new(alloc, answers, script.otherwise, true).ok()?;
    let mut played = nothing(alloc);
    let Ok(mut writer) = Writer::open(alloc, &mut pool, geometry, 8) else {
        return None;
    };
    let outcome = play_all(
        &mut platform,
        &mut writer,
        &mut supply,
        &geometry,
        script,
        &mut played,
    );
    writer.close(&mut pool);
    outcome.ok()?;
    played.left = supply.left();
    played.rest = (platform.answers_left(), pool.free());
    Some(played)
}

/// How many granules of a pool are free while a writer of the small ring is open, and after it was closed or refused;
/// unless memory is wanting.
pub fn free_in(alloc: Global, mut pool: Pool) -> Option<(Option<u32>, u32)> {
    let geometry = small_ring().ok()?;
    match Writer::open(alloc, &mut pool, geometry, 0) {
        Ok(writer) => {
            let free = pool.free();
            writer.close(&mut pool);
            Some((Some(free), pool.free()))
        }
        Err(OpenFault::NoRun) => Some((None, pool.free())),
        Err(OpenFault::OutOfMemory) => None,
    }
}
