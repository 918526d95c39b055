//! The driver's side of the rings over scripted registers.
ghost use Rattle.std.specs.Prelude.{◌≡◌, ◌≤◌, ◌+◌, []};
ghost use Rattle.verb_codes.specs.Verbs.{IsInRange};

use crate::scripted::Scripted;
use command_engine::{ANSWER_LIMIT, Engine, Event, OpenFault, Poll};
use dma_pool::Pool;
use hda_platform::Platform;
use std::alloc::{AllocError, Global};
use std::fmt::Write;
use test_cases::number_of;
use verb_codes::{Command, Verb};

/// The sizes of rings of 256 entries, as the size registers read.
const FULL: u32 = 0x42;

/// How many addresses of codecs there are.
const CODECS: usize = 15;

/// The blocks of a pool in which both rings have a run.
const BLOCKS: u32 = 24;

/// The command that asks codec 2 for its vendor.
fn ask_vendor() -> Command
    ensures { IsInRange result }
{
    Command {
        codec: 2,
        nid: 0,
        verb: Verb::GetParam(0),
    }
}

/// The numbers that words are.
fn numbers(alloc: Global, words: &[Vec<u8>]) -> Result<Vec<u32>, AllocError> {
    let mut numbers = Vec::new(alloc);
    for word in words {
        numbers.push(number_of(word))?;
    }
    Ok(numbers)
}

/// The codecs that a start gives where STATESTS, CORBSIZE and RIRBSIZE read so.
pub fn tell_start(alloc: Global, words: &[Vec<u8>]) -> Result<String, AllocError> {
    let reads = numbers(alloc, words)?;
    let mut pool = Pool::new(alloc, BLOCKS)?;
    let mut platform = Scripted::new(alloc, &reads, 16, 0)?;
    match Engine::open(alloc, &mut pool) {
        Ok(mut engine) => {
            let codecs = engine.start(&mut platform);
            engine.close(&mut pool);
            format!(in alloc; "{codecs:04x}")
        }
        Err(_) => format!(in alloc; "no engine"),
    }
}

/// Whether an engine is opened over a pool of so many blocks, and how many are free then.
pub fn tell_open(alloc: Global, words: &[Vec<u8>]) -> Result<String, AllocError> {
    let [blocks] = words else {
        return format!(in alloc; "no pool");
    };
    let mut pool = Pool::new(alloc, number_of(blocks).clamp(1, 64))?;
    match Engine::open(alloc, &mut pool) {
        Ok(engine) => {
            engine.close(&mut pool);
            format!(in alloc; "opened")
        }
        Err(OpenFault::NoRun) => format!(in alloc; "NoRun, {} free", pool.free()),
        Err(OpenFault::OutOfMemory) => format!(in alloc; "OutOfMemory"),
    }
}

/// Stores responses and their sources in a ring, from its entry 1 on.
fn store_entries(platform: &mut Scripted, ring: usize, entries: &[[u32; 2]])
    requires { ring ≤ 4096 }
    ensures accesses { ⟦<Scripted as Platform>⟧.spare_accesses platform.new ≡ ⟦<Scripted as Platform>⟧.spare_accesses
        platform.old }
    ensures bytes { ⟦<Scripted as Platform>⟧.spare_bytes platform.new ≡ ⟦<Scripted as Platform>⟧.spare_bytes
        platform.old }
{
    for place in 0..entries.len().min(255) {
        let [response, source] = entries[place];
        platform.set_word(ring + 8 * (place + 1), response);
        platform.set_word(ring + 8 * (place + 1) + 4, source);
    }
}

/// Starts the engine for codec 2, submits a command at a clock, has these responses written, and polls once at another
/// clock.
fn poll_once(
    engine: &mut Engine,
    platform: &mut Scripted,
    clocks: (u32, u32),
    entries: &[[u32; 2]],
) -> Option<Poll>
    requires accesses { 400 ≤ ⟦<Scripted as Platform>⟧.spare_accesses platform.old }
    requires bytes { 4000 ≤ ⟦<Scripted as Platform>⟧.spare_bytes platform.old }
    requires events { engine.old.events ≡ [] }
    ensures corb { engine.new.corb ≡ engine.old.corb }
    ensures rirb { engine.new.rirb ≡ engine.old.rirb }
{
    let (issued, clock) = clocks;
    let (_, rirb) = engine.addresses();
    engine.start(platform);
    if !engine.is_started() || engine.outstanding().is_some() || rirb > 4_096 {
        return None;
    }
    engine.submit(platform, ask_vendor(), issued);
    store_entries(platform, rirb as usize, entries);
    Some(engine.poll(platform, clock))
}

/// The first events of a poll, as many as codecs can be, and how many others there are.
fn events_of(engine: &mut Engine) -> ([Option<Event>; CODECS], u32)
    ensures corb { engine.new.corb ≡ engine.old.corb }
    ensures rirb { engine.new.rirb ≡ engine.old.rirb }
{
    let mut first = [None; CODECS];
    for turn in 0..CODECS {
        first[turn] = engine.next_event();
    }
    (first, drain(engine))
}

/// Takes the events that are left, and counts them.
fn drain(engine: &mut Engine) -> u32
    ensures corb { engine.new.corb ≡ engine.old.corb }
    ensures rirb { engine.new.rirb ≡ engine.old.rirb }
{
    let mut count = 0;
    for turn in 0..256_u32 {
        if engine.next_event().is_none() {
            return count;
        }
        count = turn + 1;
    }
    count
}

/// What a poll answers, the codec and the tag of each of its first events, and how many others there are.
fn polled_text(
    alloc: Global,
    poll: Option<Poll>,
    (first, more): ([Option<Event>; CODECS], u32),
) -> Result<String, AllocError> {
    let mut text = format!(in alloc; "{poll:?}, events")?;
    for event in first {
        if let Some(Event { codec, tag }) = event {
            write!(text, " {codec}.{tag}")?;
        }
    }
    write!(text, ", and {more} more")?;
    Ok(text)
}

/// What a poll tells. The command is submitted at the first clock and polled at the second; the write pointer reads so,
/// and these responses with their sources were written.
fn polled(
    alloc: Global,
    clocks: (u32, u32),
    pointer: u32,
    entries: &[[u32; 2]],
) -> Result<String, AllocError> {
    let flag = u32::from(pointer != 0);
    let reads = [4, FULL, FULL, 0x8000, 0, flag, pointer];
    let mut pool = Pool::new(alloc, BLOCKS)?;
    let mut platform = Scripted::new(alloc, &reads, 400, 4_000)?;
    match Engine::open(alloc, &mut pool) {
        Ok(mut engine) => {
            let poll = poll_once(&mut engine, &mut platform, clocks, entries);
            let events = events_of(&mut engine);
            engine.close(&mut pool);
            polled_text(alloc, poll, events)
        }
        Err(_) => format!(in alloc; "no engine"),
    }
}

/// What a poll tells of a command to codec 2: the clock at which it is submitted and that of the poll, what the write
/// pointer reads, how often the responses are written, and these, each with its source.
pub fn tell_poll(alloc: Global, words: &[Vec<u8>]) -> Result<String, AllocError> {
    let [issued, clock, pointer, times, given @ ..] = words else {
        return format!(in alloc; "no poll");
    };
    let mut entries = Vec::new(alloc);
    for _ in 0..number_of(times) {
        for entry in given.chunks(2) {
            if let [response, source] = entry {
                entries.push([number_of(response), number_of(source)])?;
            }
        }
    }
    let clocks = (number_of(issued), number_of(clock));
    polled(alloc, clocks, number_of(pointer), entries.as_slice())
}

/// Polls once more, unless an event is left.
fn poll_again(engine: &mut Engine, platform: &mut Scripted, clock: u32) -> Option<Poll>
    requires accesses { 258 ≤ ⟦<Scripted as Platform>⟧.spare_accesses platform.old }
    requires bytes { 2040 ≤ ⟦<Scripted as Platform>⟧.spare_bytes platform.old }
    ensures corb { engine.new.corb ≡ engine.old.corb }
    ensures rirb { engine.new.rirb ≡ engine.old.rirb }
    ensures accesses { ⟦<Scripted as Platform>⟧.spare_accesses platform.old ≤ ⟦<Scripted as Platform>⟧.spare_accesses
        platform.new + 258 }
    ensures bytes { ⟦<Scripted as Platform>⟧.spare_bytes platform.old ≤ ⟦<Scripted as Platform>⟧.spare_bytes
        platform.new + 2040 }
{
    match engine.next_event() {
        Some(_) => None,
        None => Some(engine.poll(platform, clock)),
    }
}

/// What a started engine with an idle codec tells in four polls after a command at this clock: three while the clock
/// stands still, and the last at the limit of the answer.
fn poll_standing(
    engine: &mut Engine,
    platform: &mut Scripted,
    clock: u32,
) -> Option<[Option<Poll>; 4]>
    requires accesses { 1050 ≤ ⟦<Scripted as Platform>⟧.spare_accesses platform.old }
    requires bytes { 8164 ≤ ⟦<Scripted as Platform>⟧.spare_bytes platform.old }
    ensures corb { engine.new.corb ≡ engine.old.corb }
    ensures rirb { engine.new.rirb ≡ engine.old.rirb }
{
    engine.start(platform);
    if !engine.is_started() || engine.outstanding().is_some() {
        return None;
    }
    engine.submit(platform, ask_vendor(), clock);
    let first = poll_again(engine, platform, clock);
    let second = poll_again(engine, platform, clock);
    let third = poll_again(engine, platform, clock);
    let last = poll_again(engine, platform, clock.saturating_add(ANSWER_LIMIT));
    Some([first, second, third, last])
}

/// What four polls tell of a codec that never answers: three while the clock stands still, and one at the limit.
pub fn tell_standing(alloc: Global, words: &[Vec<u8>]) -> Result<String, AllocError> {
    let [clock] = words else {
        return format!(in alloc; "no clock");
    };
    let mut pool = Pool::new(alloc, BLOCKS)?;
    let mut platform = Scripted::new(alloc, &[4, FULL, FULL, 0x8000], 1_050, 8_164)?;
    match Engine::open(alloc, &mut pool) {
        Ok(mut engine) => {
            let polls = poll_standing(&mut engine, &mut platform, number_of(clock));
            engine.close(&mut pool);
            format!(in alloc; "{polls:?}")
        }
        Err(_) => format!(in alloc; "no engine"),
    }
}
