//! Holds the meter of a journal against what the device said in it: each link position that the driver read, and what
//! the pins heard. Prints a line for each run.
#![tactic(auto)]

use hda_outside::{Fault, FileShelf, OutSink, Shelf, Sink, write_all};
use hda_program::{Answer, answer_request};
use hda_registers::places::{OUTPUT_DESCRIPTOR, SDLPIB};
use hda_world::Entry;
use heard_frames::Heard;
use program_words::read_run;
use run_picture::{Meter, meter_after, run_picture};
use sound_report::Played;
use std::alloc::{AllocError, Global};
use std::process::ExitCode;

/// What came of the comparison of a run.
struct Found {
    /// How many link positions were read.
    positions: u64,
    /// How many of them are not those of the meter.
    wrong: u64,
    /// Where the stream stands at the end.
    meter: Meter,
}

/// Whether a link position is that of the meter: the bytes that were sent, modulo the ring's.
fn is_right(meter: &Meter, value: u32) -> bool {
    meter.ring != 0 && meter.sent % u64::from(meter.ring.max(1)) == u64::from(value)
}

/// Goes over the journal of a run.
fn compare(played: &Played) -> Found {
    let mut found = Found {
        positions: 0,
        wrong: 0,
        meter: Meter::opened(),
    };
    for entry in played.journal.entries() {
        if let Entry::Read { at, value, .. } = entry {
            if *at == OUTPUT_DESCRIPTOR + SDLPIB {
                found.positions = found.positions.saturating_add(1);
                if !is_right(&found.meter, *value) {
                    found.wrong = found.wrong.saturating_add(1);
                }
            }
        }
        found.meter = meter_after(found.meter, played.format, played.machine.fifo, entry);
    }
    found
}

/// How many items of what the pin at a place heard are holes, and how many items there are.
fn holes_at(alloc: Global, played: &Played, place: usize) -> Result<(u64, u64), AllocError> {
    let mut items = Vec::new(alloc);
    if place < played.heard.len() {
        played.heard.push_list(place, &mut items)?;
    }
    let holes = items.iter().filter(|item| **item == Heard::Hole).count();
    Ok((holes as u64, items.len() as u64))
}

/// What is printed of a run.
fn told(alloc: Global, name: &str, played: &Played) -> Result<String, AllocError> {
    let Found {
        positions,
        wrong,
        meter,
    } = compare(played);
    let (holes, items) = holes_at(alloc, played, 0)?;
    let blocks = meter.sent / u64::from(played.format.block_bytes().max(1));
    let missed = meter.items.saturating_sub(blocks);
    let same = holes == missed && items == meter.items;
    let shapes = run_picture(alloc, played)?.shapes.len();
    let drawn = if shapes > 30 { "drawn" } else { "words" };
    format!(in alloc;
        "{name}: {positions} positions, {wrong} wrong; {items} items, {holes} holes, same {same}; {drawn}"
    )
}

/// The words of the runs: a codec, a WAV file, a schedule, and maybe options.
const RUNS: [&[&str]; 6] = [
    &["one_path.toml", "two_frames.wav", "with_a_hole.txt"],
    &["one_path.toml", "tone.wav", "on_time.txt"],
    &["alc888_like.toml", "tone.wav", "one_codec.txt"],
    &["two_codecs.toml", "tone.wav", "two_codecs.txt"],
    &["alc888_like.toml", "tone.wav", "holes.txt"],
    &[
        "one_path.toml",
        "tone.wav",
        "late_by_one_frame.txt",
        "--periods",
        "2",
        "--period",
        "1",
    ],
];

/// The words of a run as the program has them.
fn words_of(alloc: Global, words: &[&str]) -> Result<Vec<String>, AllocError> {
    let mut list = Vec::new(alloc);
    list.push(String::from_str(alloc, "test_picture")?)?;
    for word in words {
        list.push(String::from_str(alloc, word)?)?;
    }
    Ok(list)
}

/// What is printed of the run of these words.
fn told_of<S: Shelf>(alloc: Global, shelf: &mut S, words: &[&str]) -> Result<String, AllocError> {
    let list = words_of(alloc, words)?;
    if list.is_empty() || words.len() < 3 {
        return String::from_str(alloc, "no words");
    }
    let Ok(request) = read_run(alloc, list.as_slice()) else {
        return String::from_str(alloc, "no run asked for");
    };
    match answer_request(alloc, shelf, request)? {
        Answer::Run(played) => told(alloc, words[2], &played),
        Answer::Made(..) | Answer::Captured(_) | Answer::Message(_) => String::from_str(
            alloc, "no run",
        ),
    }
}

/// Prints a line for each run.
fn print_all<S: Shelf, K: Sink>(alloc: Global, shelf: &mut S, out: &mut K) -> Result<(), Fault> {
    for words in RUNS {
        let mut line = told_of(alloc, shelf, words)?;
        line.push('\n')?;
        write_all(alloc, out, line.as_bytes())?;
    }
    Ok(())
}

fn main(rt: HostRuntime) -> ExitCode {
    let mut shelf = FileShelf::new(&rt);
    let mut out = OutSink::new(&rt);
    match print_all(rt.alloc(), &mut shelf, &mut out) {
        Ok(()) => ExitCode::from(0),
        Err(Fault::Failed) => ExitCode::from(4),
        Err(Fault::OutOfMemory) => ExitCode::from(12),
    }
}
