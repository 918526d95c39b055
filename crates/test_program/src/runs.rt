//! Runs of the program over files in memory.
use crate::changing_shelf::{ChangingShelf, Plan};
use hda_outside::MemSink;
use hda_program::{Ended, hda_main, play_files};
use sound_report::report;
use std::alloc::{AllocError, Global};
use std::fmt::Write;
use test_cases::{number_of, text_of};

/// The bytes that a sink takes in a call.
const TAKEN: usize = 4_096;

/// The bytes that a sink takes in a call which fails at one of them.
const FEW_TAKEN: usize = 10;

/// A run: the words of the program, and the files that are there.
#[derive(Drop)]
pub struct Run {
    pub words: Vec<String>,
    pub files: Vec<(String, Vec<u8>)>,
}

/// Puts so many frames of so many channels of 16 bits, of which the first is 1 and each other one more than the one
/// before.
fn push_frames(bytes: &mut Vec<u8>, channels: u8, count: u32) -> Result<(), AllocError> {
    for number in 1..=count {
        for _ in 0..channels {
            let [low, high, _, _] = number.to_le_bytes();
            bytes.extend_from_slice(&[low, high])?;
        }
    }
    Ok(())
}

/// Puts a part of a file: its bytes, or so many frames where it is `mono` or `stereo` with a number behind `=`.
fn push_part(bytes: &mut Vec<u8>, part: &[u8]) -> Result<(), AllocError> {
    match text_of(part).split_once('=') {
        Some(("mono", count)) => push_frames(bytes, 1, number_of(count.as_bytes())),
        Some(("stereo", count)) => push_frames(bytes, 2, number_of(count.as_bytes())),
        _ => bytes.extend_from_slice(part),
    }
}

/// The run of a case. A word that ends with a colon is the name of a file, whose parts follow; before the first stand
/// the words of the program.
pub fn run_of(alloc: Global, words: &[Vec<u8>]) -> Result<Run, AllocError> {
    let mut run = Run {
        words: Vec::new(alloc),
        files: Vec::new(alloc),
    };
    for word in words {
        if let [name @ .., b':'] = word.as_slice() {
            let name = String::from_str(alloc, text_of(name))?;
            run.files.push((name, Vec::new(alloc)))?;
        } else if let Some((_, bytes)) = run.files.last_mut() {
            push_part(bytes, word)?;
        } else {
            run.words.push(String::from_str(alloc, text_of(word))?)?;
        }
    }
    Ok(run)
}

/// The status of a run, whether a run of the driver was given or a capture, and each line of the text.
fn ended_text(alloc: Global, ended: &Ended, written: &[u8]) -> Result<String, AllocError> {
    let given = if ended.play.is_some() {
        " with its run"
    } else if ended.capture.is_some() {
        " with its capture"
    } else {
        ""
    };
    let mut text = format!(in alloc; "{}{given}", ended.status)?;
    let written = String::from_utf8_lossy(alloc, written)?;
    for line in written.lines() {
        write!(text, "\n  {line}")?;
    }
    Ok(text)
}

/// How a run ends over a shelf that does this and over a sink.
fn told(alloc: Global, run: Run, plan: Plan, mut out: MemSink) -> Result<String, AllocError> {
    let mut shelf = ChangingShelf::new(run.files, plan);
    let ended = hda_main(alloc, run.words.as_slice(), &mut shelf, &mut out);
    ended_text(alloc, &ended, out.bytes())
}

/// A sink that takes all.
fn whole_sink(alloc: Global) -> MemSink {
    MemSink::new(alloc, TAKEN, Vec::new(alloc))
}

/// How the program ends with these words over these files.
pub fn tell(alloc: Global, words: &[Vec<u8>]) -> Result<String, AllocError> {
    let run = run_of(alloc, words)?;
    told(alloc, run, Plan::Nothing, whole_sink(alloc))
}

/// The same where the shelf fails in one call, whose number, from 0, comes first.
pub fn tell_unread(alloc: Global, words: &[Vec<u8>]) -> Result<String, AllocError> {
    let [call, rest @ ..] = words else {
        return format!(in alloc; "no call");
    };
    let plan = Plan::FailsCall(u64::from(number_of(call)));
    let run = run_of(alloc, rest)?;
    told(alloc, run, plan, whole_sink(alloc))
}

/// The same where the sink takes 10 bytes in a call, and fails in one.
pub fn tell_unwritten(alloc: Global, words: &[Vec<u8>]) -> Result<String, AllocError> {
    let [call, rest @ ..] = words else {
        return format!(in alloc; "no call");
    };
    let call = vec![in alloc; u64::from(number_of(call))]?;
    let run = run_of(alloc, rest)?;
    let out = MemSink::new(alloc, FEW_TAKEN, call);
    told(alloc, run, Plan::Nothing, out)
}

/// The words of a run.
fn copied(alloc: Global, words: &[Vec<u8>]) -> Result<Vec<Vec<u8>>, AllocError> {
    let mut copy = Vec::new(alloc);
    for word in words {
        copy.push(word.clone()?)?;
    }
    Ok(copy)
}

/// What came of a run, on one line, where the last file has these lines.
fn on_one_line(alloc: Global, words: &[Vec<u8>], lines: &[u8]) -> Result<String, AllocError> {
    let mut words = copied(alloc, words)?;
    words.push(Vec::from_slice(alloc, lines)?)?;
    let told = tell(alloc, words.as_slice())?;
    told.as_str().replace(alloc, "\n  ", "; ")
}

/// How the program ends where the last file has none of its lines, the first, the first two, and so on up to all but
/// one: each run on a line.
pub fn tell_fronts(alloc: Global, words: &[Vec<u8>]) -> Result<String, AllocError> {
    let [words @ .., file] = words else {
        return format!(in alloc; "no file");
    };
    let mut text = String::new(alloc);
    let mut front = Vec::new(alloc);
    for line in text_of(file).lines() {
        text.push_str("\n  ")?;
        text.push_str(on_one_line(alloc, words, &front)?.as_str())?;
        front.extend_from_slice(line.as_bytes())?;
        front.push(b'\n')?;
    }
    Ok(text)
}

/// The status of a run and the last line of its text, where the last file has these bytes.
fn ending(alloc: Global, words: &[Vec<u8>], bytes: &[u8]) -> Result<String, AllocError> {
    let mut words = copied(alloc, words)?;
    words.push(Vec::from_slice(alloc, bytes)?)?;
    let run = run_of(alloc, words.as_slice())?;
    let mut shelf = ChangingShelf::new(run.files, Plan::Nothing);
    let mut out = whole_sink(alloc);
    let ended = hda_main(alloc, run.words.as_slice(), &mut shelf, &mut out);
    let written = String::from_utf8_lossy(alloc, out.bytes())?;
    let mut last = "";
    for line in written.lines() {
        last = line;
    }
    format!(in alloc; "{} {last}", ended.status)
}

/// How the program ends where the last file has none of its bytes, the first, the first two, and so on up to all: a
/// line for each stretch of lengths that end alike.
pub fn tell_prefixes(alloc: Global, words: &[Vec<u8>]) -> Result<String, AllocError> {
    let [words @ .., file] = words else {
        return format!(in alloc; "no file");
    };
    let mut text = String::new(alloc);
    let mut first: usize = 0;
    let mut last: usize = 0;
    let mut said = ending(alloc, words, &[])?;
    for len in 1..=file.len() {
        let next = ending(alloc, words, file.get(..len).unwrap_or(&[]))?;
        if next.as_str() != said.as_str() {
            write!(text, "\n  {first} to {last}: {said}")?;
            first = len;
            said = next;
        }
        last = len;
    }
    write!(text, "\n  {first} to {last}: {said}")?;
    Ok(text)
}

/// How a play ends that is called without words, by three names and the numbers of a ring, and whether its report is
/// what was written.
pub fn tell_files(alloc: Global, words: &[Vec<u8>]) -> Result<String, AllocError> {
    let Run { words, files } = run_of(alloc, words)?;
    let [codec, wav, schedule] = words.as_slice() else {
        return format!(in alloc; "no names");
    };
    let mut shelf = ChangingShelf::new(files, Plan::Nothing);
    let mut out = whole_sink(alloc);
    let ended = play_files(
        alloc,
        &mut shelf,
        &mut out,
        codec.as_str(),
        wav.as_str(),
        schedule.as_str(),
        2,
        1,
    );
    let mut text = ended_text(alloc, &ended, out.bytes())?;
    let Ended {
        status: _,
        play,
        capture: _,
    } = ended;
    if let Some(played) = play {
        let whole = report(alloc, &played)?;
        if whole.as_slice() == out.bytes() {
            text.push_str("\n  which is its report")?;
        }
    }
    Ok(text)
}
