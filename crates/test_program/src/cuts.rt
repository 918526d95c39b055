//! Plays whose sound is read from a shelf that fails meanwhile, or whose files change.
use crate::changing_shelf::{ChangingShelf, Plan};
use crate::runs::run_of;
use hda_outside::{MemSink, SureShelf};
use hda_program::{Ended, hda_main};
use std::alloc::{AllocError, Global};
use std::fmt::Write;
use stream_format::Bits;
use test_cases::{number_of, text_of};

/// The bytes that the sink takes in a call.
const TAKEN: usize = 4_096;

/// What both sides of a frame have more than those of the one before.
const STEP: u32 = 0x0001_0001;

/// Frames one after another, of which each has one more on both sides than the one before, or silent ones.
#[derive(Clone, Copy)]
struct Stretch {
    first: u32,
    last: u32,
    count: u64,
}

impl Stretch {
    /// Of no frame.
    const NONE: Stretch = Stretch {
        first: 0,
        last: 0,
        count: 0,
    };

    /// Whether a frame belongs to it too.
    fn goes_on(&self, frame: u32) -> bool {
        if self.last == 0 {
            return frame == 0;
        }
        frame == self.last.wrapping_add(STEP)
    }

    /// Puts it, where it has a frame.
    fn push(&self, text: &mut String) -> Result<(), AllocError> {
        if self.count == 0 {
            return Ok(());
        }
        write!(text, "\n  {} frames ", self.count)?;
        write!(text, "{:08x} to {:08x}", self.first, self.last)
    }

    /// Takes a frame; where it belongs to another stretch, puts this one first.
    fn take(&mut self, text: &mut String, frame: u32) -> Result<(), AllocError> {
        if self.count == 0 || !self.goes_on(frame) {
            self.push(text)?;
            *self = Stretch {
                first: frame,
                last: frame,
                count: 1,
            };
        } else {
            self.last = frame;
            self.count = self.count.saturating_add(1);
        }
        Ok(())
    }
}

/// The frame of eight digits of a line of sound, lowest byte first.
fn frame_of(digits: &[u8]) -> u32 {
    u32::from_str_radix(text_of(digits), 16)
        .unwrap_or(0)
        .swap_bytes()
}

/// The lines of a text; where frames are asked for, in the place of those of sound the stretches of frames.
fn push_lines(text: &mut String, written: &str, as_frames: bool) -> Result<(), AllocError> {
    let mut stretch = Stretch::NONE;
    for line in written.lines() {
        let digits = if as_frames {
            line.strip_prefix("sound ")
        } else {
            None
        };
        if let Some(digits) = digits {
            for frame in digits.as_bytes().chunks(8) {
                stretch.take(text, frame_of(frame))?;
            }
        } else {
            stretch.push(text)?;
            stretch = Stretch::NONE;
            write!(text, "\n  {line}")?;
        }
    }
    stretch.push(text)
}

/// The status of a play, how many frames were read of its sound where it made a run, and the text, with stretches of
/// frames where samples have 16 bits.
fn cut_text(alloc: Global, ended: &Ended, written: &[u8]) -> Result<String, AllocError> {
    let mut text = format!(in alloc; "{}", ended.status)?;
    let mut as_frames = false;
    if let Some(played) = &ended.play {
        as_frames = matches!(played.format.bits, Bits::B16);
        write!(text, " with its run, {} frames read", played.read)?;
    }
    let written = String::from_utf8_lossy(alloc, written)?;
    push_lines(&mut text, written.as_str(), as_frames)?;
    Ok(text)
}

/// Sets what the shelf does, where a word says so: whether it is such a word.
fn set(shelf: &mut ChangingShelf, word: &str) -> bool {
    let Some((name, number)) = word.split_once('=') else {
        return false;
    };
    let number = u64::from(number_of(number.as_bytes()));
    match name {
        "fails-call" => shelf.plan = Plan::FailsCall(number),
        "fails-at" => shelf.plan = Plan::FailsAt(number),
        "at" => shelf.plan = Plan::Resizes(number, u64::MAX),
        "to" => {
            if let Plan::Resizes(at, _) = shelf.plan {
                shelf.plan = Plan::Resizes(at, number);
            }
        }
        "most" => shelf.most = number,
        "piece" => shelf.piece = number as usize,
        _ => return false,
    }
    true
}

/// How a play ends over a shelf that does what the first words say, and how often the shelf was called: `fails-call`
/// with the number of a call, `fails-at` with a place of the WAV file, `at` with a place from which on a file has at
/// most so many bytes as `to` says, `most` with so many bytes at first, and `piece` with the most bytes that are given
/// in a call.
fn told(alloc: Global, words: &[Vec<u8>]) -> Result<(String, u64), AllocError> {
    let mut shelf = ChangingShelf::new(Vec::new(alloc), Plan::Nothing);
    let mut count: usize = 0;
    for word in words {
        if !set(&mut shelf, text_of(word)) {
            break;
        }
        count = count.saturating_add(1);
    }
    let run = run_of(alloc, words.get(count..).unwrap_or(&[]))?;
    shelf.files = SureShelf::new(run.files);
    let mut out = MemSink::new(alloc, TAKEN, Vec::new(alloc));
    let ended = hda_main(alloc, run.words.as_slice(), &mut shelf, &mut out);
    Ok((cut_text(alloc, &ended, out.bytes())?, shelf.calls))
}

/// How a play ends over such a shelf.
pub fn tell(alloc: Global, words: &[Vec<u8>]) -> Result<String, AllocError> {
    let (text, _) = told(alloc, words)?;
    Ok(text)
}

/// How often the shelf was called, and the same.
pub fn tell_calls(alloc: Global, words: &[Vec<u8>]) -> Result<String, AllocError> {
    let (text, calls) = told(alloc, words)?;
    format!(in alloc; "{calls} calls, {text}")
}
