//! The steps of the device, as lines of a schedule have them.
ghost use Rattle.std.specs.Prelude.{◌≡◌, ◌++◌, OnOk};
ghost use Rattle.trace_lines.specs.Steps as text;

use crate::words::push_byte;
use sound_report::{push_number, push_word};
use std::alloc::AllocError;
use world_steps::Step;

/// A number behind a word and a space.
fn push_counted(out: &mut Vec<u8>, word: &str, number: u64) -> Result<(), AllocError>
    ensures { OnOk result (out.new.items ≡ out.old.items ++ text.one_number word.now number) }
{
    push_word(out, word)?;
    push_word(out, " ")?;
    push_number(out, number)
}

/// A stream's fetch.
fn push_fetch(out: &mut Vec<u8>, stream: u8, bytes: u16) -> Result<(), AllocError>
    ensures { OnOk result (out.new.items ≡ out.old.items ++ text.fetch_step stream bytes) }
{
    push_counted(out, "fetch", stream.into())?;
    push_word(out, " ")?;
    push_number(out, bytes.into())
}

/// A codec and one of its pins behind a word.
fn push_pin(out: &mut Vec<u8>, word: &str, codec: u8, pin: u8) -> Result<(), AllocError>
    ensures { OnOk result (out.new.items ≡ out.old.items ++ text.pin_step word.now codec pin) }
{
    push_counted(out, word, codec.into())?;
    push_word(out, " ")?;
    push_byte(out, pin)
}

/// Appends a step.
///
/// # Errors
/// Want of memory.
pub(crate) fn push_step(out: &mut Vec<u8>, step: Step) -> Result<(), AllocError>
    ensures { OnOk result (out.new.items ≡ out.old.items ++ text.step_text step) }
{
    match step {
        Step::Corb => push_word(out, "corb"),
        Step::Answer(codec) => push_counted(out, "answer", codec.into()),
        Step::Lose(codec) => push_counted(out, "lose", codec.into()),
        Step::Rirb => push_word(out, "rirb"),
        Step::Fetch(stream, bytes) => push_fetch(out, stream, bytes),
        Step::Link(frames) => push_counted(out, "link", frames.into()),
        Step::Plug(codec, pin) => push_pin(out, "plug", codec, pin),
        Step::Unplug(codec, pin) => push_pin(out, "unplug", codec, pin),
    }
}
