//! The line that tells the run of made inputs.
ghost use Rattle.std.specs.Prelude.{◌≡◌, ◌++◌, IfOk, OnOk, sum_by, count_by, string_bytes};
ghost use Rattle.program_runs.specs.MadeLines as spec;

use heard_frames::Heard;
use heard_lists::{HeardPins, PinHeard};
use period_writer::Span;
use sound_report::Played;
use std::alloc::{AllocError, Global};

/// The pin of the made machine.
const MADE_PIN: u8 = 0x14;

/// The bytes of some silences.
fn silence_bytes(silences: &[Span]) -> u128
    ensures { result ≡ spec.silence_bytes silences.now }
{
    let mut bytes = 0u128;
    for span in silences {
        let span = *span;
        bytes += u128::from(span.end.saturating_sub(span.start));
    }
    bytes
}

/// How many link frames the pin of the made machine missed, of what one pin heard.
fn holes_in(heard: &PinHeard) -> usize
    ensures { result ≡ spec.holes_in heard.now }
{
    if heard.pin == MADE_PIN {
        let items = heard.list.as_slice();
        items.iter().filter(|item| **item == Heard::Hole).count()
    } else {
        0
    }
}

/// And of what all pins heard.
///
/// # Errors
/// Want of memory.
fn holes_of(alloc: Global, heard: &HeardPins) -> Result<u128, AllocError>
    ensures { IfOk result (λ holes. holes ≡ spec.holes_of heard.now) }
{
    let mut holes = 0u128;
    for place in 0..heard.len() {
        let pin = heard.pin(alloc, place)?;
        holes += holes_in(&pin) as u128;
    }
    Ok(holes)
}

/// Appends a number of the line with its name.
fn push_count(line: &mut String, name: &str, count: u128) -> Result<(), AllocError>
    ensures { OnOk result (string_bytes line.new ≡ string_bytes line.old ++ spec.number_word name.now count) }
{
    write!(line, " {name} {count}")
}

/// The line that tells a run of the inputs that are made of a number and ends with this status: how many frames of
/// sound there are, how many runs of the ring were recorded, how many bytes of its line were silence, and how many link
/// frames the machine's pin missed.
///
/// # Errors
/// Want of memory.
pub fn made_line(
    alloc: Global,
    number: u16,
    status: u8,
    played: &Played,
) -> Result<String, AllocError>
    ensures { IfOk result (λ line. string_bytes line ≡ spec.made_line number status played.now) }
{
    let silence = silence_bytes(played.silences.as_slice());
    let holes = holes_of(alloc, &played.heard)?;
    let mut line = format!(in alloc; "make {number}")?;
    push_count(&mut line, "frames", u128::from(played.total))?;
    push_count(&mut line, "runs", played.runs.len() as u128)?;
    push_count(&mut line, "silence", silence)?;
    push_count(&mut line, "holes", holes)?;
    push_count(&mut line, "status", u128::from(status))?;
    line.push_str("\n")?;
    Ok(line)
}
