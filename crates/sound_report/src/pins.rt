//! The parts of pins. A `push` call appends to a text, and a `write` call to the page, which goes out where it is
//! full.
ghost use Rattle.std.specs.Prelude.{◌≡◌, ◌<◌, ◌≤◌, ◌*◌, max, min, ◌∷◌, ◌++◌, length, get_or, drop, OnOk};
ghost use Rattle.std.specs.List.{flat_map};
ghost use Rattle.hda_outside.specs.Counts.{Rose};
ghost use Rattle.heard_lists.specs.declared.pin_list.PinHeard.{PinHeard};
ghost use Rattle.sound_report.specs.Pages.{Writes};
ghost use Rattle.sound_report.specs.PinParts as text;
ghost use Rattle.sound_report.specs.StretchTexts as told;

use crate::pages::turn;
use crate::pieces::{push_hex, push_word};
use hda_outside::{Fault, Sink};
use heard_lists::{HeardPins, Kind, Stretch};
use std::alloc::AllocError;
use std::io::Write;
use stream_format::Bits;

/// How many blocks of sound a line has.
const LINE_BLOCKS: usize = 16;

/// How many bytes the two samples of a block have.
fn block_len(bits: Bits) -> usize
    ensures value { result ≡ told.block_len bits }
    ensures some { 0 < result }
{
    match bits {
        Bits::B16 => 4,
        Bits::B24 | Bits::B32 => 8,
    }
}

/// A line of sound, whose blocks have these samples.
fn push_sound_line(page: &mut Vec<u8>, samples: &[u8]) -> Result<(), AllocError>
    ensures { OnOk result (page.new.items ≡ page.old.items ++ told.samples_line samples.now) }
{
    push_word(page, "sound ")?;
    push_hex(page, samples)?;
    push_word(page, "\n")
}

/// Blocks of sound with these samples, line by line.
fn write_sound_lines<K: Sink>(
    out: &mut K,
    page: &mut Vec<u8>,
    bits: Bits,
    samples: &[u8],
) -> Result<(), Fault>
    ensures text { Writes result (K.taken out.old) (K.taken out.new)
        (page.old.items ++ told.samples_lines bits samples.now) page.new.items }
    ensures pieces { K.longest out.new ≤ max (K.longest out.old) 4096 }
    ensures later { K.faults out.old ≤ K.faults out.new }
    ensures failed { result ≡ Err Fault.Failed → Rose (K.faults out.old) (K.faults out.new) }
{
    for line in samples.chunks(LINE_BLOCKS * block_len(bits)) {
        push_sound_line(page, line)?;
        turn(out, page)?;
    }
    Ok(())
}

/// How long a stretch is, after the word for its kind.
fn write_count<K: Sink>(
    out: &mut K,
    page: &mut Vec<u8>,
    word: &str,
    items: usize,
) -> Result<(), Fault>
    ensures text { Writes result (K.taken out.old) (K.taken out.new) (page.old.items ++ text.count_line word.now items)
        page.new.items }
    ensures pieces { K.longest out.new ≤ max (K.longest out.old) 4096 }
    ensures later { K.faults out.old ≤ K.faults out.new }
    ensures failed { result ≡ Err Fault.Failed → Rose (K.faults out.old) (K.faults out.new) }
{
    writeln!(page, "{word} {items}").map_err(|_| AllocError)?;
    turn(out, page)
}

/// The lines of a stretch, which has these samples.
fn write_stretch<K: Sink>(
    out: &mut K,
    page: &mut Vec<u8>,
    bits: Bits,
    stretch: Stretch,
    samples: &[u8],
) -> Result<(), Fault>
    ensures text { Writes result (K.taken out.old) (K.taken out.new)
        (page.old.items ++ told.stretch_text bits stretch.kind stretch.items samples.now) page.new.items }
    ensures pieces { K.longest out.new ≤ max (K.longest out.old) 4096 }
    ensures later { K.faults out.old ≤ K.faults out.new }
    ensures failed { result ≡ Err Fault.Failed → Rose (K.faults out.old) (K.faults out.new) }
{
    match stretch.kind {
        Kind::Sound => write_sound_lines(out, page, bits, samples),
        Kind::Quiet => write_count(out, page, "quiet", stretch.items),
        Kind::Hole => write_count(out, page, "hole", stretch.items),
        Kind::Altered => write_count(out, page, "altered", stretch.items),
    }
}

/// How many of these bytes are the samples of a stretch at their front.
fn samples_len(bits: Bits, stretch: Stretch, rest: &[u8]) -> usize
    ensures { result ≡ min (told.samples_len bits stretch.kind stretch.items) (length rest.now) }
{
    match stretch.kind {
        Kind::Sound => stretch
            .items
            .saturating_mul(block_len(bits))
            .min(rest.len()),
        Kind::Quiet | Kind::Hole | Kind::Altered => 0,
    }
}

/// The bytes after so many.
fn after(bytes: &[u8], len: usize) -> &[u8]
    requires { len ≤ length bytes.now }
    ensures { result.now ≡ drop len bytes.now }
{
    &bytes[len..]
}

/// What a pin heard, stretch by stretch, with the samples of all of them.
fn write_heard<K: Sink>(
    out: &mut K,
    page: &mut Vec<u8>,
    bits: Bits,
    stretches: &[Stretch],
    samples: &[u8],
) -> Result<(), Fault>
    ensures text { Writes result (K.taken out.old) (K.taken out.new)
        (page.old.items ++ told.stretches_text bits stretches.now samples.now) page.new.items }
    ensures pieces { K.longest out.new ≤ max (K.longest out.old) 4096 }
    ensures later { K.faults out.old ≤ K.faults out.new }
    ensures failed { result ≡ Err Fault.Failed → Rose (K.faults out.old) (K.faults out.new) }
{
    let mut rest = samples;
    for place in 0..stretches.len() {
        let stretch = stretches[place];
        let len = samples_len(bits, stretch, rest);
        write_stretch(out, page, bits, stretch, &rest[..len])?;
        rest = after(rest, len);
    }
    Ok(())
}

/// The first line of a pin.
#[tactic(auto, unfolding(crate::specs::PlanLines::nid_text))]
fn push_pin_line(page: &mut Vec<u8>, codec: u8, pin: u8) -> Result<(), AllocError>
    ensures { OnOk result (page.new.items ≡ page.old.items ++ text.pin_line codec pin) }
{
    write!(page, "pin {codec} ").map_err(|_| AllocError)?;
    push_hex(page, &[pin])?;
    push_word(page, "\n")
}

/// The part of a pin that heard these stretches, with the samples of all of them.
fn write_pin<K: Sink>(
    out: &mut K,
    page: &mut Vec<u8>,
    bits: Bits,
    codec: u8,
    pin: u8,
    stretches: &[Stretch],
    samples: &[u8],
) -> Result<(), Fault>
    ensures text { Writes result (K.taken out.old) (K.taken out.new) (page.old.items
        ++ (text.pin_line codec pin ++ told.stretches_text bits stretches.now samples.now)) page.new.items }
    ensures pieces { K.longest out.new ≤ max (K.longest out.old) 4096 }
    ensures later { K.faults out.old ≤ K.faults out.new }
    ensures failed { result ≡ Err Fault.Failed → Rose (K.faults out.old) (K.faults out.new) }
{
    push_pin_line(page, codec, pin)?;
    write_heard(out, page, bits, stretches, samples)
}

/// The part of the pin at a place, counted from 0, whose stretches and samples are gathered in `stretches` and
/// `samples`.
fn write_pin_at<K: Sink>(
    out: &mut K,
    page: &mut Vec<u8>,
    stretches: &mut Vec<Stretch>,
    samples: &mut Vec<u8>,
    bits: Bits,
    pins: &HeardPins,
    place: usize,
) -> Result<(), Fault>
    requires { place < length pins.now }
    ensures text { (pin : PinHeard) → Writes result (K.taken out.old) (K.taken out.new)
        (page.old.items ++ text.pin_part bits (get_or pins.now place pin)) page.new.items }
    ensures pieces { K.longest out.new ≤ max (K.longest out.old) 4096 }
    ensures later { K.faults out.old ≤ K.faults out.new }
    ensures failed { result ≡ Err Fault.Failed → Rose (K.faults out.old) (K.faults out.new) }
{
    let (codec, pin) = pins.head(place);
    pins.put_stretches(place, bits, stretches, samples)?;
    write_pin(
        out,
        page,
        bits,
        codec,
        pin,
        stretches.as_slice(),
        samples.as_slice(),
    )
}

/// The parts of pins.
///
/// # Errors
/// The sink's fault, or want of memory.
pub(crate) fn write_pins<K: Sink>(
    out: &mut K,
    page: &mut Vec<u8>,
    bits: Bits,
    pins: &HeardPins,
) -> Result<(), Fault>
    ensures text { Writes result (K.taken out.old) (K.taken out.new)
        (page.old.items ++ flat_map (text.pin_part bits) pins.now) page.new.items }
    ensures pieces { K.longest out.new ≤ max (K.longest out.old) 4096 }
    ensures later { K.faults out.old ≤ K.faults out.new }
    ensures failed { result ≡ Err Fault.Failed → Rose (K.faults out.old) (K.faults out.new) }
{
    let alloc = *page.allocator();
    let mut stretches = Vec::new(alloc);
    let mut samples = Vec::new(alloc);
    for place in 0..pins.len() {
        write_pin_at(out, page, &mut stretches, &mut samples, bits, pins, place)?;
    }
    Ok(())
}
