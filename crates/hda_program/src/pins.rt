//! How many pins a sound can be played through.
ghost use Rattle.std.specs.Prelude.{◌≡◌, IfOk, Ok, nat_le, true, false};
ghost use Rattle.hda_program.specs.Pins.{AreFewPins, AreTooManyPins, most_pins, pins_among, pins_in};

use codec_graph::{Graph, PinKind, order_as};
use hda_files::CodecFile;
use std::alloc::{AllocError, Global};

/// How many digital pins a sound can be played through.
const MOST_PINS: usize = 16;

/// How many candidate pins of the kind a codec has.
///
/// # Errors
/// Want of memory.
fn pins_in(alloc: Global, kind: PinKind, graph: &Graph) -> Result<usize, AllocError>
    ensures { IfOk result (λ count. count ≡ pins_in kind graph.now) }
{
    // What is known of a graph: its node identifiers are below 128.
    let _codec = graph.raw();
    let pins = order_as(alloc, kind, graph)?;
    Ok(pins.len())
}

/// Whether the codecs have at most [`MOST_PINS`] candidate pins of the kind together.
///
/// # Errors
/// Want of memory.
fn are_few(alloc: Global, kind: PinKind, codecs: &[CodecFile]) -> Result<bool, AllocError>
    ensures { IfOk result (λ few. few ≡ nat_le (pins_among kind codecs.now) most_pins) }
{
    let mut left = MOST_PINS;
    for codec in codecs {
        let pins = pins_in(alloc, kind, &codec.graph)?;
        if pins > left {
            return Ok(false);
        }
        left -= pins;
    }
    Ok(true)
}

/// Whether a sound can be played through the candidate pins of the kind of these codecs: there are few digital ones. A
/// codec file that is read has few analog ones.
///
/// # Errors
/// Want of memory.
pub(crate) fn are_few_pins(
    alloc: Global,
    kind: PinKind,
    codecs: &[CodecFile],
) -> Result<bool, AllocError>
    ensures few { result ≡ Ok true → AreFewPins kind codecs.now }
    ensures many { result ≡ Ok false → AreTooManyPins kind codecs.now }
{
    match kind {
        PinKind::Analog => Ok(true),
        PinKind::Digital => are_few(alloc, kind, codecs),
    }
}
