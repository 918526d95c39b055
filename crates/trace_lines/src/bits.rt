//! The table of the registers' named bits (HDA 1.0a, 3.3).
ghost use Rattle.std.specs.Prelude.{◌≡◌, ◌≤◌, ◌++◌, OnOk};
ghost use Rattle.std.specs.List.{flat_map};
ghost use Rattle.trace_lines.specs.Names.{bit_of, row_text};
ghost use Rattle.trace_lines.specs.Registers.{bit_text, global_bits, is_set, stream_bits};

use hda_registers::places;
use sound_report::push_word;
use std::alloc::AllocError;
use verb_codes::has_bit;

/// A bit: the place of its register, its number there, and its name.
#[derive(Clone, Copy)]
pub(crate) struct BitName(pub u16, pub u8, pub &'static str);

const GLOBAL: [BitName; 33] = [
    BitName(places::GCTL, 0, "CRST"),
    BitName(places::GCTL, 8, "UNSOL"),
    BitName(places::STATESTS, 0, "SDIWAKE0"),
    BitName(places::STATESTS, 1, "SDIWAKE1"),
    BitName(places::STATESTS, 2, "SDIWAKE2"),
    BitName(places::STATESTS, 3, "SDIWAKE3"),
    BitName(places::STATESTS, 4, "SDIWAKE4"),
    BitName(places::STATESTS, 5, "SDIWAKE5"),
    BitName(places::STATESTS, 6, "SDIWAKE6"),
    BitName(places::STATESTS, 7, "SDIWAKE7"),
    BitName(places::STATESTS, 8, "SDIWAKE8"),
    BitName(places::STATESTS, 9, "SDIWAKE9"),
    BitName(places::STATESTS, 10, "SDIWAKE10"),
    BitName(places::STATESTS, 11, "SDIWAKE11"),
    BitName(places::STATESTS, 12, "SDIWAKE12"),
    BitName(places::STATESTS, 13, "SDIWAKE13"),
    BitName(places::STATESTS, 14, "SDIWAKE14"),
    BitName(places::INTCTL, 0, "SIE0"),
    BitName(places::INTCTL, 1, "SIE1"),
    BitName(places::INTCTL, 30, "CIE"),
    BitName(places::INTCTL, 31, "GIE"),
    BitName(places::INTSTS, 0, "SIS0"),
    BitName(places::INTSTS, 1, "SIS1"),
    BitName(places::INTSTS, 30, "CIS"),
    BitName(places::INTSTS, 31, "GIS"),
    BitName(places::CORBRP, 15, "CORBRPRST"),
    BitName(places::CORBCTL, 0, "CMEIE"),
    BitName(places::CORBCTL, 1, "CORBRUN"),
    BitName(places::RIRBWP, 15, "RIRBWPRST"),
    BitName(places::RIRBCTL, 0, "RINTCTL"),
    BitName(places::RIRBCTL, 1, "RIRBDMAEN"),
    BitName(places::RIRBCTL, 2, "RIRBOIC"),
    BitName(places::RIRBSTS, 0, "RINTFL"),
];

const STREAM: [BitName; 9] = [
    BitName(places::SDCTL, 0, "SRST"),
    BitName(places::SDCTL, 1, "RUN"),
    BitName(places::SDCTL, 2, "IOCE"),
    BitName(places::SDCTL, 3, "FEIE"),
    BitName(places::SDCTL, 4, "DEIE"),
    BitName(places::SDSTS, 2, "BCIS"),
    BitName(places::SDSTS, 3, "FIFOE"),
    BitName(places::SDSTS, 4, "DESE"),
    BitName(places::SDSTS, 5, "FIFORDY"),
];

/// Whether an access to so many bytes from a place on has the bit in it, and it is set in the value.
fn is_set(row: &BitName, at: u16, bytes: u16, value: u32) -> bool
    requires { bytes ≤ 4 }
    ensures { result ≡ is_set at bytes value (bit_of row.now) }
{
    let place = 8 * u32::from(row.0) + u32::from(row.1);
    let first = 8 * u32::from(at);
    let end = first + 8 * u32::from(bytes);
    first <= place && place < end && has_bit(value, place - first)
}

/// Appends the name of a bit where it is set in an access.
fn push_bit(
    out: &mut Vec<u8>,
    row: &BitName,
    at: u16,
    bytes: u16,
    value: u32,
) -> Result<(), AllocError>
    requires { bytes ≤ 4 }
    ensures { OnOk result (out.new.items ≡ out.old.items ++ bit_text at bytes value (bit_of row.now)) }
{
    if !is_set(row, at, bytes, value) {
        return Ok(());
    }
    push_word(out, " ")?;
    push_word(out, row.2)
}

/// Appends the names of the bits of these rows that are set in an access.
fn push_set(
    out: &mut Vec<u8>,
    rows: &[BitName],
    at: u16,
    bytes: u16,
    value: u32,
) -> Result<(), AllocError>
    requires { bytes ≤ 4 }
    ensures { OnOk result (out.new.items ≡ out.old.items ++ flat_map (row_text at bytes value) rows.now) }
{
    for row in rows {
        push_bit(out, row, at, bytes, value)?;
    }
    Ok(())
}

/// Appends the names of the bits that are set in an access below the stream descriptors.
pub(crate) fn push_global_bits(
    out: &mut Vec<u8>,
    at: u16,
    bytes: u16,
    value: u32,
) -> Result<(), AllocError>
    requires { bytes ≤ 4 }
    ensures { OnOk result (out.new.items ≡ out.old.items ++ flat_map (bit_text at bytes value) global_bits) }
{
    push_set(out, GLOBAL.as_slice(), at, bytes, value)
}

/// Appends the names of the bits that are set in an access from this place of a stream descriptor on.
pub(crate) fn push_stream_bits(
    out: &mut Vec<u8>,
    at: u16,
    bytes: u16,
    value: u32,
) -> Result<(), AllocError>
    requires { bytes ≤ 4 }
    ensures { OnOk result (out.new.items ≡ out.old.items ++ flat_map (bit_text at bytes value) stream_bits) }
{
    push_set(out, STREAM.as_slice(), at, bytes, value)
}
