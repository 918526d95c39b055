//! Which writes of registers may change what converters hear of the output stream.
ghost use Rattle.std.specs.Prelude.{◌≡◌, ◌≤◌, ◌^◌};
ghost use Rattle.device_core.specs.Sound as spec;

use hda_registers::Width;
use hda_registers::places::{GCTL, OUTPUT_DESCRIPTOR, SDCTL, SDFMT, SDSTS};

/// The word of four bytes of GCTL.
const GCTL_WORD: u16 = GCTL / 4;
/// The first byte of the output stream's control, and the one after its last.
const CONTROL: u16 = OUTPUT_DESCRIPTOR + SDCTL;

const CONTROL_END: u16 = OUTPUT_DESCRIPTOR + SDSTS;
/// The first byte of its format, and the one after its last.
const FORMAT: u16 = OUTPUT_DESCRIPTOR + SDFMT;

const FORMAT_END: u16 = FORMAT + 2;

/// Whether a write of this width at this place may change the tag or the format of the output stream: it touches GCTL,
/// by which all registers may be reset, or a byte of the control or of the format of descriptor 1 (HDA 1.0a, 3.3.7,
/// 3.3.35 and 3.3.41). A write of its status alone, at the fourth byte of the control, may not.
pub fn touches_sound(at: u16, width: Width) -> bool
    ensures { result ≡ spec.touches_sound at width }
{
    let bytes = width.bytes();
    at / 4 == GCTL_WORD
        || meets(at, bytes, CONTROL, CONTROL_END)
        || meets(at, bytes, FORMAT, FORMAT_END)
}

/// Whether so many bytes from a place on have a byte from `from` on and before `to`.
fn meets(at: u16, bytes: u16, from: u16, to: u16) -> bool
    ensures { result ≡ spec.meets at bytes from to }
{
    at < to && u32::from(from) < u32::from(at) + u32::from(bytes)
}
