//! Numbers as hexadecimal digits. Each call here appends to a text.
ghost use Rattle.std.specs.Prelude.{◌≡◌, ◌++◌, OnOk};
ghost use Rattle.std.specs.Int.{to_be_bytes, w16, w64};
ghost use Rattle.hex.specs.Hex.{encode_lower};
ghost use Rattle.sound_report.specs.PlanLines.{nid_text};
ghost use Rattle.trace_lines.specs.Verbs.{word_text};

use sound_report::push_hex;
use std::alloc::AllocError;

/// A byte: two digits.
pub(crate) fn push_byte(out: &mut Vec<u8>, byte: u8) -> Result<(), AllocError>
    ensures { OnOk result (out.new.items ≡ out.old.items ++ nid_text byte) }
{
    push_hex(out, &[byte])
}

/// A half word: four digits.
pub(crate) fn push_half(out: &mut Vec<u8>, half: u16) -> Result<(), AllocError>
    ensures { OnOk result (out.new.items ≡ out.old.items ++ encode_lower (to_be_bytes w16 half)) }
{
    push_hex(out, &half.to_be_bytes())
}

/// A word: eight digits.
pub(crate) fn push_whole_word(out: &mut Vec<u8>, word: u32) -> Result<(), AllocError>
    ensures { OnOk result (out.new.items ≡ out.old.items ++ word_text word) }
{
    push_hex(out, &word.to_be_bytes())
}

/// A double word: sixteen digits.
pub(crate) fn push_double(out: &mut Vec<u8>, double: u64) -> Result<(), AllocError>
    ensures { OnOk result (out.new.items ≡ out.old.items ++ encode_lower (to_be_bytes w64 double)) }
{
    push_hex(out, &double.to_be_bytes())
}
