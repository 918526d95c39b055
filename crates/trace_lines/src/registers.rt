//! Accesses to registers in words (HDA 1.0a, 3.3).
ghost use Rattle.std.specs.Prelude.{◌≡◌, ◌≤◌, ◌-◌, ◌++◌, OnOk, option_map};
ghost use Rattle.hda_registers.specs.Access.{bytes_of};
ghost use Rattle.trace_lines.specs.Names.{register_of};
ghost use Rattle.trace_lines.specs.Registers as text;

use crate::bits::{push_global_bits, push_stream_bits};
use crate::names::{RegisterName, global_register, stream_register};
use crate::words::push_half;
use hda_registers::Width;
use hda_registers::places::{INPUT_DESCRIPTOR, OUTPUT_DESCRIPTOR, WALCLK};
use sound_report::{push_hex, push_number, push_word};
use std::alloc::AllocError;

/// The mnemonic of a register behind a prefix, or the place where none begins there.
fn push_name(
    out: &mut Vec<u8>,
    prefix: &str,
    at: u16,
    name: Option<RegisterName>,
) -> Result<(), AllocError>
    ensures { OnOk result (out.new.items ≡ out.old.items ++ text.named prefix.now at (option_map register_of name)) }
{
    match name {
        Some(name) => {
            push_word(out, prefix)?;
            push_word(out, name.1)
        }
        None => push_half(out, at),
    }
}

/// The register at a place of the controller.
fn push_register(out: &mut Vec<u8>, at: u16) -> Result<(), AllocError>
    ensures { OnOk result (out.new.items ≡ out.old.items ++ text.register_text at) }
{
    if at < INPUT_DESCRIPTOR {
        push_name(out, "", at, global_register(at))
    } else if at < OUTPUT_DESCRIPTOR {
        push_name(out, "SD0", at, stream_register(at - INPUT_DESCRIPTOR))
    } else {
        push_name(out, "SD1", at, stream_register(at - OUTPUT_DESCRIPTOR))
    }
}

/// How many bytes an access of this width has.
fn bytes_in(width: Width) -> u16
    ensures value { result ≡ bytes_of width }
    ensures few { result ≤ 4 }
{
    match width {
        Width::One => 1,
        Width::Two => 2,
        Width::Four => 4,
    }
}

/// A value in as many digits as an access of this width has.
fn push_value(out: &mut Vec<u8>, width: Width, value: u32) -> Result<(), AllocError>
    ensures { OnOk result (out.new.items ≡ out.old.items ++ text.value_text width value) }
{
    let bytes = value.to_be_bytes();
    let first = 4 - usize::from(bytes_in(width));
    push_hex(out, &bytes[first..])
}

/// What is read of the wall clock, in decimal.
fn push_ticks(out: &mut Vec<u8>, at: u16, value: u32) -> Result<(), AllocError>
    ensures { OnOk result (out.new.items ≡ out.old.items ++ text.ticks_text at value) }
{
    if at != WALCLK {
        return Ok(());
    }
    push_word(out, " ")?;
    push_number(out, value.into())?;
    push_word(out, " ticks")
}

/// The names of the bits that are set in an access.
fn push_bits(out: &mut Vec<u8>, at: u16, bytes: u16, value: u32) -> Result<(), AllocError>
    requires { bytes ≤ 4 }
    ensures { OnOk result (out.new.items ≡ out.old.items ++ text.bits_text at bytes value) }
{
    if at < INPUT_DESCRIPTOR {
        push_global_bits(out, at, bytes, value)
    } else if at < OUTPUT_DESCRIPTOR {
        push_stream_bits(out, at - INPUT_DESCRIPTOR, bytes, value)
    } else {
        push_stream_bits(out, at - OUTPUT_DESCRIPTOR, bytes, value)
    }
}

/// Appends an access to a register: its bytes, the register, the value, and the named bits that are set.
///
/// # Errors
/// Want of memory.
pub(crate) fn push_access(
    out: &mut Vec<u8>,
    at: u16,
    width: Width,
    value: u32,
) -> Result<(), AllocError>
    ensures { OnOk result (out.new.items ≡ out.old.items ++ text.access_text at width value) }
{
    let bytes = bytes_in(width);
    push_number(out, bytes.into())?;
    push_word(out, " ")?;
    push_register(out, at)?;
    push_word(out, " ")?;
    push_value(out, width, value)?;
    push_ticks(out, at, value)?;
    push_bits(out, at, bytes, value)
}
