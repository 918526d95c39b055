//! Words, numbers and digits. Each call here appends to a text.
ghost use Rattle.std.specs.Prelude.{◌≡◌, ◌++◌, OnOk, decimal};
ghost use Rattle.hex.specs.Hex.{encode_lower};

use crate::digits::put_digits;
use std::alloc::AllocError;
use std::io::Write;

/// Appends a word.
///
/// # Errors
/// Want of memory.
pub fn push_word(out: &mut Vec<u8>, word: &str) -> Result<(), AllocError>
    ensures { OnOk result (out.new.items ≡ out.old.items ++ word.now) }
{
    out.extend_from_slice(word.as_bytes())
}

/// Appends a number, decimal.
///
/// # Errors
/// Want of memory.
pub fn push_number(out: &mut Vec<u8>, n: u64) -> Result<(), AllocError>
    ensures { OnOk result (out.new.items ≡ out.old.items ++ decimal n) }
{
    write!(out, "{n}").map_err(|_| AllocError)
}

/// Appends some bytes, each as two lower hexadecimal digits.
///
/// # Errors
/// Want of memory.
pub fn push_hex(out: &mut Vec<u8>, bytes: &[u8]) -> Result<(), AllocError>
    ensures { OnOk result (out.new.items ≡ out.old.items ++ encode_lower bytes.now) }
{
    let start = out.len();
    let Some(digits) = bytes.len().checked_mul(2) else {
        return Err(AllocError);
    };
    let Some(end) = start.checked_add(digits) else {
        return Err(AllocError);
    };
    out.resize(end, 0)?;
    put_digits(bytes, &mut out[start..]);
    Ok(())
}
