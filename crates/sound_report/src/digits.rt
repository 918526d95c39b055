//! Lower hexadecimal digits of bytes.
ghost use Rattle.std.specs.Prelude.{◌≡◌, ◌<◌, ◌*◌, length, slice_index};
ghost use Rattle.hex.specs.Hex.{encode_lower, lower_digits};

/// The digit of a number below 16.
fn digit(number: u8) -> u8
    requires { number < 16 }
    ensures { result ≡ slice_index lower_digits number }
{
    if number < 10 {
        b'0' + number
    } else {
        b'a' - 10 + number
    }
}

/// Puts the digits of bytes in place of others, of each byte the upper one first.
pub(crate) fn put_digits(bytes: &[u8], digits: &mut [u8])
    requires { length digits.old ≡ 2 * length bytes.now }
    ensures { digits.new ≡ encode_lower bytes.now }
{
    for place in 0..bytes.len() {
        let byte = bytes[place];
        digits[2 * place] = digit(byte / 16);
        digits[2 * place + 1] = digit(byte % 16);
    }
}
