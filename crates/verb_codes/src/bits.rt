//! Bits and numbers inside a 32-bit word.
ghost use Rattle.std.specs.Prelude.{◌≡◌, ◌<◌, ◌+◌, ◌*◌, ◌^◌};
ghost use Rattle.verb_codes.specs.Words as spec;

/// The number in the `width` bits of the word from bit `low` up.
pub fn bits_of(word: u32, low: u32, width: u32) -> u32
    requires low_in { low < 32 }
    requires width_in { width < 32 }
    ensures value { result ≡ spec.bits_of word low width }
    ensures narrow { result < 2 ^ width }
{
    (word >> low) % (1 << width)
}

/// Whether bit `at` of the word is 1.
pub fn has_bit(word: u32, at: u32) -> bool
    requires { at < 32 }
    ensures { result ≡ spec.has_bit word at }
{
    bits_of(word, at, 1) == 1
}

/// The number whose low `width` bits are `low` and whose other bits are `high`.
pub(crate) fn joined(high: u32, low: u32, width: u32) -> u32
    requires width_in { width < 32 }
    requires narrow { low < 2 ^ width }
    requires fits { high * 2 ^ width < 2 ^ 32 }
    ensures { result ≡ high * 2 ^ width + low }
{
    high << width | low
}
