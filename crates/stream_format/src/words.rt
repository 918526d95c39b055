//! The format word.
ghost use Rattle.std.specs.Prelude.{◌≡◌, ◌*◌, MatchOption, option_map};
ghost use Rattle.stream_format.specs.Words.{format_word, HasNoFormat};
ghost use Rattle.stream_format.specs.Words as spec;
ghost use Rattle.stream_format.specs.Layouts.{layout, layout_of};
ghost use Rattle.stream_format.specs.Layouts as layouts;

use crate::format::{Bits, Format, Rate};

/// Bits 15:8 of the format word for a rate.
fn rate_bits(rate: Rate) -> u16
    ensures { result * 256 ≡ spec.rate_bits (spec.rate_code rate) }
{
    match rate {
        Rate::R8 => 0x05,
        Rate::R16 => 0x02,
        Rate::R44 => 0x40,
        Rate::R48 => 0x00,
        Rate::R96 => 0x08,
        Rate::R192 => 0x18,
    }
}

/// Bits 6:4 of the format word for a sample size.
fn size_code(bits: Bits) -> u16
    ensures { result ≡ spec.size_code bits }
{
    match bits {
        Bits::B16 => 1,
        Bits::B24 => 3,
        Bits::B32 => 4,
    }
}

/// The rate with these bits 15:8 of the format word.
fn rate_with(bits: u16) -> Option<Rate>
    ensures { result ≡ layouts.rate_named bits }
{
    match bits {
        0x05 => Some(Rate::R8),
        0x02 => Some(Rate::R16),
        0x40 => Some(Rate::R44),
        0x00 => Some(Rate::R48),
        0x08 => Some(Rate::R96),
        0x18 => Some(Rate::R192),
        _ => None,
    }
}

/// The sample size with this code.
fn size_with(code: u16) -> Option<Bits>
    ensures { result ≡ layouts.size_named code }
{
    match code {
        1 => Some(Bits::B16),
        3 => Some(Bits::B24),
        4 => Some(Bits::B32),
        _ => None,
    }
}

impl Format {
    /// The format's word, as a stream descriptor and a converter take it (HDA 1.0a, 3.7.1).
    pub fn word(&self) -> u16
        ensures { result ≡ format_word self.now }
    {
        let channels = self.channels;
        rate_bits(self.rate) * 256 + size_code(self.bits) * 16 + u16::from(channels) - 1
    }

    /// The format with this word. `None` where no format has it (HDA 1.0a, 3.7.1).
    #[tactic(auto, unfolding(crate::specs::Layouts::layout_of))]
    pub fn from_word(word: u16) -> Option<Format>
        ensures inverse { MatchOption result (HasNoFormat word) (λ format. format_word format ≡ word) }
        ensures reading { option_map layout result ≡ layout_of word }
    {
        let rate = rate_with(word / 256)?;
        let bits = size_with(word / 16 % 16)?;
        let channels = (word % 16) as u8 + 1;
        match channels {
            2 | 4 | 6 | 8 => Some(Format {
                rate,
                bits,
                channels,
            }),
            _ => None,
        }
    }
}
