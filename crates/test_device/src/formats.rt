//! Words of stream formats, and how many blocks are due in each link frame.
use std::alloc::{AllocError, Global};
use std::fmt::Write;
use stream_format::{Bits, Format, Rate};
use test_cases::{number_of, text_of};

/// The rate of so many frames in a second.
fn rate_of(word: &[u8]) -> Rate {
    match text_of(word) {
        "8000" => Rate::R8,
        "16000" => Rate::R16,
        "44100" => Rate::R44,
        "96000" => Rate::R96,
        "192000" => Rate::R192,
        _ => Rate::R48,
    }
}

/// The sample size of so many bits.
fn bits_of(word: &[u8]) -> Bits {
    match text_of(word) {
        "24" => Bits::B24,
        "32" => Bits::B32,
        _ => Bits::B16,
    }
}

/// So many frames in a second, of 2, 4, 6 or 8 channels, with samples of so many bits.
pub fn format_of(rate: &[u8], channels: &[u8], bits: &[u8]) -> Format {
    Format {
        rate: rate_of(rate),
        bits: bits_of(bits),
        channels: match text_of(channels) {
            "8" => 8,
            "6" => 6,
            "4" => 4,
            _ => 2,
        },
    }
}

/// Two channels of 16 bits, with so many frames in a second.
fn stereo(rate: &[u8]) -> Format {
    Format {
        rate: rate_of(rate),
        bits: Bits::B16,
        channels: 2,
    }
}

/// The word of a format, and the format that the word is.
pub fn tell(alloc: Global, words: &[Vec<u8>]) -> Result<String, AllocError> {
    let [rate, channels, bits] = words else {
        return format!(in alloc; "no format");
    };
    let word = format_of(rate, channels, bits).word();
    let back = Format::from_word(word);
    format!(in alloc; "{word:04x} {back:?}")
}

/// The format that a word is.
pub fn tell_word(alloc: Global, words: &[Vec<u8>]) -> Result<String, AllocError> {
    let [word] = words else {
        return format!(in alloc; "no word");
    };
    let format = Format::from_word(u16::try_from(number_of(word)).unwrap_or(0));
    format!(in alloc; "{format:?}")
}

/// How many blocks are due in so many link frames from one on, at a rate.
pub fn tell_blocks(alloc: Global, words: &[Vec<u8>]) -> Result<String, AllocError> {
    let [rate, first, count] = words else {
        return format!(in alloc; "no frames");
    };
    let format = stereo(rate);
    let first = u64::from(number_of(first));
    let mut text = String::new(alloc);
    for frame in 0..number_of(count) {
        write!(text, "{}", format.blocks(first + u64::from(frame)))?;
    }
    Ok(text)
}
