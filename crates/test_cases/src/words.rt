//! The words of a line.
use std::alloc::{AllocError, Global};
use std::fmt::{Radix, Write};

/// What the next byte of a line belongs to.
#[derive(Clone, Copy)]
enum Place {
    /// The space between two words.
    Gap,
    /// A word without quotation marks.
    Word,
    /// A text in quotation marks.
    Text,
    /// What follows a backslash.
    Escape,
    /// The first digit of a byte.
    HighDigit,
    /// Its second digit, after the first.
    LowDigit(u8),
}

/// A word of a line.
#[derive(Drop)]
pub struct Word {
    /// Its bytes, without quotation marks and escapes.
    pub bytes: Vec<u8>,
    /// Whether it stands in quotation marks, and so for nothing else.
    pub is_text: bool,
}

/// The words of a line, while it is read.
#[derive(Drop)]
struct Reading {
    words: Vec<Word>,
    place: Place,
}

/// The number of a hexadecimal digit, and 0 for any other byte.
fn digit_of(byte: u8) -> u8 {
    match byte {
        b'0'..=b'9' => byte - b'0',
        b'a'..=b'f' => byte - b'a' + 10,
        b'A'..=b'F' => byte - b'A' + 10,
        _ => 0,
    }
}

/// The byte for which a letter stands after a backslash.
fn escaped(letter: u8) -> u8 {
    match letter {
        b'n' => b'\n',
        b'r' => b'\r',
        b't' => b'\t',
        b'0' => 0,
        other => other,
    }
}

impl Reading {
    /// Puts a byte behind the last word.
    fn push(&mut self, byte: u8) -> Result<(), AllocError> {
        if let Some(word) = self.words.last_mut() {
            word.bytes.push(byte)?;
        }
        Ok(())
    }

    /// Begins a word in the gap before it, of which this is the first byte.
    fn begin(&mut self, byte: u8) -> Result<Place, AllocError> {
        if byte == b' ' {
            return Ok(Place::Gap);
        }
        let is_text = byte == b'"';
        let bytes = Vec::new(*self.words.allocator());
        self.words.push(Word { bytes, is_text })?;
        if is_text {
            return Ok(Place::Text);
        }
        self.push(byte)?;
        Ok(Place::Word)
    }

    /// Reads the next byte of a text in quotation marks.
    fn read_text(&mut self, byte: u8) -> Result<Place, AllocError> {
        match byte {
            b'"' => Ok(Place::Gap),
            b'\\' => Ok(Place::Escape),
            _ => {
                self.push(byte)?;
                Ok(Place::Text)
            }
        }
    }

    /// Reads the next byte of the line.
    fn read(&mut self, byte: u8) -> Result<(), AllocError> {
        self.place = match self.place {
            Place::Gap => self.begin(byte)?,
            Place::Word if byte == b' ' => Place::Gap,
            Place::Word => {
                self.push(byte)?;
                Place::Word
            }
            Place::Text => self.read_text(byte)?,
            Place::Escape if byte == b'x' => Place::HighDigit,
            Place::Escape => {
                self.push(escaped(byte))?;
                Place::Text
            }
            Place::HighDigit => Place::LowDigit(digit_of(byte)),
            Place::LowDigit(high) => {
                self.push((high << 4) | digit_of(byte))?;
                Place::Text
            }
        };
        Ok(())
    }
}

/// The words of a line.
pub fn words_of(alloc: Global, line: &str) -> Result<Vec<Word>, AllocError> {
    let mut reading = Reading {
        words: Vec::new(alloc),
        place: Place::Gap,
    };
    for byte in line.as_bytes() {
        reading.read(*byte)?;
    }
    Ok(reading.words)
}

/// A word as a text: empty where its bytes are none.
pub fn text_of(word: &[u8]) -> &str {
    str::from_utf8(word).unwrap_or("")
}

/// A word as a number: hexadecimal after `0x`, else decimal, and 0 where it is none.
pub fn number_of(word: &[u8]) -> u32 {
    let text = text_of(word);
    match text.strip_prefix("0x") {
        Some(digits) => u32::from_str_radix(digits, 16).unwrap_or(0),
        None => text.parse::<u32>().unwrap_or(0),
    }
}

/// Puts numbers in brackets, each in two hexadecimal digits or more.
pub fn push_hex<T: Copy + Radix>(text: &mut String, numbers: &[T]) -> Result<(), AllocError> {
    text.push('[')?;
    for (place, number) in numbers.iter().enumerate() {
        if place > 0 {
            text.push(' ')?;
        }
        write!(text, "{number:02x}")?;
    }
    text.push(']')
}
