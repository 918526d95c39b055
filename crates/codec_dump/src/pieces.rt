//! Pieces of a codec file's text. Each call here appends to a text.
ghost use Rattle.std.specs.Prelude.{◌≡◌, ◌++◌, ◌∷◌, OnOk, string_bytes};
ghost use Rattle.std.specs.Char.{encode_utf8};
ghost use Rattle.std.specs.List.{flat_map};
ghost use Rattle.codec_dump.specs.Pieces as pieces;

use std::alloc::AllocError;
use std::fmt::Write;

/// Words as they stand.
pub(crate) fn push_text(text: &mut String, words: &str) -> Result<(), AllocError>
    ensures { OnOk result (string_bytes text.new ≡ string_bytes text.old ++ words.now) }
{
    text.push_str(words)
}

/// A character.
pub(crate) fn push_char(text: &mut String, c: char) -> Result<(), AllocError>
    ensures { OnOk result (string_bytes text.new ≡ string_bytes text.old ++ encode_utf8 c) }
{
    text.push(c)
}

/// A key with a number of two digits at least.
#[tactic(auto, using(crate::proofs::PieceLemmas::zero_padded), unfolding(crate::specs::Pieces::byte_text))]
pub(crate) fn push_small(text: &mut String, key: &str, value: u32) -> Result<(), AllocError>
    ensures { OnOk result (string_bytes text.new ≡ string_bytes text.old ++ pieces.byte_line key.now value) }
{
    write!(text, "{key} = 0x{value:02x}\n")
}

/// A key with a byte.
pub(crate) fn push_byte(text: &mut String, key: &str, value: u8) -> Result<(), AllocError>
    ensures { OnOk result (string_bytes text.new ≡ string_bytes text.old ++ pieces.byte_line key.now value) }
{
    push_small(text, key, value.into())
}

/// A key with a word of eight digits.
#[tactic(auto, using(crate::proofs::PieceLemmas::zero_padded), unfolding(crate::specs::Pieces::word_text))]
pub(crate) fn push_word(text: &mut String, key: &str, value: u32) -> Result<(), AllocError>
    ensures { OnOk result (string_bytes text.new ≡ string_bytes text.old ++ pieces.word_line key.now value) }
{
    write!(text, "{key} = 0x{value:08x}\n")
}

/// A key, where its number is given.
pub(crate) fn push_byte_given(
    text: &mut String,
    key: &str,
    value: Option<u8>,
) -> Result<(), AllocError>
    ensures { OnOk result (string_bytes text.new ≡ string_bytes text.old ++ pieces.byte_given key.now value) }
{
    match value {
        Some(value) => push_byte(text, key, value),
        None => Ok(()),
    }
}

/// A key, where its word is given.
pub(crate) fn push_word_given(
    text: &mut String,
    key: &str,
    value: Option<u32>,
) -> Result<(), AllocError>
    ensures { OnOk result (string_bytes text.new ≡ string_bytes text.old ++ pieces.word_given key.now value) }
{
    match value {
        Some(value) => push_word(text, key, value),
        None => Ok(()),
    }
}

/// A number of two digits at least.
#[tactic(auto, using(crate::proofs::PieceLemmas::zero_padded), unfolding(crate::specs::Pieces::byte_text))]
pub(crate) fn push_number(text: &mut String, value: u8) -> Result<(), AllocError>
    ensures { OnOk result (string_bytes text.new ≡ string_bytes text.old ++ pieces.byte_text value) }
{
    write!(text, "0x{value:02x}")
}

/// A word of eight digits.
#[tactic(auto, using(crate::proofs::PieceLemmas::zero_padded), unfolding(crate::specs::Pieces::word_text))]
pub(crate) fn push_digits(text: &mut String, word: u32) -> Result<(), AllocError>
    ensures { OnOk result (string_bytes text.new ≡ string_bytes text.old ++ pieces.word_text word) }
{
    write!(text, "0x{word:08x}")
}

/// A number behind a comma.
fn push_further_byte(text: &mut String, value: u8) -> Result<(), AllocError>
    ensures { OnOk result (string_bytes text.new ≡ string_bytes text.old ++ pieces.further_byte value) }
{
    push_text(text, ", ")?;
    push_number(text, value)
}

/// Numbers, each behind a comma.
fn push_further_bytes(text: &mut String, bytes: &[u8]) -> Result<(), AllocError>
    ensures { OnOk result (string_bytes text.new
        ≡ string_bytes text.old ++ flat_map pieces.further_byte bytes.now) }
{
    for byte in bytes {
        push_further_byte(text, *byte)?;
    }
    Ok(())
}

/// Numbers in brackets, of which there is a first.
fn push_listed(text: &mut String, first: u8, further: &[u8]) -> Result<(), AllocError>
    ensures { OnOk result (string_bytes text.new
        ≡ string_bytes text.old ++ pieces.bytes_text (first ∷ further.now)) }
{
    push_text(text, "[")?;
    push_number(text, first)?;
    push_further_bytes(text, further)?;
    push_text(text, "]")
}

/// Numbers in brackets.
pub(crate) fn push_bytes(text: &mut String, bytes: &[u8]) -> Result<(), AllocError>
    ensures { OnOk result (string_bytes text.new ≡ string_bytes text.old ++ pieces.bytes_text bytes.now) }
{
    match bytes {
        [first, further @ ..] => push_listed(text, *first, further),
        [] => push_text(text, "[]"),
    }
}

/// A key with numbers, where there are any.
pub(crate) fn push_array(text: &mut String, key: &str, bytes: &[u8]) -> Result<(), AllocError>
    ensures { OnOk result (string_bytes text.new ≡ string_bytes text.old ++ pieces.bytes_given key.now bytes.now) }
{
    if bytes.is_empty() {
        return Ok(());
    }
    push_text(text, key)?;
    push_text(text, " = ")?;
    push_bytes(text, bytes)?;
    push_text(text, "\n")
}
