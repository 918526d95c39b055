//! The numbers and words of a line.
ghost use Rattle.std.specs.Prelude.{◌≡◌, ◌≤◌, ◌<◌, IfOk, IfSome};
ghost use Rattle.dump_reader.specs.Numbers as numbers;

use crate::cuts::{Mark, Pieces, begins_with};
use std::alloc::{AllocError, Global};

/// What a digit stands for.
fn digit(b: u8) -> Option<u8>
    ensures value { result ≡ numbers.digit b }
    ensures bound { IfSome result (λ value. value < 16) }
{
    match b {
        b'0'..=b'9' => Some(b - b'0'),
        b'A'..=b'F' => Some(b - b'A' + 10),
        b'a'..=b'f' => Some(b - b'a' + 10),
        _ => None,
    }
}

/// The number, where it is one from `least` to `most`.
pub(crate) fn within(least: u32, most: u32, number: u64) -> Option<u32>
    ensures value { result ≡ numbers.within least most number }
    ensures bound { IfSome result (λ n. n ≤ most) }
{
    if u64::from(least) <= number && number <= u64::from(most) {
        Some(number as u32)
    } else {
        None
    }
}

/// The number with one digit more.
fn with_digit(radix: u8, number: u32, b: u8) -> Option<u32>
    requires few { radix ≤ 16 }
    requires some { 1 ≤ radix }
    ensures { result ≡ numbers.with_digit radix number b }
{
    let value = within(0, u32::from(radix - 1), u64::from(digit(b)?))?;
    within(
        0,
        u32::MAX,
        u64::from(number) * u64::from(radix) + u64::from(value),
    )
}

/// The number that digits write.
#[tactic(auto, unfolding(crate::specs::Numbers::number_in))]
pub(crate) fn number_in(radix: u8, digits: &[u8]) -> Option<u32>
    requires few { radix ≤ 16 }
    requires some { 1 ≤ radix }
    ensures { result ≡ numbers.number_in radix digits.now }
{
    if digits.is_empty() {
        return None;
    }
    let mut number = 0;
    for b in digits {
        number = with_digit(radix, number, *b)?;
    }
    Some(number)
}

/// The number that a word writes: hexadecimal behind `0x`, else decimal.
#[tactic(auto, unfolding(crate::specs::Numbers::number_of))]
pub(crate) fn number_of(word: &[u8]) -> Option<u32>
    ensures { result ≡ numbers.number_of word.now }
{
    if begins_with(b"0x".as_slice(), word) {
        number_in(16, &word[2..])
    } else {
        number_in(10, word)
    }
}

/// The numbers of a text in order.
#[tactic(auto, unfolding(crate::specs::Numbers::numbers))]
pub(crate) fn numbers_in(alloc: Global, text: &[u8]) -> Result<Vec<u32>, AllocError>
    ensures { IfOk result (λ found. found.items ≡ numbers.numbers text.now) }
{
    let mut found = Vec::new(alloc);
    for word in Pieces::new(text, Mark::Between) {
        if let Some(number) = number_of(word) {
            found.push(number)?;
        }
    }
    Ok(found)
}

/// Whether a word stands in a text.
#[tactic(auto, unfolding(crate::specs::Numbers::has_word))]
pub(crate) fn has_word(text: &[u8], word: &[u8]) -> bool
    ensures { result ≡ numbers.has_word text.now word.now }
{
    for other in Pieces::new(text, Mark::Between) {
        if other == word {
            return true;
        }
    }
    false
}

/// What a word is worth in a text: this where it stands there, else nothing.
pub(crate) fn worth(text: &[u8], word: &[u8], value: u32) -> u32
    ensures value { result ≡ numbers.worth text.now word.now value }
    ensures bound { result ≤ value }
{
    if has_word(text, word) { value } else { 0 }
}

/// The number at a place, from `least` to `most`.
pub(crate) fn number_at(fields: &[u32], place: usize, least: u32, most: u32) -> Option<u32>
    ensures value { result ≡ numbers.number_at fields.now place least most }
    ensures bound { IfSome result (λ n. n ≤ most) }
{
    let number = fields.get(place)?;
    within(least, most, u64::from(*number))
}
