//! Reads what stands on a line behind its label.
ghost use Rattle.std.specs.Prelude.{◌≡◌, ◌≤◌, ◌%◌, IfOk, option_and_then, option_copied};
ghost use Rattle.dump_reader.specs.Operands as operands;
ghost use Rattle.dump_reader.specs.Numbers as numbers;

use crate::cuts::{Mark, Pieces, begins_with};
use crate::facts::Gain;
use crate::numbers::{has_word, number_at, number_in, number_of, numbers_in, within, worth};
use hda_items::Items;
use std::alloc::{AllocError, Global};

/// The word at a place of a text, from 0 on.
#[tactic(auto, unfolding(crate::specs::Operands::word_at))]
fn word_at(text: &[u8], place: usize) -> Option<&[u8]>
    ensures { option_copied result ≡ operands.word_at text.now place }
{
    let mut left = place;
    for word in Pieces::new(text, Mark::Between) {
        if !word.is_empty() {
            if left == 0 {
                return Some(word);
            }
            left -= 1;
        }
    }
    None
}

/// The first number of a line, of 32 bits.
pub(crate) fn word_of(fields: &[u32]) -> Option<u32>
    ensures { result ≡ operands.word_of fields.now }
{
    number_at(fields, 0, 0, u32::MAX)
}

/// The first number of a line, of 8 bits.
pub(crate) fn byte_of(fields: &[u32]) -> Option<u8>
    ensures { result ≡ operands.byte_of fields.now }
{
    let byte = number_at(fields, 0, 0, 255)?;
    Some(byte as u8)
}

/// A node identifier.
pub(crate) fn nid_of(fields: &[u32]) -> Option<u8>
    ensures { result ≡ operands.nid_of fields.now }
{
    let nid = number_at(fields, 0, 1, 127)?;
    Some(nid as u8)
}

/// Amplifier capabilities of these numbers.
fn amplifier_of(fields: &[u32]) -> Option<u32>
    ensures { result ≡ operands.amplifier_of fields.now }
{
    let offset = number_at(fields, 0, 0, 127)?;
    let steps = number_at(fields, 1, 0, 127)?;
    let size = number_at(fields, 2, 0, 127)?;
    let mute = number_at(fields, 3, 0, 1)?;
    Some(mute * 0x8000_0000 + size * 0x1_0000 + steps * 0x100 + offset)
}

/// Amplifier capabilities, where there are any.
pub(crate) fn amplifier_or_none(fields: &[u32]) -> Option<Option<u32>>
    ensures { result ≡ operands.amplifier_or_none fields.now }
{
    if fields.is_empty() {
        return Some(None);
    }
    let word = amplifier_of(fields)?;
    Some(Some(word))
}

/// A number of 8 bits.
fn small(number: u32) -> Option<u8>
    ensures { result ≡ numbers.within 0 255 number }
{
    let byte = within(0, 255, u64::from(number))?;
    Some(byte as u8)
}

/// Mute and gain of one side or of both.
fn gain_with(fields: &[u32]) -> Option<Gain>
    ensures { result ≡ operands.gain_with fields.now }
{
    match fields {
        [one] => {
            let gain = small(*one)?;
            Some(Gain {
                left: gain,
                right: gain,
            })
        }
        [one, other] => {
            let left = small(*one)?;
            let right = small(*other)?;
            Some(Gain { left, right })
        }
        _ => None,
    }
}

/// Mute and gain in each pair of brackets.
#[tactic(auto, unfolding(crate::specs::Operands::gains_in))]
pub(crate) fn gains_in(alloc: Global, text: &[u8]) -> Result<Option<Items<Gain>>, AllocError>
    ensures { IfOk result (λ gains. gains ≡ operands.gains_in text.now) }
{
    let mut gains = Vec::new(alloc);
    for piece in Pieces::new(text, Mark::Bracket) {
        let fields = numbers_in(alloc, piece)?;
        if !fields.is_empty() {
            match gain_with(&fields) {
                Some(gain) => gains.push(gain)?,
                None => return Ok(None),
            }
        }
    }
    Ok(Some(Items::from_vec(gains)))
}

/// Stream tag and channel.
pub(crate) fn stream_of(fields: &[u32]) -> Option<u8>
    ensures { result ≡ operands.stream_of fields.now }
{
    let tag = number_at(fields, 0, 0, 15)?;
    let channel = number_at(fields, 1, 0, 15)?;
    Some((tag * 16 + channel) as u8)
}

/// The control of unsolicited responses.
#[tactic(auto, unfolding(crate::specs::Operands::unsolicited_in))]
pub(crate) fn unsolicited_in(text: &[u8]) -> Option<u8>
    ensures { result ≡ operands.unsolicited_in text.now }
{
    let word = word_at(text, 1)?;
    let number = number_in(16, word)?;
    let tag = within(0, 63, u64::from(number))?;
    let flag = word_at(text, 3)?;
    let digit = number_of(flag)?;
    let enabled = within(0, 1, u64::from(digit))?;
    Some((enabled * 128 + tag) as u8)
}

/// What a word is worth in a text, in 8 bits.
fn worth_byte(text: &[u8], word: &[u8], value: u8) -> u8
    ensures value { result ≡ numbers.worth text.now word.now value }
    ensures bound { result ≤ value }
{
    worth(text, word, u32::from(value)) as u8
}

/// Bit 4 of it, which says that no copyright is claimed: old kernels name it Copyright.
fn copyright_in(text: &[u8]) -> u8
    ensures value { result ≡ operands.copyright_in text.now }
    ensures bound { result ≤ 16 }
{
    if has_word(text, b"Non-Copyright".as_slice()) || has_word(text, b"Copyright".as_slice()) {
        16
    } else {
        0
    }
}

/// The low byte of the digital converter control.
#[tactic(auto, unfolding(crate::specs::Operands::digital_in))]
pub(crate) fn digital_in(text: &[u8]) -> u8
    ensures { result ≡ operands.digital_in text.now }
{
    let enabled = worth_byte(text, b"Enabled".as_slice(), 1);
    let validity = worth_byte(text, b"Validity".as_slice(), 2);
    let configuration = worth_byte(text, b"ValidityCfg".as_slice(), 4);
    let emphasis = worth_byte(text, b"Preemphasis".as_slice(), 8);
    let copyright = copyright_in(text);
    let audio = worth_byte(text, b"Non-Audio".as_slice(), 32);
    let professional = worth_byte(text, b"Pro".as_slice(), 64);
    let level = worth_byte(text, b"GenLevel".as_slice(), 128);
    enabled + validity + configuration + emphasis + copyright + audio + professional + level
}

/// Supported power states.
#[tactic(auto, unfolding(crate::specs::Operands::power_states_in))]
pub(crate) fn power_states_in(text: &[u8]) -> u32
    ensures { result ≡ operands.power_states_in text.now }
{
    let d0 = worth(text, b"D0".as_slice(), 1);
    let d1 = worth(text, b"D1".as_slice(), 2);
    let d2 = worth(text, b"D2".as_slice(), 4);
    let d3 = worth(text, b"D3".as_slice(), 8);
    let cold = worth(text, b"D3cold".as_slice(), 16);
    let sleep_cold = worth(text, b"S3D3cold".as_slice(), 0x2000_0000);
    let clock_stop = worth(text, b"CLKSTOP".as_slice(), 0x4000_0000);
    let extended = worth(text, b"EPSS".as_slice(), 0x8000_0000);
    d0 + d1 + d2 + d3 + cold + sleep_cold + clock_stop + extended
}

/// The power state with this name.
fn state_named(word: &[u8]) -> Option<u8>
    ensures { result ≡ operands.state_named word.now }
{
    if word == b"D0".as_slice() {
        Some(0)
    } else if word == b"D1".as_slice() {
        Some(1)
    } else if word == b"D2".as_slice() {
        Some(2)
    } else if word == b"D3".as_slice() {
        Some(3)
    } else {
        None
    }
}

/// The number that the word at a place writes.
fn number_at_word(text: &[u8], place: usize) -> Option<u32>
    ensures { result ≡ option_and_then numbers.number_of (operands.word_at text.now place) }
{
    number_of(word_at(text, place)?)
}

/// The power state that the word at a place names.
fn state_at_word(text: &[u8], place: usize) -> Option<u8>
    ensures { result ≡ option_and_then operands.state_named (operands.word_at text.now place) }
{
    state_named(word_at(text, place)?)
}

/// The power state of an old kernel's word, if it is one of D0 to D3.
fn state_of(word: u32) -> Option<u8>
    ensures { result ≡ numbers.within 0 3 (word % 16) }
{
    let state = (word % 16) as u8;
    if state <= 3 { Some(state) } else { None }
}

/// The power state that was set, if it is one of D0 to D3, or that of an old kernel's word.
#[tactic(auto, unfolding(crate::specs::Operands::state_in))]
pub(crate) fn state_in(text: &[u8]) -> Option<u8>
    ensures { result ≡ operands.state_in text.now }
{
    match number_at_word(text, 0) {
        Some(word) => state_of(word),
        None => state_at_word(text, 1),
    }
}

/// Whether an old kernel printed these pin capabilities, behind a further 08.
fn is_old_word(word: &[u8]) -> bool
    ensures value { result ≡ operands.is_old_word word.now }
{
    begins_with(b"0x08".as_slice(), word) && (4 < word.len() && !(word.len() == 10))
}

/// A word that begins as hexadecimal ones do.
fn hexadecimal(word: &[u8]) -> Option<&[u8]>
    ensures { option_copied result ≡ operands.hexadecimal (Some word.now) }
{
    if begins_with(b"0x".as_slice(), word) {
        Some(word)
    } else {
        None
    }
}

/// The digits of pin capabilities.
fn pin_digits(word: &[u8]) -> &[u8]
    ensures { result.now ≡ operands.pin_digits word.now }
{
    let from = if is_old_word(word) { 4 } else { 2 };
    &word[word.len().min(from)..]
}

/// Pin capabilities, and whether an old kernel printed them.
#[tactic(auto, unfolding(crate::specs::Operands::pin_caps_in))]
pub(crate) fn pin_caps_in(text: &[u8]) -> Option<(u32, bool)>
    ensures { result ≡ operands.pin_caps_in text.now }
{
    let word = hexadecimal(word_at(text, 0)?)?;
    let caps = number_in(16, pin_digits(word))?;
    Some((caps, is_old_word(word)))
}

/// The place of the number before the star, if there is one.
#[tactic(auto, unfolding(crate::specs::Operands::star_in))]
pub(crate) fn star_in(alloc: Global, text: &[u8]) -> Result<Option<usize>, AllocError>
    ensures { IfOk result (λ place. place ≡ operands.star_in text.now) }
{
    let mut pieces = Pieces::new(text, Mark::Star);
    let Some(front) = pieces.next() else {
        return Ok(None);
    };
    if pieces.next().is_none() {
        return Ok(None);
    }
    let fields = numbers_in(alloc, front)?;
    Ok(Some(fields.len().saturating_sub(1)))
}

/// A connection list, of node identifiers.
fn nids_of(alloc: Global, fields: &[u32]) -> Result<Option<Items<u8>>, AllocError>
    ensures { IfOk result (λ nids. nids ≡ operands.nids_of fields.now) }
{
    let mut nids = Vec::new(alloc);
    for number in fields {
        match within(1, 127, u64::from(*number)) {
            Some(nid) => nids.push(nid as u8)?,
            None => return Ok(None),
        }
    }
    Ok(Some(Items::from_vec(nids)))
}

/// The connections of a line that lists so many.
pub(crate) fn list_of(
    alloc: Global,
    count: u8,
    fields: &[u32],
) -> Result<Option<Items<u8>>, AllocError>
    ensures { IfOk result (λ list. list ≡ operands.list_of count fields.now) }
{
    if fields.len() != usize::from(count) {
        return Ok(None);
    }
    nids_of(alloc, fields)
}
