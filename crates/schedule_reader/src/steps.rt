//! Reads the steps of the device.
ghost use Rattle.std.specs.Prelude.{◌≡◌, ◌==◌, ℕ, ◌≤◌, length, IfSome, Option, option_map};
ghost use Rattle.schedule_reader.specs.Cuts as cuts;
ghost use Rattle.schedule_reader.specs.Heads.{step_of};
ghost use Rattle.schedule_reader.specs.Readers as readers;
ghost use Rattle.schedule_reader.specs.Left.{words_left, texts_at};

use crate::cuts::Words;
use crate::keywords::{Keyword, keyword_of};
use crate::numbers::{nid_of, number};
use world_steps::Step;

/// Whether no word is left.
pub(crate) fn is_done(mut words: Words) -> bool
    ensures { result ≡ (length (words_left words.entry) == 0) }
{
    words.next().is_none()
}

/// The one word that is left, if there is one and no other.
pub(crate) fn one(mut words: Words<'_>) -> Option<&[u8]>
    ensures { option_map (λ word. word.now) result ≡ cuts.one (words_left words.entry) }
{
    let word = words.next()?;
    if is_done(words) { Some(word) } else { None }
}

/// The two words that are left, if there are just two.
fn two(mut words: Words<'_>) -> Option<(&[u8], &[u8])>
    ensures { option_map texts_at result ≡ cuts.two (words_left words.entry) }
{
    let first = words.next()?;
    let second = words.next()?;
    if is_done(words) {
        Some((first, second))
    } else {
        None
    }
}

/// The address of a codec.
fn codec(word: &[u8]) -> Option<u8>
    ensures { result ≡ readers.codec word.now }
{
    let address = number(word, 0, 14)?;
    Some(address as u8)
}

/// A codec's address, alone.
fn only_codec(operands: Words) -> Option<u8>
    ensures { result ≡ readers.only_codec (words_left operands.entry) }
{
    let word = one(operands)?;
    codec(word)
}

/// A codec's address and a pin's node identifier.
fn codec_and_nid(operands: Words) -> Option<(u8, u8)>
    ensures { result ≡ readers.codec_and_nid (words_left operands.entry) }
{
    let (first, second) = two(operands)?;
    let address = codec(first)?;
    let pin = nid_of(second)?;
    Some((address, pin))
}

/// A stream's descriptor and a number of bytes.
fn stream_and_bytes(operands: Words) -> Option<(u8, u16)>
    ensures { result ≡ readers.stream_and_bytes (words_left operands.entry) }
{
    let (first, second) = two(operands)?;
    let stream = number(first, 0, 1)?;
    let bytes = number(second, 1, 65_535)?;
    Some((stream as u8, bytes as u16))
}

/// The number of link frames, alone.
fn only_frames(operands: Words) -> Option<u32>
    ensures { result ≡ readers.only_frames (words_left operands.entry) }
{
    let word = one(operands)?;
    number(word, 1, 1_000_000)
}

/// The step that begins with this keyword and goes on with these words.
pub(crate) fn step_with(keyword: Keyword, operands: Words) -> Option<Step>
    ensures { result ≡ readers.step_with keyword (words_left operands.entry) }
{
    match keyword {
        Keyword::Corb => is_done(operands).then_some(Step::Corb),
        Keyword::Rirb => is_done(operands).then_some(Step::Rirb),
        Keyword::Answer => {
            let address = only_codec(operands)?;
            Some(Step::Answer(address))
        }
        Keyword::Lose => {
            let address = only_codec(operands)?;
            Some(Step::Lose(address))
        }
        Keyword::Fetch => {
            let (stream, bytes) = stream_and_bytes(operands)?;
            Some(Step::Fetch(stream, bytes))
        }
        Keyword::Link => {
            let frames = only_frames(operands)?;
            Some(Step::Link(frames))
        }
        Keyword::Plug => {
            let (address, pin) = codec_and_nid(operands)?;
            Some(Step::Plug(address, pin))
        }
        Keyword::Unplug => {
            let (address, pin) = codec_and_nid(operands)?;
            Some(Step::Unplug(address, pin))
        }
        Keyword::Run | Keyword::Irq | Keyword::Repeat | Keyword::End => None,
    }
}

/// The step that the words that are left say.
#[tactic(auto, unfolding(crate::specs::Readers::step_of))]
fn read_step(mut words: Words) -> Option<Step>
    ensures { result ≡ readers.step_of (words_left words.entry) }
{
    let word = words.next()?;
    let first = keyword_of(word)?;
    step_with(first, words)
}

/// The step that a text says.
pub(crate) fn step_in(text: &[u8]) -> Option<Step>
    ensures { result ≡ step_of (cuts.words text.now) }
{
    read_step(Words::new(text))
}
