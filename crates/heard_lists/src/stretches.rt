//! What a pin heard, in stretches of one kind.
ghost use Rattle.std.specs.Prelude.{◌≡◌, ◌≤◌, ◌<◌, ◌+◌, ◌*◌, ◌++◌, [], ◌∷◌, List, OnOk, IsTrue, false, length};
ghost use Rattle.std.specs.Prelude.{drop, replicate, take};
ghost use Rattle.std.specs.List.{AllZip, flat_map};
ghost use Rattle.stream_format.specs.Cadence.{block_bytes, container_bytes};
ghost use Rattle.stream_format.specs.Layouts.{layout};
ghost use Rattle.heard_frames.specs.declared.heard.Heard.TheVariants as heard;
ghost use Rattle.codec_sound.specs.declared.signals.Signal.TheVariants as variant;
ghost use Rattle.codec_sound.specs.Signals.{IsAmong};
ghost use Rattle.heard_lists.specs.Listings.{items_before};
ghost use Rattle.heard_lists.specs.Pieces.{pieces_items, pieces_size};
ghost use Rattle.heard_lists.specs.declared.stretches.Stretch.{Stretch};
ghost use Rattle.heard_lists.specs.Stretches as spec;

use crate::item_lists::{after, signal_at};
use crate::pieces::Piece;
use codec_sound::Signal;
use std::alloc::AllocError;
use stream_format::{Bits, Format};

/// The kind of an item.
#[derive(Clone, Copy, Debug, PartialEq, Eq)]
pub enum Kind {
    /// Two samples.
    Sound,
    /// Nothing.
    Quiet,
    /// The bytes of a frame's blocks were missing.
    Hole,
    /// A signal that is not followed.
    Altered,
}

/// Items of one kind in a row. This project's own.
#[derive(Clone, Copy, Debug, PartialEq, Eq)]
pub struct Stretch {
    /// The kind of each of them.
    pub kind: Kind,
    /// How many they are.
    pub items: usize,
}

/// Puts what a pin with these signals heard in pieces, and then so many holes, as stretches and the bytes of its sound.
pub(crate) fn put_pieces(
    stretches: &mut Vec<Stretch>,
    sound: &mut Vec<u8>,
    bits: Bits,
    pieces: &[Piece],
    signals: &[Signal],
    bytes: &[u8],
    holes: usize,
) -> Result<(), AllocError>
    requires none { stretches.old.items ≡ [] }
    requires silent { sound.old.items ≡ [] }
    requires among { AllZip (λ piece signal. IsAmong piece.format.channels signal) pieces.now signals.now }
    requires whole { pieces_size pieces.now ≤ length bytes.now }
    ensures stretches { OnOk result (stretches.new.items
        ≡ spec.stretches_of (pieces_items pieces.now signals.now bytes.now ++ replicate holes heard.Hole)) }
    ensures sound { OnOk result (sound.new.items ≡ flat_map (spec.sound_bytes bits)
        (pieces_items pieces.now signals.now bytes.now ++ replicate holes heard.Hole)) }
{
    let mut rest = bytes;
    for place in 0..pieces.len() {
        let piece = pieces[place];
        let signal = signal_at(signals, place);
        push_items(stretches, Kind::Hole, piece.holes)?;
        push_items(stretches, kind_heard(signal), piece.blocks)?;
        push_sound(sound, bits, signal, piece.format, rest, piece.blocks)?;
        rest = after(rest, piece.format, piece.blocks);
    }
    push_items(stretches, Kind::Hole, holes)
}

/// Of which kind is what a pin with this signal hears of blocks.
fn kind_heard(signal: Signal) -> Kind
    ensures { result ≡ spec.kind_heard signal }
{
    match signal {
        Signal::Silence => Kind::Quiet,
        Signal::Pair(_) => Kind::Sound,
        Signal::Altered => Kind::Altered,
    }
}

/// Puts so many items of a kind behind stretches.
fn push_items(stretches: &mut Vec<Stretch>, kind: Kind, items: usize) -> Result<(), AllocError>
    ensures { OnOk result (stretches.new.items ≡ spec.stretched kind items stretches.old.items) }
{
    if items == 0 {
        return Ok(());
    }
    if ends_in(stretches.as_slice(), kind) {
        return lengthen(stretches, items);
    }
    stretches.push(Stretch { kind, items })?;
    Ok(())
}

/// Whether there is a last stretch and it is of this kind.
fn ends_in(stretches: &[Stretch], kind: Kind) -> bool
    ensures none { stretches.now ≡ [] → result ≡ false }
    ensures last { (before : List Stretch) (last : Stretch) → stretches.now ≡ before ++ last ∷ []
        → result ≡ spec.is_same last.kind kind }
    ensures some { IsTrue result → 0 < length stretches.now }
{
    if stretches.is_empty() {
        return false;
    }
    is_same(stretches[stretches.len() - 1].kind, kind)
}

/// Whether two kinds are the same.
fn is_same(first: Kind, second: Kind) -> bool
    ensures { result ≡ spec.is_same first second }
{
    matches!(
        (first, second),
        (Kind::Sound, Kind::Sound)
            | (Kind::Quiet, Kind::Quiet)
            | (Kind::Hole, Kind::Hole)
            | (Kind::Altered, Kind::Altered)
    )
}

/// Makes the last stretch so many items longer. More than a number of 64 bits tells have no memory.
fn lengthen(stretches: &mut Vec<Stretch>, items: usize) -> Result<(), AllocError>
    requires { 0 < length stretches.old.items }
    ensures { (before : List Stretch) (last : Stretch) → stretches.old.items ≡ before ++ last ∷ []
        → OnOk result (stretches.new.items ≡ before ++ record last { items = last.items + items } ∷ []) }
{
    let last = stretches.len() - 1;
    let Some(all) = stretches[last].items.checked_add(items) else {
        return Err(AllocError);
    };
    stretches[last].items = all;
    Ok(())
}

/// Appends the sound of what a pin with this signal hears of so many blocks.
fn push_sound(
    sound: &mut Vec<u8>,
    bits: Bits,
    signal: Signal,
    format: Format,
    bytes: &[u8],
    blocks: usize,
) -> Result<(), AllocError>
    requires pair { IsAmong format.channels signal }
    requires whole { blocks * block_bytes format ≤ length bytes.now }
    ensures { OnOk result (sound.new.items
        ≡ sound.old.items ++ flat_map (spec.sound_bytes bits) (items_before (layout format) signal bytes.now blocks)) }
{
    match signal {
        Signal::Pair(pair) => push_pair(sound, bits, pair, format, bytes, blocks),
        Signal::Silence | Signal::Altered => Ok(()),
    }
}

/// Appends the samples of a pair of channels of so many blocks. Where they keep their size, their bytes are taken as
/// they stand in the blocks.
fn push_pair(
    sound: &mut Vec<u8>,
    bits: Bits,
    pair: u8,
    format: Format,
    bytes: &[u8],
    blocks: usize,
) -> Result<(), AllocError>
    requires pair { IsAmong format.channels (variant.Pair pair) }
    requires whole { blocks * block_bytes format ≤ length bytes.now }
    ensures { OnOk result (sound.new.items ≡ sound.old.items
        ++ flat_map (spec.sound_bytes bits) (items_before (layout format) (variant.Pair pair) bytes.now blocks)) }
{
    if format.bits != bits {
        return push_samples(sound, bits, pair, format, bytes, blocks);
    }
    if pair == 0 && format.channels == 2 {
        return push_whole(sound, format, bytes, blocks);
    }
    push_parts(sound, pair, format, bytes, blocks)
}

/// Appends so many blocks of one pair of channels.
fn push_whole(
    sound: &mut Vec<u8>,
    format: Format,
    bytes: &[u8],
    blocks: usize,
) -> Result<(), AllocError>
    requires pair { format.channels ≡ 2 }
    requires whole { blocks * block_bytes format ≤ length bytes.now }
    ensures { OnOk result (sound.new.items ≡ sound.old.items
        ++ flat_map (spec.sound_bytes format.bits) (items_before (layout format) (variant.Pair 0) bytes.now blocks)) }
{
    sound.extend_from_slice(front(bytes, format, blocks))?;
    Ok(())
}

/// The bytes of so many blocks at the front.
fn front(bytes: &[u8], format: Format, blocks: usize) -> &[u8]
    requires { blocks * block_bytes format ≤ length bytes.now }
    ensures { result.now ≡ take (blocks * block_bytes format) bytes.now }
{
    let size = format.block_bytes() as usize;
    &bytes[..blocks * size]
}

/// The place of a pair of channels in a block.
fn place_of(pair: u8, format: Format) -> usize
    requires { IsAmong format.channels (variant.Pair pair) }
    ensures place { result ≡ 2 * pair * container_bytes format.bits }
    ensures inside { result + 2 * container_bytes format.bits ≤ block_bytes format }
{
    match format.bits {
        Bits::B16 => usize::from(pair) * 4,
        Bits::B24 | Bits::B32 => usize::from(pair) * 8,
    }
}

/// Appends the bytes of two samples that stand behind one another in a block. How many they are stands in the code, so
/// that they are moved and not copied one by one.
fn push_part(sound: &mut Vec<u8>, bits: Bits, block: &[u8], first: usize) -> Result<(), AllocError>
    requires { first + 2 * container_bytes bits ≤ length block.now }
    ensures { OnOk result (sound.new.items
        ≡ sound.old.items ++ take (2 * container_bytes bits) (drop first block.now)) }
{
    match bits {
        Bits::B16 => sound.extend_from_slice(&block[first..first + 4]),
        Bits::B24 | Bits::B32 => sound.extend_from_slice(&block[first..first + 8]),
    }
}

/// Appends the bytes of a pair of channels of so many blocks.
fn push_parts(
    sound: &mut Vec<u8>,
    pair: u8,
    format: Format,
    bytes: &[u8],
    blocks: usize,
) -> Result<(), AllocError>
    requires pair { IsAmong format.channels (variant.Pair pair) }
    requires whole { blocks * block_bytes format ≤ length bytes.now }
    ensures { OnOk result (sound.new.items ≡ sound.old.items ++ flat_map (spec.sound_bytes format.bits)
        (items_before (layout format) (variant.Pair pair) bytes.now blocks)) }
{
    let size = format.block_bytes() as usize;
    let first = place_of(pair, format);
    for place in 0..blocks {
        let block = &bytes[place * size..(place + 1) * size];
        push_part(sound, format.bits, block, first)?;
    }
    Ok(())
}

/// Appends the samples of a pair of channels of so many blocks, one by one.
fn push_samples(
    sound: &mut Vec<u8>,
    bits: Bits,
    pair: u8,
    format: Format,
    bytes: &[u8],
    blocks: usize,
) -> Result<(), AllocError>
    requires pair { IsAmong format.channels (variant.Pair pair) }
    requires whole { blocks * block_bytes format ≤ length bytes.now }
    ensures { OnOk result (sound.new.items ≡ sound.old.items
        ++ flat_map (spec.sound_bytes bits) (items_before (layout format) (variant.Pair pair) bytes.now blocks)) }
{
    let size = format.block_bytes() as usize;
    for place in 0..blocks {
        let block = &bytes[place * size..(place + 1) * size];
        push_sample(sound, bits, format.sample(block, 2 * pair))?;
        push_sample(sound, bits, format.sample(block, 2 * pair + 1))?;
    }
    Ok(())
}

/// Appends the bytes of a sample.
fn push_sample(sound: &mut Vec<u8>, bits: Bits, sample: i32) -> Result<(), AllocError>
    ensures { OnOk result (sound.new.items ≡ sound.old.items ++ spec.sample_bytes bits sample) }
{
    let container = sample.to_le_bytes();
    match bits {
        Bits::B16 => sound.extend_from_slice(&container[..2]),
        Bits::B24 | Bits::B32 => sound.extend_from_slice(&container),
    }
}
