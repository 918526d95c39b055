//! What a pin heard, read item by item.
ghost use Rattle.std.specs.Prelude.{◌≡◌, ◌≤◌, ◌<◌, ◌+◌, ◌^◌, ◌++◌, ◌∷◌, ℕ, length, drop, replicate, get_or};
ghost use Rattle.std.specs.List.{AllZip};
ghost use Rattle.heard_frames.specs.declared.heard.Heard.TheVariants.{Hole, Quiet};
ghost use Rattle.codec_sound.specs.Signals.{IsAmong};
ghost use Rattle.stream_format.specs.Layouts.{layout};
ghost use Rattle.heard_lists.specs.Listings.{items_before};
ghost use Rattle.heard_lists.specs.declared.pieces.Piece.{Piece};
ghost use Rattle.heard_lists.specs.Pieces.{piece_count, piece_size, pieces_count, pieces_items, pieces_size};
ghost use Rattle.heard_lists.specs.Readers.{IsStart};

use crate::blocks::item;
use crate::pieces::{Piece, PieceStart};
use codec_sound::Signal;
use heard_frames::Heard;
use std::marker::Model;

/// What a pin heard, to be read item by item, oldest first. Contracts see the items that are left. This project's own.
#[derive(Drop)]
pub struct HeardReader<'a> {
    pieces: &'a [Piece],
    signals: &'a [Signal],
    bytes: &'a [u8],
    /// How many link frames missed their blocks since the last piece.
    holes: usize,
    /// The number of the item that is read next.
    next: usize,
    /// The start of a piece, not behind that item.
    start: PieceStart,
}

impl<'a> Model for HeardReader<'a> {
    ghost use Rattle.std.specs.Prelude.{List, ◌++◌, drop, replicate};
    ghost use Rattle.heard_frames.specs.declared.heard.Heard.{Heard};
    ghost use Rattle.heard_frames.specs.declared.heard.Heard.TheVariants.{Hole};
    ghost use Rattle.heard_lists.specs.Pieces.{pieces_items};
    ghost use Rattle.heard_lists.specs.Readers.{IsReader};

    ghost Value = { List Heard };

    ghost view = { λ r. drop r.next (pieces_items r.pieces.now r.signals.now r.bytes.now ++ replicate r.holes Hole) };

    ghost invariant = { λ r. IsReader r.pieces.now r.signals.now r.bytes.now r.holes r.next r.start };
}

impl<'a> HeardReader<'a> {
    /// A reader of what a pin with these signals heard in pieces, and of holes behind them, from the item with a number
    /// on.
    pub(crate) fn new(
        pieces: &'a [Piece],
        signals: &'a [Signal],
        bytes: &'a [u8],
        holes: usize,
        from: usize,
    ) -> Self
        requires among { AllZip (λ piece signal. IsAmong piece.format.channels signal) pieces.now signals.now }
        requires whole { pieces_size pieces.now ≤ length bytes.now }
        requires few { pieces_count pieces.now + holes < 2 ^ 64 }
        ensures { result ≡ drop from (pieces_items pieces.now signals.now bytes.now ++ replicate holes Hole) }
    {
        HeardReader {
            pieces,
            signals,
            bytes,
            holes,
            next: from,
            start: PieceStart {
                piece: 0,
                item: 0,
                byte: 0,
            },
        }
    }

    /// Reads the next item. There is one.
    pub fn read(&mut self) -> Heard
        requires { 0 < length self.old }
        ensures { self.old ≡ result ∷ self.new }
    {
        let start = find(self.pieces, self.start, self.next);
        let heard = item_in(self.pieces, self.signals, self.bytes, start, self.next);
        self.start = start;
        self.next += 1;
        heard
    }
}

/// The start of the piece that has the item with a number, looked for from a start on, and the end of all pieces where
/// none has it.
fn find(pieces: &[Piece], from: PieceStart, number: usize) -> PieceStart
    requires start { IsStart pieces.now from }
    requires before { from.item ≤ number }
    requires few { pieces_count pieces.now < 2 ^ 64 }
    requires small { pieces_size pieces.now < 2 ^ 64 }
    ensures start { IsStart pieces.now result }
    ensures before { result.item ≤ number }
    ensures there { (piece : Piece) → result.piece < length pieces.now
        → number < result.item + piece_count (get_or pieces.now result.piece piece) }
{
    let mut start = from;
    for place in from.piece..pieces.len() {
        let next = after(start, pieces[place]);
        if number < next.item {
            return start;
        }
        start = next;
    }
    start
}

/// The start behind a piece.
fn after(start: PieceStart, piece: Piece) -> PieceStart
    requires last { start.piece + 1 < 2 ^ 64 }
    requires few { start.item + piece_count piece < 2 ^ 64 }
    requires small { start.byte + piece_size piece < 2 ^ 64 }
    ensures piece { result.piece ≡ start.piece + 1 }
    ensures item { result.item ≡ start.item + piece_count piece }
    ensures byte { result.byte ≡ start.byte + piece_size piece }
{
    PieceStart {
        piece: start.piece + 1,
        item: start.item + piece.holes + piece.blocks,
        byte: start.byte + piece.blocks * piece.format.block_bytes() as usize,
    }
}

/// The item with a number, which is in the piece that begins at a start, or behind all pieces.
fn item_in(
    pieces: &[Piece],
    signals: &[Signal],
    bytes: &[u8],
    start: PieceStart,
    number: usize,
) -> Heard
    requires among { AllZip (λ piece signal. IsAmong piece.format.channels signal) pieces.now signals.now }
    requires whole { pieces_size pieces.now ≤ length bytes.now }
    requires start { IsStart pieces.now start }
    requires before { start.item ≤ number }
    requires there { (piece : Piece) → start.piece < length pieces.now
        → number < start.item + piece_count (get_or pieces.now start.piece piece) }
    ensures { (holes : ℕ) → number < pieces_count pieces.now + holes
        → result ≡ get_or (pieces_items pieces.now signals.now bytes.now ++ replicate holes Hole) number Quiet }
{
    if start.piece == pieces.len() {
        return Heard::Hole;
    }
    let piece = pieces[start.piece];
    let place = number - start.item;
    if place < piece.holes {
        return Heard::Hole;
    }
    block_in(
        piece,
        signals[start.piece],
        bytes,
        start.byte,
        place - piece.holes,
    )
}

/// What a pin with this signal heard of a block of a piece, whose bytes begin at a place.
fn block_in(piece: Piece, signal: Signal, bytes: &[u8], byte: usize, block: usize) -> Heard
    requires pair { IsAmong piece.format.channels signal }
    requires there { block < piece.blocks }
    requires whole { byte + piece_size piece ≤ length bytes.now }
    ensures { result
        ≡ get_or (items_before (layout piece.format) signal (drop byte bytes.now) piece.blocks) block Quiet }
{
    let size = piece.format.block_bytes() as usize;
    let from = byte + block * size;
    item(piece.format, signal, &bytes[from..from + size])
}
