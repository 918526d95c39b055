//! Reads of the ring, a piece for each period.
ghost use Rattle.std.specs.Prelude.{◌≡◌, ◌≤◌, ◌<◌, ◌+◌, ◌-◌, ◌*◌, ◌^◌, All, length, vec_len, vec_capacity};
ghost use Rattle.hda_world.specs.Tellings.{Accessed, Between};
ghost use Rattle.hda_world.specs.Events.{DmaRead};
ghost use Rattle.period_writer.specs.Blocks.{addresses_of};
ghost use Rattle.period_writer.specs.Places as places;
ghost use Rattle.hda_capture.specs.Reading as spec;

use dma_pool::Lent;
use hda_items::extend_within_capacity;
use hda_platform::Platform;

/// The positions from one on up to another.
#[derive(Clone, Copy)]
pub(crate) struct Stretch {
    pub(crate) from: u64,
    pub(crate) to: u64,
}

/// How many periods of so many bytes the positions from one on up to another touch.
fn touched(bytes: u64, stretch: Stretch) -> u64
    requires some { 1 ≤ bytes }
    requires small { stretch.to < 2 ^ 63 }
    ensures { result ≡ places.touched bytes stretch.from stretch.to }
{
    if stretch.from < stretch.to {
        (stretch.to - 1) / bytes + 1 - stretch.from / bytes
    } else {
        0
    }
}

/// Reads a piece from the block of its period, whose first byte has the position `base`, from a position on.
fn read_piece<P: Platform>(platform: &mut P, period: &Lent, base: u64, from: u64, piece: &mut [u8])
    requires begins { base ≤ from }
    requires ends { from + length piece.old ≤ base + period.now.bytes }
    requires room { 1 ≤ P.spare_accesses platform.old }
    requires bytes_room { length piece.old ≤ P.spare_bytes platform.old }
    ensures told { Between (λ old new. Accessed old new (DmaRead (period.now.address + (from - base)) piece.new))
        (P.told platform.old) (P.told platform.new) }
    ensures fixed { P.fixed platform.new ≡ P.fixed platform.old }
    ensures accesses { P.spare_accesses platform.new + 1 ≡ P.spare_accesses platform.old }
    ensures bytes { P.spare_bytes platform.new + length piece.old ≡ P.spare_bytes platform.old }
{
    platform.dma_read(period, from - base, piece);
}

/// A piece of a stretch: its period, its first position and the one after its last.
#[derive(Clone, Copy)]
struct Piece {
    period: u64,
    from: u64,
    to: u64,
}

/// The piece of a stretch in a period.
fn piece_of(bytes: u64, stretch: Stretch, period: u64) -> Piece
    requires some { 1 ≤ bytes }
    requires small { bytes * (period + 1) < 2 ^ 64 }
    ensures period { result.period ≡ period }
    ensures from { result.from ≡ places.piece_start bytes stretch.from period }
    ensures to { result.to ≡ places.piece_end bytes stretch.to period }
{
    Piece {
        period,
        from: stretch.from.max(bytes * period),
        to: stretch.to.min(bytes * (period + 1)),
    }
}

/// Reads a piece by a buffer of a period's bytes, and puts it last.
fn read_step<P: Platform>(
    platform: &mut P,
    periods: &[Lent],
    buffer: &mut [u8],
    recorded: &mut Vec<u8>,
    piece: Piece,
)
    requires some_periods { 1 ≤ length periods.now }
    requires sizes { All (λ lent. lent.bytes ≡ length buffer.old) periods.now }
    requires begins { length buffer.old * piece.period ≤ piece.from }
    requires ascends { piece.from ≤ piece.to }
    requires ends { piece.to ≤ length buffer.old * (piece.period + 1) }
    requires small { length buffer.old * (piece.period + 1) < 2 ^ 64 }
    requires free { vec_len recorded.old + (piece.to - piece.from) ≤ vec_capacity recorded.old }
    requires room { 1 ≤ P.spare_accesses platform.old }
    requires bytes_room { piece.to - piece.from ≤ P.spare_bytes platform.old }
    ensures reads { spec.ReadsPiece
        (places.place_in (length buffer.old) (addresses_of periods.now) piece.period piece.from) (piece.to - piece.from)
        recorded.old.items recorded.new.items (P.told platform.old) (P.told platform.new) }
    ensures length { vec_len recorded.new ≡ vec_len recorded.old + (piece.to - piece.from) }
    ensures capacity { vec_capacity recorded.old ≤ vec_capacity recorded.new }
    ensures fixed { P.fixed platform.new ≡ P.fixed platform.old }
    ensures accesses { P.spare_accesses platform.new + 1 ≡ P.spare_accesses platform.old }
    ensures bytes { P.spare_bytes platform.new + (piece.to - piece.from) ≡ P.spare_bytes platform.old }
{
    let base = buffer.len() as u64 * piece.period;
    let index = (piece.period % periods.len() as u64) as usize;
    let bytes = &mut buffer[..(piece.to - piece.from) as usize];
    read_piece(platform, &periods[index], base, piece.from, bytes);
    extend_within_capacity(recorded, bytes);
}

/// Reads a stretch of the ring, a read for each period that it touches, and puts what it read last.
pub(crate) fn read_line<P: Platform>(
    platform: &mut P,
    periods: &[Lent],
    buffer: &mut [u8],
    recorded: &mut Vec<u8>,
    stretch: Stretch,
)
    requires some_periods { 1 ≤ length periods.now }
    requires some { 1 ≤ length buffer.old }
    requires sizes { All (λ lent. lent.bytes ≡ length buffer.old) periods.now }
    requires ascends { stretch.from ≤ stretch.to }
    requires small { stretch.to + length buffer.old < 2 ^ 63 }
    requires free { vec_len recorded.old + (stretch.to - stretch.from) ≤ vec_capacity recorded.old }
    requires room { places.touched (length buffer.old) stretch.from stretch.to ≤ P.spare_accesses platform.old }
    requires bytes_room { stretch.to - stretch.from ≤ P.spare_bytes platform.old }
    ensures reads { spec.ReadsLine (length buffer.old) (addresses_of periods.now) stretch.from stretch.to
        recorded.old.items recorded.new.items (P.told platform.old) (P.told platform.new) }
    ensures length { vec_len recorded.new ≡ vec_len recorded.old + (stretch.to - stretch.from) }
    ensures capacity { vec_capacity recorded.old ≤ vec_capacity recorded.new }
    ensures fixed { P.fixed platform.new ≡ P.fixed platform.old }
    ensures accesses { P.spare_accesses platform.new + places.touched (length buffer.old) stretch.from stretch.to
        ≡ P.spare_accesses platform.old }
    ensures bytes { P.spare_bytes platform.new + (stretch.to - stretch.from) ≡ P.spare_bytes platform.old }
{
    let bytes = buffer.len() as u64;
    let first = stretch.from / bytes;
    for step in 0..touched(bytes, stretch) {
        let piece = piece_of(bytes, stretch, first + step);
        read_step(platform, periods, buffer, recorded, piece);
    }
}
