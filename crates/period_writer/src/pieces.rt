//! Writes of the line, a piece for each period.
ghost use Rattle.std.specs.Prelude.{◌≡◌, ◌≤◌, ◌<◌, ◌+◌, ◌-◌, ◌*◌, ◌^◌, ◌++◌, All, length, drop, min};
ghost use Rattle.hda_world.specs.Tellings.{Accessed, Between, Makes};
ghost use Rattle.hda_world.specs.Events.{DmaWrite};
ghost use Rattle.period_writer.specs.Blocks.{addresses_of};
ghost use Rattle.period_writer.specs.Lines.{sound_and_silence};
ghost use Rattle.period_writer.specs.Places as spec;
ghost use Rattle.wav_reader.specs.Supplies.{without};

use crate::memory::{fill, write_piece};
use dma_pool::Lent;
use hda_platform::Platform;
use wav_reader::Supply;

/// Bytes of the line that are to be written: from a position on up to another, so many of them sound and the others
/// silence.
#[derive(Clone, Copy)]
pub(crate) struct Part {
    pub(crate) from: u64,
    pub(crate) to: u64,
    pub(crate) sound: u64,
}

/// How many periods of so many bytes the positions from one on up to another touch.
fn touched(bytes: u64, from: u64, to: u64) -> u64
    requires some { 1 ≤ bytes }
    requires small { to < 2 ^ 63 }
    ensures { result ≡ spec.touched bytes from to }
{
    if from < to {
        (to - 1) / bytes + 1 - from / bytes
    } else {
        0
    }
}

/// Fills a piece with the next bytes of the supply and silence, and writes it to the block of its period.
#[tactic(auto, using(crate::proofs::Told::told_as))]
fn write_filled<P: Platform>(
    platform: &mut P,
    period: &mut Lent,
    piece: &mut [u8],
    supply: &mut Supply,
    base: u64,
    from: u64,
    sound: usize,
)
    requires within { sound ≤ length piece.old }
    requires left { sound ≤ length supply.old.held }
    requires begins { base ≤ from }
    requires ends { from + length piece.old ≤ base + period.old.bytes }
    requires small { base + period.old.bytes < 2 ^ 64 }
    requires room { 1 ≤ P.spare_accesses platform.old }
    requires bytes_room { length piece.old ≤ P.spare_bytes platform.old }
    ensures told { Between (λ old new. Accessed old new (DmaWrite
        (period.old.address + (from - base)) (sound_and_silence sound (length piece.old) supply.old.held)))
        (P.told platform.old) (P.told platform.new) }
    ensures supply { supply.new ≡ without sound supply.old }
    ensures same { period.new ≡ period.old }
    ensures fixed { P.fixed platform.new ≡ P.fixed platform.old }
    ensures accesses { P.spare_accesses platform.new + 1 ≡ P.spare_accesses platform.old }
    ensures bytes { P.spare_bytes platform.new + length piece.old ≡ P.spare_bytes platform.old }
{
    fill(piece, supply, sound);
    write_piece(platform, period, base, from, piece);
}

/// A piece of a part of the line: its period, its first position and the one after its last, and how many of its bytes
/// are sound.
#[derive(Clone, Copy)]
struct Piece {
    period: u64,
    from: u64,
    to: u64,
    sound: u64,
}

/// The piece of a part in a period, where so many bytes of sound are left of the part.
fn piece_of(bytes: u64, part: Part, period: u64, left: u64) -> Piece
    requires some { 1 ≤ bytes }
    requires small { bytes * (period + 1) < 2 ^ 64 }
    ensures period { result.period ≡ period }
    ensures from { result.from ≡ spec.piece_start bytes part.from period }
    ensures to { result.to ≡ spec.piece_end bytes part.to period }
    ensures sound { result.sound ≡ min left (result.to - result.from) }
{
    let from = part.from.max(bytes * period);
    let to = part.to.min(bytes * (period + 1));
    Piece {
        period,
        from,
        to,
        sound: left.min(to.saturating_sub(from)),
    }
}

/// Writes a piece from the supply.
fn write_step<P: Platform>(
    platform: &mut P,
    periods: &mut [Lent],
    buffer: &mut [u8],
    supply: &mut Supply,
    piece: Piece,
)
    requires some_periods { 1 ≤ length periods.old }
    requires sizes { All (λ lent. lent.bytes ≡ length buffer.old) periods.old }
    requires begins { length buffer.old * piece.period ≤ piece.from }
    requires ascends { piece.from ≤ piece.to }
    requires ends { piece.to ≤ length buffer.old * (piece.period + 1) }
    requires small { length buffer.old * (piece.period + 1) < 2 ^ 64 }
    requires sound { piece.sound ≤ piece.to - piece.from }
    requires left { piece.sound ≤ length supply.old.held }
    requires room { 1 ≤ P.spare_accesses platform.old }
    requires bytes_room { piece.to - piece.from ≤ P.spare_bytes platform.old }
    ensures told { Between (λ old new. Accessed old new (DmaWrite
        (spec.place_in (length buffer.old) (addresses_of periods.old) piece.period piece.from)
        (sound_and_silence piece.sound (piece.to - piece.from) supply.old.held)))
        (P.told platform.old) (P.told platform.new) }
    ensures supply { supply.new ≡ without piece.sound supply.old }
    ensures periods { periods.new ≡ periods.old }
    ensures fixed { P.fixed platform.new ≡ P.fixed platform.old }
    ensures accesses { P.spare_accesses platform.new + 1 ≡ P.spare_accesses platform.old }
    ensures bytes { P.spare_bytes platform.new + (piece.to - piece.from) ≡ P.spare_bytes platform.old }
{
    let base = buffer.len() as u64 * piece.period;
    let index = (piece.period % periods.len() as u64) as usize;
    let bytes = &mut buffer[..(piece.to - piece.from) as usize];
    write_filled(
        platform,
        &mut periods[index],
        bytes,
        supply,
        base,
        piece.from,
        piece.sound as usize,
    );
}

/// Writes a part of the line from the supply, a write for each period that it touches.
fn write_line<P: Platform>(
    platform: &mut P,
    periods: &mut [Lent],
    buffer: &mut [u8],
    supply: &mut Supply,
    part: Part,
)
    requires some_periods { 1 ≤ length periods.old }
    requires some { 1 ≤ length buffer.old }
    requires sizes { All (λ lent. lent.bytes ≡ length buffer.old) periods.old }
    requires ascends { part.from ≤ part.to }
    requires small { part.to + length buffer.old < 2 ^ 63 }
    requires sound { part.sound ≤ part.to - part.from }
    requires left { part.sound ≤ length supply.old.held }
    requires room { spec.touched (length buffer.old) part.from part.to ≤ P.spare_accesses platform.old }
    requires bytes_room { part.to - part.from ≤ P.spare_bytes platform.old }
    ensures made { Between (Makes (spec.line_writes (length buffer.old) (addresses_of periods.old) part.from part.to
        (sound_and_silence part.sound (part.to - part.from) supply.old.held)))
        (P.told platform.old) (P.told platform.new) }
    ensures supply { supply.new ≡ without part.sound supply.old }
    ensures periods { periods.new ≡ periods.old }
    ensures fixed { P.fixed platform.new ≡ P.fixed platform.old }
    ensures accesses { P.spare_accesses platform.new + spec.touched (length buffer.old) part.from part.to
        ≡ P.spare_accesses platform.old }
    ensures bytes { P.spare_bytes platform.new + (part.to - part.from) ≡ P.spare_bytes platform.old }
{
    let bytes = buffer.len() as u64;
    let first = part.from / bytes;
    let mut left = part.sound;
    for step in 0..touched(bytes, part.from, part.to) {
        let piece = piece_of(bytes, part, first + step, left);
        write_step(platform, periods, buffer, supply, piece);
        left -= piece.sound;
    }
}

/// Writes a part of the line to the blocks of the periods, by a buffer of a period's bytes.
pub(crate) fn write_part<P: Platform>(
    platform: &mut P,
    periods: &mut Vec<Lent>,
    buffer: &mut Vec<u8>,
    supply: &mut Supply,
    part: Part,
)
    requires some_periods { 1 ≤ length periods.old.items }
    requires some { 1 ≤ length buffer.old.items }
    requires sizes { All (λ lent. lent.bytes ≡ length buffer.old.items) periods.old.items }
    requires ascends { part.from ≤ part.to }
    requires small { part.to + length buffer.old.items < 2 ^ 63 }
    requires sound { part.sound ≤ part.to - part.from }
    requires left { part.sound ≤ length supply.old.held }
    requires room { spec.touched (length buffer.old.items) part.from part.to ≤ P.spare_accesses platform.old }
    requires bytes_room { part.to - part.from ≤ P.spare_bytes platform.old }
    ensures made { Between (Makes (spec.line_writes
        (length buffer.old.items) (addresses_of periods.old.items) part.from part.to
        (sound_and_silence part.sound (part.to - part.from) supply.old.held)))
        (P.told platform.old) (P.told platform.new) }
    ensures supply { supply.new ≡ without part.sound supply.old }
    ensures periods { periods.new.items ≡ periods.old.items }
    ensures buffer { length buffer.new.items ≡ length buffer.old.items }
    ensures fixed { P.fixed platform.new ≡ P.fixed platform.old }
    ensures accesses { P.spare_accesses platform.new + spec.touched (length buffer.old.items) part.from part.to
        ≡ P.spare_accesses platform.old }
    ensures bytes { P.spare_bytes platform.new + (part.to - part.from) ≡ P.spare_bytes platform.old }
{
    write_line(platform, periods, buffer, supply, part);
}

/// Writes sound over silence, and then what comes after the line's end.
#[tactic(auto, using(hda_world::proofs::Callers::rows))]
pub(crate) fn write_parts<P: Platform>(
    platform: &mut P,
    periods: &mut Vec<Lent>,
    buffer: &mut Vec<u8>,
    supply: &mut Supply,
    over: Part,
    after: Part,
)
    requires some_periods { 1 ≤ length periods.old.items }
    requires some { 1 ≤ length buffer.old.items }
    requires sizes { All (λ lent. lent.bytes ≡ length buffer.old.items) periods.old.items }
    requires over_ascends { over.from ≤ over.to }
    requires over_small { over.to + length buffer.old.items < 2 ^ 63 }
    requires over_sound { over.sound ≤ over.to - over.from }
    requires after_ascends { after.from ≤ after.to }
    requires after_small { after.to + length buffer.old.items < 2 ^ 63 }
    requires after_sound { after.sound ≤ after.to - after.from }
    requires left { over.sound + after.sound ≤ length supply.old.held }
    requires room { spec.touched (length buffer.old.items) over.from over.to
        + spec.touched (length buffer.old.items) after.from after.to ≤ P.spare_accesses platform.old }
    requires bytes_room { (over.to - over.from) + (after.to - after.from) ≤ P.spare_bytes platform.old }
    ensures made { Between (Makes (
        spec.line_writes (length buffer.old.items) (addresses_of periods.old.items) over.from over.to
        (sound_and_silence over.sound (over.to - over.from) supply.old.held)
        ++ spec.line_writes (length buffer.old.items) (addresses_of periods.old.items) after.from after.to
        (sound_and_silence after.sound (after.to - after.from) (drop over.sound supply.old.held))))
        (P.told platform.old) (P.told platform.new) }
    ensures supply { supply.new ≡ without after.sound (without over.sound supply.old) }
    ensures periods { periods.new.items ≡ periods.old.items }
    ensures buffer { length buffer.new.items ≡ length buffer.old.items }
    ensures fixed { P.fixed platform.new ≡ P.fixed platform.old }
    ensures accesses { P.spare_accesses platform.new
        + (spec.touched (length buffer.old.items) over.from over.to
        + spec.touched (length buffer.old.items) after.from after.to) ≡ P.spare_accesses platform.old }
    ensures bytes { P.spare_bytes platform.new + ((over.to - over.from) + (after.to - after.from))
        ≡ P.spare_bytes platform.old }
{
    write_part(platform, periods, buffer, supply, over);
    write_part(platform, periods, buffer, supply, after);
}
