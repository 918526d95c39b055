//! What a stream that takes blocks from the link does: they come into its FIFO, and its bytes go to memory.
ghost use Rattle.std.specs.Prelude.{◌≡◌, ◌≤◌, ◌<◌, ◌+◌, ◌*◌, ◌%◌, ◌&&◌, ◌==◌, true, false, [], length, nat_le, ◌++◌};
ghost use Rattle.std.specs.Prelude.{if◌then◌else◌, Some, None};
ghost use Rattle.hda_registers.specs.Fields.{is_out_of_reset, stream_of};
ghost use Rattle.hda_registers.specs.Status.{worth};
ghost use Rattle.stream_format.specs.Cadence.{most_bytes};
ghost use Rattle.stream_format.specs.Layouts.{layout_of};
ghost use Rattle.world_streams.specs.Input.{given_block, entered_after, marks_after};
ghost use Rattle.stream_descriptor.specs.Running.{CanPlay, with_descriptor};
ghost use Rattle.stream_descriptor.specs.Taking.{WasEmptied, WasFramed, WasPassed, WasStored, blocks_in, due_in};
ghost use Rattle.stream_descriptor.specs.Taking.{marks_in};

use super::{FRAME_CYCLE, Stream};
use crate::arrived::{Arrived, MOST_BLOCK_BYTES, SoundBlocks};
use hda_registers::Registers;
use stream_fetch::{Fetch, ListAt};
use stream_format::Format;

/// No block came.
const NONE_ARRIVED: Arrived = Arrived {
    taken: 0,
    dropped: 0,
};

impl Stream {
    /// The blocks that are due in the next link frame, from one of this number in the sound on.
    pub(crate) fn due(&self, regs: &Registers, from: u64) -> SoundBlocks
        ensures is { result ≡ due_in (layout_of (stream_of regs.now self.now.index).format) from self.now.frame }
        ensures small { result.size ≤ MOST_BLOCK_BYTES }
        ensures few { result.count ≤ 4 }
    {
        match Format::from_word(regs.format(self.index)) {
            Some(format) => SoundBlocks {
                from,
                size: format.block_bytes(),
                count: format.blocks(u64::from(self.frame)),
            },
            None => SoundBlocks {
                from,
                size: 0,
                count: 0,
            },
        }
    }

    /// Lets a link frame pass that brings these blocks.
    pub(crate) fn take_frame(
        &mut self,
        regs: &mut Registers,
        sound: &[u8],
        blocks: SoundBlocks,
    ) -> Arrived
        requires { blocks.size ≤ MOST_BLOCK_BYTES }
        ensures index { self.new.index ≡ self.old.index }
        ensures capacity { self.new.fetch.capacity ≡ self.old.fetch.capacity }
        ensures few { result.taken + result.dropped ≤ blocks.count }
        ensures cause { WasFramed (blocks_in sound.now blocks) self.old regs.old self.new regs.new result }
    {
        if !self.is_playing(regs) {
            return NONE_ARRIVED;
        }
        match self.usable_format(regs) {
            Some(format) => self.take(regs, format, sound, blocks),
            None => {
                self.break_off(regs);
                NONE_ARRIVED
            }
        }
    }

    /// Stores at most so many bytes of the FIFO in the list's buffers.
    pub(crate) fn store_list(&mut self, regs: &mut Registers, memory: &mut [u8], most: u32)
        ensures index { self.new.index ≡ self.old.index }
        ensures capacity { self.new.fetch.capacity ≡ self.old.fetch.capacity }
        ensures cause { WasStored most memory.old self.old regs.old self.new regs.new memory.new }
    {
        if most == 0 {
            return;
        }
        if !self.is_playing(regs) {
            return;
        }
        match self.usable_format(regs) {
            Some(format) => self.empty(regs, format, memory, most),
            None => self.break_off(regs),
        }
    }

    /// Lets a link frame pass at a stream that runs, whose registers can be used and have this format.
    fn take(
        &mut self,
        regs: &mut Registers,
        format: Format,
        sound: &[u8],
        blocks: SoundBlocks,
    ) -> Arrived
        requires streams { CanPlay regs.old self.old.index format }
        requires small { blocks.size ≤ MOST_BLOCK_BYTES }
        ensures index { self.new.index ≡ self.old.index }
        ensures capacity { self.new.fetch.capacity ≡ self.old.fetch.capacity }
        ensures few { result.taken + result.dropped ≤ blocks.count }
        ensures cause { WasPassed (blocks_in sound.now blocks) self.old regs.old self.new regs.new result }
    {
        self.frame = (self.frame + 1) % FRAME_CYCLE;
        if blocks.count == 0 {
            return NONE_ARRIVED;
        }
        let before = self.fetch.held();
        let arrived = accept_blocks(&mut self.fetch, sound, blocks);
        let taken = self.fetch.held() - before;
        self.show_taken(regs, format, taken, arrived.dropped != 0);
        arrived
    }

    /// Stores for a stream that runs, whose registers can be used and have this format.
    fn empty(&mut self, regs: &mut Registers, format: Format, memory: &mut [u8], most: u32)
        requires streams { CanPlay regs.old self.old.index format }
        ensures index { self.new.index ≡ self.old.index }
        ensures capacity { self.new.fetch.capacity ≡ self.old.fetch.capacity }
        ensures cause { WasEmptied most memory.old self.old regs.old self.new regs.new memory.new }
    {
        let list = ListAt {
            address: regs.list_address(self.index),
            last: regs.last_index(self.index),
        };
        let stored = self.fetch.store(list, memory, most);
        self.raise_done_if(stored.done, regs);
        self.show_ready(regs, format);
        self.break_off_if(stored.broken, regs);
    }

    /// Moves LPIB on by the bytes that were taken, modulo CBL, sets FIFOE where blocks were dropped, and shows FIFORDY
    /// (HDA 1.0a, 3.3.36 and 3.3.37).
    fn show_taken(&self, regs: &mut Registers, format: Format, taken: u32, dropped: bool)
        requires out { is_out_of_reset regs.old.global ≡ true }
        requires length { 0 < (stream_of regs.old self.now.index).buffer_length }
        ensures { regs.new ≡ with_descriptor self.now.index (record (stream_of regs.old self.now.index) {
          link_position = ((stream_of regs.old self.now.index).link_position + taken)
              % (stream_of regs.old self.now.index).buffer_length;
          fifo_error = if dropped then 1 else (stream_of regs.old self.now.index).fifo_error;
          fifo_ready = worth (nat_le (most_bytes format) (length self.now.fetch.bytes)) 0;
        }) regs.old }
    {
        self.move_position(regs, taken);
        self.raise_missed_if(dropped, regs);
        self.show_ready(regs, format);
    }

    /// Sets FIFOE where blocks were dropped (HDA 1.0a, 3.3.36).
    fn raise_missed_if(&self, dropped: bool, regs: &mut Registers)
        requires { is_out_of_reset regs.old.global ≡ true }
        ensures { regs.new ≡ with_descriptor self.now.index (record (stream_of regs.old self.now.index) {
          fifo_error = if dropped then 1 else (stream_of regs.old self.now.index).fifo_error;
        }) regs.old }
    {
        if dropped {
            self.raise_missed(regs);
        }
    }
}

/// Puts the blocks in the FIFO, one after another, as far as it has room: where one does not fit, none does that comes
/// after it.
fn accept_blocks(fetch: &mut Fetch, sound: &[u8], blocks: SoundBlocks) -> Arrived
    requires { blocks.size ≤ MOST_BLOCK_BYTES }
    ensures fetch { fetch.new ≡ record fetch.old {
      bytes = entered_after fetch.old.capacity 0 fetch.old.bytes (blocks_in sound.now blocks);
    } }
    ensures count { result.taken + result.dropped ≡ blocks.count }
    ensures marks { marks_in result
        ≡ marks_after fetch.old.capacity 0 fetch.old.bytes (blocks_in sound.now blocks) }
{
    for place in 0..blocks.count {
        if !accept_block(fetch, sound, blocks, place) {
            return Arrived {
                taken: place,
                dropped: blocks.count - place,
            };
        }
    }
    Arrived {
        taken: blocks.count,
        dropped: 0,
    }
}

/// Puts the block at this place among them in the FIFO. False exactly where it has no room for it, and then nothing
/// changes.
fn accept_block(fetch: &mut Fetch, sound: &[u8], blocks: SoundBlocks, place: u32) -> bool
    requires { blocks.size ≤ MOST_BLOCK_BYTES }
    ensures fits { result ≡ nat_le (length fetch.old.bytes + blocks.size) fetch.old.capacity }
    ensures taken { result ≡ true → fetch.new ≡ record fetch.old {
      bytes = fetch.old.bytes ++ given_block blocks.size sound.now (blocks.from + place);
    } }
    ensures kept { result ≡ false → fetch.new ≡ fetch.old }
{
    let silence = [0; MOST_BLOCK_BYTES];
    match block_start(sound.len(), blocks, place) {
        Some(start) => fetch.accept(&sound[start..start + blocks.size as usize]),
        None => fetch.accept(&silence[..blocks.size as usize]),
    }
}

/// Where the block at this place among them begins in a sound of so many bytes. `None` where it does not lie in it.
fn block_start(len: usize, blocks: SoundBlocks, place: u32) -> Option<usize>
    ensures { result ≡ (if nat_le ((blocks.from + place + 1) * blocks.size) len
        then Some ((blocks.from + place) * blocks.size) else None) }
{
    let start = (u128::from(blocks.from) + u128::from(place)) * u128::from(blocks.size);
    if start + u128::from(blocks.size) <= len as u128 {
        Some(start as usize)
    } else {
        None
    }
}
