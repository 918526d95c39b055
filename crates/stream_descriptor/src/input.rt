//! An input stream.
ghost use Rattle.std.specs.Prelude.{◌≡◌, ◌≤◌, ◌+◌, true, false, [], IfOk, length, if◌then◌else◌};
ghost use Rattle.hda_registers.specs.Laws.{IsHeldInReset};
ghost use Rattle.hda_registers.specs.Access.{rose, fell};
ghost use Rattle.hda_registers.specs.Fields.{Descriptor, is_out_of_reset, is_running, stream_of};
ghost use Rattle.stream_format.specs.Layouts.{layout_of};
ghost use Rattle.world_streams.specs.Streams.{StreamState, begun};
ghost use Rattle.world_streams.specs.Streams as streams;
ghost use Rattle.stream_descriptor.specs.Running.{StoodForBy, taken_bytes, with_descriptor};
ghost use Rattle.stream_descriptor.specs.Taking.{TakesFor, TakesTo, WasFramed, WasStored, blocks_in, due_in};
ghost use Rattle.stream_descriptor.specs.Taking.{framed_at, marks_in, stored_at};
ghost use Rattle.stream_fetch.specs.Fetching as fetching;

use crate::arrived::{Arrived, MOST_BLOCK_BYTES, SoundBlocks};
use crate::stream::Stream;
use hda_registers::Registers;
use std::alloc::{AllocError, Global};
use std::marker::Model;

/// An input stream, at descriptor 0: link frames bring blocks into its FIFO, and its bytes go to the list's buffers.
/// Contracts see it as they see a `Stream`.
#[derive(Drop)]
pub struct InputStream {
    stream: Stream,
}

impl Model for InputStream {
    ghost use Rattle.std.specs.Prelude.{◌≡◌};
    ghost use Rattle.stream_descriptor.specs.Running.{Playing};

    ghost Value = { Playing };

    ghost view = { λ input. input.stream };

    ghost invariant = { λ input. input.stream.index ≡ 0 };
}

impl InputStream {
    /// A stream that does not run, with a FIFO of so many bytes.
    ///
    /// # Errors
    /// Want of memory.
    pub fn new(alloc: Global, fifo: u16) -> Result<InputStream, AllocError>
        ensures index { IfOk result (λ input. input.index ≡ 0) }
        ensures capacity { IfOk result (λ input. input.fetch.capacity ≡ fifo) }
        ensures empty { IfOk result (λ input. input.fetch.bytes ≡ []) }
        ensures anew { IfOk result (λ input. fetching.StandsFor input.fetch begun) }
        ensures frame { IfOk result (λ input. input.frame ≡ 0) }
    {
        Ok(InputStream {
            stream: Stream::new(alloc, 0, fifo)?,
        })
    }

    /// RUN rose at the descriptor: no block came and nothing was stored yet, and LPIB begins at 0 (HDA 1.0a, 3.3.35 and
    /// 3.3.37).
    pub fn start(&mut self, regs: &mut Registers)
        requires { is_out_of_reset regs.old.global ≡ true }
        ensures index { self.new.index ≡ self.old.index }
        ensures registers { regs.new ≡ with_descriptor self.old.index
            (record (stream_of regs.old self.old.index) { link_position = 0; fifo_ready = 0 }) regs.old }
        ensures stands { is_running (stream_of regs.old self.old.index) ≡ true
            → self.old.fetch.capacity ≡ regs.old.shape.fifo
            → TakesFor self.new regs.new begun }
        ensures anew { fetching.StandsFor self.new.fetch begun }
        ensures frame { self.new.frame ≡ 0 }
        ensures capacity { self.new.fetch.capacity ≡ self.old.fetch.capacity }
    {
        self.stream.start(regs);
    }

    /// Does what a write of a register leaves to do at the stream: it starts where RUN rose, and stops where RUN fell.
    pub fn settle(&mut self, regs: &mut Registers, started: bool, stopped: bool)
        ensures index { self.new.index ≡ self.old.index }
        ensures leads { (old : Descriptor) (state : StreamState) → IsHeldInReset regs.old
            → started ≡ rose old (stream_of regs.old self.old.index)
            → stopped ≡ fell old (stream_of regs.old self.old.index)
            → StoodForBy taken_bytes self.old regs.old old state
            → TakesTo self.new regs.old regs.new (record {
              descriptor = streams.settled old (stream_of regs.old self.old.index);
              state = streams.settled_state old (stream_of regs.old self.old.index) state;
            }) }
    {
        self.stream.settle(regs, started, stopped);
    }

    /// RUN fell at the descriptor, or a reset cleared it: the FIFO is emptied, and what it held is lost; LPIB keeps its
    /// value (HDA 1.0a, 3.3.35).
    pub fn stop(&mut self, regs: &mut Registers)
        ensures index { self.new.index ≡ self.old.index }
        ensures registers { regs.new ≡ (if is_out_of_reset regs.old.global
            then with_descriptor self.old.index (record (stream_of regs.old self.old.index) { fifo_ready = 0 }) regs.old
            else regs.old) }
        ensures stands { (state : StreamState) → is_running (stream_of regs.old self.old.index) ≡ false
            → self.old.fetch.capacity ≡ regs.old.shape.fifo → TakesFor self.new regs.new state }
        ensures empty { self.new.fetch.bytes ≡ [] }
        ensures capacity { self.new.fetch.capacity ≡ self.old.fetch.capacity }
    {
        self.stream.stop(regs);
    }

    /// The blocks of a sound that are due in the next link frame, by the format word and the frames since RUN rose:
    /// from one of this number on (HDA 1.0a, 5.4.2). None of 0 bytes where the format word has no meaning.
    pub fn due(&self, regs: &Registers, from: u64) -> SoundBlocks
        ensures is { result ≡ due_in (layout_of (stream_of regs.now self.now.index).format) from self.now.frame }
        ensures small { result.size ≤ MOST_BLOCK_BYTES }
        ensures few { result.count ≤ 4 }
    {
        self.stream.due(regs, from)
    }

    /// Lets a link frame pass that brings these blocks of a sound, and says how many were taken and how many dropped.
    /// Each is taken whole where the FIFO has room for all of it, and else it is dropped and FIFOE is set; LPIB counts
    /// the bytes that were taken. Where the format word has no meaning or CBL or LVI is 0 the stream stops with DESE,
    /// and no block came (HDA 1.0a, 3.3.36, 3.3.37 and 4.5).
    pub fn frame(&mut self, regs: &mut Registers, sound: &[u8], blocks: SoundBlocks) -> Arrived
        requires { blocks.size ≤ MOST_BLOCK_BYTES }
        ensures index { self.new.index ≡ self.old.index }
        ensures leads { (state : StreamState) → TakesFor self.old regs.old state
            → TakesTo self.new regs.old regs.new
            (framed_at self.old.index (blocks_in sound.now blocks) regs.old state).stream }
        ensures marks { (state : StreamState) → TakesFor self.old regs.old state
            → marks_in result ≡ (framed_at self.old.index (blocks_in sound.now blocks) regs.old state).marks }
        ensures few { result.taken + result.dropped ≤ blocks.count }
        ensures cause { WasFramed (blocks_in sound.now blocks) self.old regs.old self.new regs.new result }
    {
        self.stream.take_frame(regs, sound, blocks)
    }

    /// Stores at most so many bytes of the FIFO, the oldest first, in the list's buffers. Where the format word has no
    /// meaning or CBL or LVI is 0, or at a list entry that can't be used while the FIFO holds a byte, the stream stops
    /// with DESE (HDA 1.0a, 3.3.36 and 3.6).
    pub fn store(&mut self, regs: &mut Registers, memory: &mut [u8], most: u32)
        ensures index { self.new.index ≡ self.old.index }
        ensures leads { (state : StreamState) → TakesFor self.old regs.old state
            → TakesTo self.new regs.old regs.new (stored_at self.old.index most memory.old regs.old state).stream }
        ensures memory { (state : StreamState) → TakesFor self.old regs.old state
            → memory.new ≡ (stored_at self.old.index most memory.old regs.old state).memory }
        ensures cause { WasStored most memory.old self.old regs.old self.new regs.new memory.new }
        ensures size { length memory.new ≡ length memory.old }
    {
        self.stream.store_list(regs, memory, most);
    }
}
