//! A stream at a descriptor: what starts and stops it, and what an output stream does.
ghost use Rattle.std.specs.Prelude.{◌≡◌, ◌≤◌, ◌<◌, ◌+◌, ◌*◌, ◌%◌, true, false, [], IfOk, length, nat_le, ◌&&◌, take};
ghost use Rattle.std.specs.Prelude.{drop, ◌++◌, if◌then◌else◌, option_map, None};
ghost use Rattle.hda_registers.specs.Laws.{IsHeldInReset};
ghost use Rattle.hda_registers.specs.Access.{rose, fell};
ghost use Rattle.hda_registers.specs.Fields.{Descriptor, is_out_of_reset, is_running, stream_of};
ghost use Rattle.stream_format.specs.Layouts.{layout, layout_of, frame_bytes};
ghost use Rattle.world_streams.specs.Streams.{StreamState, begun, is_usable};
ghost use Rattle.world_streams.specs.Streams as streams;
ghost use Rattle.world_streams.specs.Output as output;
ghost use Rattle.hda_registers.specs.Status.{worth};
ghost use Rattle.stream_format.specs.Cadence.{most_bytes};
ghost use Rattle.stream_descriptor.specs.Running.{StandsFor, StoodFor, LeadsTo, CanPlay, stream_at, with_descriptor};
ghost use Rattle.stream_descriptor.specs.Running.{Counts, StandsForBy, StoodForBy, LeadsToBy};
ghost use Rattle.stream_descriptor.specs.Running.{fetched_at, found_at};
ghost use Rattle.stream_descriptor.specs.Frames.{IsAnswer, IsKind, found_by, found_due};
ghost use Rattle.stream_descriptor.specs.Fetches.{WasFetched, WasFilled};
ghost use Rattle.stream_fetch.specs.Fetching as fetching;

mod taking;

use crate::frame::{Frame, MOST_FRAME_BYTES};
use hda_registers::{Moved, Raise, Registers};
use std::alloc::{AllocError, Global};
use std::marker::Model;
use stream_fetch::{Fetch, ListAt};
use stream_format::Format;

/// After so many link frames every cadence is where it was: a multiple of 1, 3, 6 and 160.
const FRAME_CYCLE: u16 = 480;

/// A stream at a descriptor. Contracts see the descriptor's index, its FIFO, and the link frames modulo 480.
#[derive(Drop)]
pub struct Stream {
    index: u8,
    fetch: Fetch,
    frame: u16,
}

impl Model for Stream {
    ghost use Rattle.std.specs.Prelude.{◌≤◌, ◌<◌};
    ghost use Rattle.stream_descriptor.specs.Running.{Playing};

    ghost Value = { Playing };

    ghost view = { λ stream. record { index = stream.index; fetch = stream.fetch; frame = stream.frame } };

    ghost invariant = { λ stream. (stream.index ≤ 1) × (stream.frame < 480) };
}

impl Stream {
    /// A stream at descriptor 0 or 1 that does not run, with a FIFO of so many bytes.
    ///
    /// # Errors
    /// Want of memory.
    pub fn new(alloc: Global, index: u8, fifo: u16) -> Result<Stream, AllocError>
        requires { index ≤ 1 }
        ensures index { IfOk result (λ stream. stream.index ≡ index) }
        ensures capacity { IfOk result (λ stream. stream.fetch.capacity ≡ fifo) }
        ensures empty { IfOk result (λ stream. stream.fetch.bytes ≡ []) }
        ensures anew { IfOk result (λ stream. fetching.StandsFor stream.fetch begun) }
        ensures frame { IfOk result (λ stream. stream.frame ≡ 0) }
    {
        Ok(Stream {
            index,
            fetch: Fetch::new(alloc, fifo)?,
            frame: 0,
        })
    }

    /// RUN rose at the descriptor: nothing was fetched and sent yet, and LPIB begins at 0 (HDA 1.0a, 3.3.35 and
    /// 3.3.37).
    pub fn start(&mut self, regs: &mut Registers)
        requires { is_out_of_reset regs.old.global ≡ true }
        ensures index { self.new.index ≡ self.old.index }
        ensures registers { regs.new ≡ with_descriptor self.old.index
            (record (stream_of regs.old self.old.index) { link_position = 0; fifo_ready = 0 }) regs.old }
        ensures stands { is_running (stream_of regs.old self.old.index) ≡ true
            → self.old.fetch.capacity ≡ regs.old.shape.fifo
            → StandsFor self.new regs.new begun }
        ensures counted { (counts : Counts) → counts begun ≡ 0
            → is_running (stream_of regs.old self.old.index) ≡ true
            → self.old.fetch.capacity ≡ regs.old.shape.fifo
            → StandsForBy counts self.new regs.new begun }
        ensures anew { fetching.StandsFor self.new.fetch begun }
        ensures frame { self.new.frame ≡ 0 }
        ensures capacity { self.new.fetch.capacity ≡ self.old.fetch.capacity }
    {
        self.fetch.start();
        self.frame = 0;
        self.show_start(regs);
    }

    /// Does what a write of a register leaves to do at the stream: it starts where RUN rose, and stops where RUN fell.
    pub fn settle(&mut self, regs: &mut Registers, started: bool, stopped: bool)
        ensures index { self.new.index ≡ self.old.index }
        ensures leads { (old : Descriptor) (state : StreamState) → IsHeldInReset regs.old
            → started ≡ rose old (stream_of regs.old self.old.index)
            → stopped ≡ fell old (stream_of regs.old self.old.index)
            → StoodFor self.old regs.old old state
            → LeadsTo self.new regs.old regs.new (record {
              descriptor = streams.settled old (stream_of regs.old self.old.index);
              state = streams.settled_state old (stream_of regs.old self.old.index) state;
            }) }
        ensures counted { (counts : Counts) (old : Descriptor) (state : StreamState) → counts begun ≡ 0
            → IsHeldInReset regs.old
            → started ≡ rose old (stream_of regs.old self.old.index)
            → stopped ≡ fell old (stream_of regs.old self.old.index)
            → StoodForBy counts self.old regs.old old state
            → LeadsToBy counts self.new regs.old regs.new (record {
              descriptor = streams.settled old (stream_of regs.old self.old.index);
              state = streams.settled_state old (stream_of regs.old self.old.index) state;
            }) }
    {
        if started && regs.is_out_of_reset() {
            self.start(regs);
        } else if stopped {
            self.stop(regs);
        }
    }

    /// RUN fell at the descriptor, or a reset cleared it: the FIFO is emptied; LPIB keeps its value (HDA 1.0a, 3.3.35).
    pub fn stop(&mut self, regs: &mut Registers)
        ensures index { self.new.index ≡ self.old.index }
        ensures registers { regs.new ≡ (if is_out_of_reset regs.old.global
            then with_descriptor self.old.index (record (stream_of regs.old self.old.index) { fifo_ready = 0 }) regs.old
            else regs.old) }
        ensures stands { (state : StreamState) → is_running (stream_of regs.old self.old.index) ≡ false
            → self.old.fetch.capacity ≡ regs.old.shape.fifo → StandsFor self.new regs.new state }
        ensures counted { (counts : Counts) (state : StreamState)
            → is_running (stream_of regs.old self.old.index) ≡ false
            → self.old.fetch.capacity ≡ regs.old.shape.fifo → StandsForBy counts self.new regs.new state }
        ensures empty { self.new.fetch.bytes ≡ [] }
        ensures capacity { self.new.fetch.capacity ≡ self.old.fetch.capacity }
    {
        self.fetch.start();
        if regs.is_out_of_reset() {
            regs.put(Moved::Ready(self.index, false));
        }
    }

    /// Fetches at most so many bytes of the list's buffers into the FIFO. Where the format word has no meaning or CBL
    /// or LVI is 0, or at a list entry that can't be used, the stream stops with DESE (HDA 1.0a, 3.3.36 and 3.6).
    pub fn fetch(&mut self, regs: &mut Registers, memory: &[u8], most: u32)
        ensures index { self.new.index ≡ self.old.index }
        ensures leads { (state : StreamState) → StandsFor self.old regs.old state
            → LeadsTo self.new regs.old regs.new (fetched_at self.old.index most memory.now regs.old state) }
        ensures cause { WasFetched most memory.now self.old regs.old self.new regs.new }
    {
        if most == 0 {
            return;
        }
        if !self.is_playing(regs) {
            return;
        }
        match self.usable_format(regs) {
            Some(format) => self.fill(regs, format, memory, most),
            None => self.break_off(regs),
        }
    }

    /// Lets a link frame pass: the blocks that are due leave the FIFO, all of them or none, and stand at the front of
    /// `into`.
    pub fn frame(&mut self, regs: &mut Registers, into: &mut [u8; MOST_FRAME_BYTES]) -> Frame
        ensures index { self.new.index ≡ self.old.index }
        ensures leads { (state : StreamState) → StandsFor self.old regs.old state
            → LeadsTo self.new regs.old regs.new (output.after_frame (found_at self.old.index regs.old state)
            (stream_at self.old.index regs.old state)) }
        ensures answer { (state : StreamState) → StandsFor self.old regs.old state
            → IsAnswer (stream_at self.old.index regs.old state) (found_at self.old.index regs.old state) into.old
            into.new result }
        ensures cause { IsKind (found_by regs.old self.old) result }
    {
        if !self.is_playing(regs) {
            return Frame::Idle;
        }
        match self.usable_format(regs) {
            Some(format) => self.pass(regs, format, into),
            None => {
                self.break_off(regs);
                Frame::Idle
            }
        }
    }

    /// Whether the stream runs, the controller being out of reset.
    fn is_playing(&self, regs: &Registers) -> bool
        ensures { result ≡ (is_out_of_reset regs.now.global && is_running (stream_of regs.now self.now.index)) }
    {
        regs.is_out_of_reset() && regs.is_stream_running(self.index)
    }

    /// The stream's format, where its registers can be used.
    fn usable_format(&self, regs: &Registers) -> Option<Format>
        ensures { option_map layout result
            ≡ (if is_usable (stream_of regs.now self.now.index)
            then layout_of (stream_of regs.now self.now.index).format else None) }
    {
        if regs.buffer_length(self.index) == 0 || regs.last_index(self.index) == 0 {
            return None;
        }
        Format::from_word(regs.format(self.index))
    }

    /// Fetches for a stream that runs, whose registers can be used and have this format.
    fn fill(&mut self, regs: &mut Registers, format: Format, memory: &[u8], most: u32)
        requires streams { CanPlay regs.old self.old.index format }
        ensures index { self.new.index ≡ self.old.index }
        ensures leads { (state : StreamState) → StandsFor self.old regs.old state
            → LeadsTo self.new regs.old regs.new (output.fetch most regs.old.shape.fifo memory.now
            (stream_at self.old.index regs.old state)) }
        ensures cause { WasFilled most memory.now self.old regs.old self.new regs.new }
    {
        let list = ListAt {
            address: regs.list_address(self.index),
            last: regs.last_index(self.index),
        };
        let fetched = self.fetch.fetch(list, memory, most);
        self.raise_done_if(fetched.done, regs);
        self.show_ready(regs, format);
        self.break_off_if(fetched.broken, regs);
    }

    /// Lets a link frame pass at a stream that runs, whose registers can be used and have this format.
    fn pass(
        &mut self,
        regs: &mut Registers,
        format: Format,
        into: &mut [u8; MOST_FRAME_BYTES],
    ) -> Frame
        requires streams { CanPlay regs.old self.old.index format }
        ensures index { self.new.index ≡ self.old.index }
        ensures leads { (state : StreamState) → StandsFor self.old regs.old state
            → LeadsTo self.new regs.old regs.new
            (output.after_frame (output.frame_of (stream_at self.old.index regs.old state))
            (stream_at self.old.index regs.old state)) }
        ensures answer { (state : StreamState) → StandsFor self.old regs.old state
            → IsAnswer (stream_at self.old.index regs.old state)
            (output.frame_of (stream_at self.old.index regs.old state)) into.old into.new result }
        ensures cause { IsKind (found_due (frame_bytes (layout format) self.old.frame)
            (length self.old.fetch.bytes)) result }
    {
        let blocks = format.blocks(u64::from(self.frame));
        let due = bytes_due(format, self.frame);
        self.frame = (self.frame + 1) % FRAME_CYCLE;
        if due == 0 {
            return Frame::Gap;
        }
        if !send_front(&mut self.fetch, into, due) {
            self.raise_missed(regs);
            return Frame::Hole;
        }
        self.show_sent(regs, format, due as u32);
        Frame::Blocks(blocks)
    }

    /// Puts LPIB and FIFORDY where they are as RUN rises.
    fn show_start(&self, regs: &mut Registers)
        requires out { is_out_of_reset regs.old.global ≡ true }
        ensures { regs.new ≡ with_descriptor self.now.index
            (record (stream_of regs.old self.now.index) { link_position = 0; fifo_ready = 0 }) regs.old }
    {
        regs.put(Moved::Lpib(self.index, 0));
        regs.put(Moved::Ready(self.index, false));
    }

    /// Sets BCIS where a buffer with IOC ended (HDA 1.0a, 3.3.36).
    fn raise_done_if(&self, done: bool, regs: &mut Registers)
        requires out { is_out_of_reset regs.old.global ≡ true }
        ensures { regs.new ≡ with_descriptor self.now.index (record (stream_of regs.old self.now.index) {
          completion = if done then 1 else (stream_of regs.old self.now.index).completion;
        }) regs.old }
    {
        if done {
            regs.raise(Raise::BufferDone(self.index));
        }
    }

    /// Sets FIFOE: blocks were due that the FIFO does not hold (HDA 1.0a, 3.3.36).
    fn raise_missed(&self, regs: &mut Registers)
        requires out { is_out_of_reset regs.old.global ≡ true }
        ensures { regs.new ≡ with_descriptor self.now.index
            (record (stream_of regs.old self.now.index) { fifo_error = 1 }) regs.old }
    {
        regs.raise(Raise::FifoError(self.index));
    }

    /// Moves LPIB on by the bytes that were sent, modulo CBL, and shows FIFORDY (HDA 1.0a, 3.3.36 and 3.3.37).
    fn show_sent(&self, regs: &mut Registers, format: Format, sent: u32)
        requires out { is_out_of_reset regs.old.global ≡ true }
        requires length { 0 < (stream_of regs.old self.now.index).buffer_length }
        ensures { regs.new ≡ with_descriptor self.now.index (record (stream_of regs.old self.now.index) {
          link_position = ((stream_of regs.old self.now.index).link_position + sent)
              % (stream_of regs.old self.now.index).buffer_length;
          fifo_ready = worth (nat_le (most_bytes format) (length self.now.fetch.bytes)) 0;
        }) regs.old }
    {
        self.move_position(regs, sent);
        self.show_ready(regs, format);
    }

    /// Moves LPIB on by so many bytes, modulo CBL (HDA 1.0a, 3.3.37).
    fn move_position(&self, regs: &mut Registers, sent: u32)
        requires out { is_out_of_reset regs.old.global ≡ true }
        requires length { 0 < (stream_of regs.old self.now.index).buffer_length }
        ensures { regs.new ≡ with_descriptor self.now.index (record (stream_of regs.old self.now.index) {
          link_position = ((stream_of regs.old self.now.index).link_position + sent)
              % (stream_of regs.old self.now.index).buffer_length;
        }) regs.old }
    {
        let length = u64::from(regs.buffer_length(self.index));
        let position = (u64::from(regs.position(self.index)) + u64::from(sent)) % length;
        regs.put(Moved::Lpib(self.index, position as u32));
    }

    /// Shows by FIFORDY whether the FIFO holds the most bytes of a frame (HDA 1.0a, 3.3.36).
    fn show_ready(&self, regs: &mut Registers, format: Format)
        requires out { is_out_of_reset regs.old.global ≡ true }
        ensures { regs.new ≡ with_descriptor self.now.index (record (stream_of regs.old self.now.index) {
          fifo_ready = worth (nat_le (most_bytes format) (length self.now.fetch.bytes)) 0;
        }) regs.old }
    {
        let ready = format.most() <= self.fetch.held();
        regs.put(Moved::Ready(self.index, ready));
    }

    /// Sets DESE and stops the stream (HDA 1.0a, 3.3.36).
    fn break_off(&mut self, regs: &mut Registers)
        requires out { is_out_of_reset regs.old.global ≡ true }
        ensures index { self.new.index ≡ self.old.index }
        ensures capacity { self.new.fetch.capacity ≡ self.old.fetch.capacity }
        ensures empty { self.new.fetch.bytes ≡ [] }
        ensures registers { regs.new ≡ with_descriptor self.old.index (record (stream_of regs.old self.old.index) {
          descriptor_error = 1;
          run = 0;
          fifo_ready = 0;
        }) regs.old }
    {
        self.fetch.start();
        regs.raise(Raise::DescriptorError(self.index));
        regs.put(Moved::Ready(self.index, false));
    }

    /// The same where the list of buffers broke, and else nothing.
    fn break_off_if(&mut self, broken: bool, regs: &mut Registers)
        requires out { is_out_of_reset regs.old.global ≡ true }
        ensures index { self.new.index ≡ self.old.index }
        ensures capacity { self.new.fetch.capacity ≡ self.old.fetch.capacity }
        ensures empty { broken ≡ true → self.new.fetch.bytes ≡ [] }
        ensures kept { broken ≡ false → self.new ≡ self.old }
        ensures broke { broken ≡ true → regs.new ≡ with_descriptor self.old.index
            (record (stream_of regs.old self.old.index) {
              descriptor_error = 1;
              run = 0;
              fifo_ready = 0;
            }) regs.old }
        ensures whole { broken ≡ false → regs.new ≡ regs.old }
    {
        if broken {
            self.break_off(regs);
        }
    }
}

/// The bytes due in a link frame of this number modulo 480.
fn bytes_due(format: Format, frame: u16) -> usize
    ensures value { result ≡ frame_bytes (layout format) frame }
    ensures few { result ≤ MOST_FRAME_BYTES }
{
    (format.blocks(u64::from(frame)) * format.block_bytes()) as usize
}

/// Moves the oldest bytes of the FIFO, as many as are due, to the front of a frame. False exactly where it holds fewer.
fn send_front(fetch: &mut Fetch, into: &mut [u8; MOST_FRAME_BYTES], due: usize) -> bool
    requires { due ≤ MOST_FRAME_BYTES }
    ensures enough { result ≡ nat_le due (length fetch.old.bytes) }
    ensures sent { result ≡ true → into.new ≡ take due fetch.old.bytes ++ drop due into.old }
    ensures stands { result ≡ true → (state : StreamState) → fetching.StandsFor fetch.old state
        → fetching.StandsFor fetch.new (record state { left = state.left + due }) }
    ensures unsent { result ≡ false → into.new ≡ into.old }
    ensures kept { result ≡ false → fetch.new ≡ fetch.old }
    ensures capacity { fetch.new.capacity ≡ fetch.old.capacity }
{
    fetch.send(&mut into[..due])
}
