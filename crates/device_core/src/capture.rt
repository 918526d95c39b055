//! What a device keeps of what comes in.
ghost use Rattle.std.specs.Prelude.{◌≡◌, ◌≤◌, ◌+◌, ℕ, min, [], List, IfOk, length, if◌then◌else◌};
ghost use Rattle.hda_registers.specs.Access.{rose, fell};
ghost use Rattle.hda_registers.specs.Fields.{Descriptor, stream_of};
ghost use Rattle.hda_registers.specs.Laws.{IsHeldInReset};
ghost use Rattle.world_streams.specs.Streams.{StreamState, begun};
ghost use Rattle.world_streams.specs.Streams as streams;
ghost use Rattle.stream_descriptor.specs.Running.{StoodForBy, taken_bytes};
ghost use Rattle.stream_descriptor.specs.Taking.{TakesFor, TakesTo, framed_at, marks_in, stored_at};
ghost use Rattle.stream_fetch.specs.Fetching as fetching;
ghost use Rattle.stream_format.specs.Layouts.{layout_of};
ghost use Rattle.hda_world.specs.Arriving.{due_blocks, heard_sound, listened as listened_of};

use crate::listening::listened;
use codec_nodes::Codec;
use codec_sound::InHeard;
use hda_registers::Registers;
use std::alloc::{AllocError, Global};
use std::marker::Model;
use stream_descriptor::{Arrived, InputStream, SoundBlocks};

/// The descriptor of the input stream.
const INPUT: u8 = 0;

/// No block came.
const NONE_ARRIVED: Arrived = Arrived {
    taken: 0,
    dropped: 0,
};

/// What is heard of a stream with this tag and format word: of no converter where none takes it or several do.
#[derive(Clone, Copy)]
pub struct Listening {
    pub tag: u8,
    pub word: u16,
    pub heard: Option<InHeard>,
}

/// What is known of what is heard, so that it is worked out once and not in each link frame.
#[derive(Clone, Copy)]
pub enum Source {
    /// Nothing: no frame passed since a codec took a command.
    Stale,
    /// What was worked out last.
    Fresh(Listening),
}

/// The input stream of descriptor 0, the sound that input pins are given, and how many of its blocks came since RUN
/// rose.
#[derive(Drop)]
pub struct Capture {
    stream: InputStream,
    given: Vec<u8>,
    came: u64,
    source: Source,
}

impl Model for Capture {
    ghost use Rattle.device_core.specs.Captures.{CaptureState};

    ghost Value = { CaptureState };

    ghost view = { λ c. record { playing = c.stream; given = c.given.items; came = c.came; source = c.source } };
}

impl Capture {
    ghost use Rattle.device_core.specs.Captures.{IsSourceOf, arriving_at, most_came};
    ghost use Rattle.device_core.specs.declared.capture.Source.TheVariants.{Stale};

    /// An input stream that does not run, with a FIFO of so many bytes. Pins are given no sound.
    ///
    /// # Errors
    /// Want of memory.
    pub(crate) fn new(alloc: Global, fifo: u16) -> Result<Capture, AllocError>
        ensures index { IfOk result (λ capture. capture.playing.index ≡ 0) }
        ensures capacity { IfOk result (λ capture. capture.playing.fetch.capacity ≡ fifo) }
        ensures empty { IfOk result (λ capture. capture.playing.fetch.bytes ≡ []) }
        ensures given { IfOk result (λ capture. capture.given ≡ []) }
        ensures came { IfOk result (λ capture. capture.came ≡ 0) }
        ensures source { IfOk result (λ capture. capture.source ≡ Stale) }
    {
        Ok(Capture {
            stream: InputStream::new(alloc, fifo)?,
            given: Vec::new(alloc),
            came: 0,
            source: Source::Stale,
        })
    }

    /// Gives all input pins this sound.
    pub(crate) fn give(&mut self, sound: Vec<u8>)
        ensures { self.new ≡ record self.old { given = sound.items } }
    {
        self.given = sound;
    }

    /// How many blocks came since RUN rose, up to 2^64 - 1.
    pub(crate) fn came(&self) -> u64
        ensures { result ≡ self.now.came }
    {
        self.came
    }

    /// A codec took a command, which may have changed what is heard.
    pub(crate) fn forget(&mut self)
        ensures { self.new ≡ record self.old { source = Stale } }
    {
        self.source = Source::Stale;
    }

    /// Does what a write of a register leaves to do at the stream: it starts where RUN rose, and its blocks are counted
    /// anew; it stops where RUN fell.
    pub(crate) fn settle(&mut self, regs: &mut Registers, started: bool, stopped: bool)
        ensures index { self.new.playing.index ≡ self.old.playing.index }
        ensures leads { (old : Descriptor) (state : StreamState) → IsHeldInReset regs.old
            → started ≡ rose old (stream_of regs.old self.old.playing.index)
            → stopped ≡ fell old (stream_of regs.old self.old.playing.index)
            → StoodForBy taken_bytes self.old.playing regs.old old state
            → TakesTo self.new.playing regs.old regs.new (record {
              descriptor = streams.settled old (stream_of regs.old self.old.playing.index);
              state = streams.settled_state old (stream_of regs.old self.old.playing.index) state;
            }) }
        ensures given { self.new.given ≡ self.old.given }
        ensures came { self.new.came ≡ (if started then 0 else self.old.came) }
        ensures source { self.new.source ≡ self.old.source }
    {
        self.stream.settle(regs, started, stopped);
        if started {
            self.came = 0;
        }
    }

    /// Lets a link frame pass: brings the blocks that are due, the next ones of the given sound where the one converter
    /// that takes the stream hears a pin, and else silence. No block comes where no converter takes it or several do.
    /// Says what became of those that came.
    pub(crate) fn hear(&mut self, regs: &mut Registers, codecs: &[Codec]) -> Arrived
        requires index { self.old.playing.index ≡ 0 }
        requires source { IsSourceOf self.old.source codecs.now }
        ensures index { self.new.playing.index ≡ self.old.playing.index }
        ensures leads { (came : ℕ) (state : StreamState) → self.old.came ≡ min came most_came
            → TakesFor self.old.playing regs.old state
            → TakesTo self.new.playing regs.old regs.new
            (framed_at 0 (arriving_at regs.old codecs.now self.old.given came state) regs.old state).stream }
        ensures marks { (came : ℕ) (state : StreamState) → self.old.came ≡ min came most_came
            → TakesFor self.old.playing regs.old state
            → marks_in result
            ≡ (framed_at 0 (arriving_at regs.old codecs.now self.old.given came state) regs.old state).marks }
        ensures given { self.new.given ≡ self.old.given }
        ensures few { result.taken + result.dropped ≤ 4 }
        ensures came { (came : ℕ) → self.old.came ≡ min came most_came
            → self.new.came ≡ min (came + (result.taken + result.dropped)) most_came }
        ensures source { IsSourceOf self.new.source codecs.now }
    {
        if !regs.is_stream_running(INPUT) {
            return NONE_ARRIVED;
        }
        let heard = self.listen(regs, codecs);
        let arrived = self.bring(regs, heard);
        let came = arrived.taken + arrived.dropped;
        self.came = self.came.saturating_add(u64::from(came));
        arrived
    }

    /// Stores at most so many bytes of the FIFO, the oldest first, in the list's buffers.
    pub(crate) fn store(&mut self, regs: &mut Registers, memory: &mut [u8], most: u32)
        ensures index { self.new.playing.index ≡ self.old.playing.index }
        ensures leads { (state : StreamState) → TakesFor self.old.playing regs.old state
            → TakesTo self.new.playing regs.old regs.new
            (stored_at self.old.playing.index most memory.old regs.old state).stream }
        ensures memory { (state : StreamState) → TakesFor self.old.playing regs.old state
            → memory.new ≡ (stored_at self.old.playing.index most memory.old regs.old state).memory }
        ensures kept { self.new ≡ record self.old { playing = self.new.playing } }
    {
        self.stream.store(regs, memory, most);
    }

    /// What is heard of the stream, which is worked out where it is not known.
    fn listen(&mut self, regs: &Registers, codecs: &[Codec]) -> Option<InHeard>
        requires { IsSourceOf self.old.source codecs.now }
        ensures heard { result ≡ listened_of regs.now.input.tag regs.now.input.format codecs.now }
        ensures kept { self.new ≡ record self.old { source = self.new.source } }
        ensures source { IsSourceOf self.new.source codecs.now }
    {
        let tag = regs.tag(INPUT);
        let word = regs.format(INPUT);
        if let Source::Fresh(last) = self.source {
            if last.tag == tag && last.word == word {
                return last.heard;
            }
        }
        let heard = listened(codecs, tag, word);
        self.source = Source::Fresh(Listening { tag, word, heard });
        heard
    }

    /// Brings the blocks that are due in a link frame, where this is heard of the stream.
    fn bring(&mut self, regs: &mut Registers, heard: Option<InHeard>) -> Arrived
        requires { self.old.playing.index ≡ 0 }
        ensures index { self.new.playing.index ≡ self.old.playing.index }
        ensures leads { (came : ℕ) (state : StreamState) → self.old.came ≡ min came most_came
            → TakesFor self.old.playing regs.old state
            → TakesTo self.new.playing regs.old regs.new (framed_at 0
            (due_blocks heard (layout_of regs.old.input.format) self.old.given came state.frame) regs.old
            state).stream }
        ensures marks { (came : ℕ) (state : StreamState) → self.old.came ≡ min came most_came
            → TakesFor self.old.playing regs.old state
            → marks_in result ≡ (framed_at 0
            (due_blocks heard (layout_of regs.old.input.format) self.old.given came state.frame) regs.old state).marks }
        ensures few { result.taken + result.dropped ≤ 4 }
        ensures kept { self.new ≡ record self.old { playing = self.new.playing } }
    {
        let due = self.stream.due(regs, self.came);
        match heard {
            Some(heard) => {
                let sound = sound_of(heard, self.given.as_slice());
                self.stream.frame(regs, sound, due)
            }
            None => self
                .stream
                .frame(regs, &[], SoundBlocks { count: 0, ..due }),
        }
    }
}

/// The sound of which blocks are put on the link: the given one where a pin is heard, and else none, so that each block
/// is silence.
fn sound_of(heard: InHeard, given: &[u8]) -> &[u8]
    ensures { result.now ≡ heard_sound heard given.now }
{
    match heard {
        InHeard::Pin(_) => given,
        InHeard::Silence | InHeard::Altered => &[],
    }
}
