//! What the output stream sent and fetched, as a journal tells it.
ghost use Rattle.std.specs.Prelude.{◌≡◌, ◌*◌};
ghost use Rattle.stream_format.specs.Cadence.{block_bytes, blocks_of};
ghost use Rattle.run_picture.specs.Meters as spec;

use hda_registers::places::{GCTL, OUTPUT_DESCRIPTOR, SDCBL, SDCTL, SDLPIB};
use hda_world::Entry;
use stream_format::Format;
use verb_codes::has_bit;
use world_steps::Step;

/// The output stream's control register.
pub(crate) const CONTROL: u16 = OUTPUT_DESCRIPTOR + SDCTL;
/// Its link position.
pub(crate) const POSITION: u16 = OUTPUT_DESCRIPTOR + SDLPIB;
/// Its cyclic buffer length.
pub(crate) const LENGTH: u16 = OUTPUT_DESCRIPTOR + SDCBL;

/// Where the output stream stands after some entries of a journal. Counts stop at the greatest number of 64 bits. This
/// project's own, over High Definition Audio 1.0a, 3.3.35 to 3.3.38 and 4.5.
#[derive(Clone, Copy)]
pub struct Meter {
    /// Whether CRST is 1.
    pub awake: bool,
    /// How many link frames passed while it was 1.
    pub time: u64,
    /// Whether the stream runs.
    pub running: bool,
    /// How many link frames passed since RUN rose.
    pub frame: u64,
    /// CBL: the bytes of the ring.
    pub ring: u32,
    /// How many bytes left the FIFO since RUN rose.
    pub sent: u64,
    /// How many bytes came into it.
    pub fetched: u64,
    /// How many blocks were sent and frames missed: so many items each pin's list has.
    pub items: u64,
    /// Whether the last link frame missed its blocks.
    pub missed: bool,
    /// How many runs of the ring began: the first with the rise of RUN, each other one where it read LPIB.
    pub runs: u64,
}

impl Meter {
    ghost use Rattle.std.specs.Prelude.{◌≡◌};
    ghost use Rattle.run_picture.specs.Meters as spec;

    /// Before the first entry.
    pub fn opened() -> Meter
        ensures { result ≡ spec.meter_opened }
    {
        Meter {
            awake: false,
            time: 0,
            running: false,
            frame: 0,
            ring: 0,
            sent: 0,
            fetched: 0,
            items: 0,
            missed: false,
            runs: 0,
        }
    }

    /// How many bytes are in the FIFO.
    pub(crate) fn held(&self) -> u64
        ensures { result ≡ spec.held self.now }
    {
        self.fetched.saturating_sub(self.sent)
    }

    /// After a link frame that took no blocks, and missed some or not.
    fn gone(self, missed: bool) -> Meter
        ensures { result ≡ spec.gone missed self }
    {
        Meter {
            time: self.time.saturating_add(1),
            frame: self.frame.saturating_add(1),
            missed,
            ..self
        }
    }

    /// After a link frame that took so many blocks, with so many bytes.
    fn took(self, blocks: u32, bytes: u32) -> Meter
        ensures { result ≡ spec.took blocks bytes self }
    {
        let sent = self.sent.saturating_add(bytes.into());
        let items = self.items.saturating_add(blocks.into());
        Meter {
            sent,
            items,
            ..self.gone(false)
        }
    }

    /// After a link frame for which the FIFO held too little.
    fn starved(self) -> Meter
        ensures { result ≡ spec.starved self }
    {
        let items = self.items.saturating_add(1);
        Meter {
            items,
            ..self.gone(true)
        }
    }

    /// After a link frame of the running stream.
    pub(crate) fn passed(self, format: Format) -> Meter
        ensures { result ≡ spec.passed format self }
    {
        let blocks = format.blocks(self.frame);
        let due = due_bytes(format, self.frame);
        if due == 0 {
            return self.gone(false);
        }
        if u64::from(due) <= self.held() {
            self.took(blocks, due)
        } else {
            self.starved()
        }
    }

    /// After so many link frames without a stream that runs.
    pub(crate) fn waited(self, frames: u32) -> Meter
        ensures { result ≡ spec.waited frames self }
    {
        if !self.awake {
            return self;
        }
        Meter {
            time: self.time.saturating_add(frames.into()),
            ..self
        }
    }

    /// After a fetch of at most so many bytes into a FIFO of so many.
    fn fed(self, most: u16, fifo: u16) -> Meter
        ensures { result ≡ spec.fed most fifo self }
    {
        let room = u64::from(fifo).saturating_sub(self.held());
        Meter {
            fetched: self.fetched.saturating_add(u64::from(most).min(room)),
            ..self
        }
    }

    /// After a write of GCTL.
    fn reset(self, value: u32) -> Meter
        ensures { result ≡ spec.reset value self }
    {
        let awake = has_bit(value, 0);
        Meter {
            awake,
            running: awake && self.running,
            ..self
        }
    }

    /// After RUN rose.
    fn started(self) -> Meter
        ensures { result ≡ spec.started self }
    {
        Meter {
            running: true,
            frame: 0,
            sent: 0,
            fetched: 0,
            missed: false,
            runs: self.runs.saturating_add(1),
            ..self
        }
    }

    /// After a write of the stream's control register.
    fn controlled(self, value: u32) -> Meter
        ensures { result ≡ spec.controlled value self }
    {
        let run = has_bit(value, 1);
        if self.awake && run && !self.running {
            return self.started();
        }
        Meter {
            running: run && self.running,
            ..self
        }
    }

    /// After a write of a register.
    fn written(self, at: u16, value: u32) -> Meter
        ensures { result ≡ spec.written at value self }
    {
        match at {
            GCTL => self.reset(value),
            CONTROL => self.controlled(value),
            LENGTH => Meter {
                ring: value,
                ..self
            },
            _ => self,
        }
    }

    /// After a read of a register.
    fn read(self, at: u16) -> Meter
        ensures { result ≡ spec.read at self }
    {
        if at != POSITION || !self.running {
            return self;
        }
        Meter {
            runs: self.runs.saturating_add(1),
            ..self
        }
    }

    /// After a step of the device in which no link frame passed.
    fn stepped(self, fifo: u16, step: Step) -> Meter
        ensures { result ≡ spec.stepped fifo step self }
    {
        match step {
            Step::Fetch(1, most) if self.running => self.fed(most, fifo),
            _ => self,
        }
    }

    /// After an entry of the journal in which no link frame passed.
    pub(crate) fn told(self, fifo: u16, entry: &Entry) -> Meter
        ensures { result ≡ spec.told fifo entry.now self }
    {
        match entry {
            Entry::Step(step) => self.stepped(fifo, *step),
            Entry::Write { at, value, .. } => self.written(*at, *value),
            Entry::Read { at, .. } => self.read(*at),
            Entry::Begin | Entry::End | Entry::DmaRead(_) | Entry::DmaWrite(_) => self,
        }
    }
}

/// The bytes due in a link frame since RUN rose.
fn due_bytes(format: Format, frame: u64) -> u32
    ensures { result ≡ blocks_of format.rate frame * block_bytes format }
{
    format.blocks(frame) * format.block_bytes()
}
