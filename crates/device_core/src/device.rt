//! The device.
ghost use Rattle.std.specs.Prelude.{◌≡◌, ◌≤◌, ◌<◌, ◌+◌, ◌==◌, ◌++◌, ◌||◌, ℕ, List, [], All, IfOk, IfSome, false};
ghost use Rattle.std.specs.Prelude.{length};
ghost use Rattle.std.specs.Prelude.{if◌then◌else◌};
ghost use Rattle.codec_graph.specs.CodecStates as states;
ghost use Rattle.codec_graph.specs.declared.waiting.Waiting.{Waiting};
ghost use Rattle.codec_nodes.specs.Queues as queues;
ghost use Rattle.world_rings.specs.declared.response.TheConstants.{MOST_WAITING};
ghost use Rattle.hda_registers.specs.Access.{value_at};
ghost use Rattle.hda_registers.specs.Fields.{opening};
ghost use Rattle.hda_world.specs.Worlds.{World, with_codec, output_of, given_sound};
ghost use Rattle.hda_world.specs.Steps as steps;
ghost use Rattle.hda_world.specs.Events.{after_write};
ghost use Rattle.stream_descriptor.specs.Running.{found_at};
ghost use Rattle.stream_descriptor.specs.Taking.{marks_in};
ghost use Rattle.stream_descriptor.specs.Frames.{IsAnswer};
ghost use Rattle.device_core.specs.Codecs as spec;
ghost use Rattle.device_core.specs.Sound.{touches_sound};
ghost use Rattle.device_core.specs.Devices.{IsWorld, new_world, KeepsSound, can_receive_now, counted_on};
ghost use Rattle.device_core.specs.Devices.{discovered_next, is_counted as is_counted_now};

use crate::capture::Capture;
use crate::codecs::{self, Handed};
use codec_nodes::Codec;
use command_rings::Rings;
use hda_registers::{Registers, Shape, Width};
use hda_world::FRAMES_TO_DISCOVERY;
use std::alloc::{AllocError, Global};
use std::marker::Model;
use stream_descriptor::{Arrived, Frame, MOST_FRAME_BYTES, Stream};

/// What a link frame carried.
#[derive(Clone, Copy, Debug, PartialEq, Eq)]
pub struct LinkFrame {
    /// Of the output stream.
    pub sent: Frame,
    /// To the input stream: what became of the blocks that came.
    pub came: Arrived,
}

/// A controller with its codecs: its registers, the engines of CORB and RIRB, an input and an output stream, and the
/// codecs on its link. Contracts see a `DeviceState`, and of each call the move of the world (this project's own) that
/// it makes.
#[derive(Drop)]
pub struct Device {
    registers: Registers,
    codecs: Vec<Codec>,
    rings: Rings,
    frames: u32,
    input: Capture,
    output: Stream,
}

impl Model for Device {
    ghost use Rattle.device_core.specs.Devices.{DeviceState};
    ghost use Rattle.device_core.specs.Keeping.{IsDevice};

    ghost Value = { DeviceState };

    ghost view = { λ d. record {
      registers = d.registers;
      codecs = d.codecs.items;
      waiting = d.rings;
      frames = d.frames;
      input = d.input;
      output = d.output;
    } };

    ghost invariant = { λ d. IsDevice (record {
      registers = d.registers;
      codecs = d.codecs.items;
      waiting = d.rings;
      frames = d.frames;
      input = d.input;
      output = d.output;
    }) };
}

impl Device {
    /// A controller of this shape in reset, with these codecs ascending by address. Nothing waits and no stream runs.
    ///
    /// # Errors
    /// Want of memory.
    pub fn new(alloc: Global, shape: Shape, codecs: Vec<Codec>) -> Result<Device, AllocError>
        requires addresses { spec.AreAddresses (spec.addresses_of codecs.items) }
        requires idle { spec.AreIdle codecs.items }
        requires bits { shape.codecs ≡ spec.codec_bits codecs.items }
        ensures stands { IfOk result (λ device. (memory : List ℕ)
            → IsWorld memory device (new_world memory shape codecs.items)) }
        ensures frames { IfOk result (λ device. device.frames ≡ 0) }
    {
        Ok(Device {
            registers: Registers::new(shape),
            codecs,
            rings: Rings::new(alloc)?,
            frames: 0,
            input: Capture::new(alloc, shape.fifo)?,
            output: Stream::new(alloc, 1, shape.fifo)?,
        })
    }

    /// Reads a register (HDA 1.0a, 3.3). A place that is no multiple of the width, and one without a register, reads 0.
    pub fn read(&self, at: u16, width: Width) -> u32
        ensures { result ≡ value_at self.now.registers at width }
    {
        self.registers.read(at, width)
    }

    /// The codecs, ascending by address.
    pub fn codecs(&self) -> &[Codec]
        ensures value { result.now ≡ self.now.codecs }
        ensures addresses { spec.AreAddresses (spec.addresses_of self.now.codecs) }
    {
        self.codecs.as_slice()
    }

    /// The registers.
    pub fn registers(&self) -> &Registers
        ensures { result.now ≡ self.now.registers }
    {
        &self.registers
    }

    /// A law: with any memory a device is some world, so the moves that its calls promise are never promised of
    /// nothing. Does nothing.
    pub fn is_some_world(&self)
        ensures { (memory : List ℕ) → (world : World) × IsWorld memory self.now world }
    {
        let _registers = &self.registers;
    }

    /// Gives all input pins this sound, whose blocks come to the input stream while it runs. This project's own.
    pub fn give(&mut self, sound: Vec<u8>)
        ensures stands { (memory : List ℕ) (world : World) → IsWorld memory self.old world
            → IsWorld memory self.new (given_sound sound.items world) }
        ensures registers { self.new.registers ≡ self.old.registers }
        ensures codecs { self.new.codecs ≡ self.old.codecs }
        ensures given { self.new.input.given ≡ sound.items }
    {
        self.input.give(sound);
    }

    /// How many blocks came to the input stream since its RUN rose. At 2^64 - 1 the count stays.
    pub fn came(&self) -> u64
        ensures { result ≡ self.now.input.came }
    {
        self.input.came()
    }

    /// Writes a register (HDA 1.0a, 3.3). The streams whose RUN rose or fell begin anew or stop. Where CRST was written
    /// 0 all that waits at the codecs and in the controller is dropped (HDA 1.0a, 5.5.1), and where CRST was written 0
    /// or rose the link frames are counted anew.
    pub fn write(&mut self, at: u16, width: Width, value: u32)
        ensures stands { (memory : List ℕ) (world : World) → IsWorld memory self.old world
            → IsWorld memory self.new (after_write at width value world) }
        ensures codecs { spec.KeepCodecs self.old.codecs self.new.codecs }
        ensures sound { touches_sound at width ≡ false → KeepsSound self.old.registers self.new.registers }
    {
        let effects = self.registers.write(at, width, value);
        let [input_started, output_started] = effects.started;
        let [input_stopped, output_stopped] = effects.stopped;
        self.input
            .settle(&mut self.registers, input_started, input_stopped);
        self.output
            .settle(&mut self.registers, output_started, output_stopped);
        codecs::clear_if(effects.reset, self.codecs.as_mut_slice());
        clear_if(effects.reset, &mut self.rings);
        self.frames = counted_anew(self.frames, effects.reset, effects.left_reset);
    }

    /// CORB's engine fetches the next command and hands it to the codec that its word names (HDA 1.0a, 4.4.1), unless
    /// that codec is full. Says which codec took it, and its word. `None` exactly where none did: CRST or CORBRUN is 0,
    /// CORBRPRST is 1, the ring has no further command, the codec is full, or there is no codec with the address; in
    /// the last case the command is gone. The place is that of the word's address among the codecs.
    pub fn corb(&mut self, memory: &[u8]) -> Option<Handed>
        ensures stands { (world : World) → IsWorld memory.now self.old world
            → IsWorld memory.now self.new (steps.corb_step world) }
        ensures handed { result ≡ spec.handed_now self.old.registers memory.now self.old.codecs }
        ensures there { IfSome result (λ handed. handed.place < length self.new.codecs) }
        ensures codecs { self.new.codecs ≡ spec.with_handed result self.old.codecs }
        ensures sound { KeepsSound self.old.registers self.new.registers }
    {
        let Some(word) = self.rings.next_word(&self.registers, memory) else {
            return None;
        };
        if codecs::is_busy(self.codecs.as_slice(), word) {
            return None;
        }
        let _word = self.rings.corb(&mut self.registers, memory);
        self.input.forget();
        codecs::hand(self.codecs.as_mut_slice(), word)
    }

    /// The codec of this address sends its first waiting item to the controller, which drops one that was sent unasked
    /// where UNSOL is 0. Nothing happens while CRST is 0, while as many responses wait as can, or where nothing waits
    /// at such a codec (HDA 1.0a, 4.4.2; the queues are this project's own).
    pub fn answer(&mut self, codec: u8)
        ensures stands { (memory : List ℕ) (world : World) → IsWorld memory self.old world
            → IsWorld memory self.new (steps.answer_step codec world) }
        ensures registers { self.new.registers ≡ self.old.registers }
        ensures codecs { spec.KeepCodecs self.old.codecs self.new.codecs }
    {
        if !can_receive(&self.registers, &self.rings) {
            return;
        }
        if let Some((answer, unsolicited)) = codecs::pop(self.codecs.as_mut_slice(), codec) {
            receive(&mut self.rings, &self.registers, codec, answer, unsolicited);
        }
    }

    /// The codec of this address loses its first waiting answer to a command, if there is one. Nothing happens while
    /// CRST is 0. This project's own.
    pub fn lose(&mut self, codec: u8)
        ensures stands { (memory : List ℕ) (world : World) → IsWorld memory self.old world
            → IsWorld memory self.new (steps.lose_step codec world) }
        ensures registers { self.new.registers ≡ self.old.registers }
        ensures codecs { spec.KeepCodecs self.old.codecs self.new.codecs }
    {
        if self.registers.is_out_of_reset() {
            codecs::lose(self.codecs.as_mut_slice(), codec);
        }
    }

    /// Says whether something is plugged in at a pin of the codec of this address, also while CRST is 0 (HDA 1.0a,
    /// 7.3.3.15).
    pub fn plug(&mut self, codec: u8, nid: u8, present: bool)
        ensures stands { (memory : List ℕ) (world : World) → IsWorld memory self.old world
            → IsWorld memory self.new (steps.plugged_at codec nid present world) }
        ensures registers { self.new.registers ≡ self.old.registers }
        ensures codecs { spec.KeepCodecs self.old.codecs self.new.codecs }
    {
        codecs::plug(self.codecs.as_mut_slice(), codec, nid, present);
    }

    /// RIRB's engine writes responses that wait to memory (HDA 1.0a, 4.4.2). An entry outside the memory is not
    /// written.
    pub fn rirb(&mut self, memory: &mut [u8])
        ensures stands { (world : World) → IsWorld memory.old self.old world
            → IsWorld memory.new self.new (steps.rirb_step world) }
        ensures codecs { self.new.codecs ≡ self.old.codecs }
        ensures sound { KeepsSound self.old.registers self.new.registers }
    {
        let _written = self.rings.rirb(&mut self.registers, memory);
    }

    /// Lets a link frame pass (HDA 1.0a, 4.3, 4.5, 5.3 and 5.4): the wall clock goes on, in the frame of number
    /// `FRAMES_TO_DISCOVERY` after CRST rose the codecs' bits of STATESTS are set, the output stream sends the blocks
    /// that are due, which then stand at the front of `into`, and the input stream has those that come to it. Nothing
    /// happens while CRST is 0. Says what the frame carried.
    pub fn frame(&mut self, into: &mut [u8; MOST_FRAME_BYTES]) -> LinkFrame
        ensures stands { (memory : List ℕ) (world : World) → IsWorld memory self.old world
            → IsWorld memory self.new (steps.frame_step world) }
        ensures answer { (memory : List ℕ) (world : World) → IsWorld memory self.old world
            → IsAnswer (output_of world) (found_at 1 world.registers world.output) into.old into.new result.sent }
        ensures came { (memory : List ℕ) (world : World) → IsWorld memory self.old world
            → (steps.frame_step world).came ≡ world.came ++ marks_in result.came }
        ensures few { result.came.taken + result.came.dropped ≤ 4 }
        ensures codecs { self.new.codecs ≡ self.old.codecs }
        ensures sound { KeepsSound self.old.registers self.new.registers }
    {
        self.registers.frame();
        self.frames = count_frame(self.frames, self.codecs.as_slice(), &mut self.registers);
        let sent = self.output.frame(&mut self.registers, into);
        let came = self.hear();
        LinkFrame { sent, came }
    }

    /// A stream moves at most so many bytes (HDA 1.0a, 4.5): the output stream, 1, fetches them of its buffers, and the
    /// input stream, 0, stores them in its own.
    pub fn fetch(&mut self, memory: &mut [u8], stream: u8, most: u16)
        ensures stands { (world : World) → IsWorld memory.old self.old world
            → IsWorld memory.new self.new (steps.fetch_step stream most world) }
        ensures codecs { self.new.codecs ≡ self.old.codecs }
        ensures sound { KeepsSound self.old.registers self.new.registers }
    {
        match stream {
            0 => self.store(memory, most),
            1 => self
                .output
                .fetch(&mut self.registers, memory, u32::from(most)),
            _ => {}
        }
    }

    /// Lets the input stream have the blocks that are due in a link frame: the next ones of the given sound where the
    /// one input converter that takes the stream hears a pin, and else silence. No block comes where no converter takes
    /// the stream or several do, nor where the stream does not run. Says what became of them.
    fn hear(&mut self) -> Arrived
        ensures stands { (memory : List ℕ) (world : World) → IsWorld memory self.old world
            → IsWorld memory self.new (steps.input_framed world) }
        ensures came { (memory : List ℕ) (world : World) → IsWorld memory self.old world
            → (steps.input_framed world).came ≡ world.came ++ marks_in result }
        ensures few { result.taken + result.dropped ≤ 4 }
        ensures codecs { self.new.codecs ≡ self.old.codecs }
        ensures sound { KeepsSound self.old.registers self.new.registers }
    {
        self.input.hear(&mut self.registers, self.codecs.as_slice())
    }

    /// The input stream stores at most so many bytes of its FIFO in the list's buffers.
    fn store(&mut self, memory: &mut [u8], most: u16)
        ensures stands { (world : World) → IsWorld memory.old self.old world
            → IsWorld memory.new self.new (steps.fetch_step 0 most world) }
        ensures codecs { self.new.codecs ≡ self.old.codecs }
        ensures sound { KeepsSound self.old.registers self.new.registers }
    {
        self.input
            .store(&mut self.registers, memory, u32::from(most));
    }
}

/// Drops all that waits in the controller, where it was reset (HDA 1.0a, 5.5.1).
fn clear_if(reset: bool, rings: &mut Rings)
    ensures { rings.new ≡ (if reset then [] else rings.old) }
{
    if reset {
        rings.clear();
    }
}

/// The count of link frames, which begins anew where the controller was reset or left its reset.
fn counted_anew(frames: u32, reset: bool, left_reset: bool) -> u32
    ensures { result ≡ (if reset || left_reset then 0 else frames) }
{
    if reset || left_reset { 0 } else { frames }
}

/// Counts a link frame after which the codecs may be discovered, and discovers them in theirs. Later ones are not
/// counted.
fn count_frame(frames: u32, codecs: &[Codec], regs: &mut Registers) -> u32
    requires few { All (λ address. address ≤ 14) (spec.addresses_of codecs.now) }
    ensures frames { result ≡ counted_on regs.old frames }
    ensures registers { regs.new ≡ discovered_next frames codecs.now regs.old }
{
    if !is_counted(frames, regs) {
        return frames;
    }
    codecs::discover_at(frames + 1, codecs, regs);
    frames + 1
}

/// Whether a link frame is counted: CRST is 1, and the codecs are not discovered yet.
fn is_counted(frames: u32, regs: &Registers) -> bool
    ensures { result ≡ is_counted_now regs.now frames }
{
    regs.is_out_of_reset() && frames < FRAMES_TO_DISCOVERY
}

/// Whether the controller takes an item of a codec: CRST is 1, and fewer responses wait than can.
fn can_receive(regs: &Registers, rings: &Rings) -> bool
    ensures { result ≡ can_receive_now regs.now rings.now }
{
    regs.is_out_of_reset() && !rings.full()
}

/// Puts an item of the codec last among the responses that wait, unless it was sent unasked and the controller does not
/// accept such.
fn receive(rings: &mut Rings, regs: &Registers, codec: u8, answer: u32, unsolicited: bool)
    requires room { length rings.old < MOST_WAITING }
    requires codec { codec ≤ 14 }
    ensures { (item : Waiting) → queues.marked item ≡ (answer, unsolicited)
        → rings.new ≡ rings.old ++ steps.responses_of regs.now codec item }
{
    if !unsolicited || regs.accepts_unsolicited() {
        rings.accept(codec, answer, unsolicited);
    }
}
