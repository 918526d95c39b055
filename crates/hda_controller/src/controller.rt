//! The controller.
ghost use Rattle.std.specs.Prelude.{◌≡◌, ◌≤◌, ◌+◌, ℕ, List, All, IfOk, Contains, Some, true, map, vec_len};
ghost use Rattle.std.specs.Prelude.{vec_capacity};
ghost use Rattle.hda_registers.specs.Access.{value_at};
ghost use Rattle.hda_registers.specs.declared.shapes.Width.{Width as AccessWidth};
ghost use Rattle.hda_registers.specs.Status.{interrupt_line_of};
ghost use Rattle.hda_world.specs.Worlds.{World, given_sound, output_of};
ghost use Rattle.std.specs.Option.{option_map};
ghost use Rattle.stream_format.specs.Layouts.{layout, layout_of};
ghost use Rattle.stream_descriptor.specs.Running.{found_at};
ghost use Rattle.stream_descriptor.specs.Frames.{IsAnswer};
ghost use Rattle.device_core.specs.Devices.{KeepsSound};
ghost use Rattle.hda_world.specs.Steps as steps;
ghost use Rattle.hda_world.specs.Events.{after_write};
ghost use Rattle.device_core.specs.Codecs.{addresses_of, place_of, handed_now};
ghost use Rattle.hda_files.specs.Machines.{IsSound};
ghost use Rattle.codec_graph.specs.declared.pin_kind.PinKind.TheVariants as pin_kind;
ghost use Rattle.heard_lists.specs.Listings.{Listing, HasRoom, HasMarkRoom, AreListsAs, AreListsOf, graphs_in};
ghost use Rattle.hda_controller.specs.Controllers.{StandsFor, has_codec, renewals_of, renewals_written};
ghost use Rattle.hda_controller.specs.Controllers.{renewals_handed, renewals_at, is_candidate_of_kind, signal_now};
ghost use Rattle.hda_controller.specs.Hearing.{most_items, most_marks, AreHeardAs, CameAs, GrewAs};
ghost use Rattle.hda_controller.specs.Hearing.{renewals_stepped};
ghost use Rattle.hda_controller.specs.Openings.{opening_world};

mod hearing;

use crate::marking::mark_handed;
use crate::marks::note_arrived;
use crate::opening::{all_signals_of, codecs_of, shape_of};
use crate::places::{is_there, place_of};
use crate::renewing::{renew_handed, renew_if};
use codec_graph::PinKind;
use codec_sound::{Kept, Signal};
use device_core::{Device, Handed, touches_sound};
use hda_files::Machine;
use hda_registers::Width;
use hda_world::the_given_sound_stays;
use heard_lists::{HeardLists, Sounds};
use std::alloc::{AllocError, Global};
use std::marker::Model;
use stream_descriptor::{Frame, MOST_FRAME_BYTES};
use stream_format::Format;
use world_steps::Step;

/// A device, with the signals of its codecs' candidate pins of a kind as they are at each moment. Contracts see a
/// `ControllerState`, and of each call the move of the world (this project's own) that it makes.
#[derive(Drop)]
pub struct Controller {
    device: Device,
    /// One for each codec, at the same place.
    kept: Vec<Kept>,
    /// For which pins.
    kind: PinKind,
}

impl Model for Controller {
    ghost use Rattle.hda_controller.specs.Controllers.{ControllerState, IsController};

    ghost Value = { ControllerState };

    ghost view = { λ c. record { device = c.device; kept = c.kept.items; kind = c.kind } };

    ghost invariant = { λ c. IsController (record { device = c.device; kept = c.kept.items; kind = c.kind }) };
}

impl Controller {
    /// A controller in reset with the codecs of a machine, as its file says that they start. Nothing waits and no
    /// stream runs.
    ///
    /// # Errors
    /// Want of memory.
    pub fn new(alloc: Global, machine: &Machine) -> Result<Controller, AllocError>
        requires { IsSound machine.now }
        ensures stands { IfOk result (λ controller. (memory : List ℕ)
            → StandsFor memory controller (opening_world memory machine.now)) }
        ensures renewals { IfOk result (λ controller. All (λ count. count ≡ 0) (renewals_of controller)) }
        ensures lists { IfOk result (λ controller. (lists : List Listing)
            → AreListsOf (graphs_in machine.now.codecs) lists
            → AreHeardAs controller.kind controller.device.codecs lists) }
        ensures addresses { IfOk result (λ controller. addresses_of controller.device.codecs ≡ map
            (λ codec. codec.graph.address) machine.now.codecs) }
        ensures kind { IfOk result (λ controller. controller.kind ≡ pin_kind.Analog) }
    {
        Controller::of_kind(alloc, PinKind::Analog, machine)
    }

    /// The same for the digital candidate pins: what is heard is what these hear as digital pins.
    ///
    /// # Errors
    /// Want of memory.
    pub fn digital(alloc: Global, machine: &Machine) -> Result<Controller, AllocError>
        requires { IsSound machine.now }
        ensures stands { IfOk result (λ controller. (memory : List ℕ)
            → StandsFor memory controller (opening_world memory machine.now)) }
        ensures renewals { IfOk result (λ controller. All (λ count. count ≡ 0) (renewals_of controller)) }
        ensures lists { IfOk result (λ controller. (lists : List Listing)
            → AreListsAs pin_kind.Digital (graphs_in machine.now.codecs) lists
            → AreHeardAs controller.kind controller.device.codecs lists) }
        ensures addresses { IfOk result (λ controller. addresses_of controller.device.codecs ≡ map
            (λ codec. codec.graph.address) machine.now.codecs) }
        ensures kind { IfOk result (λ controller. controller.kind ≡ pin_kind.Digital) }
    {
        Controller::of_kind(alloc, PinKind::Digital, machine)
    }

    /// The same for the candidate pins of the kind.
    ///
    /// # Errors
    /// Want of memory.
    pub fn of_kind(
        alloc: Global,
        kind: PinKind,
        machine: &Machine,
    ) -> Result<Controller, AllocError>
        requires { IsSound machine.now }
        ensures stands { IfOk result (λ controller. (memory : List ℕ)
            → StandsFor memory controller (opening_world memory machine.now)) }
        ensures renewals { IfOk result (λ controller. All (λ count. count ≡ 0) (renewals_of controller)) }
        ensures lists { IfOk result (λ controller. (lists : List Listing)
            → AreListsAs kind (graphs_in machine.now.codecs) lists
            → AreHeardAs controller.kind controller.device.codecs lists) }
        ensures addresses { IfOk result (λ controller. addresses_of controller.device.codecs ≡ map
            (λ codec. codec.graph.address) machine.now.codecs) }
        ensures kind { IfOk result (λ controller. controller.kind ≡ kind) }
    {
        let codecs = codecs_of(alloc, machine.codecs.as_slice())?;
        let kept = all_signals_of(alloc, kind, machine.codecs.as_slice())?;
        let shape = shape_of(machine, codecs.as_slice());
        let device = Device::new(alloc, shape, codecs)?;
        Ok(Controller { device, kept, kind })
    }

    /// A law: with any memory a controller is some world, so the moves that its calls promise are never promised of
    /// nothing. Does nothing.
    pub fn is_some_world(&self)
        ensures { (memory : List ℕ) → (world : World) × StandsFor memory self.now world }
    {
        self.device.is_some_world();
    }

    /// Whether one of its codecs has this address.
    pub fn has_codec(&self, address: u8) -> bool
        ensures { result ≡ has_codec address self.now.device.codecs }
    {
        is_there(self.device.codecs(), address)
    }

    /// Whether its interrupt line is high (HDA 1.0a, 3.3.14 and 3.3.15).
    pub fn line(&self) -> bool
        ensures { result ≡ interrupt_line_of self.now.device.registers }
    {
        self.device.registers().line()
    }

    /// How often the signals of the codec with this address were worked out anew. At 2^64 - 1 the count stays.
    pub fn renewals(&self, codec: u8) -> u64
        requires { Contains (addresses_of self.now.device.codecs) codec }
        ensures { renewals_at (place_of codec self.now.device.codecs) (renewals_of self.now) ≡ Some result }
    {
        let place = place_of(self.device.codecs(), codec);
        self.kept[place].renewals()
    }

    /// For which pins it keeps signals.
    pub fn kind(&self) -> PinKind
        ensures { result ≡ self.now.kind }
    {
        self.kind
    }

    /// The signal of a candidate pin of its kind, of the codec with this address, as it is now.
    pub(crate) fn signal_at(&self, codec: u8, pin: u8) -> Signal
        requires { is_candidate_of_kind self.now.kind self.now.device.codecs codec pin ≡ true }
        ensures { result ≡ signal_now self.now.kind self.now.device codec pin }
    {
        let place = place_of(self.device.codecs(), codec);
        self.kept[place].hear(pin)
    }

    /// The format of the output stream. `None` where no format has its word (HDA 1.0a, 3.3.41).
    pub(crate) fn format(&self) -> Option<Format>
        ensures { option_map layout result ≡ layout_of self.now.device.registers.output.format }
    {
        Format::from_word(self.device.registers().format(1))
    }

    /// Gives all input pins this sound, whose blocks come to the input stream while it runs. This project's own.
    pub fn give(&mut self, sound: Vec<u8>)
        ensures stands { (memory : List ℕ) (world : World) → StandsFor memory self.old world
            → StandsFor memory self.new (given_sound sound.items world) }
        ensures renewals { renewals_of self.new ≡ renewals_of self.old }
        ensures lists { (lists : List Listing) → AreHeardAs self.old.kind self.old.device.codecs lists
            → AreHeardAs self.new.kind self.new.device.codecs lists }
        ensures kind { self.new.kind ≡ self.old.kind }
        ensures addresses { addresses_of self.new.device.codecs ≡ addresses_of self.old.device.codecs }
        ensures given { self.new.device.input.given ≡ sound.items }
    {
        self.device.give(sound);
    }

    /// How many blocks came to the input stream since its RUN rose. At 2^64 - 1 the count stays.
    pub fn came(&self) -> u64
        ensures { result ≡ self.now.device.input.came }
    {
        self.device.came()
    }

    /// Reads a register (HDA 1.0a, 3.3). A place that is no multiple of the width, and one without a register, reads 0.
    pub fn read(&self, at: u16, width: Width) -> u32
        ensures { result ≡ value_at self.now.device.registers at width }
    {
        self.device.read(at, width)
    }

    /// Writes a register (HDA 1.0a, 3.3). Where the write touches GCTL or the control or the format of descriptor 1,
    /// the signals of all codecs are worked out anew.
    pub fn write(&mut self, at: u16, width: Width, value: u32)
        ensures stands { (memory : List ℕ) (world : World) → StandsFor memory self.old world
            → StandsFor memory self.new (after_write at width value world) }
        ensures renewals { renewals_of self.new ≡ renewals_written at width (renewals_of self.old) }
        ensures lists { (lists : List Listing) → AreHeardAs self.old.kind self.old.device.codecs lists
            → AreHeardAs self.new.kind self.new.device.codecs lists }
        ensures kind { self.new.kind ≡ self.old.kind }
        ensures addresses { addresses_of self.new.device.codecs ≡ addresses_of self.old.device.codecs }
        ensures given { self.new.device.input.given ≡ self.old.device.input.given }
    {
        // The controller stands for some world, whose sound no write changes.
        self.device.is_some_world();
        the_given_sound_stays();
        self.device.write(at, width, value);
        renew_if(
            self.kind,
            touches_sound(at, width),
            &self.device,
            self.kept.as_mut_slice(),
        );
    }

    /// Drops the marks of the blocks that came, where the last write set RUN of the input stream: none came since. To
    /// be called after each write.
    pub fn keep_marks(&self, came: &mut Vec<bool>)
        ensures came { (memory : List ℕ) (before : World) (at : ℕ) (width : AccessWidth) (value : ℕ)
            → StandsFor memory self.now (after_write at width value before) → before.came ≡ came.old.items
            → (after_write at width value before).came ≡ came.new.items }
        ensures length { vec_len came.new ≤ vec_len came.old }
        ensures capacity { vec_capacity came.new ≡ vec_capacity came.old }
    {
        let count = self.device.came();
        if count == 0 {
            came.clear();
        }
    }

    /// CORB's engine fetches the next command and hands it to its codec (HDA 1.0a, 4.4.1). The codec's signals are
    /// worked out anew where the command sets a control. Says which codec took it, and its word.
    pub(crate) fn corb(&mut self, memory: &[u8]) -> Option<Handed>
        ensures stands { (world : World) → StandsFor memory.now self.old world
            → StandsFor memory.now self.new (steps.corb_step world) }
        ensures handed { result ≡ handed_now self.old.device.registers memory.now self.old.device.codecs }
        ensures renewals { renewals_of self.new
            ≡ renewals_handed (handed_now self.old.device.registers memory.now self.old.device.codecs)
            (renewals_of self.old) }
        ensures kind { self.new.kind ≡ self.old.kind }
    {
        // The addresses of its codecs ascend, so that no other codec takes the command.
        let _ = self.device.codecs();
        let handed = self.device.corb(memory);
        renew_handed(self.kind, handed, &self.device, self.kept.as_mut_slice());
        handed
    }

    /// The same; where the output stream runs and the command sets a pin's control, that pin gets a mark.
    fn take(&mut self, memory: &[u8], heard: &mut HeardLists)
        requires { HasMarkRoom 1 heard.old }
        ensures stands { (world : World) → StandsFor memory.now self.old world
            → StandsFor memory.now self.new (steps.corb_step world) }
        ensures heard { (world : World) → StandsFor memory.now self.old world
            → GrewAs self.old.kind world (steps.corb_step world) heard.old heard.new }
        ensures room { (items : ℕ) → HasRoom items heard.old → HasRoom items heard.new }
        ensures mark_room { (more : ℕ) → HasMarkRoom (1 + more) heard.old → HasMarkRoom more heard.new }
        ensures renewals { renewals_of self.new
            ≡ renewals_handed (handed_now self.old.device.registers memory.now self.old.device.codecs)
            (renewals_of self.old) }
        ensures kind { self.new.kind ≡ self.old.kind }
    {
        let runs = self.device.registers().is_stream_running(1);
        let handed = self.corb(memory);
        if runs {
            mark_handed(heard, handed);
        }
    }

    /// A codec sends its first waiting item (HDA 1.0a, 4.4.2).
    pub(crate) fn answer(&mut self, codec: u8)
        ensures stands { (memory : List ℕ) (world : World) → StandsFor memory self.old world
            → StandsFor memory self.new (steps.answer_step codec world) }
        ensures kept { self.new.kept ≡ self.old.kept }
        ensures kind { self.new.kind ≡ self.old.kind }
    {
        self.device.answer(codec);
    }

    /// A codec loses its first waiting answer.
    pub(crate) fn lose(&mut self, codec: u8)
        ensures stands { (memory : List ℕ) (world : World) → StandsFor memory self.old world
            → StandsFor memory self.new (steps.lose_step codec world) }
        ensures kept { self.new.kept ≡ self.old.kept }
        ensures kind { self.new.kind ≡ self.old.kind }
    {
        self.device.lose(codec);
    }

    /// Says whether something is plugged in at a pin (HDA 1.0a, 7.3.3.15).
    pub(crate) fn plug(&mut self, codec: u8, nid: u8, present: bool)
        ensures stands { (memory : List ℕ) (world : World) → StandsFor memory self.old world
            → StandsFor memory self.new (steps.plugged_at codec nid present world) }
        ensures kept { self.new.kept ≡ self.old.kept }
        ensures kind { self.new.kind ≡ self.old.kind }
    {
        self.device.plug(codec, nid, present);
    }

    /// RIRB's engine writes responses that wait (HDA 1.0a, 4.4.2).
    pub(crate) fn rirb(&mut self, memory: &mut [u8])
        ensures stands { (world : World) → StandsFor memory.old self.old world
            → StandsFor memory.new self.new (steps.rirb_step world) }
        ensures kept { self.new.kept ≡ self.old.kept }
        ensures kind { self.new.kind ≡ self.old.kind }
    {
        self.device.rirb(memory);
    }

    /// A stream moves at most so many bytes between its FIFO and its buffers (HDA 1.0a, 4.5).
    pub(crate) fn fetch(&mut self, memory: &mut [u8], stream: u8, most: u16)
        ensures stands { (world : World) → StandsFor memory.old self.old world
            → StandsFor memory.new self.new (steps.fetch_step stream most world) }
        ensures kept { self.new.kept ≡ self.old.kept }
        ensures kind { self.new.kind ≡ self.old.kind }
    {
        self.device.fetch(memory, stream, most);
    }

    /// Lets a link frame pass (HDA 1.0a, 4.3, 4.5 and 5.3). Says what it carried; the bytes then stand at the front of
    /// `into`. Of each block that came to the input stream it notes whether that was taken.
    pub(crate) fn frame(&mut self, into: &mut [u8; MOST_FRAME_BYTES], came: &mut Vec<bool>) -> Frame
        requires { vec_len came.old + 4 ≤ vec_capacity came.old }
        ensures stands { (memory : List ℕ) (world : World) → StandsFor memory self.old world
            → StandsFor memory self.new (steps.frame_step world) }
        ensures answer { (memory : List ℕ) (world : World) → StandsFor memory self.old world
            → IsAnswer (output_of world) (found_at 1 world.registers world.output) into.old into.new result }
        ensures kept { self.new.kept ≡ self.old.kept }
        ensures kind { self.new.kind ≡ self.old.kind }
        ensures codecs { self.new.device.codecs ≡ self.old.device.codecs }
        ensures sound { KeepsSound self.old.device.registers self.new.device.registers }
        ensures came { (memory : List ℕ) (world : World) → StandsFor memory self.old world
            → CameAs world (steps.frame_step world) came.old.items came.new.items }
        ensures space { (more : ℕ) → vec_len came.old + (4 + more) ≤ vec_capacity came.old
            → vec_len came.new + more ≤ vec_capacity came.new }
    {
        let frame = self.device.frame(into);
        note_arrived(came, frame.came);
        frame.sent
    }

    /// Lets the device make a step of a schedule (this project's own); one that names a codec, a pin or a stream that
    /// is not there changes nothing. Each list is that of a candidate pin of a codec, and hears each block that a link
    /// frame carries, and each frame that misses its blocks: it has room for four items a link frame. For each block
    /// that comes to the input stream a mark is put last, whether it was taken: there is room for four of these a link
    /// frame. Where CORB's engine hands a command on that sets a pin's control while the output stream runs, the pin
    /// gets a mark, for which there is room. Takes no memory.
    pub fn step(
        &mut self,
        memory: &mut [u8],
        step: &Step,
        heard: &mut HeardLists,
        came: &mut Vec<bool>,
    )
        requires room { HasRoom (most_items step.now) heard.old }
        requires mark_room { HasMarkRoom (most_marks step.now) heard.old }
        requires space { vec_len came.old + most_items step.now ≤ vec_capacity came.old }
        requires lists { AreHeardAs self.old.kind self.old.device.codecs heard.old }
        ensures stands { (world : World) → StandsFor memory.old self.old world
            → StandsFor memory.new self.new (steps.after_step step.now world) }
        ensures heard { (world : World) → StandsFor memory.old self.old world
            → GrewAs self.old.kind world (steps.after_step step.now world) heard.old heard.new }
        ensures room { (more : ℕ) → HasRoom (most_items step.now + more) heard.old → HasRoom more heard.new }
        ensures mark_room { (more : ℕ) → HasMarkRoom (most_marks step.now + more) heard.old
            → HasMarkRoom more heard.new }
        ensures lists { AreHeardAs self.new.kind self.new.device.codecs heard.new }
        ensures renewals { renewals_of self.new ≡ renewals_stepped step.now memory.old self.old }
        ensures kind { self.new.kind ≡ self.old.kind }
        ensures addresses { addresses_of self.new.device.codecs ≡ addresses_of self.old.device.codecs }
        ensures came { (world : World) → StandsFor memory.old self.old world
            → CameAs world (steps.after_step step.now world) came.old.items came.new.items }
        ensures space { (more : ℕ) → vec_len came.old + (most_items step.now + more) ≤ vec_capacity came.old
            → vec_len came.new + more ≤ vec_capacity came.new }
        ensures given { self.new.device.input.given ≡ self.old.device.input.given }
    {
        // The controller stands for some world, so its codecs stay, and its lists those of candidate pins. No step
        // changes the world's sound.
        self.device.is_some_world();
        the_given_sound_stays();
        self.make(memory, step, heard, came);
    }

    /// Makes the step.
    fn make(&mut self, memory: &mut [u8], step: &Step, heard: &mut HeardLists, came: &mut Vec<bool>)
        requires room { HasRoom (most_items step.now) heard.old }
        requires mark_room { HasMarkRoom (most_marks step.now) heard.old }
        requires space { vec_len came.old + most_items step.now ≤ vec_capacity came.old }
        requires lists { AreHeardAs self.old.kind self.old.device.codecs heard.old }
        ensures stands { (world : World) → StandsFor memory.old self.old world
            → StandsFor memory.new self.new (steps.after_step step.now world) }
        ensures heard { (world : World) → StandsFor memory.old self.old world
            → GrewAs self.old.kind world (steps.after_step step.now world) heard.old heard.new }
        ensures room { (more : ℕ) → HasRoom (most_items step.now + more) heard.old → HasRoom more heard.new }
        ensures mark_room { (more : ℕ) → HasMarkRoom (most_marks step.now + more) heard.old
            → HasMarkRoom more heard.new }
        ensures renewals { renewals_of self.new ≡ renewals_stepped step.now memory.old self.old }
        ensures kind { self.new.kind ≡ self.old.kind }
        ensures came { (world : World) → StandsFor memory.old self.old world
            → CameAs world (steps.after_step step.now world) came.old.items came.new.items }
        ensures space { (more : ℕ) → vec_len came.old + (most_items step.now + more) ≤ vec_capacity came.old
            → vec_len came.new + more ≤ vec_capacity came.new }
    {
        match *step {
            Step::Corb => self.take(memory, heard),
            Step::Answer(codec) => self.answer(codec),
            Step::Lose(codec) => self.lose(codec),
            Step::Rirb => self.rirb(memory),
            Step::Fetch(stream, most) => self.fetch(memory, stream, most),
            Step::Link(frames) => self.link(frames, heard, came),
            Step::Plug(codec, pin) => self.plug(codec, pin, true),
            Step::Unplug(codec, pin) => self.plug(codec, pin, false),
        }
    }
}

impl Sounds for Controller {
    ghost signal_of = { λ controller. signal_now controller.kind controller.device };

    ghost IsKnown = { λ controller codec pin. is_candidate_of_kind controller.kind controller.device.codecs codec pin
        ≡ true };

    fn signal(&self, codec: u8, pin: u8) -> Signal {
        self.signal_at(codec, pin)
    }
}
