//! A device model.
ghost use Rattle.std.specs.Prelude.{◌≡◌, ◌<◌, ◌+◌, ℕ, List, IfOk, IfErr, OnOk, OnErr, IfSome, Err};
ghost use Rattle.std.specs.Prelude.{is_some, nat_lt, length, map, drop, get_or};
ghost use Rattle.hda_registers.specs.Access.{value_at};
ghost use Rattle.hda_registers.specs.Status.{interrupt_line_of};
ghost use Rattle.hda_world.specs.Worlds.{World};
ghost use Rattle.hda_files.specs.Machines.{IsSound};
ghost use Rattle.heard_lists.specs.declared.pin_list.PinHeard.{PinHeard};
ghost use Rattle.hda_controller.specs.Controllers.{has_codec};
ghost use Rattle.hda_controller.specs.Hearing.{most_items, most_marks};
ghost use Rattle.hda_model.specs.Models as models;
ghost use Rattle.hda_model.specs.Copies as copies;
ghost use Rattle.hda_model.specs.Refusals as refusals;

use crate::faults::{MOST_TEXT_BYTES, OpenFault, StepFault};
use crate::heard_items::{HeardItem, copy_heard};
use crate::places::{PinName, pin_at};
use crate::room::make_room;
use hda_controller::{Controller, most_items, most_marks};
use hda_files::{Machine, read_machine};
use hda_registers::Width;
use heard_lists::HeardLists;
use std::alloc::{AllocError, Global};
use std::marker::Model;
use world_steps::Step;

/// A High Definition Audio controller (specification 1.0a) with its codecs, what their candidate pins heard and was not
/// forgotten, and which blocks the input stream took. The memory that the controller reaches is lent at each call and
/// begins at bus address 0. Contracts see a `ModelState`, which stands for a world, and of each call the move of the
/// world that it makes. This project's own.
#[derive(Drop)]
pub struct DeviceModel {
    controller: Controller,
    heard: HeardLists,
    /// Of each block that came to the input stream since its RUN rose whether it was taken.
    came: Vec<bool>,
}

impl Model for DeviceModel {
    ghost use Rattle.std.specs.Prelude.{map};
    ghost use Rattle.heard_lists.specs.Listings.{handed_out};
    ghost use Rattle.hda_model.specs.Models.{ModelState};
    ghost use Rattle.hda_model.specs.Keeping.{IsModel};

    ghost Value = { ModelState };

    ghost view = { λ m. record { controller = m.controller; pins = map handed_out m.heard; came = m.came.items } };

    ghost invariant = { λ m. IsModel m.controller m.heard m.came.items };
}

impl DeviceModel {
    /// The device that the text of a codec file describes: its controller in reset, and nothing heard yet.
    ///
    /// # Errors
    /// The text's first fault, that it has more than 262,144 bytes, or want of memory.
    pub fn open(alloc: Global, text: &[u8]) -> Result<DeviceModel, OpenFault>
        ensures opened { IfOk result (models.IsDescribed text.now) }
        ensures refused { IfErr result (refusals.IsRefused text.now) }
    {
        if text.len() > MOST_TEXT_BYTES {
            return Err(OpenFault::TooLong);
        }
        let machine = read_machine(alloc, text)?;
        let model = DeviceModel::of_machine(alloc, &machine)?;
        Ok(model)
    }

    /// The device of a machine.
    fn of_machine(alloc: Global, machine: &Machine) -> Result<DeviceModel, AllocError>
        requires { IsSound machine.now }
        ensures { IfOk result (models.IsOpened machine.now) }
    {
        let controller = Controller::new(alloc, machine)?;
        let heard = HeardLists::new(alloc, machine)?;
        Ok(DeviceModel {
            controller,
            heard,
            came: Vec::new(alloc),
        })
    }

    /// A law: with any memory a model stands for some world, so the moves that its calls promise are never promised of
    /// nothing. Does nothing.
    pub fn stands_for_some(&self)
        ensures { (memory : List ℕ) → models.SomeWorld memory self.now }
    {
        let _controller = &self.controller;
    }

    /// Reads a register (HDA 1.0a, 3.3). A place that is no multiple of the width, and one without a register, reads 0.
    pub fn read(&self, at: u16, width: Width) -> u32
        ensures { result ≡ value_at self.now.controller.device.registers at width }
    {
        self.controller.read(at, width)
    }

    /// Whether the interrupt line is high (HDA 1.0a, 3.3.14 and 3.3.15).
    pub fn line(&self) -> bool
        ensures { result ≡ interrupt_line_of self.now.controller.device.registers }
    {
        self.controller.line()
    }

    /// Gives all input pins this sound, whose blocks come to the input stream while it runs, the block with number i
    /// since RUN rose as the block of bytes with number i, and silence behind the last whole one. To be called before
    /// the first step, where all of it is to come.
    pub fn give(&mut self, sound: Vec<u8>)
        ensures { models.IsGiven sound.items self.old self.new }
    {
        self.controller.give(sound);
    }

    /// Of each block that came to the input stream since its RUN rose, oldest first, whether it was taken.
    pub fn taken(&self) -> &[bool]
        ensures { result.now ≡ self.now.came }
    {
        self.came.as_slice()
    }

    /// Writes a register (HDA 1.0a, 3.3), as the world does at such a write. What was heard stays.
    pub fn write(&mut self, at: u16, width: Width, value: u32)
        ensures { models.IsWritten at width value self.old self.new }
    {
        self.controller.write(at, width, value);
        self.controller.keep_marks(&mut self.came);
    }

    /// Makes a step of the device, as the world does at this step. What it reads and writes of memory is the memory's
    /// that is lent. It takes memory of its own only for what pins may hear, four items at each of them for a link
    /// frame, for four marks a link frame of blocks that may come, and for the mark of a pin where CORB's engine may hand
    /// a command on.
    ///
    /// # Errors
    /// Where there is no such codec or stream, or memory was wanting for a step that lets link frames pass or may hand a
    /// command on. Nothing changes then.
    pub fn step(&mut self, memory: &mut [u8], step: &Step) -> Result<(), StepFault>
        ensures made { OnOk result (models.IsStepped step.now memory.old memory.new self.old self.new) }
        ensures model { OnErr result (self.new ≡ self.old) }
        ensures memory { OnErr result (memory.new ≡ memory.old) }
        ensures refused { IfSome (refusals.refusal_of step.now self.old.controller.device.codecs)
            (λ fault. result ≡ Err fault) }
        ensures cause { IfErr result (refusals.IsCause step.now self.old.controller.device.codecs) }
    {
        match self.refusal(step) {
            Some(fault) => Err(fault),
            None => match self.make(memory, step) {
                Ok(()) => Ok(()),
                Err(_) => Err(StepFault::OutOfMemory),
            },
        }
    }

    /// Makes a step.
    ///
    /// # Errors
    /// Want of memory, where the step lets link frames pass or hands a command on. Nothing changes then.
    fn make(&mut self, memory: &mut [u8], step: &Step) -> Result<(), AllocError>
        ensures made { OnOk result (models.IsStepped step.now memory.old memory.new self.old self.new) }
        ensures model { OnErr result (self.new ≡ self.old) }
        ensures memory { OnErr result (memory.new ≡ memory.old) }
        ensures some { OnErr result (0 < most_items step.now + most_marks step.now) }
    {
        make_room(
            &mut self.heard,
            &mut self.came,
            most_items(step),
            most_marks(step),
        )?;
        self.controller
            .step(memory, step, &mut self.heard, &mut self.came);
        Ok(())
    }

    /// Why a step is refused, whatever memory there is.
    fn refusal(&self, step: &Step) -> Option<StepFault>
        ensures { result ≡ refusals.refusal_of step.now self.now.controller.device.codecs }
    {
        match *step {
            Step::Corb | Step::Rirb | Step::Link(_) => None,
            Step::Fetch(stream, _) => refuse_if(stream > 1, StepFault::NoStream),
            Step::Answer(codec)
            | Step::Lose(codec)
            | Step::Plug(codec, _)
            | Step::Unplug(codec, _) => refuse_if(!self.has_codec(codec), StepFault::NoCodec),
        }
    }

    /// Whether a codec has this address.
    pub fn has_codec(&self, address: u8) -> bool
        ensures { result ≡ has_codec address self.now.controller.device.codecs }
    {
        self.controller.has_codec(address)
    }

    /// How many candidate pins there are. Their names, and what each heard, stand codec by codec ascending by address.
    pub fn pin_count(&self) -> usize
        ensures { result ≡ length self.now.pins }
    {
        self.heard.len()
    }

    /// The name of the candidate pin at a place, counted from 0. `None` where there are no more.
    pub fn pin(&self, place: usize) -> Option<PinName>
        ensures some { is_some result ≡ nat_lt place (length self.now.pins) }
        ensures name { (pin : PinHeard)
            → IfSome result (λ name. name ≡ models.name_of (get_or self.now.pins place pin)) }
    {
        pin_at(&self.heard, place)
    }

    /// How many items the candidate pin of the codec with this address heard that were not forgotten; those from a
    /// number on, counted from 0, are copied into `into`, as many as fit. `None` where there is no such pin: then
    /// nothing is copied.
    pub fn heard(&self, codec: u8, nid: u8, from: u64, into: &mut [HeardItem]) -> Option<u64>
        ensures count { result ≡ copies.count_of codec nid self.now.pins }
        ensures items { into.new
            ≡ copies.copied (map copies.item_of (drop from (copies.list_of codec nid self.now.pins))) into.old }
    {
        copy_heard(&self.heard, codec, nid, from, into)
    }

    /// Forgets what the pins heard so far. The room that it took is used again.
    pub fn forget(&mut self)
        ensures { models.IsForgotten self.old self.new }
    {
        self.heard.clear();
    }
}

/// A fault where it is one.
fn refuse_if(refused: bool, fault: StepFault) -> Option<StepFault>
    ensures { result ≡ refusals.refused_if refused fault }
{
    if refused { Some(fault) } else { None }
}
