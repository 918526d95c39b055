//! How often a controller works out what its pins hear.
ghost use Rattle.std.specs.Prelude.{◌≡◌, map, Contains, IfOk, IfSome, OnOk};
ghost use Rattle.hda_controller.specs.Hearing.{AreHeardAs};
ghost use Rattle.device_core.specs.Codecs.{addresses_of};

use hda_controller::{Controller, most_items, most_marks};
use hda_files::{Machine, read_machine};
use hda_registers::Width;
use hda_registers::places::{
    CORBCTL, CORBWP, GCTL, OUTPUT_DESCRIPTOR, SDBDPL, SDCBL, SDCTL, SDFMT, SDLVI,
};
use heard_frames::Heard;
use heard_lists::HeardLists;
use std::alloc::Global;
use std::test::Fail;
use test_codecs::LEAST;
use world_steps::Step;

/// A controller, the lists of what its pins hear, the marks of the blocks that come to it, and its first codec's
/// address.
#[derive(Drop)]
struct Desk {
    controller: Controller,
    lists: HeardLists,
    came: Vec<bool>,
    codec: u8,
}

/// The address of a machine's first codec.
fn first_address(machine: &Machine) -> Option<u8>
    ensures { IfSome result (λ address. Contains (map (λ codec. codec.graph.address) machine.now.codecs) address) }
{
    let codecs = machine.codecs.as_slice();
    if codecs.is_empty() {
        return None;
    }
    Some(codecs[0].graph.raw().address)
}

/// The controller of the file's machine, in reset.
fn open(alloc: Global, text: &str) -> Result<Desk, Fail>
    ensures lists { IfOk result (λ desk. AreHeardAs desk.controller.kind desk.controller.device.codecs desk.lists) }
    ensures codec { IfOk result (λ desk. Contains (addresses_of desk.controller.device.codecs) desk.codec) }
{
    let machine = read_machine(alloc, text.as_bytes())?;
    let codec = first_address(&machine).ok_or("a machine has a codec")?;
    Ok(Desk {
        controller: Controller::new(alloc, &machine)?,
        lists: HeardLists::new(alloc, &machine)?,
        came: Vec::new(alloc),
        codec,
    })
}

impl Desk {
    /// Lets the device make some steps, for which the lists get room.
    #[tactic(auto, using(hda_controller::proofs::Callers::heard_reserved))]
    fn run(&mut self, memory: &mut [u8], steps: &[Step]) -> Result<(), Fail>
        requires lists { AreHeardAs self.old.controller.kind self.old.controller.device.codecs self.old.lists }
        requires codec { Contains (addresses_of self.old.controller.device.codecs) self.old.codec }
        ensures lists { OnOk result
            (AreHeardAs self.new.controller.kind self.new.controller.device.codecs self.new.lists) }
        ensures codec { OnOk result (Contains (addresses_of self.new.controller.device.codecs) self.new.codec) }
    {
        for step in steps {
            self.lists.reserve(most_items(step), most_marks(step))?;
            self.came.reserve(most_items(step) as usize)?;
            self.controller
                .step(memory, step, &mut self.lists, &mut self.came);
        }
        Ok(())
    }

    /// Writes some registers.
    fn write(&mut self, writes: &[(u16, Width, u32)])
        requires lists { AreHeardAs self.old.controller.kind self.old.controller.device.codecs self.old.lists }
        requires codec { Contains (addresses_of self.old.controller.device.codecs) self.old.codec }
        ensures lists { AreHeardAs self.new.controller.kind self.new.controller.device.codecs self.new.lists }
        ensures codec { Contains (addresses_of self.new.controller.device.codecs) self.new.codec }
    {
        for (at, width, value) in writes {
            self.controller.write(*at, *width, *value);
        }
    }
}

/// What words of four bytes hold: from the first on commands that open the way from the converter 02 through input 0
/// of the mixer 0C to the pin 14, then one that sets nothing; from 256 on a list of two buffers of 128 bytes, at 1152.
const WORDS: [(usize, u32); 12] = [
    (1, 0x0017_0500),
    (2, 0x0022_0011),
    (3, 0x0027_0610),
    (4, 0x00C3_7000),
    (5, 0x00C3_7180),
    (6, 0x0143_B000),
    (7, 0x0147_0740),
    (8, 0x000F_0000),
    (256, 1152),
    (258, 128),
    (260, 1280),
    (262, 128),
];

/// Memory that holds them.
fn memory() -> [u8; 1408] {
    let mut memory = [0; 1408];
    for (word, value) in WORDS {
        if word < 352 {
            memory[4 * word..4 * word + 4].copy_from_slice(&value.to_le_bytes());
        }
    }
    memory
}

/// CRST and UNSOL, and CORB at place 0 with seven commands.
const START: [(u16, Width, u32); 3] = [
    (GCTL, Width::Four, 0x101),
    (CORBWP, Width::Two, 7),
    (CORBCTL, Width::One, 2),
];

/// Both buffers, 48 kHz with 16 bits and two channels, the tag 1, and RUN.
const PLAY: [(u16, Width, u32); 6] = [
    (OUTPUT_DESCRIPTOR + SDFMT, Width::Two, 0x0011),
    (OUTPUT_DESCRIPTOR + SDCBL, Width::Four, 256),
    (OUTPUT_DESCRIPTOR + SDLVI, Width::Two, 1),
    (OUTPUT_DESCRIPTOR + SDBDPL, Width::Four, 1024),
    (OUTPUT_DESCRIPTOR + SDCTL + 2, Width::One, 0x10),
    (OUTPUT_DESCRIPTOR + SDCTL, Width::One, 2),
];

/// What else happens while the stream runs.
const OTHER_STEPS: [Step; 4] = [
    Step::Fetch(1, 8),
    Step::Answer(0),
    Step::Rirb,
    Step::Plug(0, 0x14),
];

/// Writes, then steps, and how often signals were worked out by then: at the write of GCTL, at seven commands that set
/// controls, and at those of the format and of the control, which are two; never while sound plays, and not at a
/// command that sets nothing.
const TURNS: [(&[(u16, Width, u32)], &[Step], u64); 7] = [
    (&[], &[], 0),
    (&START, &[Step::Corb; 7], 8),
    (&PLAY, &[], 11),
    (&[], &OTHER_STEPS, 11),
    (&[], &[Step::Link(1); 1_000], 11),
    (&[(CORBWP, Width::Two, 8)], &[], 11),
    (&[], &[Step::Corb], 11),
];

#[test]
fn signals_are_renewed_where_they_can_change(rt: HostRuntime) -> Result<(), Fail> {
    let mut memory = memory();
    let mut desk = open(rt.alloc(), LEAST)?;
    for (writes, steps, wanted) in TURNS {
        desk.write(writes);
        desk.run(&mut memory, steps)?;
        assert!(rt; desk.controller.renewals(desk.codec) == wanted);
    }
    Ok(())
}

#[test]
fn an_item_has_twelve_bytes(rt: HostRuntime) {
    assert!(rt; std::mem::size_of::<Heard>() == 12);
}
