//! The rig: a machine that makes the steps of a schedule and keeps its journal.
ghost use Rattle.std.specs.Prelude.{◌≡◌, ◌≤◌, ◌<◌, ◌+◌, ◌^◌, true, false, length, drop};
ghost use Rattle.std.proofs.Props.{props};
ghost use Rattle.codec_graph.specs.declared.pin_kind.PinKind.TheVariants as pin_kind;
ghost use Rattle.hda_world.specs.JournalEvents.{events_of};
ghost use Rattle.rig.specs.Recordings.{HasRoomFor};
ghost use Rattle.rig.specs.Rooms.{step_count, item_count};
ghost use Rattle.rig.specs.Stretches.{accesses_of, IsOpenFrom};

mod accesses;
mod parts;

use crate::groups::{copied, pass_all};
use crate::recording::Recording;
use crate::rooms::room_for;
use codec_graph::PinKind;
use hda_controller::most_items;
use hda_files::Machine;
use hda_items::Items;
use hda_platform::Platform;
use hda_world::Step;
use schedule_reader::Group;
use std::alloc::{AllocError, Global};

/// A machine in motion. Outside runs of a driver it makes the steps that it is told. In a run it makes the steps of a
/// group before each access, while a group is left. All that happens stands in its journal, which leads from the
/// machine's start to where it is. This project's own.
#[derive(Drop)]
pub struct Rig {
    recording: Recording,
    /// Whether a run of the driver is open.
    in_run: bool,
    /// The number of the journal's entry with which the last run began.
    begun: usize,
    /// The groups with which it began.
    groups: Items<Group>,
    /// How many accesses it made.
    made: u32,
    /// How many accesses and how many bytes of pieces of memory it has room to note.
    spare_accesses: u32,
    spare_bytes: u32,
    pub ghost closed: { in_run ≡ false → spare_accesses ≡ 0 },
    pub ghost counts: { made + spare_accesses < 2 ^ 32 },
    pub ghost laid: { in_run ≡ true → IsOpenFrom begun groups (events_of recording.journal) } by { Prim.hlevel props },
    pub ghost numbered: { in_run ≡ true → made ≡ length (accesses_of (drop begun (events_of recording.journal))) },
    pub ghost room: { in_run ≡ true → HasRoomFor (spare_accesses + 1 + step_count (drop made groups)) spare_bytes
        (item_count (drop made groups))
        recording.journal recording.heard recording.came } by { Prim.hlevel props },
}

impl Rig {
    ghost use Rattle.std.specs.Prelude.{◌≡◌, ◌∷◌, [], IfOk, OnOk, OnErr, true, false, Some, map, length, drop};
    ghost use Rattle.hda_files.specs.Machines.{IsSound};
    ghost use Rattle.hda_world.specs.declared.world.TheConstants.{REGION_BYTES};
    ghost use Rattle.hda_world.specs.Events.{Stepped, Begin, End};
    ghost use Rattle.hda_world.specs.Tellings.{Went, Accessed, Between};
    ghost use Rattle.rig.specs.Replays.{telling_from, telling_given};
    ghost use Rattle.rig.specs.Stretches.{IsStretchFrom};
    ghost use Rattle.rig.specs.Rigs.{telling_of, told_by, setting_of};

    /// A machine at its start: a region of zeros, the controller in reset, nothing heard and an empty journal.
    ///
    /// # Errors
    /// Want of memory.
    pub fn new(alloc: Global, machine: Machine) -> Result<Rig, AllocError>
        requires { IsSound machine }
        ensures told { IfOk result (λ rig. told_by rig ≡ Some (telling_from REGION_BYTES machine [])) }
        ensures machine { IfOk result (λ rig. (setting_of rig).machine ≡ machine) }
        ensures kind { IfOk result (λ rig. (setting_of rig).kind ≡ pin_kind.Analog) }
        ensures in_run { IfOk result (λ rig. (setting_of rig).in_run ≡ false) }
    {
        Rig::of_kind(alloc, PinKind::Analog, machine)
    }

    /// The same, whose lists are those of the digital candidate pins.
    ///
    /// # Errors
    /// Want of memory.
    pub fn digital(alloc: Global, machine: Machine) -> Result<Rig, AllocError>
        requires { IsSound machine }
        ensures told { IfOk result (λ rig. told_by rig ≡ Some (telling_from REGION_BYTES machine [])) }
        ensures machine { IfOk result (λ rig. (setting_of rig).machine ≡ machine) }
        ensures kind { IfOk result (λ rig. (setting_of rig).kind ≡ pin_kind.Digital) }
        ensures in_run { IfOk result (λ rig. (setting_of rig).in_run ≡ false) }
    {
        Rig::of_kind(alloc, PinKind::Digital, machine)
    }

    /// The same, whose lists are those of the candidate pins of the kind.
    ///
    /// # Errors
    /// Want of memory.
    pub fn of_kind(alloc: Global, kind: PinKind, machine: Machine) -> Result<Rig, AllocError>
        requires { IsSound machine }
        ensures told { IfOk result (λ rig. told_by rig ≡ Some (telling_from REGION_BYTES machine [])) }
        ensures machine { IfOk result (λ rig. (setting_of rig).machine ≡ machine) }
        ensures kind { IfOk result (λ rig. (setting_of rig).kind ≡ kind) }
        ensures in_run { IfOk result (λ rig. (setting_of rig).in_run ≡ false) }
    {
        Ok(Rig {
            recording: Recording::new(alloc, kind, machine)?,
            in_run: false,
            begun: 0,
            groups: Items::new(alloc),
            made: 0,
            spare_accesses: 0,
            spare_bytes: 0,
        })
    }

    /// Gives all input pins this sound, before the first step. While the input stream runs, its blocks come to it one
    /// after the other, and silence behind them.
    pub fn give(&mut self, sound: Vec<u8>)
        requires { (telling_of self.old).journal ≡ [] }
        ensures told { told_by self.new
            ≡ Some (telling_given REGION_BYTES (setting_of self.old).machine sound.items []) }
        ensures setting { setting_of self.new ≡ record (setting_of self.old) { given = sound.items } }
    {
        self.recording.give(sound);
    }

    /// Makes a step of the device, while no run is open.
    ///
    /// # Errors
    /// Want of memory. Nothing happened then.
    pub fn step(&mut self, step: &Step) -> Result<(), AllocError>
        requires { (setting_of self.old).in_run ≡ false }
        ensures told { OnOk result (Between (λ old new. Accessed old new (Stepped step.now)) (told_by self.old)
            (told_by self.new)) }
        ensures went { OnOk result (Went (telling_of self.old) (telling_of self.new) (Stepped step.now ∷ [])) }
        ensures unchanged { OnErr result (told_by self.new ≡ told_by self.old) }
        ensures setting { setting_of self.new ≡ setting_of self.old }
    {
        self.recording.reserve(1, 0, most_items(step))?;
        self.recording.step(step);
        Ok(())
    }

    /// Begins a run of the driver, while none is open. Before the access with number k, counted from 0, it makes the
    /// steps of the group with number k, while a group is left. There is room for so many accesses and bytes of pieces
    /// of memory.
    ///
    /// # Errors
    /// Want of memory. Nothing happened then.
    pub fn begin(&mut self, groups: &[Group], accesses: u32, bytes: u32) -> Result<(), AllocError>
        requires { (setting_of self.old).in_run ≡ false }
        ensures told { OnOk result (Between (λ old new. Accessed old new Begin) (told_by self.old) (told_by self.new)) }
        ensures went { OnOk result (Went (telling_of self.old) (telling_of self.new) (Begin ∷ [])) }
        ensures setting { OnOk result (setting_of self.new ≡ record {
          machine = (setting_of self.old).machine;
          kind = (setting_of self.old).kind;
          given = (setting_of self.old).given;
          in_run = true;
          begun = length (telling_of self.old).journal;
          groups = groups.now;
        }) }
        ensures accesses { OnOk result (⟦<Rig as Platform>⟧.spare_accesses self.new ≡ accesses) }
        ensures bytes { OnOk result (⟦<Rig as Platform>⟧.spare_bytes self.new ≡ bytes) }
        ensures unchanged { OnErr result (told_by self.new ≡ told_by self.old) }
        ensures same_setting { OnErr result (setting_of self.new ≡ setting_of self.old) }
    {
        let copies = copied(self.groups.allocator(), groups)?;
        let Some(room) = room_for(groups, accesses) else {
            return Err(AllocError);
        };
        self.recording
            .reserve(room.entries, bytes as usize, room.items)?;
        self.begun = self.recording.entry_count();
        self.recording.begin();
        self.in_run = true;
        self.groups = copies;
        self.made = 0;
        self.spare_accesses = accesses;
        self.spare_bytes = bytes;
        Ok(())
    }

    /// Ends the run that is open: the steps of the groups that no access took are made last.
    pub fn end(&mut self)
        requires { (setting_of self.old).in_run ≡ true }
        ensures told { Between (λ old new. Accessed old new End) (told_by self.old) (told_by self.new) }
        ensures stretch { IsStretchFrom (setting_of self.old).begun (setting_of self.old).groups
            (telling_of self.new).journal }
        ensures setting { setting_of self.new ≡ record (setting_of self.old) { in_run = false } }
    {
        let left = groups_left(self.groups.as_slice(), self.made as usize);
        pass_all(&mut self.recording, left);
        self.recording.end();
        self.in_run = false;
        self.spare_accesses = 0;
        self.spare_bytes = 0;
    }
}

/// The groups from this number on.
fn groups_left(groups: &[Group], made: usize) -> &[Group]
    ensures { result.now ≡ drop made groups.now }
{
    if made < groups.len() {
        &groups[made..]
    } else {
        &[]
    }
}
