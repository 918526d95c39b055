//! A machine in motion whose journal is kept.
ghost use Rattle.std.specs.Prelude.{◌≡◌, ◌≤◌, ◌+◌, [], ◌∷◌, IfOk, OnOk, ℕ, length, map, All};
ghost use Rattle.hda_world.specs.declared.world.TheConstants.{REGION_BYTES};
ghost use Rattle.hda_world.specs.Events.{AreHonest, Stepped, Begin, End, Read, Write, DmaRead, DmaWrite};
ghost use Rattle.hda_world.specs.JournalEvents.{events_of};
ghost use Rattle.hda_files.specs.Machines.{IsSound};
ghost use Rattle.heard_lists.specs.Listings.{AreListsAs, graphs_in};
ghost use Rattle.hda_controller.specs.Hearing.{most_items};
ghost use Rattle.rig.specs.Replays.{zeros, start_given};
ghost use Rattle.rig.specs.Recordings.{IsWhere, HasRoomFor, items_for};
ghost use Rattle.rig.specs.Honesty.{AreHonest-prop};

mod accesses;

use codec_graph::PinKind;
use hda_controller::Controller;
use hda_files::Machine;
use hda_world::{Journal, REGION_BYTES, Step};
use heard_lists::HeardLists;
use std::alloc::{AllocError, Global};

/// A machine in motion, what its pins hear, and the journal of all that happened since its start. It is where its
/// journal leads.
#[derive(Drop)]
pub(crate) struct Recording {
    pub(crate) machine: Machine,
    /// For which of its pins there are lists.
    pub(crate) kind: PinKind,
    memory: Vec<u8>,
    controller: Controller,
    pub(crate) heard: HeardLists,
    /// Of each block that came to the input stream since its RUN rose whether it was taken.
    pub(crate) came: Vec<bool>,
    pub(crate) journal: Journal,
    pub ghost whole: { length memory.items ≡ REGION_BYTES },
    pub ghost honest: { AreHonest (events_of journal)
        (start_given REGION_BYTES machine controller.device.input.given) } by { AreHonest-prop _ _ },
    pub ghost stands: { ∥ IsWhere kind (start_given REGION_BYTES machine controller.device.input.given)
        (events_of journal) memory.items controller heard came.items ∥₁ },
    pub ghost pins: { ∥ AreListsAs kind (graphs_in machine.codecs) heard ∥₁ },
}

impl Recording {
    ghost use Rattle.std.specs.Prelude.{◌≡◌, ◌≤◌, ◌+◌, [], ◌∷◌, IfOk, OnOk, ℕ, length, map};
    ghost use Rattle.hda_world.specs.declared.world.TheConstants.{REGION_BYTES};
    ghost use Rattle.hda_world.specs.Events.{Stepped, Begin, End};
    ghost use Rattle.hda_world.specs.Tellings.{Went};
    ghost use Rattle.hda_world.specs.JournalEvents.{events_of};
    ghost use Rattle.hda_files.specs.Machines.{IsSound};
    ghost use Rattle.hda_controller.specs.Hearing.{most_items};
    ghost use Rattle.rig.specs.Recordings.{HasRoomFor, items_for};
    ghost use Rattle.rig.specs.Replays.{telling_given};
    ghost use Rattle.rig.specs.Rigs.{told_of, sound_given};

    /// A machine at its start: memory of zeros, the controller in reset, nothing heard and an empty journal.
    ///
    /// # Errors
    /// Want of memory.
    pub(crate) fn new(
        alloc: Global,
        kind: PinKind,
        machine: Machine,
    ) -> Result<Recording, AllocError>
        requires { IsSound machine }
        ensures machine { IfOk result (λ recording. recording.machine ≡ machine) }
        ensures kind { IfOk result (λ recording. recording.kind ≡ kind) }
        ensures journal { IfOk result (λ recording. events_of recording.journal ≡ []) }
        ensures sound { IfOk result (λ recording. sound_given recording ≡ []) }
    {
        let controller = Controller::of_kind(alloc, kind, &machine)?;
        let heard = HeardLists::of_kind(alloc, kind, &machine)?;
        Ok(Recording {
            machine,
            kind,
            memory: zeroed(alloc, REGION_BYTES)?,
            controller,
            heard,
            came: Vec::new(alloc),
            journal: Journal::new(alloc),
        })
    }

    /// Makes room for so many more entries, bytes of pieces of memory, items in each heard list and marks of blocks, and
    /// for as many marks of pins as entries.
    ///
    /// # Errors
    /// Want of memory. Nothing is told anew then.
    pub(crate) fn reserve(
        &mut self,
        entries: usize,
        bytes: usize,
        items: u64,
    ) -> Result<(), AllocError>
        ensures room { OnOk result (HasRoomFor entries bytes items self.new.journal self.new.heard self.new.came) }
        ensures told { told_of self.new ≡ told_of self.old }
        ensures machine { self.new.machine ≡ self.old.machine }
        ensures kind { self.new.kind ≡ self.old.kind }
        ensures sound { sound_given self.new ≡ sound_given self.old }
    {
        self.journal.reserve(entries, bytes)?;
        self.came.reserve(items as usize)?;
        self.heard.reserve(items, entries as u64)
    }

    /// Gives all input pins this sound, before anything happened.
    pub(crate) fn give(&mut self, sound: Vec<u8>)
        requires { events_of self.old.journal ≡ [] }
        ensures told { told_of self.new ≡ telling_given REGION_BYTES self.old.machine sound.items [] }
        ensures machine { self.new.machine ≡ self.old.machine }
        ensures kind { self.new.kind ≡ self.old.kind }
        ensures sound { sound_given self.new ≡ sound.items }
        ensures journal { self.new.journal ≡ self.old.journal }
        ensures heard { self.new.heard ≡ self.old.heard }
        ensures came { self.new.came ≡ self.old.came }
    {
        self.controller.give(sound);
    }

    /// How many entries its journal has.
    pub(crate) fn entry_count(&self) -> usize
        ensures { result ≡ length (events_of self.now.journal) }
    {
        self.journal.len()
    }

    /// Makes a step and notes it.
    pub(crate) fn step(&mut self, step: &Step)
        requires { HasRoomFor 1 0 (most_items step.now) self.old.journal self.old.heard self.old.came }
        ensures told { Went (told_of self.old) (told_of self.new) (Stepped step.now ∷ []) }
        ensures machine { self.new.machine ≡ self.old.machine }
        ensures kind { self.new.kind ≡ self.old.kind }
        ensures sound { sound_given self.new ≡ sound_given self.old }
        ensures room { (entries bytes items : ℕ) → HasRoomFor (1 + entries) bytes (most_items step.now + items)
            self.old.journal self.old.heard self.old.came
            → HasRoomFor entries bytes items self.new.journal self.new.heard self.new.came }
    {
        self.controller.step(
            self.memory.as_mut_slice(),
            step,
            &mut self.heard,
            &mut self.came,
        );
        self.journal.note_step(*step);
    }

    /// Makes some steps in turn and notes them.
    pub(crate) fn make_steps(&mut self, steps: &[Step])
        requires { HasRoomFor (length steps.now) 0 (items_for steps.now) self.old.journal self.old.heard self.old.came }
        ensures told { Went (told_of self.old) (told_of self.new) (map Stepped steps.now) }
        ensures machine { self.new.machine ≡ self.old.machine }
        ensures kind { self.new.kind ≡ self.old.kind }
        ensures sound { sound_given self.new ≡ sound_given self.old }
        ensures room { (entries bytes items : ℕ)
            → HasRoomFor (length steps.now + entries) bytes (items_for steps.now + items) self.old.journal
            self.old.heard self.old.came
            → HasRoomFor entries bytes items self.new.journal self.new.heard self.new.came }
    {
        for step in steps {
            self.step(step);
        }
    }

    /// Notes that a run of the driver begins.
    pub(crate) fn begin(&mut self)
        requires { HasRoomFor 1 0 0 self.old.journal self.old.heard self.old.came }
        ensures told { Went (told_of self.old) (told_of self.new) (Begin ∷ []) }
        ensures machine { self.new.machine ≡ self.old.machine }
        ensures kind { self.new.kind ≡ self.old.kind }
        ensures sound { sound_given self.new ≡ sound_given self.old }
        ensures room { (entries bytes items : ℕ) → HasRoomFor (1 + entries) bytes items self.old.journal self.old.heard
            self.old.came
            → HasRoomFor entries bytes items self.new.journal self.new.heard self.new.came }
    {
        self.journal.note_begin();
    }

    /// Notes that it ends.
    pub(crate) fn end(&mut self)
        requires { HasRoomFor 1 0 0 self.old.journal self.old.heard self.old.came }
        ensures told { Went (told_of self.old) (told_of self.new) (End ∷ []) }
        ensures machine { self.new.machine ≡ self.old.machine }
        ensures kind { self.new.kind ≡ self.old.kind }
        ensures sound { sound_given self.new ≡ sound_given self.old }
        ensures room { (entries bytes items : ℕ) → HasRoomFor (1 + entries) bytes items self.old.journal self.old.heard
            self.old.came
            → HasRoomFor entries bytes items self.new.journal self.new.heard self.new.came }
    {
        self.journal.note_end();
    }

    /// The machine, what its pins heard, and the journal.
    pub(crate) fn into_parts(self) -> (Machine, HeardLists, Journal)
        ensures machine { result.0 ≡ self.machine }
        ensures heard { result.1 ≡ self.heard }
        ensures journal { result.2 ≡ self.journal }
    {
        let Recording {
            machine,
            kind: _,
            memory: _,
            controller: _,
            heard,
            came: _,
            journal,
        } = self;
        (machine, heard, journal)
    }
}

/// So many bytes that are 0.
fn zeroed(alloc: Global, size: usize) -> Result<Vec<u8>, AllocError>
    ensures items { IfOk result (λ bytes. bytes.items ≡ zeros size) }
    ensures length { IfOk result (λ bytes. length bytes.items ≡ size) }
{
    vec![in alloc; 0; size]
}
