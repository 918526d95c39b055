//! What a rig has.
ghost use Rattle.std.specs.Prelude.{◌≡◌, true, IfOk};
ghost use Rattle.heard_frames.specs.HeardLists.{heard_as};
ghost use Rattle.heard_frames.specs.Marks.{marks_of_as};
ghost use Rattle.hda_world.specs.JournalEvents.{events_of};
ghost use Rattle.hda_world.specs.Tellings.{world_of};
ghost use Rattle.heard_lists.specs.Listings.{AreListsAs, graphs_in};
ghost use Rattle.hda_controller.specs.Controllers.{is_candidate_of_kind};
ghost use Rattle.hda_controller.specs.Openings.{codecs_in};
ghost use Rattle.rig.specs.Replays.{AreHeardInAs, AreMarkedInAs};
ghost use Rattle.rig.specs.Rigs.{telling_of, setting_of};

use crate::recording::Recording;
use crate::rig::Rig;
use hda_files::Machine;
use hda_world::Journal;
use heard_frames::{Heard, Mark};
use heard_lists::HeardLists;
use std::alloc::{AllocError, Global};

impl Rig {
    /// What a candidate pin of its kind, of the codec with this address, heard, oldest first, as a list of its own.
    ///
    /// # Errors
    /// Want of memory.
    pub fn heard(&self, alloc: Global, codec: u8, pin: u8) -> Result<Vec<Heard>, AllocError>
        requires { is_candidate_of_kind (setting_of self.now).kind (codecs_in (setting_of self.now).machine.codecs)
            codec pin ≡ true }
        ensures { IfOk result (λ items. items.items
            ≡ heard_as (setting_of self.now).kind codec pin (world_of (telling_of self.now)).carried) }
    {
        let items = self.recording.heard.of(alloc, codec, pin)?;
        Ok(items)
    }

    /// The marks of a candidate pin of its kind, of the codec with this address, oldest first, as a list of its own: one
    /// for each command that set its control while the output stream ran.
    ///
    /// # Errors
    /// Want of memory.
    pub fn marks(&self, alloc: Global, codec: u8, pin: u8) -> Result<Vec<Mark>, AllocError>
        requires { is_candidate_of_kind (setting_of self.now).kind (codecs_in (setting_of self.now).machine.codecs)
            codec pin ≡ true }
        ensures { IfOk result (λ marks. marks.items
            ≡ marks_of_as (setting_of self.now).kind codec pin (world_of (telling_of self.now)).commands
            (world_of (telling_of self.now)).carried) }
    {
        let marks = self.recording.heard.marks(alloc, codec, pin)?;
        Ok(marks)
    }

    /// Of each block that came to the input stream since its RUN rose, oldest first, whether it was taken.
    pub fn taken(&self) -> &[bool]
        ensures { result.now ≡ (world_of (telling_of self.now)).came }
    {
        self.recording.came.as_slice()
    }

    /// All that happened, oldest first.
    pub fn journal(&self) -> &Journal
        ensures { events_of result.now ≡ (telling_of self.now).journal }
    {
        &self.recording.journal
    }

    /// The machine as its file describes it.
    pub fn machine(&self) -> &Machine
        ensures { result.now ≡ (setting_of self.now).machine }
    {
        &self.recording.machine
    }

    /// The machine as its file describes it, what its pins heard with their marks, and all that happened.
    pub fn parts(self) -> (Machine, HeardLists, Journal)
        ensures machine { result.0 ≡ (setting_of self).machine }
        ensures heard { AreHeardInAs (setting_of self).kind (world_of (telling_of self)) result.1 }
        ensures marked { AreMarkedInAs (setting_of self).kind (world_of (telling_of self)) result.1 }
        ensures pins { ∥ AreListsAs (setting_of self).kind (graphs_in (setting_of self).machine.codecs) result.1 ∥₁ }
        ensures journal { events_of result.2 ≡ (telling_of self).journal }
    {
        let Rig {
            recording,
            in_run: _,
            begun: _,
            groups: _,
            made: _,
            spare_accesses: _,
            spare_bytes: _,
        } = self;
        recording.into_parts()
    }
}
