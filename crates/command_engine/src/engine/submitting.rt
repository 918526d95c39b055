//! How a command is submitted.
ghost use Rattle.std.specs.Prelude.{◌≡◌, ◌≤◌, ◌+◌, true, None};
ghost use Rattle.verb_codes.specs.Verbs.{IsInRange, word_of};
ghost use Rattle.hda_world.specs.Tellings.{Between, Makes};
ghost use Rattle.command_engine.specs.Submitting as spec;
ghost use Rattle.command_engine.specs.Told as told;
ghost use Rattle.command_engine.specs.declared.room.TheConstants.{SUBMIT_ACCESSES, SUBMIT_BYTES};

use super::Engine;
use crate::answers::Outstanding;
use crate::memory::write_command;
use crate::ring_places::{command_place, rings_submitted};
use hda_platform::Platform;
use hda_registers::{Width, places};
use verb_codes::{Command, encode};

impl Engine {
    /// Submits a command at this clock: writes its word to the next entry of CORB, from 1 on, and moves CORB's write
    /// pointer there (HDA 1.0a, 4.4.1).
    ///
    /// On a platform that tells, where the engine stood to the world as a start or a poll left it, the command is the
    /// only one that codecs can take from then on, and its answer the only one that can come.
    #[tactic(auto, using(hda_world::proofs::Callers::rows))]
    pub fn submit<P: Platform>(&mut self, platform: &mut P, command: Command, clock: u32)
        requires started { self.old.rings.started ≡ true }
        requires idle { self.old.rings.outstanding ≡ None }
        requires in_range { IsInRange command }
        requires room { SUBMIT_ACCESSES ≤ P.spare_accesses platform.old }
        requires bytes_room { SUBMIT_BYTES ≤ P.spare_bytes platform.old }
        ensures made { Between (Makes (spec.submit_accesses self.old.corb.address self.old.rings (word_of command)))
            (P.told platform.old) (P.told platform.new) }
        ensures rings { self.new.rings ≡ spec.rings_submitted self.old.rings
            (record { codec = command.codec; word = word_of command; issued = clock }) }
        ensures tells { Between (told.LeadsOn self.old.corb.address self.old.rirb.address self.old.rings self.new.rings)
            (P.told platform.old) (P.told platform.new) }
        ensures corb { self.new.corb ≡ self.old.corb }
        ensures rirb { self.new.rirb ≡ self.old.rirb }
        ensures events { self.new.events ≡ self.old.events }
        ensures fixed { P.fixed platform.new ≡ P.fixed platform.old }
        ensures accesses { P.spare_accesses platform.new + SUBMIT_ACCESSES ≡ P.spare_accesses platform.old }
        ensures bytes { P.spare_bytes platform.new + SUBMIT_BYTES ≡ P.spare_bytes platform.old }
    {
        let word = encode(&command);
        let place = command_place(self.rings);
        write_command(platform, &mut self.corb, place, word);
        platform.write(places::CORBWP, Width::Two, u32::from(place));
        let outstanding = Outstanding {
            codec: command.codec,
            word,
            issued: clock,
        };
        self.rings = rings_submitted(self.rings, outstanding);
    }
}
