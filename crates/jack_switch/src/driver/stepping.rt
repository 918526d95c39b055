//! The runs of a driver that switches, as they follow one another.
ghost use Rattle.std.specs.Prelude.{◌≡◌, ◌⊎◌, ◌≤◌, ◌<◌, ◌+◌, length, true, false};
ghost use Rattle.wav_reader.specs.Supplies.{IsTaken, Suffices};
ghost use Rattle.period_writer.specs.Accounts.{Accounts};
ghost use Rattle.period_writer.specs.Writers.{ring_size, measures_of};
ghost use Rattle.jack_switch.specs.declared.room.TheConstants.{SWITCH_ACCESSES, SWITCH_BYTES};
ghost use Rattle.jack_switch.specs.JackDrivers as spec;
ghost use Rattle.jack_switch.specs.JackSteps.{BeginsNow, GoesOnNow, GivesUpNow, PlaysNow};

use super::JackDriver;
use super::turns::{is_open, submit_after};
use crate::looking::look;
use hda_platform::Platform;

impl JackDriver {
    /// Whether a run comes next: the stream plays or was not started yet, and the driver did not give up.
    pub(super) fn is_on(&self) -> bool
        ensures { result ≡ spec.is_on_now self.now }
    {
        is_open(&self.writer) && self.given_up.is_none()
    }

    /// The first run, and the next command.
    fn begin<P: Platform>(&mut self, platform: &mut P, budget: u32)
        requires fresh { self.old.writer.course.started ≡ false }
        requires enough { Suffices (ring_size self.old.writer) budget self.old.supply }
        requires free { length self.old.writer.runs < self.old.calls }
        requires room { SWITCH_ACCESSES ≤ P.spare_accesses platform.old }
        requires bytes_room { ring_size self.old.writer + SWITCH_BYTES ≤ P.spare_bytes platform.old }
        ensures begins { BeginsNow budget self.old self.new (P.told platform.old) (P.told platform.new) }
        ensures taken { IsTaken self.old.supply self.new.supply }
        ensures accounts { Accounts (measures_of self.old.writer) self.old.supply self.new.supply
            self.old.writer.course self.new.writer.course }
        ensures keeps { spec.KeepsJackDriver self.old self.new }
        ensures calls { self.new.calls ≡ self.old.calls }
        ensures fixed { P.fixed platform.new ≡ P.fixed platform.old }
        ensures accesses { P.spare_accesses platform.old ≤ P.spare_accesses platform.new + SWITCH_ACCESSES }
        ensures bytes { P.spare_bytes platform.old ≤ P.spare_bytes
            platform.new + (ring_size self.old.writer + SWITCH_BYTES) }
    {
        self.writer.start(platform, &mut self.supply, budget);
        self.clock = submit_after(
            platform,
            &mut self.engine,
            &mut self.switching,
            &self.writer,
        );
    }

    /// After a look a later run, and the next command; or after that look the stop, where the outstanding command was
    /// not answered in its time: then the driver gives up.
    fn go_on<P: Platform>(&mut self, platform: &mut P, budget: u32)
        requires started { self.old.writer.course.started ≡ true }
        requires on { spec.is_on_now self.old ≡ true }
        requires enough { Suffices (ring_size self.old.writer) budget self.old.supply }
        requires free { length self.old.writer.runs < self.old.calls }
        requires room { SWITCH_ACCESSES ≤ P.spare_accesses platform.old }
        requires bytes_room { ring_size self.old.writer + SWITCH_BYTES ≤ P.spare_bytes platform.old }
        ensures goes { GoesOnNow budget self.old self.new (P.told platform.old) (P.told platform.new)
            ⊎ GivesUpNow self.old self.new (P.told platform.old) (P.told platform.new) }
        ensures taken { IsTaken self.old.supply self.new.supply }
        ensures accounts { Accounts (measures_of self.old.writer) self.old.supply self.new.supply
            self.old.writer.course self.new.writer.course }
        ensures keeps { spec.KeepsJackDriver self.old self.new }
        ensures calls { self.new.calls ≡ self.old.calls }
        ensures fixed { P.fixed platform.new ≡ P.fixed platform.old }
        ensures accesses { P.spare_accesses platform.old ≤ P.spare_accesses platform.new + SWITCH_ACCESSES }
        ensures bytes { P.spare_bytes platform.old ≤ P.spare_bytes
            platform.new + (ring_size self.old.writer + SWITCH_BYTES) }
    {
        let clock = self.clock;
        let overdue = look(
            platform,
            &mut self.engine,
            &mut self.jacks,
            &mut self.switching,
            clock,
        );
        if overdue {
            self.writer.stop(platform);
            self.given_up = Some(clock);
            return;
        }
        let _ran = self.writer.run(platform, &mut self.supply, budget);
        self.clock = submit_after(
            platform,
            &mut self.engine,
            &mut self.switching,
            &self.writer,
        );
    }

    /// A call of a driver of which a run comes next.
    pub(super) fn play_on<P: Platform>(&mut self, platform: &mut P, budget: u32)
        requires on { spec.is_on_now self.old ≡ true }
        requires enough { Suffices (ring_size self.old.writer) budget self.old.supply }
        requires free { length self.old.writer.runs < self.old.calls }
        requires room { SWITCH_ACCESSES ≤ P.spare_accesses platform.old }
        requires bytes_room { ring_size self.old.writer + SWITCH_BYTES ≤ P.spare_bytes platform.old }
        ensures plays { PlaysNow budget self.old self.new (P.told platform.old) (P.told platform.new) }
        ensures taken { IsTaken self.old.supply self.new.supply }
        ensures accounts { Accounts (measures_of self.old.writer) self.old.supply self.new.supply
            self.old.writer.course self.new.writer.course }
        ensures keeps { spec.KeepsJackDriver self.old self.new }
        ensures calls { self.new.calls ≡ self.old.calls }
        ensures fixed { P.fixed platform.new ≡ P.fixed platform.old }
        ensures accesses { P.spare_accesses platform.old ≤ P.spare_accesses platform.new + SWITCH_ACCESSES }
        ensures bytes { P.spare_bytes platform.old ≤ P.spare_bytes
            platform.new + (ring_size self.old.writer + SWITCH_BYTES) }
    {
        if self.writer.course().started {
            self.go_on(platform, budget);
        } else {
            self.begin(platform, budget);
        }
    }
}
