//! How the stream plays on.
ghost use Rattle.std.specs.Prelude.{◌≡◌, ◌≤◌, ◌<◌, ◌+◌, true, [], ◌∷◌, length};
ghost use Rattle.hda_registers.specs.declared.shapes.Width.TheVariants.{One};
ghost use Rattle.hda_world.specs.Events.{Write};
ghost use Rattle.hda_world.specs.Tellings.{Between, Makes};
ghost use Rattle.wav_reader.specs.Supplies.{Suffices, IsTaken};
ghost use Rattle.period_writer.specs.Playing.{stop_accesses};
ghost use Rattle.period_writer.specs.Accounts.{Accounts};
ghost use Rattle.period_writer.specs.Writers.{IsWriter, KeepsRing, measures_of, ring_size};
ghost use Rattle.period_writer.specs.Calls as calls;
ghost use Rattle.period_writer.specs.declared.room.TheConstants.{RUN_ACCESSES, TURN_ACCESSES};

use super::Writer;
use crate::course::Ran;
use crate::registers::{CONTROL, POSITION, STOP};
use crate::turns::Facts;
use hda_platform::Platform;
use hda_registers::{Width, places};
use wav_reader::Supply;

/// Stops the stream, where a run ended so.
#[tactic(auto, using(hda_world::proofs::Callers::rows))]
fn stop_if<P: Platform>(platform: &mut P, ran: Ran)
    requires { 1 ≤ P.spare_accesses platform.old }
    ensures made { Between (Makes (stop_accesses ran)) (P.told platform.old) (P.told platform.new) }
    ensures fixed { P.fixed platform.new ≡ P.fixed platform.old }
    ensures accesses { P.spare_accesses platform.old ≤ P.spare_accesses platform.new + 1 }
    ensures bytes { P.spare_bytes platform.new ≡ P.spare_bytes platform.old }
{
    match ran {
        Ran::Playing => {}
        Ran::Drained | Ran::Late { .. } => platform.write(CONTROL, Width::One, STOP),
    }
}

impl Writer {
    /// A later run, which may write so many bytes of sound: reads where the link is, and makes the line longer up to
    /// one ring ahead of that, by sound and then silence. Where the line ends in silence, sound takes its place from a
    /// position past the link on that the device can't fetch while the run is in time. This project's own.
    ///
    /// `Late` exactly where more than the geometry's limit of link frames passed between the clock that the run before
    /// read first and the one that this run reads last; or where it takes silence back and more than the geometry's
    /// slack of link frames passed between the two clocks that it reads itself. The answer has these clocks, in ticks
    /// of 1/24,000,000 s, and the number of link frames that was not kept, the limit where neither was. The run is not
    /// recorded then. Else `Drained` exactly where no sound is left and the link is past the last of it. In both cases
    /// the stream is stopped.
    ///
    /// On a platform that tells, where the writer plays, the supply is that of the first run, and WALCLK has not
    /// wrapped: at each moment until the stop all that the device fetched below the last recorded reach is the line of
    /// the runs so far, this one included unless it is late. That reach is the line's end, and where a late run took
    /// silence back the place up to which it left the line. The run writes only to places of positions that were
    /// fetched, and of silence that it takes back; while it is in time the device fetches none of that. After `Playing`
    /// the writer plays on with the longer line; after `Drained` all sound was sent, and what was fetched past the line
    /// is silence.
    pub fn run<P: Platform>(&mut self, platform: &mut P, supply: &mut Supply, budget: u32) -> Ran
        requires started { self.old.course.started ≡ true }
        requires playing { self.old.course.ran ≡ Ran.Playing }
        requires enough { Suffices (ring_size self.old) budget supply.old }
        requires free { length self.old.runs < self.old.records }
        requires room { RUN_ACCESSES + self.old.geometry.periods ≤ P.spare_accesses platform.old }
        requires bytes_room { ring_size self.old ≤ P.spare_bytes platform.old }
        ensures plays { calls.PlaysAny budget self.old self.new supply.old supply.new result
            (P.told platform.old) (P.told platform.new) }
        ensures taken { IsTaken supply.old supply.new }
        ensures accounts { Accounts (measures_of self.old) supply.old supply.new self.old.course self.new.course }
        ensures few { length self.new.runs ≤ length self.old.runs + 1 }
        ensures on { self.new.course.started ≡ true }
        ensures tells { calls.RunTellsAny budget self.old self.new supply.old supply.new result
            (P.told platform.old) (P.told platform.new) }
        ensures keeps { KeepsRing self.old self.new }
        ensures fixed { P.fixed platform.new ≡ P.fixed platform.old }
        ensures accesses { P.spare_accesses platform.old
            ≤ P.spare_accesses platform.new + (RUN_ACCESSES + self.old.geometry.periods) }
        ensures bytes { P.spare_bytes platform.old ≤ P.spare_bytes platform.new + ring_size self.old }
    {
        let ran = self.take_turn(platform, supply, budget);
        stop_if(platform, ran);
        ran
    }

    /// The last run, which writes no sound: it reads where the link is and makes the line longer by silence as
    /// [`Writer::run`] does with a budget of 0, but stops the stream whatever it finds. It takes no silence back. For a
    /// driver that is closed while it plays. This project's own.
    ///
    /// `Late` exactly where more than the geometry's limit of link frames passed between the clock that the run before
    /// read first and the one that this run reads last. Then it is not recorded. Else `Drained` exactly where no sound
    /// is left and the link is past the last of it, and `Playing` where there was more to play. The sound that is left
    /// stays as it is.
    ///
    /// On a platform that tells, where the writer plays, the supply is that of the first run, and WALCLK has not
    /// wrapped: at each moment up to the stop all that the device fetched below the last recorded reach is the line of
    /// the runs so far, this one included unless it is late; the run writes only to places of positions that were
    /// fetched. After the stop what was fetched is the line up to the last recorded reach; after `Drained` all sound
    /// was sent, and what was fetched past the line is silence.
    pub fn finish<P: Platform>(&mut self, platform: &mut P, supply: &mut Supply) -> Ran
        requires started { self.old.course.started ≡ true }
        requires playing { self.old.course.ran ≡ Ran.Playing }
        requires free { length self.old.runs < self.old.records }
        requires room { RUN_ACCESSES + self.old.geometry.periods ≤ P.spare_accesses platform.old }
        requires bytes_room { ring_size self.old ≤ P.spare_bytes platform.old }
        ensures finishes { calls.FinishesAny self.old self.new supply.old result
            (P.told platform.old) (P.told platform.new) }
        ensures tells { calls.FinishTellsAny self.old self.new supply.old result
            (P.told platform.old) (P.told platform.new) }
        ensures supply { supply.new ≡ supply.old }
        ensures grows { self.old.course.used ≤ self.new.course.used }
        ensures keeps { KeepsRing self.old self.new }
        ensures fixed { P.fixed platform.new ≡ P.fixed platform.old }
        ensures accesses { P.spare_accesses platform.old
            ≤ P.spare_accesses platform.new + (RUN_ACCESSES + self.old.geometry.periods) }
        ensures bytes { P.spare_bytes platform.old ≤ P.spare_bytes platform.new + ring_size self.old }
    {
        let ran = self.take_turn(platform, supply, 0);
        platform.write(CONTROL, Width::One, STOP);
        ran
    }

    /// Stops the stream at once, by one write of CTL (HDA 1.0a, 3.3.35): no run is made and nothing is recorded. For a
    /// driver that gives up while it plays. This project's own.
    ///
    /// On a platform that tells, where the writer plays: the stream is stopped without an error, and what was fetched is
    /// the line up to the last recorded reach.
    pub fn stop<P: Platform>(&mut self, platform: &mut P)
        requires { 1 ≤ P.spare_accesses platform.old }
        ensures made { Between (Makes (Write CONTROL One 0 ∷ [])) (P.told platform.old) (P.told platform.new) }
        ensures same { self.new ≡ self.old }
        ensures fixed { P.fixed platform.new ≡ P.fixed platform.old }
        ensures accesses { P.spare_accesses platform.new + 1 ≡ P.spare_accesses platform.old }
        ensures bytes { P.spare_bytes platform.new ≡ P.spare_bytes platform.old }
    {
        platform.write(CONTROL, Width::One, STOP);
    }

    /// A run up to its stop.
    fn take_turn<P: Platform>(&mut self, platform: &mut P, supply: &mut Supply, budget: u32) -> Ran
        requires started { self.old.course.started ≡ true }
        requires playing { self.old.course.ran ≡ Ran.Playing }
        requires enough { Suffices (ring_size self.old) budget supply.old }
        requires free { length self.old.runs < self.old.records }
        requires room { TURN_ACCESSES + self.old.geometry.periods ≤ P.spare_accesses platform.old }
        requires bytes_room { ring_size self.old ≤ P.spare_bytes platform.old }
        ensures turn { calls.TakesAnyTurn budget self.old self.new supply.old supply.new result
            (P.told platform.old) (P.told platform.new) }
        ensures taken { IsTaken supply.old supply.new }
        ensures accounts { Accounts (measures_of self.old) supply.old supply.new self.old.course self.new.course }
        ensures none { budget ≡ 0 → supply.new ≡ supply.old }
        ensures few { length self.new.runs ≤ length self.old.runs + 1 }
        ensures on { self.new.course.started ≡ true }
        ensures keeps { KeepsRing self.old self.new }
        ensures writer { IsWriter self.old }
        ensures fixed { P.fixed platform.new ≡ P.fixed platform.old }
        ensures accesses { P.spare_accesses platform.old
            ≤ P.spare_accesses platform.new + (TURN_ACCESSES + self.old.geometry.periods) }
        ensures bytes { P.spare_bytes platform.old ≤ P.spare_bytes platform.new + ring_size self.old }
    {
        let from = platform.read(places::WALCLK, Width::Four);
        let lpib = platform.read(POSITION, Width::Four);
        let facts = Facts {
            budget,
            left: supply.left(),
            from,
            lpib,
        };
        let turn = self.next_turn(facts);
        self.write_turn(platform, supply, turn);
        let to = platform.read(places::WALCLK, Width::Four);
        self.conclude(turn, facts, to)
    }
}
