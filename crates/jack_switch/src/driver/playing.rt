//! How a driver that switches plays.
ghost use Rattle.std.specs.Prelude.{◌≡◌, ◌≤◌, ◌<◌, ◌+◌, ℕ, nat_lt, true, false};
ghost use Rattle.wav_reader.specs.Supplies.{IsTaken};
ghost use Rattle.period_writer.specs.Accounts.{Accounts};
ghost use Rattle.period_writer.specs.Writers.{IsWriter, ring_size, measures_of};
ghost use Rattle.driver_progress.specs.declared.phase.Phase.TheVariants as phases;
ghost use Rattle.audio_driver.specs.Calls.{SufficesIfOpen};
ghost use Rattle.audio_driver.specs.declared.room.TheConstants.{ROOM_ACCESSES, ROOM_BYTES};
ghost use Rattle.jack_switch.specs.declared.room.TheConstants.{SWITCH_ACCESSES, SWITCH_BYTES};
ghost use Rattle.jack_switch.specs.declared.room.TheConstants.{SWITCH_INTERRUPT_ACCESSES};
ghost use Rattle.jack_switch.specs.JackDrivers as spec;
ghost use Rattle.jack_switch.specs.JackCalls.{SwitchesAny, IsUnanswered};

use super::JackDriver;
use super::turns::phase_of;
use driver_progress::{Phase, has_interrupt};
use hda_platform::Platform;

impl JackDriver {
    /// How far it has come: `Ready` before its first run, `Playing` while it plays, `Drained` where all sound was
    /// played, `Late` where a run was late, and `Unanswered` where it gave up.
    pub fn phase(&self) -> Phase
        ensures value { result ≡ spec.phase_of self.now }
        ensures driver { spec.IsJackDriver self.now }
        ensures writer { IsWriter self.now.writer }
    {
        phase_of(&self.engine, &self.writer, self.given_up)
    }

    /// Whether there may be one call more.
    pub fn has_call_left(&self) -> bool
        ensures value { result ≡ nat_lt self.now.calls self.now.runs }
        ensures driver { spec.IsJackDriver self.now }
    {
        self.calls < self.runs
    }

    /// One call: the first sets the stream going, and each later one makes the line longer, until a run is late or all
    /// sound was played. Each may write as many bytes of sound as the budget says. Before a later run it looks for what
    /// codecs sent, and after a run it submits the next command of the rules, where none is outstanding. Where that
    /// look finds that the outstanding command was not answered in its time, it stops the stream and gives up. Once it
    /// is over no access is made. It takes no memory. It answers how far it has come.
    pub fn run<P: Platform>(&mut self, platform: &mut P, budget: u32) -> Phase
        requires enough { SufficesIfOpen budget self.old.writer self.old.supply }
        requires few { self.old.calls < self.old.runs }
        requires room { ROOM_ACCESSES ≤ P.spare_accesses platform.old }
        requires bytes_room { ring_size self.old.writer + ROOM_BYTES ≤ P.spare_bytes platform.old }
        ensures switches { SwitchesAny false budget self.old self.new (P.told platform.old) (P.told platform.new) }
        ensures taken { IsTaken self.old.supply self.new.supply }
        ensures accounts { Accounts (measures_of self.old.writer) self.old.supply self.new.supply
            self.old.writer.course self.new.writer.course }
        ensures phase { result ≡ spec.phase_of self.new }
        ensures unanswered { (codec command issued noticed : ℕ)
            → result ≡ phases.Unanswered codec command issued noticed
            → IsUnanswered self.new codec command issued noticed }
        ensures keeps { spec.KeepsJackDriver self.old self.new }
        ensures calls { self.new.calls ≡ self.old.calls + 1 }
        ensures fixed { P.fixed platform.new ≡ P.fixed platform.old }
        ensures accesses { P.spare_accesses platform.old ≤ P.spare_accesses platform.new + SWITCH_ACCESSES }
        ensures bytes { P.spare_bytes platform.old ≤ P.spare_bytes
            platform.new + (ring_size self.old.writer + SWITCH_BYTES) }
    {
        self.calls += 1;
        if !self.is_on() {
            return self.phase();
        }
        self.play_on(platform, budget);
        self.phase()
    }

    /// One call for an interrupt: where there is one, what [`JackDriver::run`] does; else nothing but the look for it.
    /// Once it is over interrupts are not looked for.
    pub fn irq<P: Platform>(&mut self, platform: &mut P, budget: u32) -> Phase
        requires enough { SufficesIfOpen budget self.old.writer self.old.supply }
        requires few { self.old.calls < self.old.runs }
        requires room { ROOM_ACCESSES ≤ P.spare_accesses platform.old }
        requires bytes_room { ring_size self.old.writer + ROOM_BYTES ≤ P.spare_bytes platform.old }
        ensures switches { SwitchesAny true budget self.old self.new (P.told platform.old) (P.told platform.new) }
        ensures taken { IsTaken self.old.supply self.new.supply }
        ensures accounts { Accounts (measures_of self.old.writer) self.old.supply self.new.supply
            self.old.writer.course self.new.writer.course }
        ensures phase { result ≡ spec.phase_of self.new }
        ensures unanswered { (codec command issued noticed : ℕ)
            → result ≡ phases.Unanswered codec command issued noticed
            → IsUnanswered self.new codec command issued noticed }
        ensures keeps { spec.KeepsJackDriver self.old self.new }
        ensures calls { self.new.calls ≡ self.old.calls + 1 }
        ensures fixed { P.fixed platform.new ≡ P.fixed platform.old }
        ensures accesses { P.spare_accesses platform.old ≤ P.spare_accesses platform.new + SWITCH_INTERRUPT_ACCESSES }
        ensures bytes { P.spare_bytes platform.old ≤ P.spare_bytes
            platform.new + (ring_size self.old.writer + SWITCH_BYTES) }
    {
        self.calls += 1;
        if !self.is_on() {
            return self.phase();
        }
        if !has_interrupt(platform) {
            return self.phase();
        }
        self.play_on(platform, budget);
        self.phase()
    }
}
