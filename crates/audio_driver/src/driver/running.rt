//! Calls of a driver.
ghost use Rattle.std.specs.Prelude.{◌≡◌, ◌≢◌, ◌≤◌, ◌<◌, ◌+◌, true, false, nat_lt, IfOk, OnOk, OnErr};
ghost use Rattle.driver_progress.specs.declared.phase.Phase.TheVariants as phases;
ghost use Rattle.wav_reader.specs.Supplies.{IsTaken};
ghost use Rattle.period_writer.specs.Accounts.{Accounts};
ghost use Rattle.period_writer.specs.Writers.{measures_of, ring_size};
ghost use Rattle.driver_bring_up.specs.Calls as calls;
ghost use Rattle.audio_driver.specs.declared.room.TheConstants.{CALL_BYTES, PLAY_ACCESSES, PLAY_INTERRUPT_ACCESSES};
ghost use Rattle.audio_driver.specs.declared.room.TheConstants.{ROOM_ACCESSES, ROOM_BYTES};
ghost use Rattle.audio_driver.specs.States as states;
ghost use Rattle.audio_driver.specs.Drivers.{IsDriver, KeepsTerms};
ghost use Rattle.audio_driver.specs.Calls.{SufficesIfOpen, SoundsAny, LeadsBy, FailsBy};

use super::Driver;
use super::sounding::{phase_of, play_if_interrupted, play_on, plays_now};
use driver_progress::Phase;
use hda_platform::Platform;
use route_setup::Setter;
use std::alloc::AllocError;

impl<T: Setter> Driver<T> {
    /// One call: what is to be done next, by a few accesses. It answers how far the driver has come. Once all codecs
    /// are set up it plays, where it is to play: the first call sets the stream going and each later one makes the line
    /// longer, until a run is late or all sound was played. Each of them may write as many bytes of sound as the budget
    /// says. Once it is over no access is made, nor where nothing is to be played once all codecs are set up.
    ///
    /// # Errors
    /// Want of memory, in the phases where codecs are found and answers come, and so in none from `Ready` on. Then it
    /// is over, in the phase `Failed`.
    pub fn run<P: Platform>(&mut self, platform: &mut P, budget: u32) -> Result<Phase, AllocError>
        requires enough { states.plays_now self.old.play self.old.bring_up ≡ true
            → SufficesIfOpen budget self.old.writer self.old.supply }
        requires few { self.old.calls < self.old.runs }
        requires room { ROOM_ACCESSES ≤ P.spare_accesses platform.old }
        requires bytes_room { ring_size self.old.writer + ROOM_BYTES ≤ P.spare_bytes platform.old }
        ensures leads { states.plays_now self.old.play self.old.bring_up ≡ false
            → OnOk result (LeadsBy T.means false self.old self.new
            (P.told platform.old) (P.told platform.new)) }
        ensures sounds { states.plays_now self.old.play self.old.bring_up ≡ true
            → SoundsAny false budget self.old.bring_up self.new.bring_up self.old.writer self.new.writer
            self.old.supply self.new.supply (P.told platform.old) (P.told platform.new) }
        ensures taken { IsTaken self.old.supply self.new.supply }
        ensures accounts { Accounts (measures_of self.old.writer) self.old.supply self.new.supply
            self.old.writer.course self.new.writer.course }
        ensures phase { IfOk result (λ phase. phase ≡ states.phase_of self.new.bring_up self.new.writer) }
        ensures kept { calls.IsKept self.old.bring_up self.new.bring_up }
        ensures failed { OnErr result (self.new.bring_up.phase ≡ phases.Failed) }
        ensures unfailed { OnOk result (self.old.bring_up.phase ≢ phases.Failed
            → self.new.bring_up.phase ≢ phases.Failed) }
        ensures wanting { OnErr result (FailsBy T.means false self.old self.new (P.told platform.old)
            (P.told platform.new)) }
        ensures cause { OnErr result (calls.takes_memory (states.phase_of self.old.bring_up self.old.writer) ≡ true) }
        ensures writer { states.plays_now self.old.play self.old.bring_up ≡ false
            → self.new.writer ≡ self.old.writer }
        ensures supply { states.plays_now self.old.play self.old.bring_up ≡ false
            → self.new.supply ≡ self.old.supply }
        ensures keeps { KeepsTerms self.old self.new }
        ensures calls { self.new.calls ≡ self.old.calls + 1 }
        ensures fixed { P.fixed platform.new ≡ P.fixed platform.old }
        ensures accesses { P.spare_accesses platform.old ≤ P.spare_accesses platform.new + PLAY_ACCESSES }
        ensures bytes { P.spare_bytes platform.old ≤ P.spare_bytes
            platform.new + (ring_size self.old.writer + CALL_BYTES) }
    {
        self.calls += 1;
        if plays_now(self.play, &self.bring_up) {
            play_on(
                platform,
                &mut self.bring_up,
                &mut self.writer,
                &mut self.supply,
                budget,
            );
            return Ok(self.phase());
        }
        self.bring_up.run(platform, &self.setter)?;
        Ok(self.phase())
    }

    /// One call for an interrupt: where there is one, what [`Driver::run`] does; else nothing but the look for it. Once
    /// it is over interrupts are not looked for.
    ///
    /// # Errors
    /// Want of memory, in the phases where codecs are found and answers come, and so in none from `Ready` on. Then it
    /// is over, in the phase `Failed`.
    pub fn irq<P: Platform>(&mut self, platform: &mut P, budget: u32) -> Result<Phase, AllocError>
        requires enough { states.plays_now self.old.play self.old.bring_up ≡ true
            → SufficesIfOpen budget self.old.writer self.old.supply }
        requires few { self.old.calls < self.old.runs }
        requires room { ROOM_ACCESSES ≤ P.spare_accesses platform.old }
        requires bytes_room { ring_size self.old.writer + ROOM_BYTES ≤ P.spare_bytes platform.old }
        ensures leads { states.plays_now self.old.play self.old.bring_up ≡ false
            → OnOk result (LeadsBy T.means true self.old self.new
            (P.told platform.old) (P.told platform.new)) }
        ensures sounds { states.plays_now self.old.play self.old.bring_up ≡ true
            → SoundsAny true budget self.old.bring_up self.new.bring_up self.old.writer self.new.writer
            self.old.supply self.new.supply (P.told platform.old) (P.told platform.new) }
        ensures taken { IsTaken self.old.supply self.new.supply }
        ensures accounts { Accounts (measures_of self.old.writer) self.old.supply self.new.supply
            self.old.writer.course self.new.writer.course }
        ensures phase { IfOk result (λ phase. phase ≡ states.phase_of self.new.bring_up self.new.writer) }
        ensures kept { calls.IsKept self.old.bring_up self.new.bring_up }
        ensures failed { OnErr result (self.new.bring_up.phase ≡ phases.Failed) }
        ensures unfailed { OnOk result (self.old.bring_up.phase ≢ phases.Failed
            → self.new.bring_up.phase ≢ phases.Failed) }
        ensures wanting { OnErr result (FailsBy T.means true self.old self.new (P.told platform.old)
            (P.told platform.new)) }
        ensures cause { OnErr result (calls.takes_memory (states.phase_of self.old.bring_up self.old.writer) ≡ true) }
        ensures writer { states.plays_now self.old.play self.old.bring_up ≡ false
            → self.new.writer ≡ self.old.writer }
        ensures supply { states.plays_now self.old.play self.old.bring_up ≡ false
            → self.new.supply ≡ self.old.supply }
        ensures keeps { KeepsTerms self.old self.new }
        ensures calls { self.new.calls ≡ self.old.calls + 1 }
        ensures fixed { P.fixed platform.new ≡ P.fixed platform.old }
        ensures accesses { P.spare_accesses platform.old ≤ P.spare_accesses platform.new + PLAY_INTERRUPT_ACCESSES }
        ensures bytes { P.spare_bytes platform.old ≤ P.spare_bytes
            platform.new + (ring_size self.old.writer + CALL_BYTES) }
    {
        self.calls += 1;
        if plays_now(self.play, &self.bring_up) {
            play_if_interrupted(
                platform,
                &mut self.bring_up,
                &mut self.writer,
                &mut self.supply,
                budget,
            );
            return Ok(self.phase());
        }
        self.bring_up.irq(platform, &self.setter)?;
        Ok(self.phase())
    }

    /// How far it has come.
    pub fn phase(&self) -> Phase
        ensures { result ≡ states.phase_of self.now.bring_up self.now.writer }
    {
        phase_of(&self.bring_up, &self.writer)
    }

    /// Whether there may be one call more.
    pub fn has_call_left(&self) -> bool
        ensures value { result ≡ nat_lt self.now.calls self.now.runs }
        ensures driver { IsDriver self.now.bring_up self.now.writer self.now.pool
            self.now.play self.now.runs self.now.calls }
    {
        self.calls < self.runs
    }
}
