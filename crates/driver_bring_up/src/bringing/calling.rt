//! Calls.
ghost use Rattle.std.specs.Prelude.{◌≡◌, ◌≢◌, ◌≤◌, ◌<◌, ◌+◌, ◌*◌, true, false, OnOk, OnErr};
ghost use Rattle.command_engine.specs.declared.room.TheConstants.{POLL_BYTES};
ghost use Rattle.driver_progress.specs.declared.room.TheConstants.{RESET_ACCESSES, SETTLE_ACCESSES};
ghost use Rattle.driver_progress.specs.declared.phase.Phase.TheVariants as phases;
ghost use Rattle.driver_progress.specs.Phases.{is_asking};
ghost use Rattle.driver_bring_up.specs.declared.room.TheConstants.{BRING_UP_ACCESSES, BRING_UP_BYTES};
ghost use Rattle.driver_bring_up.specs.declared.room.TheConstants.{BRING_UP_END_ACCESSES};
ghost use Rattle.driver_bring_up.specs.Calls as spec;
ghost use Rattle.driver_bring_up.specs.Told.{IsShut};
ghost use Rattle.driver_bring_up.specs.Failing.{FailsToSettle, Fails, FailsLast};

use super::BringUp;
use crate::addresses::addresses_in;
use crate::answering::look_for_answer;
use crate::answers::TAG;
use crate::submitting::submit_next;
use driver_agenda::Agenda;
use driver_progress::{Phase, Settled, reset, settle, shut};
use hda_platform::Platform;
use route_setup::Setter;
use std::alloc::AllocError;

impl BringUp {
    /// Resets the controller.
    pub(crate) fn reset<P: Platform>(&mut self, platform: &mut P)
        requires phase { self.old.phase ≡ phases.Reset }
        requires room { RESET_ACCESSES ≤ P.spare_accesses platform.old }
        ensures unfailed { self.new.phase ≢ phases.Failed }
        ensures leads { spec.LeadsUnread self.old self.new (P.told platform.old) (P.told platform.new) }
        ensures kept { spec.IsKept self.old self.new }
        ensures fixed { P.fixed platform.new ≡ P.fixed platform.old }
        ensures accesses { P.spare_accesses platform.old ≤ P.spare_accesses platform.new + RESET_ACCESSES }
        ensures bytes { P.spare_bytes platform.new ≡ P.spare_bytes platform.old }
    {
        if let Some(clock) = reset(platform) {
            self.kept = clock;
            self.phase = Phase::Settling;
        }
    }

    /// Looks whether the codecs had their time, and then sets the rings going and begins to walk the codecs.
    ///
    /// # Errors
    /// Want of memory.
    pub(crate) fn settle<P: Platform>(&mut self, platform: &mut P) -> Result<(), AllocError>
        requires phase { self.old.phase ≡ phases.Settling }
        requires room { SETTLE_ACCESSES ≤ P.spare_accesses platform.old }
        ensures leads { OnOk result (spec.LeadsUnread self.old self.new (P.told platform.old) (P.told platform.new)) }
        ensures kept { spec.IsKept self.old self.new }
        ensures failed { OnErr result (self.new.phase ≡ phases.Failed) }
        ensures unfailed { OnOk result (self.old.phase ≢ phases.Failed → self.new.phase ≢ phases.Failed) }
        ensures wanting { OnErr result (FailsToSettle self.old self.new (P.told platform.old) (P.told platform.new)) }
        ensures fixed { P.fixed platform.new ≡ P.fixed platform.old }
        ensures accesses { P.spare_accesses platform.old ≤ P.spare_accesses platform.new + SETTLE_ACCESSES }
        ensures bytes { P.spare_bytes platform.new ≡ P.spare_bytes platform.old }
    {
        match settle(platform, &mut self.engine, self.kept) {
            Settled::TooEarly => Ok(()),
            Settled::NoCodec => Ok(()),
            Settled::Codecs(codecs) => {
                self.phase = Phase::Failed;
                let addresses = addresses_in(self.alloc, codecs)?;
                self.agenda = Agenda::new(self.alloc, self.format, addresses)?;
                self.phase = Phase::Walking;
                Ok(())
            }
        }
    }

    /// Looks for the answer to the outstanding command, and submits the next one where none is outstanding.
    ///
    /// # Errors
    /// Want of memory.
    pub(crate) fn command<P: Platform, T: Setter>(
        &mut self,
        platform: &mut P,
        setter: &T,
    ) -> Result<(), AllocError>
        requires phase { is_asking self.old.phase ≡ true }
        requires few { self.old.looks < 1000000 }
        requires room { BRING_UP_ACCESSES ≤ P.spare_accesses platform.old }
        requires bytes_room { BRING_UP_BYTES ≤ P.spare_bytes platform.old }
        ensures leads { OnOk result (spec.Leads (T.means setter.now self.old.agenda.format TAG) false self.old self.new
            (P.told platform.old) (P.told platform.new)) }
        ensures kept { spec.IsKept self.old self.new }
        ensures failed { OnErr result (self.new.phase ≡ phases.Failed) }
        ensures unfailed { OnOk result (self.old.phase ≢ phases.Failed → self.new.phase ≢ phases.Failed) }
        ensures wanting { OnErr result (Fails (T.means setter.now self.old.agenda.format TAG) false self.old self.new
            (P.told platform.old) (P.told platform.new)) }
        ensures fixed { P.fixed platform.new ≡ P.fixed platform.old }
        ensures accesses { P.spare_accesses platform.old ≤ P.spare_accesses platform.new + BRING_UP_ACCESSES }
        ensures bytes { P.spare_bytes platform.old ≤ P.spare_bytes platform.new + BRING_UP_BYTES }
    {
        let phase = self.phase;
        self.phase = Phase::Failed;
        self.looks += 1;
        let answer = look_for_answer(
            platform,
            &mut self.engine,
            &mut self.jacks,
            &mut self.agenda,
            setter,
            phase,
        )?;
        let submits = submit_next(
            platform,
            &mut self.engine,
            &self.agenda,
            answer.is_free,
            answer.clock,
        );
        self.sent = sent_after(self.sent, submits);
        self.phase = answer.phase;
        Ok(())
    }

    /// The last call while commands are sent.
    ///
    /// # Errors
    /// Want of memory.
    pub(crate) fn end_commands<P: Platform, T: Setter>(
        &mut self,
        platform: &mut P,
        setter: &T,
    ) -> Result<(), AllocError>
        requires phase { is_asking self.old.phase ≡ true }
        requires few { self.old.looks ≤ 1000000 }
        requires room { BRING_UP_END_ACCESSES ≤ P.spare_accesses platform.old }
        requires bytes_room { POLL_BYTES ≤ P.spare_bytes platform.old }
        ensures ends { OnOk result (spec.Ends (T.means setter.now self.old.agenda.format TAG) self.old self.new
            (P.told platform.old) (P.told platform.new)) }
        ensures kept { spec.IsKept self.old self.new }
        ensures failed { OnErr result (self.new.phase ≡ phases.Failed) }
        ensures unfailed { OnOk result (self.old.phase ≢ phases.Failed → self.new.phase ≢ phases.Failed) }
        ensures wanting { OnErr result (FailsLast (T.means setter.now self.old.agenda.format TAG) self.old self.new
            (P.told platform.old) (P.told platform.new)) }
        ensures shut { OnErr result (IsShut (P.told platform.new)) }
        ensures fixed { P.fixed platform.new ≡ P.fixed platform.old }
        ensures accesses { P.spare_accesses platform.old ≤ P.spare_accesses platform.new + BRING_UP_END_ACCESSES }
        ensures bytes { P.spare_bytes platform.old ≤ P.spare_bytes platform.new + POLL_BYTES }
    {
        let phase = self.phase;
        self.phase = Phase::Failed;
        self.looks += 1;
        let answer = look_for_answer(
            platform,
            &mut self.engine,
            &mut self.jacks,
            &mut self.agenda,
            setter,
            phase,
        );
        shut(platform);
        self.phase = answer?.phase;
        Ok(())
    }
}

/// How many commands were sent, where one more was or none.
fn sent_after(sent: u32, submits: bool) -> u32
    requires { sent < 1000000 }
    ensures { result ≡ spec.sent_if submits sent }
{
    if submits { sent + 1 } else { sent }
}
