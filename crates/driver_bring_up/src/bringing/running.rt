//! A call, a call for an interrupt, and the last one.
ghost use Rattle.std.specs.Prelude.{◌≡◌, ◌≢◌, ◌≤◌, ◌<◌, ◌+◌, true, false, OnOk, OnErr};
ghost use Rattle.command_engine.specs.declared.room.TheConstants.{POLL_ACCESSES, POLL_BYTES};
ghost use Rattle.driver_progress.specs.declared.phase.Phase.TheVariants as phases;
ghost use Rattle.driver_progress.specs.Phases as progress;
ghost use Rattle.driver_bring_up.specs.declared.room.TheConstants.{BRING_UP_ACCESSES, BRING_UP_BYTES};
ghost use Rattle.driver_bring_up.specs.declared.room.TheConstants.{BRING_UP_END_ACCESSES, BRING_UP_INTERRUPT_ACCESSES};
ghost use Rattle.driver_bring_up.specs.Calls as spec;
ghost use Rattle.driver_bring_up.specs.Told.{IsShut};
ghost use Rattle.driver_bring_up.specs.Failing.{Fails, FailsLast};

use super::BringUp;
use crate::answers::TAG;
use crate::jack_laws::events_are_of_pins;
use driver_progress::{Phase, has_interrupt, shut};
use hda_platform::Platform;
use route_setup::Setter;
use std::alloc::AllocError;

impl BringUp {
    /// One call. In the first the controller is reset; then it looks whether the codecs had their time, and from then
    /// on for the answer to each command, after which the next is submitted. Once all codecs are set up, or it ended
    /// before that, nothing is done. The setter is the same at each call.
    ///
    /// # Errors
    /// Want of memory, in the phases where codecs are found and answers come. Then it is over, in the phase `Failed`:
    /// the look that found codecs or an answer was made, and no command was submitted after it.
    pub fn run<P: Platform, T: Setter>(
        &mut self,
        platform: &mut P,
        setter: &T,
    ) -> Result<(), AllocError>
        requires few { self.old.looks < 1000000 }
        requires room { BRING_UP_ACCESSES ≤ P.spare_accesses platform.old }
        requires bytes_room { BRING_UP_BYTES ≤ P.spare_bytes platform.old }
        ensures leads { OnOk result (spec.Leads (T.means setter.now self.old.agenda.format TAG) false self.old self.new
            (P.told platform.old) (P.told platform.new)) }
        ensures kept { spec.IsKept self.old self.new }
        ensures failed { OnErr result (self.new.phase ≡ phases.Failed) }
        ensures unfailed { OnOk result (self.old.phase ≢ phases.Failed → self.new.phase ≢ phases.Failed) }
        ensures wanting { OnErr result (Fails (T.means setter.now self.old.agenda.format TAG) false self.old self.new
            (P.told platform.old) (P.told platform.new)) }
        ensures cause { OnErr result (spec.takes_memory self.old.phase ≡ true) }
        ensures fixed { P.fixed platform.new ≡ P.fixed platform.old }
        ensures accesses { P.spare_accesses platform.old ≤ P.spare_accesses platform.new + BRING_UP_ACCESSES }
        ensures bytes { P.spare_bytes platform.old ≤ P.spare_bytes platform.new + BRING_UP_BYTES }
    {
        if self.phase.is_asking() {
            return self.command(platform, setter);
        }
        match self.phase {
            Phase::Reset => {
                self.reset(platform);
                Ok(())
            }
            Phase::Settling => self.settle(platform),
            _ => Ok(()),
        }
    }

    /// One call for an interrupt: where there is one, what [`BringUp::run`] does; else nothing but the look for it.
    /// Once it is over, interrupts are not looked for.
    ///
    /// # Errors
    /// Want of memory, in the phases where codecs are found and answers come. Then it is over, in the phase `Failed`:
    /// the look that found codecs or an answer was made, and no command was submitted after it.
    pub fn irq<P: Platform, T: Setter>(
        &mut self,
        platform: &mut P,
        setter: &T,
    ) -> Result<(), AllocError>
        requires few { self.old.looks < 1000000 }
        requires room { BRING_UP_INTERRUPT_ACCESSES ≤ P.spare_accesses platform.old }
        requires bytes_room { BRING_UP_BYTES ≤ P.spare_bytes platform.old }
        ensures leads { OnOk result (spec.Leads (T.means setter.now self.old.agenda.format TAG) true self.old self.new
            (P.told platform.old) (P.told platform.new)) }
        ensures kept { spec.IsKept self.old self.new }
        ensures failed { OnErr result (self.new.phase ≡ phases.Failed) }
        ensures unfailed { OnOk result (self.old.phase ≢ phases.Failed → self.new.phase ≢ phases.Failed) }
        ensures wanting { OnErr result (Fails (T.means setter.now self.old.agenda.format TAG) true self.old self.new
            (P.told platform.old) (P.told platform.new)) }
        ensures cause { OnErr result (spec.takes_memory self.old.phase ≡ true) }
        ensures fixed { P.fixed platform.new ≡ P.fixed platform.old }
        ensures accesses { P.spare_accesses platform.old ≤ P.spare_accesses platform.new + BRING_UP_INTERRUPT_ACCESSES }
        ensures bytes { P.spare_bytes platform.old ≤ P.spare_bytes platform.new + BRING_UP_BYTES }
    {
        if !self.phase.is_active() {
            return Ok(());
        }
        if has_interrupt(platform) {
            self.run(platform, setter)
        } else {
            Ok(())
        }
    }

    /// Reads what codecs told unasked since the last look, once all codecs are set up, and counts it (HDA 1.0a, 4.4.2).
    pub fn listen<P: Platform>(&mut self, platform: &mut P)
        requires ready { self.old.phase ≡ phases.Ready }
        requires few { self.old.looks ≤ 1000000 }
        requires room { POLL_ACCESSES ≤ P.spare_accesses platform.old }
        requires bytes_room { POLL_BYTES ≤ P.spare_bytes platform.old }
        ensures listens { spec.Listens self.old self.new (P.told platform.old) (P.told platform.new) }
        ensures kept { spec.IsKept self.old self.new }
        ensures fixed { P.fixed platform.new ≡ P.fixed platform.old }
        ensures accesses { P.spare_accesses platform.old ≤ P.spare_accesses platform.new + POLL_ACCESSES }
        ensures bytes { P.spare_bytes platform.old ≤ P.spare_bytes platform.new + POLL_BYTES }
    {
        self.looks += 1;
        let _nothing_asked = self.engine.poll(platform, self.kept);
        events_are_of_pins();
        self.jacks.take_events(&mut self.engine);
    }

    /// The last call: while commands are sent it looks once more for an answer. It submits nothing. Where the
    /// controller was reset before, it stops both rings and leaves the controller in reset.
    ///
    /// # Errors
    /// Want of memory, while commands are sent. Then it is over, in the phase `Failed`; the controller is left in reset
    /// also then.
    pub fn end<P: Platform, T: Setter>(
        &mut self,
        platform: &mut P,
        setter: &T,
    ) -> Result<(), AllocError>
        requires few { self.old.looks ≤ 1000000 }
        requires room { BRING_UP_END_ACCESSES ≤ P.spare_accesses platform.old }
        requires bytes_room { POLL_BYTES ≤ P.spare_bytes platform.old }
        ensures ends { OnOk result (spec.Ends (T.means setter.now self.old.agenda.format TAG) self.old self.new
            (P.told platform.old) (P.told platform.new)) }
        ensures kept { spec.IsKept self.old self.new }
        ensures failed { OnErr result (self.new.phase ≡ phases.Failed) }
        ensures unfailed { OnOk result (self.old.phase ≢ phases.Failed → self.new.phase ≢ phases.Failed) }
        ensures wanting { OnErr result (FailsLast (T.means setter.now self.old.agenda.format TAG) self.old self.new
            (P.told platform.old) (P.told platform.new)) }
        ensures cause { OnErr result (progress.is_asking self.old.phase ≡ true) }
        ensures shut { OnErr result (IsShut (P.told platform.new)) }
        ensures fixed { P.fixed platform.new ≡ P.fixed platform.old }
        ensures accesses { P.spare_accesses platform.old ≤ P.spare_accesses platform.new + BRING_UP_END_ACCESSES }
        ensures bytes { P.spare_bytes platform.old ≤ P.spare_bytes platform.new + POLL_BYTES }
    {
        if self.phase.is_asking() {
            return self.end_commands(platform, setter);
        }
        if self.phase.is_reset() {
            return Ok(());
        }
        shut(platform);
        Ok(())
    }
}
