//! How both rings are set going.
ghost use Rattle.std.specs.Prelude.{◌≡◌, ◌≤◌, ◌+◌};
ghost use Rattle.hda_world.specs.Tellings.{Between, Makes};
ghost use Rattle.command_engine.specs.Starting as spec;
ghost use Rattle.command_engine.specs.Told as told;
ghost use Rattle.command_engine.specs.declared.room.TheConstants.{CORB_ACCESSES, RIRB_ACCESSES, START_ACCESSES};

use super::Engine;
use crate::ring_places::{codecs_in, half_of, rings_found};
use hda_platform::Platform;
use hda_registers::{RingSize, Width, places};

/// CORBRPRST, by which the driver resets CORB's read pointer (HDA 1.0a, 3.3.21), and RIRBWPRST, by which it resets
/// RIRB's write pointer (3.3.27).
const POINTER_RESET: u32 = 0x8000;
/// CORBRUN (HDA 1.0a, 3.3.22).
const CORB_RUN: u32 = 2;
/// RIRBDMAEN and RINTCTL (HDA 1.0a, 3.3.29).
const RIRB_RUN: u32 = 3;
/// The controller may interrupt: GIE and CIE (HDA 1.0a, 3.3.14).
const CONTROLLER_INTERRUPTS: u32 = 0xC000_0000;

impl Engine {
    /// Sets both rings going, each at the largest size that the controller supports, and gives the codecs that
    /// announced themselves: bit n for the codec with address n (HDA 1.0a, 4.3 and 4.4). 0 exactly where no codec is
    /// there or a size register names no size; then these alone were read, and the engine is as it was.
    ///
    /// On a platform that tells: where the controller was out of reset, neither ring ran, and no answer was on its way
    /// before the call, at most the answers to commands of this engine can come after it.
    /// [`crate::a_reset_leads_to_a_start`] says what brings that about. On any other world the accesses are the same,
    /// and nothing is said of answers.
    pub fn start<P: Platform>(&mut self, platform: &mut P) -> u16
        requires room { START_ACCESSES ≤ P.spare_accesses platform.old }
        ensures starts { spec.Starts self.old.corb.address self.old.rirb.address self.old.rings result self.new.rings
            (P.told platform.old) (P.told platform.new) }
        ensures tells { Between (told.Begins self.old.corb.address self.old.rirb.address result self.new.rings)
            (P.told platform.old) (P.told platform.new) }
        ensures corb { self.new.corb ≡ self.old.corb }
        ensures rirb { self.new.rirb ≡ self.old.rirb }
        ensures events { self.new.events ≡ self.old.events }
        ensures fixed { P.fixed platform.new ≡ P.fixed platform.old }
        ensures accesses { P.spare_accesses platform.old ≤ P.spare_accesses platform.new + START_ACCESSES }
        ensures bytes { P.spare_bytes platform.new ≡ P.spare_bytes platform.old }
    {
        let status = platform.read(places::STATESTS, Width::Two);
        let corb_size = platform.read(places::CORBSIZE, Width::One);
        let rirb_size = platform.read(places::RIRBSIZE, Width::One);
        let Some(rings) = rings_found(status, corb_size, rirb_size) else {
            return 0;
        };
        set_corb(platform, self.corb.address(), status);
        set_rirb(platform, self.rirb.address(), rings.rirb);
        self.rings = rings;
        codecs_in(status)
    }
}

/// Clears the state change status, and sets CORB going (HDA 1.0a, 4.4.1.3).
fn set_corb<P: Platform>(platform: &mut P, corb: u32, status: u32)
    requires { CORB_ACCESSES ≤ P.spare_accesses platform.old }
    ensures made { spec.SetsCorb corb status (P.told platform.old) (P.told platform.new) }
    ensures fixed { P.fixed platform.new ≡ P.fixed platform.old }
    ensures accesses { P.spare_accesses platform.new + CORB_ACCESSES ≡ P.spare_accesses platform.old }
    ensures bytes { P.spare_bytes platform.new ≡ P.spare_bytes platform.old }
{
    platform.write(places::STATESTS, Width::Two, status);
    platform.write(places::CORBLBASE, Width::Four, corb);
    platform.write(places::CORBWP, Width::Two, 0);
    platform.write(places::CORBRP, Width::Two, POINTER_RESET);
    let _reset = platform.read(places::CORBRP, Width::Two);
    platform.write(places::CORBRP, Width::Two, 0);
    let _ready = platform.read(places::CORBRP, Width::Two);
    platform.write(places::CORBCTL, Width::One, CORB_RUN);
}

/// Sets RIRB going, which is served where it is half full, and lets the controller interrupt (HDA 1.0a, 4.4.2.2).
#[tactic(auto, using(hda_world::proofs::Callers::rows))]
fn set_rirb<P: Platform>(platform: &mut P, rirb: u32, size: RingSize)
    requires { RIRB_ACCESSES ≤ P.spare_accesses platform.old }
    ensures made { Between (Makes (spec.rirb_accesses rirb size)) (P.told platform.old) (P.told platform.new) }
    ensures fixed { P.fixed platform.new ≡ P.fixed platform.old }
    ensures accesses { P.spare_accesses platform.new + RIRB_ACCESSES ≡ P.spare_accesses platform.old }
    ensures bytes { P.spare_bytes platform.new ≡ P.spare_bytes platform.old }
{
    platform.write(places::RIRBLBASE, Width::Four, rirb);
    platform.write(places::RIRBWP, Width::Two, POINTER_RESET);
    platform.write(places::RINTCNT, Width::Two, u32::from(half_of(size)));
    platform.write(places::RIRBCTL, Width::One, RIRB_RUN);
    platform.write(places::INTCTL, Width::Four, CONTROLLER_INTERRUPTS);
}
