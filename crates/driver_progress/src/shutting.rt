//! The end.
ghost use Rattle.std.specs.Prelude.{◌≡◌, ◌≤◌, ◌+◌};
ghost use Rattle.hda_world.specs.Tellings.{Between, Makes};
ghost use Rattle.driver_progress.specs.declared.room.TheConstants.{SHUT_ACCESSES};
ghost use Rattle.driver_progress.specs.Shutting.{shut_accesses};

use hda_platform::Platform;
use hda_registers::{Width, places};

/// Stops both rings, and leaves the controller in reset (HDA 1.0a, 3.3.22, 3.3.29 and 3.3.7).
#[tactic(auto, using(hda_world::proofs::Callers::rows))]
pub fn shut<P: Platform>(platform: &mut P)
    requires { SHUT_ACCESSES ≤ P.spare_accesses platform.old }
    ensures made { Between (Makes shut_accesses) (P.told platform.old) (P.told platform.new) }
    ensures fixed { P.fixed platform.new ≡ P.fixed platform.old }
    ensures accesses { P.spare_accesses platform.new + SHUT_ACCESSES ≡ P.spare_accesses platform.old }
    ensures bytes { P.spare_bytes platform.new ≡ P.spare_bytes platform.old }
{
    platform.write(places::CORBCTL, Width::One, 0);
    platform.write(places::RIRBCTL, Width::One, 0);
    platform.write(places::GCTL, Width::Four, 0);
}
