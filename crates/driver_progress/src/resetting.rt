//! The reset of the controller.
ghost use Rattle.std.specs.Prelude.{◌≡◌, ◌≤◌, ◌+◌};
ghost use Rattle.hda_world.specs.Tellings.{Between};
ghost use Rattle.driver_progress.specs.declared.room.TheConstants.{RESET_ACCESSES};
ghost use Rattle.driver_progress.specs.Resetting as spec;
ghost use Rattle.driver_progress.specs.Beginning as beginning;

use hda_platform::Platform;
use hda_registers::{Width, places};
use verb_codes::has_bit;

/// CRST and UNSOL: the controller is out of reset, and accepts responses that come unasked (HDA 1.0a, 3.3.7).
const OUT_OF_RESET: u32 = 0x101;

/// Resets the controller, and gives the clock from which on the codecs may announce themselves, in ticks of
/// 1/24,000,000 s. `None` exactly where the controller did not come out of the reset (HDA 1.0a, 4.3).
///
/// On a platform that tells, where the codecs stand by address and none but these announced itself, it comes out of it:
/// the rings can be started then, and the wall clock goes by the link frames since. Where CORB's engine does not run
/// before, no command is taken meanwhile.
pub fn reset<P: Platform>(platform: &mut P) -> Option<u32>
    requires { RESET_ACCESSES ≤ P.spare_accesses platform.old }
    ensures resets { spec.Resets result (P.told platform.old) (P.told platform.new) }
    ensures tells { Between (beginning.LeadsToSettling result) (P.told platform.old) (P.told platform.new) }
    ensures untaken { Between beginning.LeavesUntaken (P.told platform.old) (P.told platform.new) }
    ensures fixed { P.fixed platform.new ≡ P.fixed platform.old }
    ensures accesses { P.spare_accesses platform.new + RESET_ACCESSES ≡ P.spare_accesses platform.old }
    ensures bytes { P.spare_bytes platform.new ≡ P.spare_bytes platform.old }
{
    make_reset(platform)
}

/// Makes the accesses of a reset.
fn make_reset<P: Platform>(platform: &mut P) -> Option<u32>
    requires { RESET_ACCESSES ≤ P.spare_accesses platform.old }
    ensures resets { spec.Resets result (P.told platform.old) (P.told platform.new) }
    ensures fixed { P.fixed platform.new ≡ P.fixed platform.old }
    ensures accesses { P.spare_accesses platform.new + RESET_ACCESSES ≡ P.spare_accesses platform.old }
    ensures bytes { P.spare_bytes platform.new ≡ P.spare_bytes platform.old }
{
    platform.write(places::GCTL, Width::Four, 0);
    let _in_reset = platform.read(places::GCTL, Width::Four);
    platform.write(places::GCTL, Width::Four, OUT_OF_RESET);
    let control = platform.read(places::GCTL, Width::Four);
    let clock = platform.read(places::WALCLK, Width::Four);
    clock_if(control, clock)
}

/// The clock, where the controller is out of reset.
fn clock_if(control: u32, clock: u32) -> Option<u32>
    ensures { result ≡ spec.clock_if control clock }
{
    if has_bit(control, 0) {
        Some(clock)
    } else {
        None
    }
}
