//! A look for interrupts of the input stream.
ghost use Rattle.std.specs.Prelude.{◌≡◌, ◌≤◌, ◌+◌};
ghost use Rattle.driver_progress.specs.declared.room.TheConstants.{INTERRUPT_ACCESSES};
ghost use Rattle.recording_driver.specs.InputInterrupts as spec;

use crate::registers::INPUT_STATUS;
use hda_platform::Platform;
use hda_registers::{Width, places};
use verb_codes::{bits_of, has_bit};

/// The bit of INTSTS that says that some interrupt is on (HDA 1.0a, 3.3.15).
const INTERRUPTS_AT: u32 = 31;
/// The bit of the input stream.
const INPUT_INTERRUPTS_AT: u32 = 0;

/// Whether an interrupt is on. Where it is the input stream's, the status bits that are set are cleared (HDA 1.0a,
/// 3.3.36).
pub fn has_input_interrupt<P: Platform>(platform: &mut P) -> bool
    requires { INTERRUPT_ACCESSES ≤ P.spare_accesses platform.old }
    ensures looks { spec.LooksForInput result (P.told platform.old) (P.told platform.new) }
    ensures fixed { P.fixed platform.new ≡ P.fixed platform.old }
    ensures accesses { P.spare_accesses platform.old ≤ P.spare_accesses platform.new + INTERRUPT_ACCESSES }
    ensures bytes { P.spare_bytes platform.new ≡ P.spare_bytes platform.old }
{
    let interrupts = platform.read(places::INTSTS, Width::Four);
    if !has_bit(interrupts, INTERRUPTS_AT) {
        return false;
    }
    clear_input(platform, interrupts);
    true
}

/// Clears the status bits of the input stream, where the interrupt is its.
fn clear_input<P: Platform>(platform: &mut P, interrupts: u32)
    requires { 2 ≤ P.spare_accesses platform.old }
    ensures clears { spec.ClearsInput interrupts (P.told platform.old) (P.told platform.new) }
    ensures fixed { P.fixed platform.new ≡ P.fixed platform.old }
    ensures accesses { P.spare_accesses platform.old ≤ P.spare_accesses platform.new + 2 }
    ensures bytes { P.spare_bytes platform.new ≡ P.spare_bytes platform.old }
{
    if has_bit(interrupts, INPUT_INTERRUPTS_AT) {
        let status = platform.read(INPUT_STATUS, Width::One);
        platform.write(INPUT_STATUS, Width::One, 4 * bits_of(status, 2, 3));
    }
}
