//! A look for interrupts.
ghost use Rattle.std.specs.Prelude.{◌≡◌, ◌≤◌, ◌+◌};
ghost use Rattle.driver_progress.specs.declared.room.TheConstants.{CLEAR_ACCESSES, INTERRUPT_ACCESSES};
ghost use Rattle.driver_progress.specs.Interrupts as spec;

use crate::registers::STREAM_STATUS;
use hda_platform::Platform;
use hda_registers::{Width, places};
use verb_codes::{bits_of, has_bit};

/// The bit of INTSTS that says that some interrupt is on (HDA 1.0a, 3.3.15).
const INTERRUPTS_AT: u32 = 31;
/// The bit of the output stream.
const STREAM_INTERRUPTS_AT: u32 = 1;

/// Whether an interrupt is on. Where it is the output stream's, the status bits that are set are cleared (HDA 1.0a,
/// 3.3.36).
pub fn has_interrupt<P: Platform>(platform: &mut P) -> bool
    requires { INTERRUPT_ACCESSES ≤ P.spare_accesses platform.old }
    ensures looks { spec.LooksFor result (P.told platform.old) (P.told platform.new) }
    ensures fixed { P.fixed platform.new ≡ P.fixed platform.old }
    ensures accesses { P.spare_accesses platform.old ≤ P.spare_accesses platform.new + INTERRUPT_ACCESSES }
    ensures bytes { P.spare_bytes platform.new ≡ P.spare_bytes platform.old }
{
    let interrupts = platform.read(places::INTSTS, Width::Four);
    if !has_bit(interrupts, INTERRUPTS_AT) {
        return false;
    }
    clear_stream(platform, interrupts);
    true
}

/// Clears the status bits of the output stream, where the interrupt is its.
fn clear_stream<P: Platform>(platform: &mut P, interrupts: u32)
    requires { CLEAR_ACCESSES ≤ P.spare_accesses platform.old }
    ensures clears { spec.Clears interrupts (P.told platform.old) (P.told platform.new) }
    ensures fixed { P.fixed platform.new ≡ P.fixed platform.old }
    ensures accesses { P.spare_accesses platform.old ≤ P.spare_accesses platform.new + CLEAR_ACCESSES }
    ensures bytes { P.spare_bytes platform.new ≡ P.spare_bytes platform.old }
{
    if has_bit(interrupts, STREAM_INTERRUPTS_AT) {
        let stream = platform.read(STREAM_STATUS, Width::One);
        platform.write(STREAM_STATUS, Width::One, 4 * bits_of(stream, 2, 3));
    }
}
