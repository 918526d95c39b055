//! How the stream is set going.
ghost use Rattle.std.specs.Prelude.{◌≡◌, ◌≤◌, ◌+◌};
ghost use Rattle.hda_world.specs.Tellings.{Between, Makes};
ghost use Rattle.hda_capture.specs.Starting as starting;
ghost use Rattle.hda_capture.specs.Calls.{stop_accesses};
ghost use Rattle.hda_capture.specs.declared.room.TheConstants.{RESET_ACCESSES, GOING_ACCESSES};

use crate::course::Recorded;
use crate::registers::{
    CONTROL, FORMAT, INPUT_INTERRUPTS, LAST_INDEX, LIST_ADDRESS, RING_LENGTH, RUN, STOP,
    STREAM_RESET, TAG_AND_INTERRUPTS,
};
use hda_platform::Platform;
use hda_registers::{Width, places};
use period_writer::Geometry;

/// Resets the stream (HDA 1.0a, 3.3.35).
#[tactic(auto, using(hda_world::proofs::Callers::rows))]
pub(crate) fn reset_stream<P: Platform>(platform: &mut P)
    requires { RESET_ACCESSES ≤ P.spare_accesses platform.old }
    ensures made { starting.ResetsStream (P.told platform.old) (P.told platform.new) }
    ensures fixed { P.fixed platform.new ≡ P.fixed platform.old }
    ensures accesses { P.spare_accesses platform.new + RESET_ACCESSES ≡ P.spare_accesses platform.old }
    ensures bytes { P.spare_bytes platform.new ≡ P.spare_bytes platform.old }
{
    platform.write(CONTROL, Width::One, STREAM_RESET);
    let _in_reset = platform.read(CONTROL, Width::One);
    platform.write(CONTROL, Width::One, 0);
    let _ready = platform.read(CONTROL, Width::One);
}

/// Sets the stream's registers, and RUN at last (HDA 1.0a, 3.3.35 to 3.3.42).
#[tactic(auto, using(hda_world::proofs::Callers::rows))]
pub(crate) fn set_stream<P: Platform>(platform: &mut P, list: u32, geometry: &Geometry)
    requires { GOING_ACCESSES ≤ P.spare_accesses platform.old }
    ensures made { Between (Makes (starting.set_accesses list geometry.now))
        (P.told platform.old) (P.told platform.new) }
    ensures fixed { P.fixed platform.new ≡ P.fixed platform.old }
    ensures accesses { P.spare_accesses platform.new + GOING_ACCESSES ≡ P.spare_accesses platform.old }
    ensures bytes { P.spare_bytes platform.new ≡ P.spare_bytes platform.old }
{
    platform.write(RING_LENGTH, Width::Four, geometry.ring());
    platform.write(LAST_INDEX, Width::Two, u32::from(geometry.periods() - 1));
    platform.write(FORMAT, Width::Two, u32::from(geometry.format().word()));
    platform.write(LIST_ADDRESS, Width::Four, list);
    platform.write(CONTROL, Width::Four, TAG_AND_INTERRUPTS);
    platform.write(places::INTCTL, Width::Four, INPUT_INTERRUPTS);
    platform.write(CONTROL, Width::One, RUN);
}

/// Stops the stream, where a run ended so.
#[tactic(auto, using(hda_world::proofs::Callers::rows))]
pub(crate) fn stop_if<P: Platform>(platform: &mut P, recorded: Recorded)
    requires { 1 ≤ P.spare_accesses platform.old }
    ensures made { Between (Makes (stop_accesses recorded)) (P.told platform.old) (P.told platform.new) }
    ensures fixed { P.fixed platform.new ≡ P.fixed platform.old }
    ensures accesses { P.spare_accesses platform.old ≤ P.spare_accesses platform.new + 1 }
    ensures bytes { P.spare_bytes platform.new ≡ P.spare_bytes platform.old }
{
    match recorded {
        Recorded::Recording => {}
        Recorded::Complete | Recorded::Late { .. } => platform.write(CONTROL, Width::One, STOP),
    }
}
