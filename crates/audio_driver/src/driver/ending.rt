//! The last call of a driver.
ghost use Rattle.std.specs.Prelude.{◌≡◌, ◌≤◌, ◌<◌, ◌+◌, length, true, false, OnOk, OnErr};
ghost use Rattle.driver_progress.specs.Phases.{is_asking, is_ready};
ghost use Rattle.period_writer.specs.Writers.{KeepsRing, tally_of, ring_size};
ghost use Rattle.driver_bring_up.specs.Calls.{IsKept};
ghost use Rattle.driver_bring_up.specs.Told.{IsShut};
ghost use Rattle.command_engine.specs.declared.room.TheConstants.{POLL_BYTES};
ghost use Rattle.audio_driver.specs.declared.room.TheConstants.{PLAY_END_ACCESSES};
ghost use Rattle.audio_driver.specs.States as states;
ghost use Rattle.audio_driver.specs.Calls.{EndsAny, FinishesBy, FailsLastBy};

use super::sounding::{is_open, plays_now};
use driver_bring_up::BringUp;
use driver_progress::shut;
use hda_platform::Platform;
use period_writer::Writer;
use route_setup::Setter;
use std::alloc::AllocError;
use wav_reader::Supply;

/// The last call: that of the bring-up, or where calls play, what ends the sound.
///
/// # Errors
/// Want of memory, while commands are sent.
pub(super) fn end_call<P: Platform, T: Setter>(
    platform: &mut P,
    bring_up: &mut BringUp,
    writer: &mut Writer,
    supply: &mut Supply,
    setter: &T,
    play: bool,
) -> Result<(), AllocError>
    requires few { bring_up.old.looks ≤ 1000000 }
    requires free { length writer.old.runs < writer.old.records }
    requires room { PLAY_END_ACCESSES ≤ P.spare_accesses platform.old }
    requires bytes_room { ring_size writer.old + POLL_BYTES ≤ P.spare_bytes platform.old }
    ensures ends { states.plays_now play bring_up.old ≡ false → OnOk result (FinishesBy T.means
        setter.now bring_up.old bring_up.new (P.told platform.old) (P.told platform.new)) }
    ensures recorded { states.plays_now play bring_up.old ≡ false → tally_of writer.new ≡ tally_of writer.old }
    ensures sounds { states.plays_now play bring_up.old ≡ true → EndsAny bring_up.old bring_up.new
        writer.old (tally_of writer.new) supply.old (P.told platform.old) (P.told platform.new) }
    ensures grows { writer.old.course.used ≤ writer.new.course.used }
    ensures kept { IsKept bring_up.old bring_up.new }
    ensures keeps { KeepsRing writer.old writer.new }
    ensures cause { OnErr result (is_asking bring_up.old.phase ≡ true) }
    ensures shut { OnErr result (IsShut (P.told platform.new)) }
    ensures wanting { OnErr result (FailsLastBy T.means setter.now bring_up.old bring_up.new (P.told platform.old)
        (P.told platform.new)) }
    ensures fixed { P.fixed platform.new ≡ P.fixed platform.old }
    ensures accesses { P.spare_accesses platform.old ≤ P.spare_accesses platform.new + PLAY_END_ACCESSES }
    ensures bytes { P.spare_bytes platform.old ≤ P.spare_bytes platform.new + (ring_size writer.old + POLL_BYTES) }
{
    if plays_now(play, bring_up) {
        end_sound(platform, bring_up, writer, supply);
        return Ok(());
    }
    bring_up.end(platform, setter)
}

/// Where the stream plays, one more look for what codecs told unasked and the last run, which stops the stream. Then
/// both rings are stopped, and the controller is left in reset.
fn end_sound<P: Platform>(
    platform: &mut P,
    bring_up: &mut BringUp,
    writer: &mut Writer,
    supply: &mut Supply,
)
    requires ready { is_ready bring_up.old.phase ≡ true }
    requires few { bring_up.old.looks ≤ 1000000 }
    requires free { length writer.old.runs < writer.old.records }
    requires room { PLAY_END_ACCESSES ≤ P.spare_accesses platform.old }
    requires bytes_room { ring_size writer.old + POLL_BYTES ≤ P.spare_bytes platform.old }
    ensures sounds { EndsAny bring_up.old bring_up.new
        writer.old (tally_of writer.new) supply.old (P.told platform.old) (P.told platform.new) }
    ensures grows { writer.old.course.used ≤ writer.new.course.used }
    ensures kept { IsKept bring_up.old bring_up.new }
    ensures keeps { KeepsRing writer.old writer.new }
    ensures fixed { P.fixed platform.new ≡ P.fixed platform.old }
    ensures accesses { P.spare_accesses platform.old ≤ P.spare_accesses platform.new + PLAY_END_ACCESSES }
    ensures bytes { P.spare_bytes platform.old ≤ P.spare_bytes platform.new + (ring_size writer.old + POLL_BYTES) }
{
    if !writer.course().started || !is_open(writer) {
        shut(platform);
        return;
    }
    bring_up.listen(platform);
    let _ran = writer.finish(platform, supply);
    shut(platform);
}
