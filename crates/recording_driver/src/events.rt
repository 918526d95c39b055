//! What codecs told unasked, while sound is recorded.
ghost use Rattle.std.specs.Prelude.{◌≡◌, ◌≤◌, ◌+◌, [], None};
ghost use Rattle.command_engine.specs.declared.room.TheConstants.{POLL_ACCESSES, POLL_BYTES};
ghost use Rattle.recording_driver.specs.RecordingSteps.{ListensTo};

use command_engine::Engine;
use hda_platform::Platform;

/// Looks for what codecs told unasked, and drops it. Nothing is outstanding.
pub(crate) fn listen<P: Platform>(platform: &mut P, engine: &mut Engine)
    requires quiet { engine.old.events ≡ [] }
    requires idle { engine.old.rings.outstanding ≡ None }
    requires room { POLL_ACCESSES ≤ P.spare_accesses platform.old }
    requires bytes_room { POLL_BYTES ≤ P.spare_bytes platform.old }
    ensures listens { ListensTo engine.old engine.new (P.told platform.old) (P.told platform.new) }
    ensures quiet { engine.new.events ≡ [] }
    ensures idle { engine.new.rings.outstanding ≡ None }
    ensures corb { engine.new.corb ≡ engine.old.corb }
    ensures rirb { engine.new.rirb ≡ engine.old.rirb }
    ensures fixed { P.fixed platform.new ≡ P.fixed platform.old }
    ensures accesses { P.spare_accesses platform.old ≤ P.spare_accesses platform.new + POLL_ACCESSES }
    ensures bytes { P.spare_bytes platform.old ≤ P.spare_bytes platform.new + POLL_BYTES }
{
    let _nothing_asked = engine.poll(platform, 0);
    drop_events(engine);
}

/// Drops all events that are left.
fn drop_events(engine: &mut Engine)
    ensures events { engine.new.events ≡ [] }
    ensures rings { engine.new.rings ≡ engine.old.rings }
    ensures corb { engine.new.corb ≡ engine.old.corb }
    ensures rirb { engine.new.rirb ≡ engine.old.rirb }
{
    while let Some(_event) = engine.next_event() {}
}
