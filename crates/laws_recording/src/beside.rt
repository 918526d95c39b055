//! Laws of a recorder beside the engine of commands, each the contract of a function that does nothing.
ghost use Rattle.std.specs.Prelude.{◌≡◌, ℕ, length, Some};
ghost use Rattle.hda_world.specs.declared.world.TheConstants.{REGION_BYTES};
ghost use Rattle.hda_world.specs.Worlds.{World};
ghost use Rattle.hda_world.specs.Tellings.{Telling, world_of};
ghost use Rattle.period_writer.specs.Outcomes.{CanBegin};
ghost use Rattle.command_engine.specs.declared.ring_places.RingPlaces.{RingPlaces};
ghost use Rattle.command_engine.specs.Apart.{InputIsApart};
ghost use Rattle.command_engine.specs.Fetchings.{Stands};
ghost use Rattle.hda_capture.specs.declared.course.Recorded.{Recorded};
ghost use Rattle.hda_capture.specs.Recorders.{RecorderState, IsRecorder};
ghost use Rattle.hda_capture.specs.Calls.{StartsRecording, RecordsRun};
ghost use Rattle.laws_recording.specs.Filling.{recorder_ring};
ghost use Rattle.laws_recording.specs.Recording.{IsRecording};
ghost use Rattle.laws_recording.specs.Beside.{LiesBesideEngine};

use command_engine::{events_beside_input_keep_standing, events_beside_keep_standing};

/// While a recorder records whose blocks have no byte in common with those of the engine's rings, what the input stream
/// stores lies apart from these.
pub fn recordings_lie_apart()
    ensures { (corb rirb : ℕ) (recorder : RecorderState) (world : World)
        → LiesBesideEngine corb rirb (recorder_ring recorder) → IsRecording recorder world
        → InputIsApart corb rirb world }
{}

/// How an engine stands to the world is kept by the runs of a recorder, the first one and later ones, whose blocks have
/// no byte in common with those of the engine's rings.
pub fn recordings_leave_the_engine()
    ensures first { (from read corb rirb : ℕ) (rings : RingPlaces) (old new : RecorderState) (before after : Telling)
        → IsRecorder old → StartsRecording old new (Some before) (Some after)
        → length (world_of before).memory ≡ REGION_BYTES → CanBegin (recorder_ring old) (world_of before)
        → LiesBesideEngine corb rirb (recorder_ring old)
        → Stands from read corb rirb rings (world_of before) → Stands from read corb rirb rings (world_of after) }
    ensures later { (from read corb rirb : ℕ) (rings : RingPlaces) (old new : RecorderState) (answer : Recorded)
        (before after : Telling)
        → RecordsRun old answer new (Some before) (Some after) → IsRecording old (world_of before)
        → Stands from read corb rirb rings (world_of before) → Stands from read corb rirb rings (world_of after) }
{
    events_beside_keep_standing();
    events_beside_input_keep_standing();
}
