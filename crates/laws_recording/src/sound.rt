//! Laws of the sound that is recorded, each the contract of a function that does nothing.
ghost use Rattle.std.specs.Prelude.{◌≡◌, ℕ, List, All, Some, length};
ghost use Rattle.world_steps.specs.declared.Step.{Step};
ghost use Rattle.hda_world.specs.declared.world.TheConstants.{REGION_BYTES};
ghost use Rattle.hda_world.specs.Worlds.{World};
ghost use Rattle.hda_world.specs.Steps.{after_steps};
ghost use Rattle.hda_registers.specs.declared.shapes.Width.TheVariants.{One};
ghost use Rattle.hda_world.specs.Events.{Event, Write, happens, after};
ghost use Rattle.hda_capture.specs.declared.registers.TheConstants.{CONTROL};
ghost use Rattle.hda_world.specs.Tellings.{Telling, world_of, Makes};
ghost use Rattle.stream_format.specs.declared.format.Format.{Format};
ghost use Rattle.period_writer.specs.Outcomes.{CanBegin};
ghost use Rattle.hda_capture.specs.declared.course.Recorded.{Recorded};
ghost use Rattle.hda_capture.specs.Recorders.{RecorderState, IsRecorder};
ghost use Rattle.hda_capture.specs.Calls.{StartsRecording, RecordsRun};
ghost use Rattle.laws_recording.specs.Filling.{recorder_ring};
ghost use Rattle.laws_recording.specs.Recording.{IsRecording, HasRecorded};
ghost use Rattle.laws_recording.specs.Beside.{LeavesFilling, LeavesStoppedInput};
ghost use Rattle.laws_recording.specs.Sound.{HearsGiven, TookGiven, RecordsGiven};

use hda_world::{steps_keep_taken_sound, steps_leave_stopped_inputs, the_given_sound_stays};

/// While the one converter that takes the stream hears a pin, and no command is left that could change it, what the
/// input stream takes is the given sound: a first run begins it, and steps of the device, events beside and later runs
/// keep it. So do the write that takes RUN back and what comes after the stop, whatever is heard then.
pub fn given_sound_is_taken()
    ensures first { (nid : ℕ) (old new : RecorderState) (before after : Telling)
        → IsRecorder old → StartsRecording old new (Some before) (Some after)
        → length (world_of before).memory ≡ REGION_BYTES → CanBegin (recorder_ring old) (world_of before)
        → HearsGiven old.geometry.format nid (world_of before)
        → HearsGiven old.geometry.format nid (world_of after) × TookGiven old.geometry.format (world_of after) }
    ensures steps { (nid : ℕ) (recorder : RecorderState) (steps : List Step) (world : World)
        → IsRecording recorder world → HearsGiven recorder.geometry.format nid world
        → TookGiven recorder.geometry.format world
        → HearsGiven recorder.geometry.format nid (after_steps steps world)
        × TookGiven recorder.geometry.format (after_steps steps world) }
    ensures events { (nid : ℕ) (recorder : RecorderState) (events : List Event) (world : World)
        → All (LeavesFilling (recorder_ring recorder)) events → IsRecording recorder world
        → HearsGiven recorder.geometry.format nid world → TookGiven recorder.geometry.format world
        → HearsGiven recorder.geometry.format nid (after events world)
        × TookGiven recorder.geometry.format (after events world) }
    ensures rows { (nid : ℕ) (recorder : RecorderState) (made : List Event) (old new : Telling) → Makes made old new
        → All (LeavesFilling (recorder_ring recorder)) made → IsRecording recorder (world_of old)
        → HearsGiven recorder.geometry.format nid (world_of old) → TookGiven recorder.geometry.format (world_of old)
        → HearsGiven recorder.geometry.format nid (world_of new)
        × TookGiven recorder.geometry.format (world_of new) }
    ensures later { (nid : ℕ) (old new : RecorderState) (answer : Recorded) (before after : Telling)
        → RecordsRun old answer new (Some before) (Some after) → IsRecording old (world_of before)
        → HearsGiven old.geometry.format nid (world_of before) → TookGiven old.geometry.format (world_of before)
        → HearsGiven old.geometry.format nid (world_of after) × TookGiven old.geometry.format (world_of after) }
    ensures stop { (recorder : RecorderState) (world : World) → IsRecording recorder world
        → TookGiven recorder.geometry.format world
        → TookGiven recorder.geometry.format (happens world (Write CONTROL One 0)) }
    ensures ended { (format : Format) (events : List Event) (world : World) (recorder : RecorderState)
        → All LeavesStoppedInput events → HasRecorded recorder world → TookGiven format world
        → TookGiven format (after events world) }
{
    steps_keep_taken_sound();
    steps_leave_stopped_inputs();
    the_given_sound_stays();
}

/// Then what was recorded is the first bytes of the given sound's blocks that were taken, each once and in order, while
/// the recorder records and once its stream was stopped.
pub fn what_was_recorded_is_given()
    ensures recording { (recorder : RecorderState) (world : World) → IsRecording recorder world
        → TookGiven recorder.geometry.format world → RecordsGiven recorder world }
    ensures ended { (recorder : RecorderState) (world : World) → HasRecorded recorder world
        → TookGiven recorder.geometry.format world → RecordsGiven recorder world }
{}
