//! Laws of recorders whose stream was stopped, each the contract of a function that does nothing.
ghost use Rattle.std.specs.Prelude.{◌≡◌, false, List, All};
ghost use Rattle.world_steps.specs.declared.Step.{Step};
ghost use Rattle.hda_registers.specs.declared.shapes.Width.TheVariants.{One};
ghost use Rattle.hda_registers.specs.Fields.{is_running};
ghost use Rattle.hda_world.specs.Worlds.{World};
ghost use Rattle.hda_world.specs.Steps.{after_steps};
ghost use Rattle.hda_world.specs.Events.{Event, Write, happens, after};
ghost use Rattle.hda_world.specs.Tellings.{Telling, world_of, Makes};
ghost use Rattle.hda_capture.specs.declared.registers.TheConstants.{CONTROL};
ghost use Rattle.hda_capture.specs.Recorders.{RecorderState};
ghost use Rattle.laws_recording.specs.Recording.{IsRecording, HasRecorded, HasCompleted};
ghost use Rattle.laws_recording.specs.Beside.{LeavesStoppedInput, StaysTaken};

use hda_world::{steps_leave_stopped_inputs, the_given_sound_stays};

/// The write that takes RUN back ends a recording: what was recorded is still the first of what was taken.
pub fn a_stop_ends_a_recording()
    ensures { (recorder : RecorderState) (world : World) → IsRecording recorder world
        → HasRecorded recorder (happens world (Write CONTROL One 0)) }
{}

/// Once its stream was stopped a recorder stays as it is, by every step of the device, and by events that write no
/// register of the input's descriptor other than its status. A write of GCTL that resets the controller is such an
/// event. The input stream then takes and stores nothing, and no block comes.
pub fn a_stopped_recording_is_over()
    ensures steps { (recorder : RecorderState) (steps : List Step) (world : World)
        → HasRecorded recorder world → HasRecorded recorder (after_steps steps world) }
    ensures events { (recorder : RecorderState) (events : List Event) (world : World)
        → All LeavesStoppedInput events → HasRecorded recorder world → HasRecorded recorder (after events world) }
    ensures rows { (recorder : RecorderState) (made : List Event) (old new : Telling) → Makes made old new
        → All LeavesStoppedInput made → HasRecorded recorder (world_of old) → HasRecorded recorder (world_of new) }
    ensures completed { (recorder : RecorderState) (events : List Event) (world : World)
        → All LeavesStoppedInput events → HasCompleted recorder world → HasCompleted recorder (after events world) }
    ensures histories { (events : List Event) (world : World)
        → All LeavesStoppedInput events → is_running world.registers.input ≡ false
        → StaysTaken world (after events world) }
{
    steps_leave_stopped_inputs();
    the_given_sound_stays();
}
