//! Laws of recorders that record, each the contract of a function that does nothing.
ghost use Rattle.std.specs.Prelude.{◌≡◌, ◌≤◌, ◌<◌, ◌+◌, ◌*◌, ℕ, true, false, List, All, Some, length, slice_range};
ghost use Rattle.std.specs.List.{flat_map};
ghost use Rattle.world_steps.specs.declared.Step.{Step};
ghost use Rattle.hda_world.specs.declared.world.TheConstants.{REGION_BYTES};
ghost use Rattle.hda_world.specs.Worlds.{World};
ghost use Rattle.hda_world.specs.Steps.{after_steps};
ghost use Rattle.hda_world.specs.Events.{Event, after};
ghost use Rattle.hda_world.specs.Tellings.{Telling, world_of, Makes};
ghost use Rattle.command_engine.specs.declared.ring_places.RingPlaces.{RingPlaces};
ghost use Rattle.command_engine.specs.Polling.{PollReads, poll_accesses};
ghost use Rattle.period_writer.specs.Standing.{Ring};
ghost use Rattle.period_writer.specs.Outcomes.{CanBegin, HasNotWrapped};
ghost use Rattle.hda_capture.specs.declared.course.Recorded.{Recorded};
ghost use Rattle.hda_capture.specs.Recorders.{RecorderState, IsRecorder, KeepsRecorderRing, measures_of};
ghost use Rattle.hda_capture.specs.Recordings.{is_record_late};
ghost use Rattle.hda_capture.specs.Calls.{StartsRecording, RecordsRun};
ghost use Rattle.laws_recording.specs.Filling.{recorder_ring};
ghost use Rattle.laws_recording.specs.Recording.{IsRecording, RecordedAs};
ghost use Rattle.laws_recording.specs.Beside.{LeaveRecording, LeavesFilling};

/// That a recorder records is kept by every step of the device.
pub fn steps_keep_recording()
    ensures { (recorder : RecorderState) (steps : List Step) (world : World)
        → IsRecording recorder world → IsRecording recorder (after_steps steps world) }
{}

/// It is kept by marks, by reads, and by writes that touch neither GCTL, nor a register of the input's descriptor other
/// than its status, nor the ring's blocks, while RIRB lies outside these. So it is by events, and by rows of accesses
/// between which the device makes steps, that beside these write no register of CORB or RIRB but RIRBSTS. The accesses
/// of a poll of the engine are such.
pub fn events_beside_keep_recording()
    ensures events { (recorder : RecorderState) (events : List Event) (world : World)
        → LeaveRecording (recorder_ring recorder) events world
        → IsRecording recorder world → IsRecording recorder (after events world) }
    ensures fillings { (recorder : RecorderState) (events : List Event) (world : World)
        → All (LeavesFilling (recorder_ring recorder)) events
        → IsRecording recorder world → IsRecording recorder (after events world) }
    ensures rows { (recorder : RecorderState) (made : List Event) (old new : Telling) → Makes made old new
        → All (LeavesFilling (recorder_ring recorder)) made
        → IsRecording recorder (world_of old) → IsRecording recorder (world_of new) }
    ensures polls { (ring : Ring) (rirb : ℕ) (rings : RingPlaces) (reads : PollReads)
        → All (LeavesFilling ring) (poll_accesses rirb rings reads) }
{}

/// A first run begins a recording from every world in which the controller is out of reset, the input stream does not
/// run, WALCLK counts the link frames, the FIFO is the geometry's, and RIRB lies outside the ring's blocks, as long as
/// WALCLK has not wrapped.
pub fn a_first_recording_begins()
    ensures { (old new : RecorderState) (before after : Telling)
        → IsRecorder old → KeepsRecorderRing old new → old.course.started ≡ false
        → StartsRecording old new (Some before) (Some after)
        → length (world_of before).memory ≡ REGION_BYTES → CanBegin (recorder_ring old) (world_of before)
        → HasNotWrapped (world_of after)
        → IsRecording new (world_of after) }
{}

/// A later run leaves the recorder as it answers, as long as WALCLK has not wrapped: it records on, or all that was to
/// be recorded was and the stream is stopped, or it was late and the stream is stopped, and then the bytes are those of
/// the runs before. Where it is not late, what it read are the bytes that were taken at the positions that follow those
/// that were read before. It is late where more link frames than the limit passed up to its begin since the first clock
/// of the run before, and on time where no more did up to its end.
pub fn recordings_go_on()
    ensures answer { (old new : RecorderState) (answer : Recorded) (before after : Telling)
        → IsRecorder old → KeepsRecorderRing old new
        → RecordsRun old answer new (Some before) (Some after)
        → IsRecording old (world_of before) → HasNotWrapped (world_of after)
        → RecordedAs answer new (world_of after) }
    ensures pieces { (old new : RecorderState) (answer : Recorded) (before after : Telling)
        → IsRecorder old → KeepsRecorderRing old new
        → (run : RecordsRun old answer new (Some before) (Some after))
        → IsRecording old (world_of before) → HasNotWrapped (world_of after)
        → is_record_late (measures_of old) old.course run.to ≡ false
        → flat_map (λ (piece : List ℕ). piece) run.pieces
        ≡ slice_range (world_of after).input.entered old.course.read new.course.read }
    ensures late { (old new : RecorderState) (answer : Recorded) (before after : Telling)
        → (run : RecordsRun old answer new (Some before) (Some after))
        → IsRecording old (world_of before) → HasNotWrapped (world_of after)
        → old.course.from + 500 * (measures_of old).limit < 500 * (world_of before).frames
        → is_record_late (measures_of old) old.course run.to ≡ true }
    ensures on_time { (old new : RecorderState) (answer : Recorded) (before after : Telling)
        → (run : RecordsRun old answer new (Some before) (Some after))
        → IsRecording old (world_of before) → HasNotWrapped (world_of after)
        → 500 * (world_of after).frames ≤ old.course.from + 500 * (measures_of old).limit
        → is_record_late (measures_of old) old.course run.to ≡ false }
{}
