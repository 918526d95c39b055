//! Laws of the streams in the world, each the contract of a function that does nothing.
ghost use Rattle.std.specs.Prelude.{◌≡◌, ◌≢◌, ◌/◌, ℕ, true, false, List, length, All};
ghost use Rattle.hda_registers.specs.declared.shapes.Width.{Width};
ghost use Rattle.hda_registers.specs.Fields.{is_running, is_out_of_reset};
ghost use Rattle.hda_registers.specs.Access.{written, rose};
ghost use Rattle.hda_registers.specs.Laws.{IsBesideStreams};
ghost use Rattle.world_steps.specs.declared.Step.{Step};
ghost use Rattle.hda_world.specs.Worlds.{World};
ghost use Rattle.hda_world.specs.Steps.{after_step, after_steps};
ghost use Rattle.hda_world.specs.Events.{Event, IsNoStep, after_write, happens};
ghost use Rattle.hda_world.specs.Leaving.{NamesNoStream, StreamsStay};
ghost use Rattle.hda_world.specs.Streaming.{HoldsFifo, HasPosition, ShowsReady, HasSent, StaysStopped};

/// Steps of the device send no byte of the output stream that was not fetched, and fetch none for which its FIFO has no
/// room.
pub fn steps_keep_fifo()
    ensures { (steps : List Step) (world : World) → HoldsFifo world → HoldsFifo (after_steps steps world) }
{}

/// No access sends or fetches such a byte either; where RUN rises both begin with none.
pub fn accesses_keep_fifo()
    ensures { (event : Event) (world : World) → IsNoStep event → HoldsFifo world → HoldsFifo (happens world event) }
{}

/// While the output stream runs LPIB is the bytes sent modulo CBL, over any steps of the device (HDA 1.0a, 3.3.37).
pub fn steps_keep_position()
    ensures { (steps : List Step) (world : World) → HasPosition world → HasPosition (after_steps steps world) }
{}

/// FIFORDY says that the output stream runs, has a format, and holds the most bytes of a frame, over any steps of the
/// device (HDA 1.0a, 3.3.36).
pub fn steps_keep_ready()
    ensures { (steps : List Step) (world : World) → ShowsReady world → ShowsReady (after_steps steps world) }
{}

/// What link frames carried of the output stream is what was fetched, in order, over any steps of the device.
pub fn steps_keep_order()
    ensures { (from : ℕ) (steps : List Step) (world : World) → HasSent from world
        → HasSent from (after_steps steps world) }
{}

/// Steps of the device leave an output stream that does not run, as it is after an error of its descriptor too.
pub fn steps_leave_stopped_streams()
    ensures { (steps : List Step) (world : World) → is_running world.registers.output ≡ false
        → StaysStopped world.registers.output world.output world.carried (after_steps steps world) }
{}

/// A step that names no stream leaves both, and so do steps in turn.
pub fn steps_leave_streams()
    ensures one { (step : Step) (world : World) → NamesNoStream step → StreamsStay world (after_step step world) }
    ensures all { (steps : List Step) (world : World) → All NamesNoStream steps
        → StreamsStay world (after_steps steps world) }
{}

/// A write that is neither at GCTL nor at a stream descriptor leaves both streams, and so does one to GCTL after which
/// CRST is 1.
pub fn write_beside_streams_leaves()
    ensures beside { (world : World) (at value : ℕ) (width : Width) → at / 4 ≢ 2 → IsBesideStreams at
        → StreamsStay world (after_write at width value world) }
    ensures running { (world : World) (at value : ℕ) (width : Width) → IsBesideStreams at
        → is_out_of_reset (after_write at width value world).registers.global ≡ true
        → StreamsStay world (after_write at width value world) }
{}

/// Accesses of the driver keep LPIB the bytes sent modulo CBL (HDA 1.0a, 3.3.37).
pub fn accesses_keep_position()
    ensures { (event : Event) (world : World) → IsNoStep event → HasPosition world → HasPosition (happens world event) }
{}

/// Accesses of the driver keep that FIFORDY says whether the stream is ready (HDA 1.0a, 3.3.36).
pub fn accesses_keep_ready()
    ensures { (event : Event) (world : World) → IsNoStep event → ShowsReady world → ShowsReady (happens world event) }
{}

/// A write by which RUN rises begins the order of the sound at the next link frame, and every other write keeps it.
pub fn writes_keep_order()
    ensures begins { (world : World) (at value : ℕ) (width : Width)
        → rose world.registers.output (written world.registers at width value).output ≡ true
        → HasSent (length world.carried) (after_write at width value world) }
    ensures keeps { (world : World) (from at value : ℕ) (width : Width)
        → rose world.registers.output (written world.registers at width value).output ≡ false
        → HasSent from world → HasSent from (after_write at width value world) }
{}
