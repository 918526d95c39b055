//! Laws of the input stream in the world, each the contract of a function that does nothing.
ghost use Rattle.std.specs.Prelude.{◌≡◌, ℕ, true, false, List, [], slice_index};
ghost use Rattle.hda_registers.specs.declared.shapes.Width.{Width};
ghost use Rattle.hda_registers.specs.Fields.{is_running};
ghost use Rattle.hda_registers.specs.Access.{written, rose};
ghost use Rattle.world_steps.specs.declared.Step.{Step};
ghost use Rattle.hda_world.specs.Worlds.{World, input_of};
ghost use Rattle.hda_world.specs.Steps.{after_step, after_steps};
ghost use Rattle.hda_world.specs.Events.{Event, IsNoStep, after_write, happens, after};
ghost use Rattle.hda_world.specs.Leaving.{IsOutsideRirb};
ghost use Rattle.hda_world.specs.Streaming.{HoldsTaken, HasTakenPosition, ShowsTakenReady, HasTakenBlocks};
ghost use Rattle.hda_world.specs.Streaming.{HearsPin, HasFetchedAll, HasTakenSound, StaysUntaken};
ghost use Rattle.hda_world.specs.Buffers.{IsOutsideBuffers, HasListOutsideBuffers, KeepsListApart, HasListOutsideRirb};

/// Steps of the device store no byte of the input stream that was not taken, and take none for which its FIFO has no
/// room.
pub fn steps_keep_taken()
    ensures { (steps : List Step) (world : World) → HoldsTaken world → HoldsTaken (after_steps steps world) }
{}

/// No access stores or takes such a byte either; where RUN rises both begin with none.
pub fn accesses_keep_taken()
    ensures { (event : Event) (world : World) → IsNoStep event → HoldsTaken world → HoldsTaken (happens world event) }
{}

/// While the input stream runs LPIB is the bytes taken modulo CBL, over any steps of the device (HDA 1.0a, 3.3.37).
pub fn steps_keep_taken_position()
    ensures { (steps : List Step) (world : World) → HasTakenPosition world
        → HasTakenPosition (after_steps steps world) }
{}

/// Accesses of the driver keep LPIB the bytes taken modulo CBL (HDA 1.0a, 3.3.37).
pub fn accesses_keep_taken_position()
    ensures { (event : Event) (world : World) → IsNoStep event → HasTakenPosition world
        → HasTakenPosition (happens world event) }
{}

/// FIFORDY says that the input stream runs, has a format, and holds the most bytes of a frame, over any steps of the
/// device (HDA 1.0a, 3.3.36).
pub fn steps_keep_taken_ready()
    ensures { (steps : List Step) (world : World) → ShowsTakenReady world → ShowsTakenReady (after_steps steps world) }
{}

/// Accesses of the driver keep that FIFORDY says whether the input stream is ready (HDA 1.0a, 3.3.36).
pub fn accesses_keep_taken_ready()
    ensures { (event : Event) (world : World) → IsNoStep event → ShowsTakenReady world
        → ShowsTakenReady (happens world event) }
{}

/// What entered the input stream's FIFO since RUN rose is the blocks that came and were taken, each once and in order,
/// over any steps of the device: block i of those that came is block i of the given sound, or silence.
pub fn steps_keep_taken_order()
    ensures { (steps : List Step) (world : World) → HasTakenBlocks world → HasTakenBlocks (after_steps steps world) }
{}

/// While CORB's engine has no command to fetch and the one input converter that takes the stream hears a pin, what was
/// taken since RUN rose is the given sound's blocks, over any steps of the device; and both stay so.
pub fn steps_keep_taken_sound()
    ensures { (nid : ℕ) (steps : List Step) (world : World) → HasFetchedAll world → HearsPin nid world
        → HasTakenSound world
        → HasFetchedAll (after_steps steps world) × HearsPin nid (after_steps steps world)
        × HasTakenSound (after_steps steps world) }
{}

/// After a write by which RUN of the input stream rises no block came yet, and every other write leaves what came and
/// keeps the order of those that were taken.
pub fn writes_begin_taken_order()
    ensures begins { (world : World) (at value : ℕ) (width : Width)
        → rose world.registers.input (written world.registers at width value).input ≡ true
        → ((after_write at width value world).came ≡ []) × ((after_write at width value world).input.entered ≡ []) }
    ensures keeps { (world : World) (at value : ℕ) (width : Width)
        → rose world.registers.input (written world.registers at width value).input ≡ false
        → HasTakenBlocks world → HasTakenBlocks (after_write at width value world) }
    ensures stays { (world : World) (at value : ℕ) (width : Width)
        → rose world.registers.input (written world.registers at width value).input ≡ false
        → (after_write at width value world).came ≡ world.came }
{}

/// Steps of the device leave an input stream that does not run, as it is after an error of its descriptor too.
pub fn steps_leave_stopped_inputs()
    ensures { (steps : List Step) (world : World) → is_running world.registers.input ≡ false
        → StaysUntaken world.registers.input world.input world.came (after_steps steps world) }
{}

/// Where RUN of the input stream rises and its list lies outside all buffers that it names, it lies apart from them as
/// [`steps_write_rirb_and_buffers`] asks: no entry is in use yet, and the one that is read next is the first.
pub fn inputs_begin_in_their_list()
    ensures { (world : World) (at value : ℕ) (width : Width)
        → rose world.registers.input (written world.registers at width value).input ≡ true
        → HasListOutsideBuffers (after_write at width value world)
        → KeepsListApart (after_write at width value world) }
{}

/// Where the input stream runs and its list lies outside all buffers that the list and the entry in use name, a step of
/// the device changes memory in RIRB and in these buffers alone; and so do steps in turn, where the list lies outside
/// RIRB too, and then it still lies so. That the list lies so says too that the entry that is read next is one of the
/// list's, and that of a buffer in use a byte is left, of one that is read next none was stored:
/// [`inputs_begin_in_their_list`].
pub fn steps_write_rirb_and_buffers()
    ensures one { (step : Step) (world : World) (at : ℕ) → KeepsListApart world → IsOutsideRirb world.registers at
        → IsOutsideBuffers world.memory (input_of world) at
        → slice_index (after_step step world).memory at ≡ slice_index world.memory at }
    ensures all { (steps : List Step) (world : World) (at : ℕ) → KeepsListApart world → HasListOutsideRirb world
        → IsOutsideRirb world.registers at → IsOutsideBuffers world.memory (input_of world) at
        → slice_index (after_steps steps world).memory at ≡ slice_index world.memory at }
    ensures kept { (steps : List Step) (world : World) → KeepsListApart world → HasListOutsideRirb world
        → KeepsListApart (after_steps steps world) × HasListOutsideRirb (after_steps steps world) }
{}

/// No step and no access changes the sound that pins are given.
pub fn the_given_sound_stays()
    ensures { (events : List Event) (world : World) → (after events world).given ≡ world.given }
{}
