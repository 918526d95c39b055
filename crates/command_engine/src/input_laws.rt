//! Laws of an input stream beside the engine, each the contract of a function that does nothing.
ghost use Rattle.std.specs.Prelude.{◌≡◌, ◌%◌, ◌+◌, ℕ, true, false, List, All};
ghost use Rattle.hda_registers.specs.declared.places.TheConstants.{GCTL, INPUT_DESCRIPTOR, SDSTS};
ghost use Rattle.hda_registers.specs.declared.shapes.Width.{Width};
ghost use Rattle.hda_registers.specs.declared.shapes.Width.TheVariants.{One, Four};
ghost use Rattle.hda_registers.specs.Fields.{is_running};
ghost use Rattle.hda_registers.specs.Access.{written, rose};
ghost use Rattle.hda_world.specs.Worlds.{World, input_of};
ghost use Rattle.hda_world.specs.Buffers.{HasListOutsideBuffers};
ghost use Rattle.hda_world.specs.Events.{Event, after_write, after};
ghost use Rattle.command_engine.specs.declared.ring_places.RingPlaces.{RingPlaces};
ghost use Rattle.command_engine.specs.Apart.{InputIsApart, LeavesInput, IsBesideBoth, LiesBeside};
ghost use Rattle.command_engine.specs.Blocks.{corb_bytes, rirb_bytes};
ghost use Rattle.command_engine.specs.Quiet.{LeavesRegisters, LeaveRegisters};
ghost use Rattle.command_engine.specs.Fetchings.{IsBeside, AreBeside, Stands};

/// How an engine stands to the world is kept by steps, marks, reads, and writes of registers that are neither GCTL, nor
/// of CORB or RIRB, nor of the input's descriptor, whether the input stream runs or not.
pub fn events_beside_input_keep_standing()
    ensures { (from read corb rirb : ℕ) (rings : RingPlaces) (events : List Event) (world : World)
        → All IsBesideBoth events
        → Stands from read corb rirb rings world → Stands from read corb rirb rings (after events world) }
{}

/// Where the input stream does not run, events beside the engine that write neither GCTL nor a register of the input's
/// descriptor leave it apart.
pub fn stopped_inputs_stay_beside()
    ensures { (corb rirb : ℕ) (events : List Event) (world : World) → All (IsBeside corb rirb) events
        → All LeavesInput events → is_running world.registers.input ≡ false → AreBeside corb rirb events world }
{}

/// The same for events that are no write of GCTL or of a register of CORB or RIRB: where the input stream does not run,
/// they leave it apart if none writes a register of its descriptor.
pub fn stopped_inputs_leave_registers()
    ensures { (corb rirb : ℕ) (events : List Event) (world : World) → All LeavesRegisters events
        → All LeavesInput events → is_running world.registers.input ≡ false → LeaveRegisters corb rirb events world }
{}

/// A write of the input stream's status leaves it apart, and so does every write of a register after which RUN of its
/// descriptor is 0. Where RUN rises it is apart, if its list lies outside all buffers that it names, and they and the
/// list outside both blocks.
pub fn writes_leave_inputs_apart()
    ensures status { (corb rirb value : ℕ) (world : World) → InputIsApart corb rirb world
        → InputIsApart corb rirb (after_write (INPUT_DESCRIPTOR + SDSTS) One value world) }
    ensures stop { (corb rirb at value : ℕ) (width : Width) (world : World)
        → is_running (written world.registers at width value).input ≡ false
        → InputIsApart corb rirb (after_write at width value world) }
    ensures rise { (corb rirb at value : ℕ) (width : Width) (world : World)
        → rose world.registers.input (written world.registers at width value).input ≡ true
        → let new = after_write at width value world in HasListOutsideBuffers new
        → LiesBeside corb corb_bytes new.memory (input_of new) → LiesBeside rirb rirb_bytes new.memory (input_of new)
        → InputIsApart corb rirb new }
{}

/// An input stream that does not run stays so over steps of the device, and over events that write neither GCTL nor a
/// register of its descriptor; and while it does not run it is apart. A reset stops it (HDA 1.0a, 5.5.1). So a driver
/// that never sets it going has it apart at every moment.
pub fn a_stopped_input_stays_apart()
    ensures stays { (events : List Event) (world : World) → All LeavesInput events
        → is_running world.registers.input ≡ false → is_running (after events world).registers.input ≡ false }
    ensures apart { (corb rirb : ℕ) (world : World) → is_running world.registers.input ≡ false
        → InputIsApart corb rirb world }
    ensures reset { (corb rirb value : ℕ) (world : World) → value % 2 ≡ 0
        → InputIsApart corb rirb (after_write GCTL Four value world) }
{}
