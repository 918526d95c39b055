//! Laws of streams that do not run, each the contract of a function that does nothing.
ghost use Rattle.std.specs.Prelude.{◌≡◌, false, ℕ, List, [], All, Option};
ghost use Rattle.world_steps.specs.declared.Step.{Step};
ghost use Rattle.hda_world.specs.Worlds.{World};
ghost use Rattle.hda_world.specs.Steps.{after_steps};
ghost use Rattle.hda_registers.specs.declared.shapes.Width.TheVariants.{Four};
ghost use Rattle.hda_registers.specs.declared.places.TheConstants.{GCTL};
ghost use Rattle.hda_world.specs.Events.{Event, after, after_write};
ghost use Rattle.hda_world.specs.Tellings.{Telling, world_of, Makes};
ghost use Rattle.command_engine.specs.declared.ring_places.RingPlaces.{RingPlaces};
ghost use Rattle.command_engine.specs.Fetchings.{Stands};
ghost use Rattle.period_writer.specs.Standing.{Ring};
ghost use Rattle.period_writer.specs.Outcomes.{CanBegin};
ghost use Rattle.driver_progress.specs.Tasks.{Task, DriverLine};
ghost use Rattle.driver_progress.specs.States.{State};
ghost use Rattle.driver_progress.specs.Requests.{requests_of};
ghost use Rattle.driver_progress.specs.Seen.{Seen};
ghost use Rattle.driver_progress.specs.Next.{expected};
ghost use Rattle.laws_stream.specs.Resting.{Rests, LeavesRest, AreApartFrom};
ghost use Rattle.laws_stream.specs.Silent.{plays_in};

/// Where no link frame carried anything, a reset of the controller brings streams to rest. Those that rest go on
/// resting over steps of the device, and over events that write nothing of the descriptors but a status. The accesses
/// that progress expects of a stretch in which no sound is played are such events.
pub fn streams_rest_before_sound()
    ensures reset { (world : World) → world.carried ≡ []
        → Rests world.registers.shape.fifo (after_write GCTL Four 0 world) }
    ensures steps { (fifo : ℕ) (steps : List Step) (world : World) → Rests fifo world
        → Rests fifo (after_steps steps world) }
    ensures events { (fifo : ℕ) (events : List Event) (world : World) → All LeavesRest events → Rests fifo world
        → Rests fifo (after events world) }
    ensures rows { (fifo : ℕ) (made : List Event) (old new : Telling) → Makes made old new → All LeavesRest made
        → Rests fifo (world_of old) → Rests fifo (world_of new) }
    ensures stretches { (task : Task) (state : State) (turn : Option DriverLine) (seen : Seen) (made : List Event)
        → plays_in task turn state.phase ≡ false
        → requests_of made ≡ expected task state turn seen → All LeavesRest made }
{}

/// A first run may begin where streams rest and the engine of commands stands to the world, with RIRB beside the ring's
/// blocks.
pub fn a_first_run_can_begin()
    ensures { (ring : Ring) (from read corb rirb : ℕ) (rings : RingPlaces) (world : World)
        → Rests ring.geometry.fifo world → Stands from read corb rirb rings world
        → AreApartFrom ring rirb → CanBegin ring world }
{}
