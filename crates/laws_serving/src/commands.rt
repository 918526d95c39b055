//! Laws of served rings, each the contract of a function that does nothing.
ghost use Rattle.std.specs.Prelude.{◌≡◌, ◌%◌, ◌^◌, ℕ, true, List, None, Some, drop, length};
ghost use Rattle.std.specs.Option.{is_some};
ghost use Rattle.std.specs.List.{list_any};
ghost use Rattle.world_steps.specs.declared.Step.{Step};
ghost use Rattle.hda_registers.specs.Fields.{entries_of};
ghost use Rattle.world_rings.specs.Entries.{next_place};
ghost use Rattle.hda_world.specs.Worlds.{World, codec_at};
ghost use Rattle.hda_world.specs.Steps.{address_of, after_steps};
ghost use Rattle.command_engine.specs.declared.ring_places.RingPlaces.{RingPlaces};
ghost use Rattle.command_engine.specs.declared.answers.Outstanding.{Outstanding};
ghost use Rattle.command_engine.specs.Entries.{answers_it};
ghost use Rattle.command_engine.specs.Submitting.{command_place};
ghost use Rattle.command_engine.specs.Belonging.{from_after};
ghost use Rattle.command_engine.specs.Told.{found_since};
ghost use Rattle.laws_serving.specs.ServingDevices.{keeps_answers, KeepAnswers, ComeInOrder, round_trip, ServesBy};
ghost use Rattle.laws_serving.specs.ServingDevices.{StandsServed, IsComing, HasItsCodec, NamesItsCodec};

/// A device that serves the rings goes on doing so over every step by which no answer is lost and nothing is plugged in
/// or out.
pub fn steps_keep_serving()
    ensures { (from read corb rirb : ℕ) (rings : RingPlaces) (steps : List Step) (world : World) → KeepAnswers steps
        → HasItsCodec rings.outstanding world.codecs → StandsServed from read corb rirb rings world
        → StandsServed from read corb rirb rings (after_steps steps world) }
{}

/// Over steps among which CORB's engine, the codec of the outstanding command and RIRB's engine come in this order, the
/// answer to that command is written to RIRB: a response of its codec that did not come unasked, among those that were
/// not read. So it is whatever other steps by which no answer is lost stand among them.
pub fn round_trips_answer()
    ensures { (from read corb rirb : ℕ) (rings : RingPlaces) (command : Outstanding) (steps : List Step)
        (world : World)
        → rings.outstanding ≡ Some command → address_of command.word ≡ command.codec
        → is_some (codec_at command.codec world.codecs) ≡ true → StandsServed from read corb rirb rings world
        → IsComing from world → KeepAnswers steps → ComeInOrder (round_trip command.codec) steps
        → list_any (answers_it (Some command.codec)) (drop read (after_steps steps world).written) ≡ true }
{}

/// A look for an answer reads all that was written to RIRB and clears RINTFL. Then the device serves the rings as
/// before, counted from there: what was answered is not on its way any more.
pub fn looks_keep_serving()
    ensures { (from read corb rirb : ℕ) (rings : RingPlaces) (world : World)
        → StandsServed from read corb rirb rings world
        → NamesItsCodec rings.outstanding
        → ServesBy (from_after (found_since read rings world) from world.commands) (length world.written)
        (record world.registers.global { response_flag = 0 }) world.codecs world.waiting world.commands world.written }
{}

/// Where nothing is outstanding, the entry of CORB for the next command is the one that CORB's engine fetches next.
pub fn a_submission_comes()
    ensures { (from read corb rirb : ℕ) (rings : RingPlaces) (world : World)
        → StandsServed from read corb rirb rings world
        → rings.outstanding ≡ None
        → next_place world.registers.global.corb_read_pointer (entries_of world.registers.shape.corb)
        ≡ command_place rings % 2 ^ 8 % entries_of world.registers.shape.corb }
{}
