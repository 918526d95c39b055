//! Laws of the engine, each the contract of a function that does nothing.
ghost use Rattle.std.specs.Prelude.{◌≡◌, ◌≤◌, ◌%◌, ℕ, List, All, length, drop};
ghost use Rattle.codec_graph.specs.CodecStates.{CodecState, answer_to};
ghost use Rattle.world_steps.specs.declared.Step.{Step};
ghost use Rattle.hda_registers.specs.declared.places.TheConstants.{GCTL};
ghost use Rattle.hda_registers.specs.declared.shapes.RingSize.{RingSize};
ghost use Rattle.hda_registers.specs.declared.shapes.Width.TheVariants.{Four};
ghost use Rattle.hda_world.specs.Worlds.{World, TakenCommand};
ghost use Rattle.hda_world.specs.Steps.{after_steps};
ghost use Rattle.hda_world.specs.Events.{Event, after_write, after};
ghost use Rattle.command_engine.specs.declared.ring_places.RingPlaces.{RingPlaces};
ghost use Rattle.command_engine.specs.declared.answers.Outstanding.{Outstanding};
ghost use Rattle.command_engine.specs.Sizes.{half_of};
ghost use Rattle.command_engine.specs.Fetchings.{HasBlocks, AscendByAddress, AreBeside, Stands};
ghost use Rattle.command_engine.specs.Belonging.{IsAnswered, IsSettled, TookSettled};
ghost use Rattle.command_engine.specs.Apart.{LeavesInput};
ghost use Rattle.command_engine.specs.Quiet.{IsQuiet, CanStart, LeaveRegisters, LeavesRegisters};

/// How an engine stands to the world is kept by every step of the device: at most one answer is on its way to it, and
/// that is the answer to its outstanding command by the codec as it was when it took it.
pub fn steps_keep_standing()
    ensures { (from read corb rirb : ℕ) (rings : RingPlaces) (steps : List Step) (world : World)
        → Stands from read corb rirb rings world → Stands from read corb rirb rings (after_steps steps world) }
{}

/// It is kept too by marks, reads, and writes that touch neither GCTL, nor a register of CORB or RIRB, nor the engine's
/// blocks, and after which what the input stream stores lies apart from these blocks.
pub fn events_beside_keep_standing()
    ensures { (from read corb rirb : ℕ) (rings : RingPlaces) (events : List Event) (world : World)
        → AreBeside corb rirb events world → Stands from read corb rirb rings world
        → Stands from read corb rirb rings (after events world) }
{}

/// At most as many responses stand unread as RINTCNT says, half of RIRB's entries, so a poll that is told reads at most
/// 128.
pub fn few_responses_are_unread()
    ensures unread { (from read corb rirb : ℕ) (rings : RingPlaces) (world : World)
        → Stands from read corb rirb rings world
        → length (drop read world.written) ≤ half_of rings.rirb }
    ensures half { (size : RingSize) → half_of size ≤ 128 }
{}

/// While neither ring runs and no answer to a command waits, it stays so over steps of the device and over every event
/// that is no write of GCTL or of a register of CORB or RIRB, and that leaves the input stream apart.
pub fn the_world_stays_quiet()
    ensures steps { (corb rirb : ℕ) (steps : List Step) (world : World) → IsQuiet corb rirb world
        → IsQuiet corb rirb (after_steps steps world) }
    ensures events { (corb rirb : ℕ) (events : List Event) (world : World) → LeaveRegisters corb rirb events world
        → IsQuiet corb rirb world
        → IsQuiet corb rirb (after events world) }
{}

/// What a start asks of the world is kept by steps of the device and by every event that is no write of GCTL or of a
/// register of CORB or RIRB, and that leaves the input stream apart. So a driver may reset the controller in one
/// stretch and start the engine in a later one.
pub fn a_start_stays_possible()
    ensures steps { (corb rirb : ℕ) (steps : List Step) (world : World) → CanStart corb rirb world
        → CanStart corb rirb (after_steps steps world) }
    ensures events { (corb rirb : ℕ) (events : List Event) (world : World) → LeaveRegisters corb rirb events world
        → CanStart corb rirb world
        → CanStart corb rirb (after events world) }
{}

/// A reset leads to a start, from every world whose codecs ascend by address up to 14 and whose region has both blocks:
/// a write of GCTL whose CRST is 0 quiets it, one whose CRST is 1 then makes a start possible, and so do both with
/// other events before and after the second (HDA 1.0a, 4.3). Since the first stops the input stream too, events leave
/// it apart that write no register of its descriptor.
pub fn a_reset_leads_to_a_start()
    ensures resets { (corb rirb value : ℕ) (world : World) → value % 2 ≡ 0 → HasBlocks corb rirb (length world.memory)
        → AscendByAddress world.codecs → IsQuiet corb rirb (after_write GCTL Four value world) }
    ensures rises { (corb rirb value : ℕ) (world : World) → value % 2 ≡ 1 → IsQuiet corb rirb world
        → CanStart corb rirb (after_write GCTL Four value world) }
    ensures leads { (corb rirb : ℕ) (before later : List Event) (world : World)
        → HasBlocks corb rirb (length world.memory)
        → AscendByAddress world.codecs → LeaveRegisters corb rirb before (after_write GCTL Four 0 world)
        → LeaveRegisters corb rirb later
        (after_write GCTL Four 0x101 (after before (after_write GCTL Four 0 world)))
        → CanStart corb rirb (after later
        (after_write GCTL Four 0x101 (after before (after_write GCTL Four 0 world)))) }
    ensures leaves { (corb rirb : ℕ) (before later : List Event) (world : World)
        → HasBlocks corb rirb (length world.memory) → AscendByAddress world.codecs
        → All LeavesRegisters before → All LeavesInput before → All LeavesRegisters later → All LeavesInput later
        → CanStart corb rirb (after later
        (after_write GCTL Four 0x101 (after before (after_write GCTL Four 0 world)))) }
{}

/// Codecs whose graphs are well-formed keep settings of their graphs over every event, and take each command with such
/// settings. Then an answer to the outstanding command is the codec's answer whole, and not only its lower 32 bits.
pub fn settled_codecs_answer_whole()
    ensures settled { (events : List Event) (world : World) → All IsSettled world.codecs
        → All IsSettled (after events world).codecs
        × All TookSettled (drop (length world.commands) (after events world).commands) }
    ensures whole { (from : ℕ) (command : Outstanding) (codecs : List CodecState) (commands : List TakenCommand)
        (value : ℕ)
        → All TookSettled (drop from commands) → (is : IsAnswered from command codecs commands value)
        → value ≡ answer_to is.taken.codec is.taken.word }
{}
