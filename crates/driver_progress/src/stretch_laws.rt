//! Laws of the stretches, each the contract of a function that does nothing: their accesses are those that progress
//! expects, and lead where it says.
ghost use Rattle.std.specs.Prelude.{◌≡◌, ◌≤◌, ℕ, Bool, List, [], ◌∷◌, ◌++◌, if◌then◌else◌, length, map, drop, true};
ghost use Rattle.std.specs.Prelude.{false, Option, None};
ghost use Rattle.verb_codes.specs.Words.{has_bit};
ghost use Rattle.command_engine.specs.declared.ring_places.RingPlaces.{RingPlaces};
ghost use Rattle.command_engine.specs.Starting.{StartReads};
ghost use Rattle.command_engine.specs.Polling.{PollReads, AreNew, poll_accesses};
ghost use Rattle.driver_progress.specs.Requests.{requests_of};
ghost use Rattle.std.specs.Option.{is_some};
ghost use Rattle.world_rings.specs.declared.response.Response.{Response};
ghost use Rattle.hda_registers.specs.declared.shapes.Width.TheVariants.{Four};
ghost use Rattle.hda_registers.specs.declared.places.TheConstants.{INTSTS};
ghost use Rattle.hda_world.specs.Worlds.{World, TakenCommand};
ghost use Rattle.hda_world.specs.Events.{Event, Read};
ghost use Rattle.hda_world.specs.Tellings.{Telling, world_of, Makes};
ghost use Rattle.command_engine.specs.Fetchings.{Stands};
ghost use Rattle.command_engine.specs.Entries.{answer_among};
ghost use Rattle.command_engine.specs.Belonging.{as_held};
ghost use Rattle.driver_progress.specs.Tasks.{Task, DriverLine};
ghost use Rattle.driver_progress.specs.Progress.{trail_of, trail_opened, is_answered, Conforms};
ghost use Rattle.driver_progress.specs.Noting.{with_accesses};
ghost use Rattle.world_steps.specs.declared.Step.{Step};
ghost use Rattle.hda_world.specs.Steps.{after_steps};
ghost use Rattle.driver_progress.specs.Beginning.{CanReset, IsSettling, IsUntaken, LeavesUntaken};
ghost use Rattle.driver_progress.specs.Answers.{has_answer, AnswersAgree};
ghost use Rattle.driver_progress.specs.Seen.{Seen, seen_by, values_of};
ghost use Rattle.driver_progress.specs.States.{State};
ghost use Rattle.driver_progress.specs.Expected as expected;
ghost use Rattle.driver_progress.specs.Resetting.{reset_accesses};
ghost use Rattle.driver_progress.specs.Settling.{settle_accesses};
ghost use Rattle.driver_progress.specs.Interrupts.{clear_accesses, interrupt_accesses};
ghost use Rattle.driver_progress.specs.Shutting.{shut_accesses};

/// The accesses are those that are expected: of a reset, of a look whether the codecs had their time, of a poll, of a
/// look for interrupts and of the end.
pub fn stretches_are_expected()
    ensures resets { (in_reset control clock : ℕ)
        → requests_of (reset_accesses in_reset control clock) ≡ expected.resets }
    ensures settles { (task : Task) (state : State) (clock : ℕ) (reads : StartReads) (answered : Bool)
        → requests_of (settle_accesses state.kept clock task.blocks.corb task.blocks.rirb reads)
        ≡ expected.settles task state
        (seen_by (values_of (settle_accesses state.kept clock task.blocks.corb task.blocks.rirb reads)) answered) }
    ensures polls { (rirb : ℕ) (rings : RingPlaces) (reads : PollReads) (seen : Seen) → AreNew rings reads
        → seen.flag ≡ reads.flag
        → (has_bit reads.flag 0 ≡ true → seen.pointer ≡ reads.pointer)
        → requests_of (poll_accesses rirb rings reads) ≡ expected.polls rirb rings seen }
    ensures interrupts { (interrupts stream : ℕ) (seen : Seen) (called : List Event) → seen.interrupts ≡ interrupts
        → (has_bit interrupts 1 ≡ true → seen.stream ≡ stream)
        → requests_of (Read INTSTS Four interrupts ∷ (if has_bit interrupts 31 then clear_accesses interrupts
        stream ++ called else []))
        ≡ expected.interrupted_if true seen (requests_of called) }
    ensures shuts { requests_of shut_accesses ≡ expected.shuts }
{}

/// Over a poll that is told a stretch gains the poll's accesses, and whether the outstanding command was answered is
/// said by what is written to RIRB once the poll is done: while RINTFL is 1 nothing more is.
pub fn polls_are_noted()
    ensures { (task : Task) (lines : List DriverLine) (rirb : ℕ) (rings : RingPlaces) (reads : PollReads)
        (old new : Telling)
        → Makes (poll_accesses rirb rings reads) old new → (world_of old).registers.global.response_flag ≤ 1
        → (trail_of task lines new ≡ record (with_accesses (trail_of task lines old) (poll_accesses rirb rings reads))
        { answered = is_answered (trail_of task lines old) (world_of new) })
        × (Conforms task old.journal old.start (trail_opened lines)
        → Conforms task new.journal new.start (trail_opened lines)) }
{}

/// A poll finds an answer exactly where one of the responses is one that were not read. That these are just those that
/// came since the submission is kept by what is written later, and by a poll that finds none; it holds from a
/// submission on, and where nothing is asked.
pub fn answers_agree()
    ensures found { (asked : Option ℕ) (responses : List Response)
        → is_some (answer_among asked (map as_held responses)) ≡ has_answer asked responses }
    ensures grows { (asked : Option ℕ) (submitted read : ℕ) (written more : List Response)
        → AnswersAgree asked submitted read written → AnswersAgree asked submitted read (written ++ more) }
    ensures polled { (asked : Option ℕ) (submitted read : ℕ) (written : List Response)
        → AnswersAgree asked submitted read written
        → has_answer asked (drop read written) ≡ false → AnswersAgree asked submitted (length written) written }
    ensures submitted { (from read corb rirb : ℕ) (rings : RingPlaces) (world : World) (asked : Option ℕ)
        → Stands from read corb rirb rings world → rings.outstanding ≡ None
        → AnswersAgree asked (length world.written) read world.written }
    ensures none { (submitted read : ℕ) (written : List Response) → submitted ≤ length written → read ≤ length written
        → AnswersAgree None submitted read written }
{}

/// Where a reset can be made, and where the codecs announce themselves after one, stays so over steps of the device and
/// over looks for interrupts. While CORB's engine does not run, no codec takes a command over either.
pub fn a_reset_stays()
    ensures before { (corb rirb : ℕ) (steps : List Step) (world : World) → CanReset corb rirb world
        → CanReset corb rirb (after_steps steps world) }
    ensures later { (corb rirb : ℕ) (steps : List Step) (world : World) → IsSettling corb rirb world
        → IsSettling corb rirb (after_steps steps world) }
    ensures untaken { (commands : List TakenCommand) (steps : List Step) (world : World) → IsUntaken commands world
        → IsUntaken commands (after_steps steps world) }
    ensures before_looks { (corb rirb interrupts stream : ℕ) (old new : Telling)
        → Makes (interrupt_accesses interrupts stream) old new → CanReset corb rirb (world_of old)
        → CanReset corb rirb (world_of new) }
    ensures untaken_looks { (interrupts stream : ℕ) (old new : Telling)
        → Makes (interrupt_accesses interrupts stream) old new → LeavesUntaken old new }
    ensures later_looks { (corb rirb interrupts stream : ℕ) (old new : Telling)
        → Makes (interrupt_accesses interrupts stream) old new → IsSettling corb rirb (world_of old)
        → IsSettling corb rirb (world_of new) }
{}
