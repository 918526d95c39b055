//! Laws of what is noted beside rules: whether the command that they ask was answered, and the runs. Each is the
//! contract of a function that does nothing.
ghost use Rattle.std.specs.Prelude.{◌≡◌, ◌≤◌, ℕ, true, false, List, [], ◌∷◌, length, map, Option, Some, None};
ghost use Rattle.world_steps.specs.declared.Step.{Step};
ghost use Rattle.command_engine.specs.declared.ring_places.RingPlaces.{RingPlaces};
ghost use Rattle.command_engine.specs.Polling.{PollReads, poll_accesses};
ghost use Rattle.command_engine.specs.Submitting.{submit_accesses};
ghost use Rattle.hda_world.specs.Events.{Event, Stepped, Begin, End};
ghost use Rattle.hda_world.specs.Tellings.{Telling, Went, Accessed, Makes, world_of};
ghost use Rattle.period_writer.specs.Runs.{Tally, measures, tally_of_stretches};
ghost use Rattle.driver_progress.specs.Noting.{ArePlain};
ghost use Rattle.driver_progress.specs.Stretches.{stretches_of};
ghost use Rattle.driver_progress.specs.Tasks.{Task, DriverLine};
ghost use Rattle.driver_progress.specs.Progress.{trail_of};
ghost use Rattle.driver_rules.specs.Rules.{Rules};
ghost use Rattle.driver_rules.specs.Onward.{onward_of, later_of, is_answered_in, is_turn};
ghost use Rattle.driver_rules.specs.Notes.{HasNoted, TakesUp, TallyIs};

/// Whether the command that the rules ask was answered is not where a stretch begins, and is noted by a poll: it was
/// where a response of the codec, that did not come unasked, was written since the last write of CORBWP. That is said of
/// what is written once the poll is done, since while RINTFL is 1 nothing more is. A submission begins the count anew,
/// and no other access, no end of a stretch and no step of the device changes anything of it.
pub fn answers_are_noted<S>()
    ensures begins { (rules : Rules S) (task : Task) (lines : List DriverLine) (old new : Telling)
        → Accessed old new Begin
        → ((onward_of rules task lines new).answered ≡ false)
        × ((onward_of rules task lines new).trail.written ≡ (onward_of rules task lines old).trail.written) }
    ensures plain { (rules : Rules S) (task : Task) (lines : List DriverLine) (made : List Event) (old new : Telling)
        → Makes made old new → ArePlain made
        → HasNoted (onward_of rules task lines new) (onward_of rules task lines old).later
        (onward_of rules task lines old).answered (onward_of rules task lines old).trail.written }
    ensures polls { (rules : Rules S) (task : Task) (lines : List DriverLine) (rirb : ℕ) (rings : RingPlaces)
        (reads : PollReads) (old new : Telling)
        → Makes (poll_accesses rirb rings reads) old new → (world_of old).registers.global.response_flag ≤ 1
        → HasNoted (onward_of rules task lines new) (onward_of rules task lines old).later
        (is_answered_in rules (onward_of rules task lines old) (world_of new))
        (onward_of rules task lines old).trail.written }
    ensures submits { (rules : Rules S) (task : Task) (lines : List DriverLine) (corb : ℕ) (rings : RingPlaces)
        (word : ℕ) (old new : Telling) → Makes (submit_accesses corb rings word) old new
        → HasNoted (onward_of rules task lines new) (onward_of rules task lines old).later
        (onward_of rules task lines old).answered (length (world_of new).written) }
    ensures ends { (rules : Rules S) (task : Task) (lines : List DriverLine) (old new : Telling) → Accessed old new End
        → ((onward_of rules task lines new).answered ≡ (onward_of rules task lines old).answered)
        × ((onward_of rules task lines new).trail.written ≡ (onward_of rules task lines old).trail.written) }
    ensures steps { (rules : Rules S) (task : Task) (lines : List DriverLine) (steps : List Step) (old new : Telling)
        → Went old new (map Stepped steps) → onward_of rules task lines new ≡ onward_of rules task lines old }
{}

/// A tally that rules take up as progress does is the trail's own, which goes on beside them, if it was where they
/// began. So at the end it is that of the journal's stretches.
pub fn tallies_agree<S>()
    ensures begins { (rules : Rules S) (tally : S → Tally) (task : Task) (lines : List DriverLine) (old new : Telling)
        → Accessed old new Begin → is_turn (trail_of task lines old) ≡ true
        → (onward_of rules task lines old).later ≡ None
        → tally (rules.begin (trail_of task lines old).state.rings) ≡ (trail_of task lines old).state.tally
        → TallyIs tally (onward_of rules task lines new) }
    ensures goes_on { (rules : Rules S) (tally : S → Tally) (task : Task) (lines : List DriverLine) (state : S)
        (events : List Event) (old new : Telling) → TakesUp rules tally task → Went old new events
        → (onward_of rules task lines old).later ≡ Some state → TallyIs tally (onward_of rules task lines old)
        → TallyIs tally (onward_of rules task lines new) }
    ensures stretches { (rules : Rules S) (tally : S → Tally) (task : Task) (lines : List DriverLine) (state : S)
        (telling : Telling) → TakesUp rules tally task → TallyIs tally (onward_of rules task lines telling)
        → later_of rules task lines telling ≡ Some state
        → tally state ≡ tally_of_stretches (measures task.geometry) (length task.pcm)
        (stretches_of lines telling.journal) }
{}
