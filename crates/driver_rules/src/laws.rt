//! Laws of rules from the set-up of codecs on, each the contract of a function that does nothing. They hold of rules
//! that keep values of any type.
ghost use Rattle.std.specs.Prelude.{◌≡◌, true, false, List, [], ◌∷◌, ◌++◌, map, All, drop, slice_get, Option, None};
ghost use Rattle.std.specs.Prelude.{Some};
ghost use Rattle.world_steps.specs.declared.Step.{Step};
ghost use Rattle.command_engine.specs.declared.ring_places.RingPlaces.{RingPlaces};
ghost use Rattle.hda_world.specs.Events.{Event, Stepped, Begin, End};
ghost use Rattle.hda_world.specs.Tellings.{Telling, Went, Accessed, Makes};
ghost use Rattle.driver_progress.specs.Phases.{is_ready};
ghost use Rattle.driver_progress.specs.Tasks.{Task, DriverLine};
ghost use Rattle.driver_progress.specs.Unread.{AreAccesses};
ghost use Rattle.driver_progress.specs.Progress.{trail_of, trail_opened, Conforms, IsProgress};
ghost use Rattle.driver_rules.specs.Rules.{Rules};
ghost use Rattle.driver_rules.specs.Onward.{onward_of, later_of, is_turn, IsNoBegin, IsOnward, IsAtOnwardRest};
ghost use Rattle.driver_rules.specs.Onward.{IsOnwardOpen, IsRuleStretch};

/// Up to the first line at `Ready` a driver goes by progress, and the rules keep nothing: they wait over steps of the
/// device, and over the closing stretch or one that begins in another phase. So what is progress goes by the rules,
/// between two stretches and at the end. The trail beside the rules is progress' own.
pub fn rules_wait_for_the_set_up<S>()
    ensures steps { (rules : Rules S) (task : Task) (lines : List DriverLine) (steps : List Step) (old new : Telling)
        → Went old new (map Stepped steps) → (onward_of rules task lines old).later ≡ None
        → (onward_of rules task lines new).later ≡ None }
    ensures stretch { (rules : Rules S) (task : Task) (lines : List DriverLine) (rest : List Event)
        (old new : Telling) → Went old new (Begin ∷ rest) → All IsNoBegin rest
        → is_turn (trail_of task lines old) ≡ false → (onward_of rules task lines old).later ≡ None
        → (onward_of rules task lines new).later ≡ None }
    ensures trail { (rules : Rules S) (task : Task) (lines : List DriverLine) (telling : Telling)
        → (onward_of rules task lines telling).trail ≡ trail_of task lines telling }
    ensures rest { (rules : Rules S) (task : Task) (lines left : List DriverLine) (telling : Telling)
        → Conforms task telling.journal telling.start (trail_opened lines)
        → (trail_of task lines telling).within ≡ false → (trail_of task lines telling).left ≡ left
        → (onward_of rules task lines telling).later ≡ None → IsAtOnwardRest rules task lines left None telling }
    ensures over { (rules : Rules S) (task : Task) (lines : List DriverLine) (telling : Telling)
        → IsProgress task lines telling → (onward_of rules task lines telling).later ≡ None
        → IsOnward rules task lines telling × (later_of rules task lines telling ≡ None) }
{}

/// The first stretch of a line that begins at `Ready` begins the rules. From then on each stretch goes by them: where
/// it begins, over its accesses, and where it ends. What is at rest by them goes by them to the end.
pub fn stretches_go_by_rules<S>()
    ensures turns { (rules : Rules S) (task : Task) (lines left : List DriverLine) (line : DriverLine)
        (rings : RingPlaces) (old new : Telling) → Accessed old new Begin
        → is_ready (trail_of task lines old).state.phase ≡ true → (trail_of task lines old).state.rings ≡ rings
        → IsAtOnwardRest rules task lines (line ∷ left) None old
        → IsOnwardOpen rules task lines left (Some line) (Some (rules.begin rings)) [] new }
    ensures opens { (rules : Rules S) (task : Task) (lines left : List DriverLine) (later : S) (old new : Telling)
        → Accessed old new Begin → IsAtOnwardRest rules task lines left (Some later) old
        → IsOnwardOpen rules task lines (drop 1 left) (slice_get left 0) (Some later) [] new }
    ensures row { (rules : Rules S) (task : Task) (lines left : List DriverLine) (turn : Option DriverLine)
        (later : S) (before made : List Event) (old new : Telling) → Makes made old new → AreAccesses made
        → IsOnwardOpen rules task lines left turn (Some later) before old
        → IsOnwardOpen rules task lines left turn (Some later) (before ++ made) new }
    ensures closes { (rules : Rules S) (task : Task) (lines left : List DriverLine) (turn : Option DriverLine)
        (later later' : S) (made : List Event) (old new : Telling) → Accessed old new End
        → IsRuleStretch rules later turn made (onward_of rules task lines old).answered later'
        → IsOnwardOpen rules task lines left turn (Some later) made old
        → IsAtOnwardRest rules task lines left (Some later') new }
    ensures steps { (rules : Rules S) (task : Task) (lines left : List DriverLine) (later : Option S)
        (steps : List Step) (old new : Telling) → Went old new (map Stepped steps)
        → IsAtOnwardRest rules task lines left later old → IsAtOnwardRest rules task lines left later new }
    ensures ended { (rules : Rules S) (task : Task) (lines left : List DriverLine) (later : Option S)
        (telling : Telling) → IsAtOnwardRest rules task lines left later telling
        → IsOnward rules task lines telling × (later_of rules task lines telling ≡ later) }
{}
