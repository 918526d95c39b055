//! Laws of rigs and of journals, each the contract of a function that does nothing.
ghost use Rattle.std.specs.Prelude.{◌≡◌, ◌++◌, List, [], ◌∷◌, length};
ghost use Rattle.world_steps.specs.declared.Step.{Step};
ghost use Rattle.schedule_reader.specs.declared.schedule.Item.{Item};
ghost use Rattle.schedule_reader.specs.declared.schedule.Item.TheVariants.{Device, Drive};
ghost use Rattle.schedule_reader.specs.declared.schedule.DriverLine.{DriverLine};
ghost use Rattle.hda_world.specs.Events.{Event, Stepped};
ghost use Rattle.rig.specs.declared.rig.Rig.{Rig};
ghost use Rattle.rig.specs.Rigs.{IsReplayed};
ghost use Rattle.rig.specs.Follows.{FollowItems, AreAccesses};
ghost use Rattle.rig.specs.Stretches.{accesses_of, stretch, IsStretchFrom};

/// Whatever calls were made on a rig, its journal replays from the start of its machine with the sound that its input
/// pins are given, each access with the answer of its moment, to the world for which its controller, its memory, its
/// heard lists and its marks of the blocks that came to the input stream stand.
pub fn rigs_replay()
    ensures { (rig : Rig) → IsReplayed rig }
{}

/// Items of a schedule that some events follow, and then others, are all of them in a row: none, one step of the device
/// more, or one run of the driver more.
pub fn pieces_follow()
    ensures none { FollowItems [] [] }
    ensures both { (first second : List Item) (before after : List Event) → FollowItems first before
        → FollowItems second after
        → FollowItems (first ++ second) (before ++ after) }
    ensures step { (step : Step) → FollowItems (Device step ∷ []) (Stepped step ∷ []) }
    ensures run { (line : DriverLine) (accesses : List Event) → AreAccesses accesses
        → FollowItems (Drive line ∷ []) (stretch line.groups accesses) }
{}

/// What a run added to a journal is its line of the schedule, with the accesses that the driver made in it. So it is at
/// the close, where the run had no groups.
pub fn runs_follow()
    ensures line { (line : DriverLine) (old more : List Event) → IsStretchFrom (length old) line.groups (old ++ more)
        → FollowItems (Drive line ∷ []) more }
    ensures closing { (old more : List Event) → IsStretchFrom (length old) [] (old ++ more)
        → more ≡ stretch [] (accesses_of more) }
    ensures accesses { (events : List Event) → AreAccesses (accesses_of events) }
{}
