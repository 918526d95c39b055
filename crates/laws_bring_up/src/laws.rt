//! Laws of what is told of a bring-up, each the contract of a function that does nothing.
ghost use Rattle.std.specs.Prelude.{◌≡◌, ℕ, List, map, drop, slice_get};
ghost use Rattle.verb_codes.specs.declared.verbs.Command.{Command};
ghost use Rattle.codec_graph.specs.declared.raw.RawCodec.{RawCodec};
ghost use Rattle.hda_world.specs.Worlds.{World};
ghost use Rattle.driver_progress.specs.declared.phase.Phase.TheVariants.{Ready};
ghost use Rattle.driver_bring_up.specs.declared.bringing.BringUp.{BringUp};
ghost use Rattle.stream_format.specs.declared.format.Format.{Format};
ghost use Rattle.world_steps.specs.declared.Step.{Step};
ghost use Rattle.hda_world.specs.Events.{Stepped, Begin, End};
ghost use Rattle.hda_world.specs.Tellings.{Telling, Went, Accessed};
ghost use Rattle.driver_progress.specs.Tasks.{Task, DriverLine};
ghost use Rattle.driver_progress.specs.States.{State, state_opened};
ghost use Rattle.driver_progress.specs.Progress.{trail_of, state_of, IsProgress};
ghost use Rattle.laws_bring_up.specs.Stretches.{Finds, HasFound, IsAtRest, IsOpen, IsDone};
ghost use Rattle.laws_bring_up.specs.Standing.{IsTaskOfCodecs, IsBroughtUp};
ghost use Rattle.laws_bring_up.specs.SettingUp.{AreSetUp};
ghost use Rattle.laws_bring_up.specs.Keeping.{KeepsToProgress};

use driver_agenda::agendas_follow;
use driver_bring_up::{TAG, agendas_agree};
use driver_progress::{a_reset_stays, answers_agree, polls_are_noted};
use route_setup::Setter;

/// Before the first access a driver is at rest, and steps of the device leave it so. A stretch is opened from rest and
/// ended by marks. At rest, and where a stretch is done, the journal is progress and leads to the driver's state, and
/// each stretch found what it was to find.
pub fn stretches_are_progress()
    ensures rests { (task : Task) (lines : List DriverLine) (steps : List Step) (telling : Telling)
        → telling.journal ≡ map Stepped steps → IsAtRest task lines lines state_opened telling }
    ensures steps { (task : Task) (lines left : List DriverLine) (state : State) (steps : List Step) (old new : Telling)
        → Went old new (map Stepped steps) → IsAtRest task lines left state old → IsAtRest task lines left state new }
    ensures opens { (task : Task) (lines left : List DriverLine) (state : State) (old new : Telling)
        → Accessed old new Begin → IsAtRest task lines left state old
        → IsOpen task lines (drop 1 left) (slice_get left 0) state new }
    ensures closes { (task : Task) (lines left : List DriverLine) (state' : State) (old new : Telling)
        → Accessed old new End → IsDone task lines left state' old → IsAtRest task lines left state' new }
    ensures at_rest { (task : Task) (lines left : List DriverLine) (state : State) (telling : Telling)
        → IsAtRest task lines left state telling → IsProgress task lines telling × (state_of task lines telling ≡ state)
        × HasFound task lines telling }
    ensures done { (task : Task) (lines left : List DriverLine) (state' : State) (telling : Telling)
        → IsDone task lines left state' telling → IsProgress task lines telling × (state_of task lines telling ≡ state')
        × HasFound task lines telling × Finds (trail_of task lines telling) }
{}

/// Each call of a bring-up in an open stretch of its own, for an interrupt or not, makes just the accesses that
/// progress expects and leads where it says, and it stands to the world after it as before: for the codecs on the link,
/// one to four with well-formed graphs, of which some pin has a route. Before the reset CORB's engine does not run. So
/// no answer is refused, and the agenda asks their commands in order. The last call does the same, and it is known
/// which graphs were walked. But for calls for an interrupt that found none, the controller is out of reset after the
/// first call, and a look that is late enough finds a codec and both rings' sizes. At every moment from the last answer
/// on, between any two accesses too, each codec is there with its graph and set up by its plan.
pub fn bring_ups_keep_to_progress<T: Setter>()
    ensures { (setter : T) (format : Format) (verbs : RawCodec → List Command) (graphs : List RawCodec) (task : Task)
        → IsTaskOfCodecs (T.means setter format TAG) verbs graphs task
        → KeepsToProgress (T.means setter format TAG) verbs graphs task }
{
    agendas_follow::<T>();
    agendas_agree::<T>();
    polls_are_noted();
    answers_agree();
    a_reset_stays();
}

/// Once all commands are answered each codec is set up by its plan: in the phase `Ready`, wherever the bring-up stands
/// to the world as before and after each of its calls.
pub fn ready_codecs_are_set_up<T: Setter>()
    ensures { (setter : T) (format : Format) (verbs : RawCodec → List Command) (graphs : List RawCodec) (task : Task)
        → IsTaskOfCodecs (T.means setter format TAG) verbs graphs task
        → (written : ℕ) (bring_up : BringUp) (world : World) → bring_up.phase ≡ Ready
        → IsBroughtUp (T.means setter format TAG) verbs graphs task written bring_up world
        → AreSetUp (T.means setter format TAG) graphs world }
{
    agendas_follow::<T>();
    agendas_agree::<T>();
}
