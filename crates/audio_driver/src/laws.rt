//! A law of drivers, the contract of a function that does nothing.
ghost use Rattle.std.specs.Prelude.{◌≡◌, ℕ, List, [], Bool, true, false, Option};
ghost use Rattle.codec_graph.specs.declared.raw.RawCodec.{RawCodec};
ghost use Rattle.codec_walk.specs.declared.fault.WalkFault.{WalkFault};
ghost use Rattle.route_planner.specs.declared.routes.Plan.{Plan};
ghost use Rattle.driver_agenda.specs.AnswerWords.{AreFaulty, AreUnrouted, AreRouted};
ghost use Rattle.hda_world.specs.Tellings.{Telling};
ghost use Rattle.period_writer.specs.declared.geometry.Geometry.{Geometry};
ghost use Rattle.period_writer.specs.Writers.{WriterState};
ghost use Rattle.driver_progress.specs.declared.phase.Phase.TheVariants as phases;
ghost use Rattle.driver_bring_up.specs.Commanding.{answer_in};
ghost use Rattle.driver_bring_up.specs.AnsweredWords.{with_answer, WereAnsweredIn, WereAnswered};
ghost use Rattle.driver_bring_up.specs.AnsweredWords.{EndsFaulty, EndsUnrouted};
ghost use Rattle.driver_bring_up.specs.declared.bringing.BringUp.{BringUp};
ghost use Rattle.audio_driver.specs.declared.driver.closing.Closed.{Closed};
ghost use Rattle.audio_driver.specs.States.{plays_now, phase_of};
ghost use Rattle.audio_driver.specs.Opening.{IsOpened};
ghost use Rattle.audio_driver.specs.Sounding.{StaysSet};
ghost use Rattle.audio_driver.specs.Closing.{Closes};
ghost use Rattle.audio_driver.specs.Calls.{LeadsBy, FailsBy};
ghost use Rattle.audio_driver.specs.Drivers.{DriverState, IsDriver};

use driver_bring_up::{TAG, bring_ups_are_answered, ends_are_exact};
use route_setup::Setter;

/// On every platform, also where what is answered is a lie: no word was answered when a driver is opened, its calls and
/// its last call are led by the words as those of its bring-up are, and once it plays none is answered any more. So
/// `Malformed` names the codec whose words have this fault, and what is left of a closed driver are the graphs that the
/// words told, and the plans of these, also where it played. And it is exact, of a driver and of what is left of it:
/// words that tell a fault of a codec lead to `Malformed` with both, words that leave no pin a route to
/// `NothingRouted`, or memory was wanting, and they lead to `Failed`.
pub fn drivers_are_answered<T: Setter>()
    ensures opened { (setter : T) (geometry : Geometry) (most : ℕ) (bring_up : BringUp) (writer : WriterState)
        → IsOpened geometry most bring_up writer
        → WereAnswered (T.means setter bring_up.agenda.format TAG) [] bring_up }
    ensures leads { (irq : Bool) (words : List ℕ) (old new : DriverState T) (before after : Option Telling)
        (leads : LeadsBy T.means irq old new before after)
        → WereAnswered (T.means old.setter old.bring_up.agenda.format TAG) words old.bring_up
        → WereAnswered (T.means old.setter old.bring_up.agenda.format TAG)
        (with_answer words (answer_in old.bring_up.engine.rings leads.made)) new.bring_up }
    ensures fails { (irq : Bool) (words : List ℕ) (old new : DriverState T) (before after : Option Telling)
        (fails : FailsBy T.means irq old new before after) → new.bring_up.phase ≡ phases.Failed
        → WereAnswered (T.means old.setter old.bring_up.agenda.format TAG) words old.bring_up
        → WereAnswered (T.means old.setter old.bring_up.agenda.format TAG)
        (with_answer words (answer_in old.bring_up.engine.rings fails.made)) new.bring_up }
    ensures plays { (setter : T) (words : List ℕ) (old new : BringUp) (writer writer' : WriterState)
        → StaysSet old new writer writer' → WereAnswered (T.means setter old.agenda.format TAG) words old
        → WereAnswered (T.means setter old.agenda.format TAG) words new }
    ensures closes { (setter : T) (words supply : List ℕ) (play : Bool) (bring_up : BringUp) (writer : WriterState)
        (closed : Closed) (before after : Option Telling)
        (closes : Closes (T.means setter bring_up.agenda.format TAG) play bring_up writer supply closed before after)
        (quiet : plays_now play bring_up ≡ false)
        → WereAnswered (T.means setter bring_up.agenda.format TAG) words bring_up
        → WereAnswered (T.means setter bring_up.agenda.format TAG)
        (with_answer words (answer_in bring_up.engine.rings (closes.ends quiet).made)) closes.ended }
    ensures closes_sound { (setter : T) (words supply : List ℕ) (play : Bool) (bring_up : BringUp)
        (writer : WriterState)
        (closed : Closed) (before after : Option Telling)
        (closes : Closes (T.means setter bring_up.agenda.format TAG) play bring_up writer supply closed before after)
        → plays_now play bring_up ≡ true → WereAnswered (T.means setter bring_up.agenda.format TAG) words bring_up
        → WereAnswered (T.means setter bring_up.agenda.format TAG) words closes.ended }
    ensures closed { (setter : T) (words supply : List ℕ) (play : Bool) (bring_up : BringUp) (writer : WriterState)
        (closed : Closed) (before after : Option Telling)
        (closes : Closes (T.means setter bring_up.agenda.format TAG) play bring_up writer supply closed before after)
        → WereAnswered (T.means setter bring_up.agenda.format TAG) words closes.ended
        → (closed.graphs ≡ closes.ended.agenda.graphs) × (closed.plans ≡ closes.ended.agenda.plans)
        × WereAnsweredIn (T.means setter bring_up.agenda.format TAG) words closes.ended.agenda closed.phase }
    ensures closed_played { (setter : T) (words supply : List ℕ) (play : Bool) (bring_up : BringUp)
        (writer : WriterState) (closed : Closed) (before after : Option Telling)
        (closes : Closes (T.means setter bring_up.agenda.format TAG) play bring_up writer supply closed before after)
        → WereAnswered (T.means setter bring_up.agenda.format TAG) words closes.ended
        → closes.tally.course.started ≡ true
        → AreRouted (T.means setter bring_up.agenda.format TAG) closes.ended.agenda.addresses.items words
        closed.graphs.items closed.plans.items closes.ended.agenda.answered }
    ensures phase { (words : List ℕ) (driver : DriverState T)
        → IsDriver driver.bring_up driver.writer driver.pool driver.play driver.runs driver.calls
        → WereAnswered (T.means driver.setter driver.bring_up.agenda.format TAG) words driver.bring_up
        → WereAnsweredIn (T.means driver.setter driver.bring_up.agenda.format TAG) words driver.bring_up.agenda
        (phase_of driver.bring_up driver.writer) }
    ensures faulty { (words : List ℕ) (driver : DriverState T) (graphs : List RawCodec) (codec : ℕ) (fault : WalkFault)
        → IsDriver driver.bring_up driver.writer driver.pool driver.play driver.runs driver.calls
        → WereAnswered (T.means driver.setter driver.bring_up.agenda.format TAG) words driver.bring_up
        → AreFaulty driver.bring_up.agenda.addresses.items words graphs codec fault
        → EndsFaulty codec fault graphs driver.bring_up.agenda (phase_of driver.bring_up driver.writer) }
    ensures unrouted { (words : List ℕ) (driver : DriverState T) (graphs : List RawCodec) (plans : List Plan)
        → IsDriver driver.bring_up driver.writer driver.pool driver.play driver.runs driver.calls
        → WereAnswered (T.means driver.setter driver.bring_up.agenda.format TAG) words driver.bring_up
        → AreUnrouted (T.means driver.setter driver.bring_up.agenda.format TAG) driver.bring_up.agenda.addresses.items
        words graphs plans
        → EndsUnrouted graphs plans driver.bring_up.agenda (phase_of driver.bring_up driver.writer) }
    ensures closed_faulty { (setter : T) (words supply : List ℕ) (play : Bool) (bring_up : BringUp)
        (writer : WriterState) (closed : Closed) (before after : Option Telling)
        (closes : Closes (T.means setter bring_up.agenda.format TAG) play bring_up writer supply closed before after)
        (graphs : List RawCodec) (codec : ℕ) (fault : WalkFault)
        → WereAnswered (T.means setter bring_up.agenda.format TAG) words closes.ended
        → AreFaulty closes.ended.agenda.addresses.items words graphs codec fault
        → EndsFaulty codec fault graphs closes.ended.agenda closed.phase }
    ensures closed_unrouted { (setter : T) (words supply : List ℕ) (play : Bool) (bring_up : BringUp)
        (writer : WriterState) (closed : Closed) (before after : Option Telling)
        (closes : Closes (T.means setter bring_up.agenda.format TAG) play bring_up writer supply closed before after)
        (graphs : List RawCodec) (plans : List Plan)
        → WereAnswered (T.means setter bring_up.agenda.format TAG) words closes.ended
        → AreUnrouted (T.means setter bring_up.agenda.format TAG) closes.ended.agenda.addresses.items words graphs plans
        → EndsUnrouted graphs plans closes.ended.agenda closed.phase }
{
    bring_ups_are_answered::<T>();
    ends_are_exact::<T>();
}
