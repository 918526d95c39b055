//! Laws of a driver's calls while commands are sent, each the contract of a function that does nothing.
ghost use Rattle.std.specs.Prelude.{◌≡◌, ℕ, ◌+◌, Bool, true, false, ◌++◌, Some, None, List, [], All, Option};
ghost use Rattle.std.specs.Prelude.{length, slice_index};
ghost use Rattle.std.specs.Option.{is_some};
ghost use Rattle.command_engine.specs.Polling.{PollReads, AreNew, found_by, rings_polled};
ghost use Rattle.verb_codes.specs.declared.verbs.Command.{Command};
ghost use Rattle.codec_graph.specs.declared.raw.RawCodec.{RawCodec};
ghost use Rattle.codec_graph.specs.Cycles.{IsWellFormed};
ghost use Rattle.stream_format.specs.declared.format.Format.{Format};
ghost use Rattle.codec_walk.specs.declared.fault.WalkFault.{WalkFault};
ghost use Rattle.route_planner.specs.declared.routes.Plan.{Plan};
ghost use Rattle.driver_agenda.specs.Agendas.{TellsFault};
ghost use Rattle.driver_agenda.specs.AnswerWords.{AnswersNoRoute, AreFaulty, AreUnrouted, AreRouted};
ghost use Rattle.driver_agenda.specs.Following.{Follows};
ghost use Rattle.driver_agenda.specs.declared.agenda.Agenda.{Agenda};
ghost use Rattle.driver_progress.specs.declared.phase.Phase.{Phase};
ghost use Rattle.driver_progress.specs.Tasks.{Task, IsTaskFor};
ghost use Rattle.driver_progress.specs.Phases.{is_asking, is_ready};
ghost use Rattle.driver_progress.specs.Requests.{requests_of};
ghost use Rattle.driver_progress.specs.States.{State};
ghost use Rattle.driver_progress.specs.declared.phase.Phase.TheVariants as phases;
ghost use Rattle.hda_world.specs.Events.{Event};
ghost use Rattle.hda_world.specs.Tellings.{Telling};
ghost use Rattle.driver_progress.specs.Commands.{ask_accesses};
ghost use Rattle.driver_progress.specs.Shutting.{shut_accesses};
ghost use Rattle.driver_bring_up.specs.AnsweredWords.{with_answer, WereAnsweredIn, WereAnswered};
ghost use Rattle.driver_bring_up.specs.AnsweredWords.{EndsFaulty, EndsUnrouted};
ghost use Rattle.driver_bring_up.specs.Calls.{Leads, Ends};
ghost use Rattle.driver_bring_up.specs.Failing.{Fails};
ghost use Rattle.driver_bring_up.specs.declared.bringing.BringUp.{BringUp};
ghost use Rattle.driver_bring_up.specs.Standing.{Agrees, phase_of, next_on, LeadsOn, EndsBy};
ghost use Rattle.driver_bring_up.specs.Commanding.{LedTo, poll_by, leaves_free, order_if, submit_made, IsStretch};
ghost use Rattle.driver_bring_up.specs.Commanding.{IsLastLook, state_with, run_of, answer_in};

use crate::answers::TAG;
use driver_agenda::{agendas_ask_in_order, answers_come_to_one, words_come_to_one};
use route_setup::Setter;

/// The accesses of a look for an answer and of the submission after it are those that are expected of a call, and where
/// both led is where progress says: for every task whose next command and phase are the agenda's, before the look and
/// after each answer. A look that finds an answer makes its accesses and then those that follow it, for every task.
pub fn commands_are_expected()
    ensures runs { (task : Task) (state : State) (budget clock : ℕ) (reads : PollReads) (phase' : Phase)
        (old new : Agenda) (free : Bool)
        → is_asking state.phase ≡ true → AreNew state.rings reads
        → LedTo (poll_by state.rings reads clock) state.rings.outstanding state.phase old phase' new
        → free ≡ leaves_free (poll_by state.rings reads clock) phase'
        → state.phase ≡ phase_of old
        → (is_some (found_by state.rings reads) ≡ true → free ≡ true)
        → (free ≡ true → Agrees task state.sent new)
        → IsStretch task state (Some (run_of budget))
        (ask_accesses task.blocks.rirb clock state.rings reads ++ submit_made task.blocks.corb
        (rings_polled state.rings reads) (order_if free (next_on new)))
        (is_some (found_by state.rings reads))
        (state_with state phase' (order_if free (next_on new)) clock (rings_polled state.rings reads)) }
    ensures closes { (task : Task) (state : State) (clock : ℕ) (reads : PollReads) (phase' : Phase) (old new : Agenda)
        (free : Bool)
        → is_asking state.phase ≡ true → AreNew state.rings reads
        → LedTo (poll_by state.rings reads clock) state.rings.outstanding state.phase old phase' new
        → free ≡ leaves_free (poll_by state.rings reads clock) phase'
        → state.phase ≡ phase_of old
        → (is_some (found_by state.rings reads) ≡ true → free ≡ true)
        → (free ≡ true → Agrees task state.sent new)
        → IsStretch task state None (ask_accesses task.blocks.rirb clock state.rings reads ++ shut_accesses)
        (is_some (found_by state.rings reads))
        (record state { phase = phase'; rings = rings_polled state.rings reads }) }
    ensures ends { (task : Task) (state : State) (clock : ℕ) (reads : PollReads) (rest : List Event) (phase' : Phase)
        → AreNew state.rings reads → is_some (found_by state.rings reads) ≡ true
        → IsLastLook task state false (requests_of rest) (ask_accesses task.blocks.rirb clock state.rings reads ++ rest)
        (record state { phase = phase'; rings = rings_polled state.rings reads }) }
{}

/// An agenda that follows the commands of a task's codecs agrees with the task: its next command and its phase are the
/// task's.
pub fn agendas_agree<T: Setter>()
    ensures { (setter : T) (format : Format) (verbs : RawCodec → List Command) (graphs : List RawCodec) (count : ℕ)
        (agenda : Agenda) (task : Task) → All IsWellFormed graphs
        → Follows (T.means setter format TAG) verbs graphs count agenda → IsTaskFor verbs graphs task
        → Agrees task count agenda }
{
    agendas_ask_in_order::<T>();
}

/// On every platform, also where what is answered is a lie: the words that were answered until now lead to the phase,
/// and each call leads them on by the answer that it read, if it read one. So `Malformed` names the codec whose words
/// have this fault, and the graphs of those before it; at `NothingRouted` all codecs told the graphs, of which no plan
/// has a route; and where memory was wanting the graphs are those that the first words told. In the phase `Ready` they
/// are those of the walks over all codecs and then of verbs, and graphs and plans are those that the walks told.
pub fn bring_ups_are_answered<T: Setter>()
    ensures begins { (setter : T) (format : Format) (bring_up : BringUp) → bring_up.phase ≡ phases.Reset
        → bring_up.agenda.graphs.items ≡ [] → bring_up.agenda.plans.items ≡ []
        → WereAnswered (T.means setter format TAG) [] bring_up }
    ensures leads { (setter : T) (format : Format) (irq : Bool) (words : List ℕ) (old new : BringUp)
        (before after : Option Telling) (leads : Leads (T.means setter format TAG) irq old new before after)
        → WereAnswered (T.means setter format TAG) words old
        → WereAnswered (T.means setter format TAG) (with_answer words (answer_in old.engine.rings leads.made)) new }
    ensures ends { (setter : T) (format : Format) (words : List ℕ) (old new : BringUp) (before after : Option Telling)
        (ends : Ends (T.means setter format TAG) old new before after)
        → WereAnswered (T.means setter format TAG) words old
        → WereAnswered (T.means setter format TAG) (with_answer words (answer_in old.engine.rings ends.made)) new }
    ensures fails { (setter : T) (format : Format) (irq : Bool) (words : List ℕ) (old new : BringUp)
        (before after : Option Telling) (fails : Fails (T.means setter format TAG) irq old new before after)
        → new.phase ≡ phases.Failed → WereAnswered (T.means setter format TAG) words old
        → WereAnswered (T.means setter format TAG) (with_answer words (answer_in old.engine.rings fails.made)) new }
    ensures routed { (setter : T) (format : Format) (words : List ℕ) (bring_up : BringUp)
        → is_ready bring_up.phase ≡ true → WereAnswered (T.means setter format TAG) words bring_up
        → AreRouted (T.means setter format TAG) bring_up.agenda.addresses.items words bring_up.agenda.graphs.items
        bring_up.agenda.plans.items bring_up.agenda.answered }
{}

/// Where an answer leads is exact: to `Malformed` where it tells a fault, with this fault and the codec that was asked;
/// to `NothingRouted` where it tells the last graph, and no plan of the graphs has a route; and else on. So it is with
/// all words that were answered until now: where they tell a fault of a codec the phase is `Malformed` with both, and
/// where they tell the graphs of all codecs, and no pin of their plans has a route, it is `NothingRouted`; or memory
/// was wanting, and it is `Failed`.
pub fn ends_are_exact<T: Setter>()
    ensures malformed { (setter : T) (format : Format) (answer : ℕ) (old new : Agenda) (phase : Phase)
        (fault : WalkFault) → LeadsOn (T.means setter format TAG) answer old new phase
        → EndsBy (T.means setter format TAG) answer old new phase → TellsFault old.walk answer fault
        → phase ≡ phases.Malformed (slice_index old.addresses.items (length old.graphs.items)) fault }
    ensures nothing { (setter : T) (format : Format) (answer : ℕ) (old new : Agenda) (phase : Phase)
        (plans : List Plan) → LeadsOn (T.means setter format TAG) answer old new phase
        → EndsBy (T.means setter format TAG) answer old new phase
        → AnswersNoRoute (T.means setter format TAG) old.walk answer old.addresses.items old.graphs.items plans
        → phase ≡ phases.NothingRouted }
    ensures faulty { (setter : T) (format : Format) (words : List ℕ) (agenda : Agenda) (phase : Phase)
        (graphs : List RawCodec) (codec : ℕ) (fault : WalkFault)
        → WereAnsweredIn (T.means setter format TAG) words agenda phase
        → AreFaulty agenda.addresses.items words graphs codec fault → EndsFaulty codec fault graphs agenda phase }
    ensures unrouted { (setter : T) (format : Format) (words : List ℕ) (agenda : Agenda) (phase : Phase)
        (graphs : List RawCodec) (plans : List Plan)
        → WereAnsweredIn (T.means setter format TAG) words agenda phase
        → AreUnrouted (T.means setter format TAG) agenda.addresses.items words graphs plans
        → EndsUnrouted graphs plans agenda phase }
    ensures bring_up_faulty { (setter : T) (format : Format) (words : List ℕ) (bring_up : BringUp)
        (graphs : List RawCodec) (codec : ℕ) (fault : WalkFault)
        → WereAnswered (T.means setter format TAG) words bring_up
        → AreFaulty bring_up.agenda.addresses.items words graphs codec fault
        → EndsFaulty codec fault graphs bring_up.agenda bring_up.phase }
    ensures bring_up_unrouted { (setter : T) (format : Format) (words : List ℕ) (bring_up : BringUp)
        (graphs : List RawCodec) (plans : List Plan)
        → WereAnswered (T.means setter format TAG) words bring_up
        → AreUnrouted (T.means setter format TAG) bring_up.agenda.addresses.items words graphs plans
        → EndsUnrouted graphs plans bring_up.agenda bring_up.phase }
{
    answers_come_to_one::<T>();
    words_come_to_one::<T>();
}
