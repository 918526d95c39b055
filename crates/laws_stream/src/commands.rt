//! Laws of a stream that goes on whatever settings codecs have, each the contract of a function that does nothing.
ghost use Rattle.std.specs.Prelude.{◌≡◌, false, true, ℕ, Bool, List, [], ◌∷◌, All, map};
ghost use Rattle.world_steps.specs.declared.Step.{Step};
ghost use Rattle.hda_world.specs.Worlds.{World};
ghost use Rattle.hda_world.specs.Events.{Event, Stepped, Begin, End, after, IsNoStep};
ghost use Rattle.hda_world.specs.Tellings.{Telling, world_of, Went, Accessed, Makes};
ghost use Rattle.command_engine.specs.declared.ring_places.RingPlaces.{RingPlaces};
ghost use Rattle.command_engine.specs.Blocks.{corb_bytes};
ghost use Rattle.command_engine.specs.Polling.{PollReads, poll_accesses};
ghost use Rattle.command_engine.specs.Submitting.{submit_accesses};
ghost use Rattle.period_writer.specs.declared.course.Ran.{Ran};
ghost use Rattle.period_writer.specs.declared.course.Ran.TheVariants as ran;
ghost use Rattle.period_writer.specs.Courses.{IsCourse};
ghost use Rattle.period_writer.specs.Runs.{Tally};
ghost use Rattle.period_writer.specs.Standing.{Ring, size_of};
ghost use Rattle.period_writer.specs.Beside.{IsBesideBlocks, LeavesStopped};
ghost use Rattle.period_writer.specs.Outcomes.{HasNotWrapped, StartTells, RunTellsOf, FinishTellsOf};
ghost use Rattle.driver_bring_up.specs.Told.{IsBefore};
ghost use Rattle.laws_stream.specs.Lives.{Along, Runs, IsStopped, HasNotBegun, HasStopped, stops};
ghost use Rattle.laws_stream.specs.Going.{StreamGoes, is_left_open, LeavesAlone, TookWhile, TookLast};
ghost use Rattle.laws_stream.specs.Signalled.{HearBySignals};

use laws_hearing::{a_started_stream_is_steady, signals_are_heard, streams_go_on};
use period_writer::{
    a_bare_stop_ends_the_stream, a_stopped_stream_stays, events_between_runs_keep_the_ring,
    runs_append_to_the_line, steps_keep_the_ring,
};

/// A stream goes on as it is over steps of the device, over marks, and over rows of events that leave it alone. A first
/// run sets it going where it had not begun at any moment, and each later run leads it to how it ended.
pub fn the_stream_goes_on_beside_commands()
    ensures first { (ring : Ring) (pcm : List ℕ) (budget : ℕ) (tally tally' : Tally) (old new : Telling)
        → StartTells ring pcm budget tally tally' old new → Along HasNotBegun old.journal old.start
        → StreamGoes false ring pcm tally' new }
    ensures runs { (ring : Ring) (pcm : List ℕ) (budget : ℕ) (tally tally' : Tally) (answer : Ran)
        (old new : Telling)
        → RunTellsOf ring pcm budget tally answer tally' old new → answer ≡ tally'.course.ran
        → tally.course.ran ≡ ran.Playing → HasNotWrapped (world_of new) → StreamGoes false ring pcm tally old
        → StreamGoes false ring pcm tally' new }
    ensures steps { (given_up : Bool) (ring : Ring) (pcm : List ℕ) (tally : Tally) (steps : List Step)
        (old new : Telling) → Went old new (map Stepped steps) → StreamGoes given_up ring pcm tally old
        → StreamGoes given_up ring pcm tally new }
    ensures begin { (given_up : Bool) (ring : Ring) (pcm : List ℕ) (tally : Tally) (old new : Telling)
        → Accessed old new Begin → StreamGoes given_up ring pcm tally old → StreamGoes given_up ring pcm tally new }
    ensures end { (given_up : Bool) (ring : Ring) (pcm : List ℕ) (tally : Tally) (old new : Telling)
        → Accessed old new End → StreamGoes given_up ring pcm tally old → StreamGoes given_up ring pcm tally new }
    ensures rows { (given_up : Bool) (ring : Ring) (pcm : List ℕ) (tally : Tally) (made : List Event)
        (old new : Telling) → Makes made old new → All (LeavesAlone ring) made
        → StreamGoes given_up ring pcm tally old → StreamGoes given_up ring pcm tally new }
{
    a_started_stream_is_steady();
    steps_keep_the_ring();
    events_between_runs_keep_the_ring();
    streams_go_on();
}

/// A bare stop, one write of CTL and no run, gives the stream up while it plays: it is stopped, and was so at no moment
/// before.
pub fn a_bare_stop_gives_the_stream_up()
    ensures { (ring : Ring) (pcm : List ℕ) (tally : Tally) (old new : Telling) → Makes (stops ∷ []) old new
        → tally.course.ran ≡ ran.Playing → StreamGoes false ring pcm tally old
        → StreamGoes true ring pcm tally new }
{
    a_bare_stop_ends_the_stream();
    steps_keep_the_ring();
    events_between_runs_keep_the_ring();
    streams_go_on();
}

/// Polls leave it alone, and looks for interrupts, and so do submissions where the ring lies beside CORB.
pub fn accesses_of_commands_leave_the_stream_alone()
    ensures polls { (ring : Ring) (rirb : ℕ) (rings : RingPlaces) (reads : PollReads)
        → All (LeavesAlone ring) (poll_accesses rirb rings reads) }
    ensures looks { (ring : Ring) (irq : Bool) (first : List Event) → IsBefore irq first
        → All (LeavesAlone ring) first }
    ensures submissions { (ring : Ring) (corb : ℕ) (rings : RingPlaces) (word : ℕ)
        → IsBesideBlocks ring corb corb_bytes → All (LeavesAlone ring) (submit_accesses corb rings word) }
{}

/// The last run stops the stream. Where the device made no step in it, each pin heard, by its signals along the link
/// frames, the line by how this run ended. Once a stream is over, as the last run left it or given up, each pin heard
/// the line so. It stays stopped over rows of events that write nothing of its descriptor but a status, and no link
/// frame carries anything more.
pub fn the_last_run_is_heard_by_signals()
    ensures finish { (ring : Ring) (pcm : List ℕ) (runs : ℕ) (tally tally' : Tally) (answer : Ran)
        (old new : Telling) (events : List Event)
        → FinishTellsOf ring pcm tally answer tally' old new → answer ≡ tally'.course.ran
        → tally.course.ran ≡ ran.Playing → IsCourse (size_of ring) runs tally.course
        → HasNotWrapped (world_of old) → HasNotWrapped (world_of new) → Went old new events
        → StreamGoes false ring pcm tally old
        → StreamGoes true ring pcm tally' new
        × (All IsNoStep events → HearBySignals false ring.geometry.format pcm tally' (world_of new).carried) }
    ensures over { (given_up : Bool) (ring : Ring) (pcm : List ℕ) (tally : Tally) (telling : Telling)
        → is_left_open given_up tally.course.ran ≡ false → StreamGoes given_up ring pcm tally telling
        → HearBySignals given_up ring.geometry.format pcm tally (world_of telling).carried }
    ensures stays { (given_up : Bool) (ring : Ring) (pcm : List ℕ) (tally : Tally) (made : List Event)
        (old new : Telling)
        → Makes made old new → All LeavesStopped made → is_left_open given_up tally.course.ran ≡ false
        → StreamGoes given_up ring pcm tally old
        → HasStopped new × ((world_of new).carried ≡ (world_of old).carried) }
{
    signals_are_heard();
    streams_go_on();
    runs_append_to_the_line();
    a_stopped_stream_stays();
}

/// Each command that a codec takes before the sound is taken while the stream does not run, and each while it runs is
/// taken while it runs. After the stop it is taken after all link frames that carried something.
pub fn commands_tell_whether_the_stream_runs()
    ensures before { (events : List Event) (world : World) → Along HasNotBegun events world
        → TookWhile false world (after events world) }
    ensures playing { (events : List Event) (world : World) → Along Runs events world
        → TookWhile true world (after events world) }
    ensures over { (events : List Event) (world : World) → Along IsStopped events world
        → TookLast world (after events world) }
{}
