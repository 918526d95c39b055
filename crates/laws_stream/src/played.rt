//! Laws of runs that are told, each the contract of a function that does nothing.
ghost use Rattle.std.specs.Prelude.{◌≡◌, true, ℕ, Bool, List, All, Some, map};
ghost use Rattle.codec_graph.specs.CodecStates.{CodecState};
ghost use Rattle.world_steps.specs.declared.Step.{Step};
ghost use Rattle.hda_world.specs.Worlds.{World};
ghost use Rattle.hda_world.specs.Events.{Event, Stepped, Begin, End, IsNoStep};
ghost use Rattle.hda_world.specs.Tellings.{Telling, world_of, Went, Accessed, Makes};
ghost use Rattle.command_engine.specs.Fetchings.{Stands};
ghost use Rattle.period_writer.specs.Runs.{Tally};
ghost use Rattle.period_writer.specs.Standing.{Ring};
ghost use Rattle.period_writer.specs.Writers.{WriterState, tally_of, ring_of};
ghost use Rattle.period_writer.specs.Outcomes.{HasNotWrapped};
ghost use Rattle.driver_progress.specs.Tasks.{Task};
ghost use Rattle.driver_bring_up.specs.Commanding.{IsStretch};
ghost use Rattle.driver_bring_up.specs.declared.bringing.BringUp.{BringUp};
ghost use Rattle.audio_driver.specs.States.{IsLeft, state_of};
ghost use Rattle.audio_driver.specs.Sounding.{Begins, SoundTells, EndTells, StaysSet};
ghost use Rattle.laws_stream.specs.Resting.{Rests, AreApartFrom};
ghost use Rattle.laws_stream.specs.Lives.{Along, HasNotBegun, HasStopped};
ghost use Rattle.laws_stream.specs.Sounding.{StreamSounds};
ghost use Rattle.laws_stream.specs.Ending.{HearTheLine};

use crate::rest::{a_first_run_can_begin, streams_rest_before_sound};
use laws_hearing::{
    a_started_stream_is_steady, accesses_beside_keep_it_steady, all_that_was_sent_is_heard,
    idle_codecs_keep_their_settings, longer_lines_are_heard, routed_pins_hear_what_was_sent,
    silent_pins_hear_nothing, the_line_is_heard,
};
use period_writer::{
    events_between_runs_keep_the_ring, runs_append_to_the_line, steps_keep_the_ring,
};

/// A stream that plays or has played goes on as it is over steps of the device and over marks. A call that plays, and
/// makes the accesses that progress expects of it, leads it to how its run left it, while WALCLK has not wrapped.
pub fn the_stream_goes_on()
    ensures steps { (codecs : List CodecState) (ring : Ring) (pcm : List ℕ) (tally : Tally) (steps : List Step)
        (old new : Telling) → Went old new (map Stepped steps)
        → StreamSounds codecs ring pcm tally old → StreamSounds codecs ring pcm tally new }
    ensures begin { (codecs : List CodecState) (ring : Ring) (pcm : List ℕ) (tally : Tally) (old new : Telling)
        → Accessed old new Begin → StreamSounds codecs ring pcm tally old → StreamSounds codecs ring pcm tally new }
    ensures end { (codecs : List CodecState) (ring : Ring) (pcm : List ℕ) (tally : Tally) (old new : Telling)
        → Accessed old new End → StreamSounds codecs ring pcm tally old → StreamSounds codecs ring pcm tally new }
    ensures calls { (codecs : List CodecState) (pcm : List ℕ) (irq : Bool) (budget : ℕ) (old new : BringUp)
        (writer writer' : WriterState) (supply : List ℕ) (made : List Event) (before after : Telling)
        (task : Task) (found : Bool)
        → SoundTells irq budget old new writer writer' supply made before after → Makes made before after
        → IsStretch task (state_of old writer) (Some (record { irq = irq; budget = budget })) made found
        (state_of new writer')
        → StaysSet old new writer writer' → IsLeft pcm writer.course supply → HasNotWrapped (world_of after)
        → StreamSounds codecs (ring_of writer) pcm (tally_of writer) before
        → StreamSounds codecs (ring_of writer') pcm (tally_of writer') after }
{
    steps_keep_the_ring();
    events_between_runs_keep_the_ring();
    accesses_beside_keep_it_steady();
}

/// A first run sets the stream going: where it had not begun at any moment, streams rest, the engine of commands stands
/// to the world, CORB has no command that was not fetched, and RIRB lies outside the ring's blocks. The codecs that
/// hear it have the graphs and settings that they had before the call.
pub fn a_first_run_is_heard()
    ensures { (pcm : List ℕ) (irq : Bool) (budget : ℕ) (old new : BringUp) (writer writer' : WriterState)
        (supply : List ℕ) (made : List Event) (before after : Telling) (from read corb rirb : ℕ)
        → Begins irq budget old new writer writer' supply made before after → StaysSet old new writer writer'
        → supply ≡ pcm → Along HasNotBegun before.journal before.start
        → Rests writer.geometry.fifo (world_of before)
        → Stands from read corb rirb old.engine.rings (world_of before)
        → (world_of before).registers.global.corb_read_pointer
        ≡ (world_of before).registers.global.corb_write_pointer → AreApartFrom (ring_of writer) rirb
        → HasNotWrapped (world_of after)
        → StreamSounds (world_of before).codecs (ring_of writer') pcm (tally_of writer') after }
{
    streams_rest_before_sound();
    a_first_run_can_begin();
    idle_codecs_keep_their_settings();
    a_started_stream_is_steady();
    steps_keep_the_ring();
    events_between_runs_keep_the_ring();
    accesses_beside_keep_it_steady();
}

/// After the last call the stream is stopped, and its tally is one of a stream that was set going. Where the device
/// made no step in that call, each pin heard the line by how the last run ended. WALCLK has not wrapped at any moment
/// of the call.
pub fn the_last_run_is_heard()
    ensures { (codecs : List CodecState) (pcm : List ℕ) (old ended : BringUp) (writer : WriterState) (tally : Tally)
        (supply : List ℕ) (made last : List Event) (before after : Telling)
        → EndTells old ended writer tally supply made before after → Makes made before after
        → Went before after last → Along HasNotWrapped last (world_of before) → IsLeft pcm writer.course supply
        → StreamSounds codecs (ring_of writer) pcm (tally_of writer) before
        → (tally.course.started ≡ true) × HasStopped after
        × (All IsNoStep last → HearTheLine codecs writer.geometry.format pcm tally (world_of after).carried) }
{
    steps_keep_the_ring();
    events_between_runs_keep_the_ring();
    accesses_beside_keep_it_steady();
    the_line_is_heard();
    all_that_was_sent_is_heard();
    longer_lines_are_heard();
    routed_pins_hear_what_was_sent();
    silent_pins_hear_nothing();
    runs_append_to_the_line();
}

/// Then it stays stopped, over steps of the device and the mark at the end of the last call, and no link frame carries
/// anything more.
pub fn a_stopped_stream_is_over()
    ensures steps { (steps : List Step) (old new : Telling) → Went old new (map Stepped steps) → HasStopped old
        → HasStopped new × ((world_of new).carried ≡ (world_of old).carried) }
    ensures end { (old new : Telling) → Accessed old new End → HasStopped old
        → HasStopped new × ((world_of new).carried ≡ (world_of old).carried) }
{}
