//! The law of a driver that captures, as it is told: the contract of a function that does nothing.
ghost use Rattle.std.specs.Prelude.{◌≡◌, ℕ, false, List};
ghost use Rattle.verb_codes.specs.declared.verbs.Command.{Command};
ghost use Rattle.codec_graph.specs.declared.raw.RawCodec.{RawCodec};
ghost use Rattle.stream_format.specs.declared.format.Format.{Format};
ghost use Rattle.driver_progress.specs.Tasks.{Task};
ghost use Rattle.laws_bring_up.specs.Standing.{IsTaskOfCodecs};
ghost use Rattle.laws_capture.specs.Listening.{HearsWhereOpen};
ghost use Rattle.laws_capture.specs.Capturing.{KeepsCapturing};

use driver_agenda::agendas_follow;
use driver_bring_up::{TAG, agendas_agree};
use driver_progress::{answers_agree, polls_are_noted};
use hda_world::{steps_leave_stopped_inputs, writes_begin_taken_order};
use laws_bring_up::bring_ups_keep_to_progress;
use laws_driver::{drivers_keep_to_progress, parts_stand};
use laws_recording::{
    a_first_recording_begins, a_stop_ends_a_recording, a_stopped_recording_is_over,
    events_beside_keep_recording, given_sound_is_taken, recordings_go_on, steps_keep_recording,
    what_was_recorded_is_given,
};
use laws_stream::{a_first_run_can_begin, streams_rest_before_sound};
use route_setup::Setter;

/// A driver that captures is led on, as it is told. While it brings its codecs up each of its calls is progress, no
/// block comes to the input stream, and the rules of a driver that records wait. At the first line that begins at
/// `Ready` its parts become a driver that records, whose first call the line is. From then on each stretch makes just
/// the accesses that these rules expect and leads where they say, while WALCLK has not wrapped, and all codecs stay set
/// up. What is recorded is the first of the given sound's blocks that were taken, each once and in order, wherever the
/// one converter that takes the stream hears its pin once all codecs are set up. The runs that were recorded are those
/// of the journal's stretches.
pub fn drivers_that_capture_keep_to_progress<T: Setter>()
    ensures { (setter : T) (format : Format) (verbs : RawCodec → List Command) (graphs : List RawCodec) (task : Task)
        (total nid : ℕ)
        → IsTaskOfCodecs (T.means setter format TAG) verbs graphs task → task.plays ≡ false
        → HearsWhereOpen (T.means setter format TAG) graphs task.geometry.format nid
        → KeepsCapturing (T.means setter format TAG) verbs graphs task total nid }
{
    bring_ups_keep_to_progress::<T>();
    drivers_keep_to_progress::<T>();
    parts_stand::<T>();
    agendas_follow::<T>();
    agendas_agree::<T>();
    polls_are_noted();
    answers_agree();
    streams_rest_before_sound();
    a_first_run_can_begin();
    writes_begin_taken_order();
    steps_leave_stopped_inputs();
    steps_keep_recording();
    events_beside_keep_recording();
    a_first_recording_begins();
    recordings_go_on();
    a_stop_ends_a_recording();
    a_stopped_recording_is_over();
    given_sound_is_taken();
    what_was_recorded_is_given();
}
