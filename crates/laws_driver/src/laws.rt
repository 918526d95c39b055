//! Laws of what is told of a driver that plays, each the contract of a function that does nothing.
ghost use Rattle.std.specs.Prelude.{◌≡◌, List};
ghost use Rattle.verb_codes.specs.declared.verbs.Command.{Command};
ghost use Rattle.codec_graph.specs.declared.raw.RawCodec.{RawCodec};
ghost use Rattle.stream_format.specs.declared.format.Format.{Format};
ghost use Rattle.hda_world.specs.Tellings.{Telling, world_of};
ghost use Rattle.period_writer.specs.Runs.{tally_opened};
ghost use Rattle.driver_progress.specs.declared.phase.Phase.TheVariants.{Ready};
ghost use Rattle.driver_progress.specs.Tasks.{Task, DriverLine};
ghost use Rattle.laws_bring_up.specs.Standing.{IsTaskOfCodecs};
ghost use Rattle.laws_driver.specs.Sounding.{Parts, tally_in};
ghost use Rattle.laws_driver.specs.Keeping.{DriverGoesOn, KeepsPlaying};
ghost use Rattle.laws_driver.specs.Leaving.{IsLeftStanding, IsLeftReady};

use driver_agenda::agendas_follow;
use driver_bring_up::{TAG, agendas_agree};
use driver_progress::{answers_agree, polls_are_noted};
use laws_bring_up::bring_ups_keep_to_progress;
use laws_stream::{
    a_first_run_is_heard, a_stopped_stream_is_over, streams_rest_before_sound,
    the_last_run_is_heard, the_stream_goes_on,
};
use route_setup::Setter;

/// Each call of a driver that plays, in an open stretch of its own, for an interrupt or not, makes just the accesses
/// that progress expects and leads where it says: for the codecs on the link, one to four with well-formed graphs, of
/// which some pin has a route, while WALCLK has not wrapped. From its rise to its stop the output stream runs without
/// an error. From the last answer on each codec is set up by its plan at every moment. What each pin heard at the end
/// is the line of its pair, where the device made no step in the last stretch. Where no sound was played, the stream
/// was never set going.
pub fn drivers_keep_to_progress<T: Setter>()
    ensures { (setter : T) (format : Format) (verbs : RawCodec → List Command) (graphs : List RawCodec) (task : Task)
        → IsTaskOfCodecs (T.means setter format TAG) verbs graphs task
        → KeepsPlaying (T.means setter format TAG) verbs graphs task }
{
    bring_ups_keep_to_progress::<T>();
    agendas_follow::<T>();
    agendas_agree::<T>();
    polls_are_noted();
    answers_agree();
    streams_rest_before_sound();
    the_stream_goes_on();
    a_first_run_is_heard();
    the_last_run_is_heard();
    a_stopped_stream_is_over();
}

/// A driver whose codecs are set up and that has not played leaves, when it is taken apart, an engine that stands to
/// the world with no command outstanding and the controller out of reset. No stream runs, WALCLK is 500 times the link
/// frames since CRST rose, modulo 2^32, and RIRB lies outside the blocks of the writer. All codecs are set up, and no
/// command comes. So it is whether sound is to be played or not, and progress came just as far.
pub fn parts_stand<T: Setter>()
    ensures { (setter : T) (format : Format) (verbs : RawCodec → List Command) (graphs : List RawCodec) (task : Task)
        (lines left : List DriverLine) (parts : Parts) (telling : Telling)
        → IsTaskOfCodecs (T.means setter format TAG) verbs graphs task
        → parts.bring_up.phase ≡ Ready → tally_in parts ≡ tally_opened
        → DriverGoesOn (T.means setter format TAG) verbs graphs task lines left parts telling
        → IsLeftStanding (T.means setter format TAG) graphs parts (world_of telling)
        × IsLeftReady task lines parts telling }
{
    agendas_follow::<T>();
    agendas_agree::<T>();
}
