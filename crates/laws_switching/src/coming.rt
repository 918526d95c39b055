//! The law of a driver that is to switch speakers, while it brings its codecs up: the contract of a function that does
//! nothing.
ghost use Rattle.std.specs.Prelude.{◌≡◌, false, List};
ghost use Rattle.verb_codes.specs.declared.verbs.Command.{Command};
ghost use Rattle.codec_graph.specs.declared.raw.RawCodec.{RawCodec};
ghost use Rattle.stream_format.specs.declared.format.Format.{Format};
ghost use Rattle.route_planner.specs.declared.routes.Plan.{Plan};
ghost use Rattle.driver_progress.specs.Tasks.{Task};
ghost use Rattle.laws_bring_up.specs.Standing.{IsTaskOfCodecs};
ghost use Rattle.laws_switching.specs.Coming.{KeepsComing};

use driver_agenda::agendas_follow;
use driver_bring_up::{TAG, agendas_agree};
use driver_progress::{answers_agree, polls_are_noted};
use laws_bring_up::bring_ups_keep_to_progress;
use laws_driver::drivers_keep_to_progress;
use route_setup::Setter;

/// A driver that is to switch speakers is led on while it brings its codecs up. Each of its calls is progress, while
/// WALCLK has not wrapped, and the rules of a driver that switches wait until a line begins at `Ready`. Where it is
/// closed before that the stream was never set going.
pub fn drivers_wait_to_switch<T: Setter>()
    ensures { (setter : T) (format : Format) (verbs : RawCodec → List Command) (graphs : List RawCodec)
        (plans : List Plan) (task : Task)
        → IsTaskOfCodecs (T.means setter format TAG) verbs graphs task → task.plays ≡ false
        → KeepsComing (T.means setter format TAG) verbs graphs plans task }
{
    bring_ups_keep_to_progress::<T>();
    drivers_keep_to_progress::<T>();
    agendas_follow::<T>();
    agendas_agree::<T>();
    polls_are_noted();
    answers_agree();
}
