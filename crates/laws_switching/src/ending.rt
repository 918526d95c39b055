//! The law of the last call of a driver that switches speakers, as it is told: the contract of a function that does
//! nothing.
ghost use Rattle.std.specs.Prelude.{List};
ghost use Rattle.verb_codes.specs.declared.verbs.Command.{Command};
ghost use Rattle.codec_graph.specs.declared.raw.RawCodec.{RawCodec};
ghost use Rattle.stream_format.specs.declared.format.Format.{Format};
ghost use Rattle.route_planner.specs.declared.routes.Plan.{Plan};
ghost use Rattle.driver_progress.specs.Tasks.{Task};
ghost use Rattle.laws_switching.specs.Keeping.{IsTaskToSwitch, Ends};

use crate::hearing::{switched_pins_are_heard, turned_codecs_are_set_up};
use crate::senses::sense_answers_are_known;
use driver_progress::answers_agree;
use jack_switch::switch_rules_take_runs_up;
use laws_stream::{
    a_bare_stop_gives_the_stream_up, a_stopped_stream_is_over,
    accesses_of_commands_leave_the_stream_alone, commands_tell_whether_the_stream_runs,
    streams_rest_before_sound, the_last_run_is_heard_by_signals,
    the_stream_goes_on_beside_commands,
};
use period_writer::runs_write_their_ring;

/// The last call of a driver that switches speakers ends as its rules say. All codecs stayed set up but for the
/// speakers that were off, and what was sent to a speaker is what the sense answers before it decided. The runs are
/// those of the journal's stretches. Each pin heard the line where it was on, and nothing where it was off.
pub fn a_last_call_ends_switching()
    ensures { (format : Format) (verbs : RawCodec → List Command) (graphs : List RawCodec) (plans : List Plan)
        (task : Task) → IsTaskToSwitch format verbs graphs plans task → Ends format graphs plans task }
{
    turned_codecs_are_set_up();
    switched_pins_are_heard();
    sense_answers_are_known();
    switch_rules_take_runs_up();
    answers_agree();
    runs_write_their_ring();
    streams_rest_before_sound();
    the_stream_goes_on_beside_commands();
    a_bare_stop_gives_the_stream_up();
    accesses_of_commands_leave_the_stream_alone();
    the_last_run_is_heard_by_signals();
    a_stopped_stream_is_over();
    commands_tell_whether_the_stream_runs();
}
