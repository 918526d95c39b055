//! The law of the calls of a driver that switches speakers, as they are told: the contract of a function that does
//! nothing.
ghost use Rattle.std.specs.Prelude.{List};
ghost use Rattle.verb_codes.specs.declared.verbs.Command.{Command};
ghost use Rattle.codec_graph.specs.declared.raw.RawCodec.{RawCodec};
ghost use Rattle.stream_format.specs.declared.format.Format.{Format};
ghost use Rattle.route_planner.specs.declared.routes.Plan.{Plan};
ghost use Rattle.driver_progress.specs.Tasks.{Task};
ghost use Rattle.laws_switching.specs.Keeping.{IsTaskToSwitch, GoesOnOverCalls};

use crate::hearing::turned_codecs_are_set_up;
use crate::senses::sense_answers_are_known;
use driver_progress::answers_agree;
use jack_rules::choices_are_commands;
use jack_switch::{commands_are_words, switch_rules_take_runs_up};
use laws_stream::{
    a_bare_stop_gives_the_stream_up, a_first_run_can_begin,
    accesses_of_commands_leave_the_stream_alone, commands_tell_whether_the_stream_runs,
    streams_rest_before_sound, the_stream_goes_on_beside_commands,
};
use period_writer::runs_write_their_ring;

/// A call of a driver that switches speakers goes on as its rules say, while WALCLK has not wrapped: no run comes, the
/// first one does, or a later one, each with the next command if one comes, or the driver gives up. Codecs take no
/// command but those that it sent, while the stream runs or after it is over, and all stay set up but for the speakers
/// that are off. What is sent to a speaker is what the sense answers before it decide.
pub fn switching_goes_on_over_calls()
    ensures { (format : Format) (verbs : RawCodec → List Command) (graphs : List RawCodec) (plans : List Plan)
        (task : Task) → IsTaskToSwitch format verbs graphs plans task → GoesOnOverCalls format graphs plans task }
{
    turned_codecs_are_set_up();
    sense_answers_are_known();
    choices_are_commands();
    commands_are_words();
    switch_rules_take_runs_up();
    answers_agree();
    runs_write_their_ring();
    streams_rest_before_sound();
    a_first_run_can_begin();
    the_stream_goes_on_beside_commands();
    a_bare_stop_gives_the_stream_up();
    accesses_of_commands_leave_the_stream_alone();
    commands_tell_whether_the_stream_runs();
}
