//! The law of the turn, with which a driver begins to switch speakers, as it is told: the contract of a function that
//! does nothing.
ghost use Rattle.std.specs.Prelude.{List};
ghost use Rattle.verb_codes.specs.declared.verbs.Command.{Command};
ghost use Rattle.codec_graph.specs.declared.raw.RawCodec.{RawCodec};
ghost use Rattle.stream_format.specs.declared.format.Format.{Format};
ghost use Rattle.route_planner.specs.declared.routes.Plan.{Plan};
ghost use Rattle.driver_progress.specs.Tasks.{Task};
ghost use Rattle.laws_switching.specs.Keeping.{IsTaskToSwitch, Turns};

use crate::hearing::turned_codecs_are_set_up;
use crate::senses::sense_answers_are_known;
use driver_progress::answers_agree;
use jack_rules::choices_are_commands;
use jack_switch::{commands_are_words, switch_rules_take_runs_up};
use laws_driver::parts_stand;
use laws_settings::{codecs_remember, frames_remember};
use laws_speakers::switched_codecs_are_set_up;
use laws_stream::{
    a_bare_stop_gives_the_stream_up, a_first_run_can_begin,
    accesses_of_commands_leave_the_stream_alone, commands_tell_whether_the_stream_runs,
    streams_rest_before_sound, the_stream_goes_on_beside_commands,
};
use period_writer::runs_write_their_ring;
use route_setup::Analog;

/// The first line that begins at `Ready` is the first call of a driver that switches speakers, which was made of the
/// parts of one that brought its codecs up. They are set up then, no link frame has carried anything, and no command is
/// outstanding. The call goes on as the rules say, while WALCLK has not wrapped.
pub fn a_turn_begins_to_switch()
    ensures { (format : Format) (verbs : RawCodec → List Command) (graphs : List RawCodec) (plans : List Plan)
        (task : Task) → IsTaskToSwitch format verbs graphs plans task → Turns format verbs graphs plans task }
{
    parts_stand::<Analog>();
    codecs_remember();
    frames_remember();
    switched_codecs_are_set_up();
    turned_codecs_are_set_up();
    sense_answers_are_known();
    choices_are_commands();
    commands_are_words();
    switch_rules_take_runs_up();
    answers_agree();
    runs_write_their_ring();
    streams_rest_before_sound();
    a_first_run_can_begin();
    the_stream_goes_on_beside_commands();
    a_bare_stop_gives_the_stream_up();
    accesses_of_commands_leave_the_stream_alone();
    commands_tell_whether_the_stream_runs();
}
