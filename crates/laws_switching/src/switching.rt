//! The law of a driver that switches speakers, as it is told, from the first line on that begins at `Ready`: the
//! contract of a function that does nothing.
ghost use Rattle.std.specs.Prelude.{List};
ghost use Rattle.verb_codes.specs.declared.verbs.Command.{Command};
ghost use Rattle.codec_graph.specs.declared.raw.RawCodec.{RawCodec};
ghost use Rattle.stream_format.specs.declared.format.Format.{Format};
ghost use Rattle.route_planner.specs.declared.routes.Plan.{Plan};
ghost use Rattle.driver_progress.specs.Tasks.{Task};
ghost use Rattle.laws_switching.specs.Keeping.{IsTaskToSwitch, GoesOnOverSteps, KeepsSwitching};

use crate::calling::switching_goes_on_over_calls;
use crate::ending::a_last_call_ends_switching;
use crate::hearing::turned_codecs_are_set_up;
use crate::senses::sense_answers_are_known;
use crate::turning::a_turn_begins_to_switch;
use driver_progress::answers_agree;
use jack_switch::switch_rules_take_runs_up;
use laws_stream::{
    accesses_of_commands_leave_the_stream_alone, commands_tell_whether_the_stream_runs,
    streams_rest_before_sound, the_stream_goes_on_beside_commands,
};

/// A driver that switches speakers goes on as it is over steps of the device between its calls: codecs take no command
/// but those that it sent, while the stream runs or after it is over, and all stay set up but for the speakers that are
/// off.
pub fn switching_goes_on_over_steps()
    ensures { (format : Format) (verbs : RawCodec → List Command) (graphs : List RawCodec) (plans : List Plan)
        (task : Task) → IsTaskToSwitch format verbs graphs plans task → GoesOnOverSteps format graphs plans task }
{
    turned_codecs_are_set_up();
    sense_answers_are_known();
    switch_rules_take_runs_up();
    answers_agree();
    streams_rest_before_sound();
    the_stream_goes_on_beside_commands();
    accesses_of_commands_leave_the_stream_alone();
    commands_tell_whether_the_stream_runs();
}

/// A driver that switches speakers is led on from the first line that begins at `Ready`: a driver that switches was
/// made of the parts of one that brought its codecs up, and the line is its first call. From then on each stretch makes
/// just the accesses that its rules expect and leads where they say, while WALCLK has not wrapped. All codecs stay set
/// up but for the speakers that are off. What is sent to a speaker is what the sense answers before it decide. The runs
/// are those of the journal's stretches. At the end each pin heard the line where it was on, and nothing where it was
/// off.
pub fn drivers_that_switch_keep_to_rules()
    ensures { (format : Format) (verbs : RawCodec → List Command) (graphs : List RawCodec) (plans : List Plan)
        (task : Task) → IsTaskToSwitch format verbs graphs plans task
        → KeepsSwitching format verbs graphs plans task }
{
    a_turn_begins_to_switch();
    switching_goes_on_over_steps();
    switching_goes_on_over_calls();
    a_last_call_ends_switching();
}
