//! Laws of the rules, each the contract of a function that does nothing.
ghost use Rattle.std.specs.Prelude.{◌≡◌, ◌<◌, ◌^◌, true, false, List, [], Option, Some, None, IfSome};
ghost use Rattle.codec_graph.specs.declared.raw.RawCodec.{RawCodec};
ghost use Rattle.command_engine.specs.declared.answers.Outstanding.{Outstanding};
ghost use Rattle.driver_progress.specs.Expected.{shuts};
ghost use Rattle.driver_progress.specs.Tasks.{Order, Task, DriverLine};
ghost use Rattle.driver_rules.specs.Findings.{Findings};
ghost use Rattle.driver_rules.specs.Notes.{TakesUp};
ghost use Rattle.hda_registers.specs.declared.places.TheConstants.{WALCLK};
ghost use Rattle.jack_rules.specs.Switching.{SwitchingState, AreInReach, KeepsPins, next_choice};
ghost use Rattle.jack_switch.specs.SwitchRules as spec;
ghost use Rattle.period_writer.specs.declared.course.Ran.{Ran};
ghost use Rattle.route_planner.specs.declared.routes.Plan.{Plan};
ghost use Rattle.verb_codes.specs.declared.verbs.Command.{Command};
ghost use Rattle.verb_codes.specs.Verbs.{IsInRange, word_of, reading_of};

use jack_rules::choices_are_commands;

/// The tally of runs goes on as progress has it, whatever else a stretch does.
pub fn switch_rules_take_runs_up()
    ensures takes { (task : Task) (graphs : List RawCodec) (plans : List Plan)
        → TakesUp (spec.switch_rules task graphs plans) (λ (state : spec.SwitchState). state.tally) task }
{}

/// A command is submitted only where none is outstanding after the look: what is outstanding then stays so. None is
/// submitted where the driver gives up, which it does at the clock that the run before read last, and none in the
/// closing stretch.
pub fn one_command_is_outstanding()
    ensures submits { (state : spec.SwitchState) (ran : Ran) (order : Order)
        → spec.order_after state ran ≡ Some order → state.rings.outstanding ≡ None }
    ensures stays { (task : Task) (state : spec.SwitchState) (turn : Option DriverLine) (findings : Findings)
        (command : Outstanding) → spec.comes state turn findings ≡ true
        → (spec.looked_if state.tally.course.started state findings).rings.outstanding ≡ Some command
        → (spec.switch_next task state turn findings).rings
        ≡ (spec.looked_if state.tally.course.started state findings).rings }
    ensures gives_up { (task : Task) (state : spec.SwitchState) (turn : Option DriverLine) (findings : Findings)
        → spec.comes state turn findings ≡ true → spec.gives_up state findings ≡ true
        → ((spec.switch_next task state turn findings).rings ≡ (spec.looked state findings).rings)
        × ((spec.switch_next task state turn findings).given_up ≡ Some state.clock) }
    ensures closes { (task : Task) (state : spec.SwitchState) (findings : Findings)
        → (spec.switch_next task state None findings).rings
        ≡ (spec.looked_if (spec.comes state None findings) state findings).rings }
{}

/// Once the stream ended or the driver gave up, no call makes an access, and the last one makes the end alone. Nothing
/// changes then but the tally, as progress has it, and nothing at all by a stretch that reads no clock.
pub fn nothing_follows_the_end()
    ensures calls { (task : Task) (state : spec.SwitchState) (line : DriverLine) (findings : Findings)
        → spec.is_on state ≡ false → spec.switch_expected task state (Some line) findings ≡ [] }
    ensures closes { (task : Task) (state : spec.SwitchState) (findings : Findings)
        → spec.is_on state ≡ false → spec.switch_expected task state None findings ≡ shuts }
    ensures changes { (task : Task) (state : spec.SwitchState) (turn : Option DriverLine) (findings : Findings)
        → spec.is_on state ≡ false
        → spec.switch_next task state turn findings
        ≡ record state { tally = spec.tally_after task state turn findings } }
    ensures stays { (task : Task) (state : spec.SwitchState) (turn : Option DriverLine) (findings : Findings)
        → spec.is_on state ≡ false → findings.values WALCLK ≡ []
        → spec.switch_next task state turn findings ≡ state }
{}

/// The word of a command that can be sent is a number of 32 bits, and reads back as the command. So it is with each
/// command that the rules choose, whose jacks and speakers codecs can have; what changes no pin leaves it so.
pub fn commands_are_words()
    ensures words { (command : Command) → IsInRange command
        → (word_of command < 2 ^ 32) × (reading_of (word_of command) ≡ Some command) }
    ensures chosen { (switching : SwitchingState) → AreInReach switching → IfSome (next_choice switching).command
        (λ command. (word_of command < 2 ^ 32) × (reading_of (word_of command) ≡ Some command)) }
    ensures stays { (old new : SwitchingState) → KeepsPins old new → AreInReach old → AreInReach new }
{
    choices_are_commands();
}
