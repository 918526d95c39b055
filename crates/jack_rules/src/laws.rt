//! Laws of the rules, each the contract of a function that does nothing.
ghost use Rattle.std.specs.Prelude.{◌≡◌, ℕ, List, Option, IfSome};
ghost use Rattle.verb_codes.specs.Verbs.{IsInRange};
ghost use Rattle.command_engine.specs.declared.answers.Event.{Event};
ghost use Rattle.jack_rules.specs.Switching as spec;

/// Each command that comes asks one of the jacks, or puts 0 or 40h to one of the speakers, and can be sent. What is told
/// and which command comes change no pin of them.
pub fn choices_are_commands()
    ensures commands { (switching : spec.SwitchingState)
        → IfSome (spec.next_choice switching).command (spec.IsSwitchCommand switching) }
    ensures in_range { (switching : spec.SwitchingState) → spec.AreInReach switching
        → IfSome (spec.next_choice switching).command IsInRange }
    ensures told { (switching : spec.SwitchingState) (events : List Event) (answer : Option ℕ)
        → spec.KeepsPins switching (spec.told_all switching events answer) }
    ensures chosen { (switching : spec.SwitchingState) → spec.KeepsPins switching (spec.next_choice switching).next }
{}
