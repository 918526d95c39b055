//! The look before a run, and the next command after it.
ghost use Rattle.std.specs.Prelude.{◌≡◌, ◌≤◌, ◌+◌, ◌++◌, List, [], All, length, true, None};
ghost use Rattle.std.specs.Option.{option_map};
ghost use Rattle.command_engine.specs.declared.answers.Event as told;
ghost use Rattle.command_engine.specs.declared.room.TheConstants.{POLL_ACCESSES, POLL_BYTES};
ghost use Rattle.command_engine.specs.declared.room.TheConstants.{SUBMIT_ACCESSES, SUBMIT_BYTES};
ghost use Rattle.driver_bring_up.specs.Counted.{IsCount};
ghost use Rattle.driver_bring_up.specs.Jacks.{IsOfPin};
ghost use Rattle.driver_progress.specs.Tasks.{order_of};
ghost use Rattle.jack_rules.specs.Switching.{KeepsPins, told_events};
ghost use Rattle.jack_switch.specs.JackDrivers.{IsAskedBy};
ghost use Rattle.jack_switch.specs.Found as found;
ghost use Rattle.jack_switch.specs.SwitchRules as rules;
ghost use Rattle.jack_switch.specs.JackSteps as spec;

use command_engine::{Engine, Poll};
use driver_bring_up::{Jacks, events_are_of_pins};
use hda_platform::Platform;
use jack_rules::{Switching, choices_are_commands};

/// Takes all events that are left of the engine, in order: each is counted, and told to the rules.
fn take_events(engine: &mut Engine, jacks: &mut Jacks, switching: &mut Switching)
    requires of_pins { All IsOfPin engine.old.events }
    ensures told { switching.new ≡ told_events switching.old engine.old.events }
    ensures counted { (events : List told.Event) → IsCount events jacks.old
        → length (events ++ engine.old.events) ≤ 4294967295 → IsCount (events ++ engine.old.events) jacks.new }
    ensures events { engine.new.events ≡ [] }
    ensures rings { engine.new.rings ≡ engine.old.rings }
    ensures corb { engine.new.corb ≡ engine.old.corb }
    ensures rirb { engine.new.rirb ≡ engine.old.rirb }
{
    while let Some(event) = engine.next_event() {
        jacks.note(event);
        switching.note(event);
    }
}

/// Tells the rules of the answer that a poll found, if it found one.
fn take_answer(switching: &mut Switching, poll: Poll)
    ensures { switching.new ≡ found.told_poll switching.old poll }
{
    match poll {
        Poll::Answered(word) => switching.answer(word),
        Poll::Idle | Poll::Waiting | Poll::Unanswered { .. } => {}
    }
}

/// Whether a poll found that the outstanding command was not answered in its time.
fn is_unanswered(poll: Poll) -> bool
    ensures { result ≡ found.is_unanswered poll }
{
    match poll {
        Poll::Unanswered { .. } => true,
        Poll::Idle | Poll::Waiting | Poll::Answered(_) => false,
    }
}

/// Looks for what codecs sent, at this clock: what they told unasked is counted and told to the rules, and then the
/// answer, if one came. Whether the outstanding command was not answered in its time.
pub(crate) fn look<P: Platform>(
    platform: &mut P,
    engine: &mut Engine,
    jacks: &mut Jacks,
    switching: &mut Switching,
    clock: u32,
) -> bool
    requires quiet { engine.old.events ≡ [] }
    requires room { POLL_ACCESSES ≤ P.spare_accesses platform.old }
    requires bytes_room { POLL_BYTES ≤ P.spare_bytes platform.old }
    ensures looks { spec.LooksLast engine.old engine.new clock switching.old switching.new jacks.old jacks.new result
        (P.told platform.old) (P.told platform.new) }
    ensures pins { KeepsPins switching.old switching.new }
    ensures asked { IsAskedBy engine.old.rings.outstanding switching.old.asking
        → IsAskedBy engine.new.rings.outstanding switching.new.asking }
    ensures quiet { engine.new.events ≡ [] }
    ensures started { engine.new.rings.started ≡ engine.old.rings.started }
    ensures corb { engine.new.corb ≡ engine.old.corb }
    ensures rirb { engine.new.rirb ≡ engine.old.rirb }
    ensures fixed { P.fixed platform.new ≡ P.fixed platform.old }
    ensures accesses { P.spare_accesses platform.old ≤ P.spare_accesses platform.new + POLL_ACCESSES }
    ensures bytes { P.spare_bytes platform.old ≤ P.spare_bytes platform.new + POLL_BYTES }
{
    let poll = engine.poll(platform, clock);
    events_are_of_pins();
    choices_are_commands();
    take_events(engine, jacks, switching);
    take_answer(switching, poll);
    is_unanswered(poll)
}

/// Submits the command that the rules choose at this clock, where one may come.
pub(crate) fn submit_next<P: Platform>(
    platform: &mut P,
    engine: &mut Engine,
    switching: &mut Switching,
    may: bool,
    clock: u32,
)
    requires quiet { engine.old.events ≡ [] }
    requires started { engine.old.rings.started ≡ true }
    requires idle { may ≡ true → engine.old.rings.outstanding ≡ None }
    requires room { SUBMIT_ACCESSES ≤ P.spare_accesses platform.old }
    requires bytes_room { SUBMIT_BYTES ≤ P.spare_bytes platform.old }
    ensures submits { spec.SubmitsNow engine.old engine.new
        (option_map order_of (rules.choice_if may switching.old).command) clock
        (P.told platform.old) (P.told platform.new) }
    ensures chosen { switching.new ≡ (rules.choice_if may switching.old).next }
    ensures pins { KeepsPins switching.old switching.new }
    ensures asked { IsAskedBy engine.old.rings.outstanding switching.old.asking
        → IsAskedBy engine.new.rings.outstanding switching.new.asking }
    ensures quiet { engine.new.events ≡ [] }
    ensures started { engine.new.rings.started ≡ engine.old.rings.started }
    ensures corb { engine.new.corb ≡ engine.old.corb }
    ensures rirb { engine.new.rirb ≡ engine.old.rirb }
    ensures fixed { P.fixed platform.new ≡ P.fixed platform.old }
    ensures accesses { P.spare_accesses platform.old ≤ P.spare_accesses platform.new + SUBMIT_ACCESSES }
    ensures bytes { P.spare_bytes platform.old ≤ P.spare_bytes platform.new + SUBMIT_BYTES }
{
    if !may {
        return;
    }
    choices_are_commands();
    if let Some(command) = switching.next() {
        engine.submit(platform, command, clock);
    }
}
