//! A look for the answer to the outstanding command, and where it leads.
ghost use Rattle.std.specs.Prelude.{◌≡◌, ◌≤◌, ◌+◌, [], true, None, IfOk, OnErr, IsSome};
ghost use Rattle.command_engine.specs.Blocks.{most_events};
ghost use Rattle.command_engine.specs.declared.room.TheConstants.{POLL_BYTES};
ghost use Rattle.driver_progress.specs.declared.room.TheConstants.{ASK_ACCESSES};
ghost use Rattle.driver_bring_up.specs.Standing as standing;
ghost use Rattle.driver_bring_up.specs.Commanding as spec;

use crate::answers::{TAG, take_answer};
use crate::jack_laws::events_are_of_pins;
use crate::jacks::Jacks;
use command_engine::{Engine, Outstanding, Poll};
use driver_agenda::Agenda;
use driver_progress::{Asked, Phase, ask};
use hda_platform::Platform;
use route_setup::Setter;
use std::alloc::AllocError;

/// Where a look for an answer led.
#[derive(Clone, Copy, Debug, PartialEq, Eq)]
pub struct Answer {
    /// The clock, in ticks of 1/24,000,000 s.
    pub clock: u32,
    /// The phase after it.
    pub phase: Phase,
    /// Whether the next command may be submitted.
    pub is_free: bool,
}

/// Reads the clock, and looks for the answer to the outstanding command, which is the one that comes next on the
/// agenda. An answer leads the agenda on. What codecs told unasked is counted.
///
/// # Errors
/// Want of memory, where an answer was found. The look was made then, and what was told unasked is counted; the graphs
/// of the walks before stay.
pub fn look_for_answer<P: Platform, T: Setter>(
    platform: &mut P,
    engine: &mut Engine,
    jacks: &mut Jacks,
    agenda: &mut Agenda,
    setter: &T,
    phase: Phase,
) -> Result<Answer, AllocError>
    requires asks { IsSome (standing.next_on agenda.old) }
    requires events { engine.old.events ≡ [] }
    requires few { jacks.old.taken + most_events ≤ 4294967295 }
    requires room { ASK_ACCESSES ≤ P.spare_accesses platform.old }
    requires bytes_room { POLL_BYTES ≤ P.spare_bytes platform.old }
    ensures looks { IfOk result (λ answer. spec.Looks (T.means setter.now agenda.old.format TAG) engine.old.corb.address
        engine.old.rirb.address engine.old.rings phase agenda.old jacks.old answer engine.new.rings agenda.new jacks.new
        (P.told platform.old) (P.told platform.new)) }
    ensures wanting { OnErr result (spec.FindsAlone (T.means setter.now agenda.old.format TAG) engine.old.rirb.address
        engine.old.rings jacks.old agenda.old engine.new.rings jacks.new agenda.new (P.told platform.old)
        (P.told platform.new)) }
    ensures idle { IfOk result (λ answer. answer.is_free ≡ true → engine.new.rings.outstanding ≡ None) }
    ensures started { engine.new.rings.started ≡ engine.old.rings.started }
    ensures events { engine.new.events ≡ [] }
    ensures taken { jacks.new.taken ≤ jacks.old.taken + most_events }
    ensures corb { engine.new.corb ≡ engine.old.corb }
    ensures rirb { engine.new.rirb ≡ engine.old.rirb }
    ensures addresses { agenda.new.addresses ≡ agenda.old.addresses }
    ensures format { agenda.new.format ≡ agenda.old.format }
    ensures fixed { P.fixed platform.new ≡ P.fixed platform.old }
    ensures accesses { P.spare_accesses platform.old ≤ P.spare_accesses platform.new + ASK_ACCESSES }
    ensures bytes { P.spare_bytes platform.old ≤ P.spare_bytes platform.new + POLL_BYTES }
{
    let outstanding = engine.outstanding();
    let Asked { clock, poll } = ask(platform, engine);
    events_are_of_pins();
    jacks.take_events(engine);
    let phase = phase_after(agenda, setter, outstanding, phase, poll)?;
    let is_free = leaves_free(poll, phase);
    Ok(Answer {
        clock,
        phase,
        is_free,
    })
}

/// The phase after a look that found this.
fn phase_after<T: Setter>(
    agenda: &mut Agenda,
    setter: &T,
    outstanding: Option<Outstanding>,
    phase: Phase,
    poll: Poll,
) -> Result<Phase, AllocError>
    requires asks { IsSome (standing.next_on agenda.old) }
    ensures wanting { OnErr result (spec.is_answer poll ≡ true) }
    ensures left { OnErr result (spec.LeavesOf (T.means setter.now agenda.old.format TAG) poll agenda.old agenda.new) }
    ensures led { IfOk result (λ after. spec.LedTo poll outstanding phase agenda.old after agenda.new) }
    ensures taken { IfOk result (λ after. spec.Taken (T.means setter.now agenda.old.format TAG) poll agenda.old after
        agenda.new) }
    ensures addresses { agenda.new.addresses ≡ agenda.old.addresses }
    ensures format { agenda.new.format ≡ agenda.old.format }
{
    match poll {
        Poll::Idle => Ok(phase),
        Poll::Answered(word) => take_answer(agenda, setter, word),
        Poll::Waiting => Ok(phase),
        Poll::Unanswered { issued, noticed } => {
            Ok(unanswered(outstanding, issued, noticed, phase))
        }
    }
}

/// The phase where the outstanding command was not answered in its time.
fn unanswered(outstanding: Option<Outstanding>, issued: u32, noticed: u32, phase: Phase) -> Phase
    ensures { result ≡ spec.unanswered_if outstanding issued noticed phase }
{
    match outstanding {
        Some(command) => Phase::Unanswered {
            codec: command.codec,
            command: command.word,
            issued,
            noticed,
        },
        None => phase,
    }
}

/// Whether the next command may be submitted after a look that found this and led to this phase.
fn leaves_free(poll: Poll, phase: Phase) -> bool
    ensures { result ≡ spec.leaves_free poll phase }
{
    match poll {
        Poll::Idle => true,
        Poll::Answered(_) => phase.goes_on(),
        Poll::Waiting => false,
        Poll::Unanswered { .. } => false,
    }
}
