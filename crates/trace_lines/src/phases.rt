//! The phase that a call leads to, as its accesses show it.
ghost use Rattle.std.specs.Prelude.{◌≡◌};
ghost use Rattle.trace_lines.specs.Lines.{phase_word};
ghost use Rattle.trace_lines.specs.Situations as spec;

use crate::situations::Situation;
use command_engine::{ANSWER_LIMIT, Outstanding};
use driver_progress::Phase;
use sound_report::PlayFault;

/// While commands are sent: whether all of the walks were answered says which.
fn phase_asking(walked: bool) -> Phase
    ensures { result ≡ spec.phase_asking walked }
{
    if walked {
        Phase::SettingUp
    } else {
        Phase::Walking
    }
}

/// After an answer.
fn phase_answered(situation: &Situation) -> Phase
    ensures { result ≡ spec.phase_answered situation.now }
{
    if situation.left == 0 {
        Phase::Ready
    } else {
        phase_asking(situation.unwalked == 0)
    }
}

/// Where no answer came: a command that waits is given up 1,000 link frames after its clock.
fn overdue(waits: Option<Outstanding>, clock: Option<u32>, now: Phase) -> Phase
    ensures { result ≡ spec.overdue waits clock now }
{
    let (Some(command), Some(clock)) = (waits, clock) else {
        return now;
    };
    if u64::from(command.issued) + u64::from(ANSWER_LIMIT) > u64::from(clock) {
        return now;
    }
    Phase::Unanswered {
        codec: command.codec,
        command: command.word,
        issued: command.issued,
        noticed: clock,
    }
}

/// After a call in which commands are sent or waited for.
fn after_asking(situation: &Situation) -> Phase
    ensures { result ≡ spec.after_asking situation.now }
{
    if situation.call.asked {
        phase_asking(situation.setting)
    } else if situation.call.answered {
        phase_answered(situation)
    } else {
        overdue(situation.waits, situation.call.clock, situation.phase)
    }
}

/// Where the stream was stopped, in a run that ended for this fault.
fn phase_stopped(end: Option<PlayFault>) -> Phase
    ensures { result ≡ spec.phase_stopped end }
{
    match end {
        None => Phase::Drained,
        Some(PlayFault::Late { from, to, limit }) => Phase::Late { from, to, limit },
        Some(
            PlayFault::FramesLeft { .. }
            | PlayFault::CommandsLeft { .. }
            | PlayFault::Unanswered { .. },
        ) => Phase::Playing,
    }
}

/// The first of two phases where something was seen, and else the second.
fn phase_if(seen: bool, first: Phase, other: Phase) -> Phase
    ensures { result ≡ spec.phase_if seen first other }
{
    if seen { first } else { other }
}

/// The phase after a call that ends so.
pub(crate) fn phase_after(end: Option<PlayFault>, situation: &Situation) -> Phase
    ensures { result ≡ spec.phase_after end situation.now }
{
    match situation.phase {
        Phase::Reset => phase_if(situation.call.woken, Phase::Settling, Phase::Reset),
        Phase::Settling => phase_if(situation.call.started, Phase::Walking, Phase::Settling),
        Phase::Walking | Phase::SettingUp => after_asking(situation),
        Phase::Ready => phase_if(situation.call.ran, Phase::Playing, Phase::Ready),
        Phase::Playing => phase_if(situation.call.stopped, phase_stopped(end), Phase::Playing),
        over => over,
    }
}

/// The name of a phase.
pub(crate) fn phase_word(phase: Phase) -> &'static str
    ensures { result.now ≡ phase_word phase }
{
    match phase {
        Phase::Reset => "Reset",
        Phase::Settling => "Settling",
        Phase::Walking => "Walking",
        Phase::SettingUp => "SettingUp",
        Phase::Ready => "Ready",
        Phase::Playing => "Playing",
        Phase::Drained => "Drained",
        Phase::NothingRouted => "NothingRouted",
        Phase::Unanswered { .. } => "Unanswered",
        Phase::Late { .. } => "Late",
        Phase::Malformed { .. } => "Malformed",
        Phase::Failed => "Failed",
    }
}
