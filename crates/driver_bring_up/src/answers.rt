//! Where answers lead.
ghost use Rattle.std.specs.Prelude.{◌≡◌, true, IfOk, OnErr, IsSome};
ghost use Rattle.driver_agenda.specs.AnswerWords.{WasLeft};
ghost use Rattle.driver_progress.specs.Phases.{can_follow};
ghost use Rattle.driver_bring_up.specs.Standing as spec;

use driver_agenda::{Agenda, AgendaFault};
use driver_progress::Phase;
use route_setup::Setter;
use std::alloc::AllocError;

/// The tag of the stream that is played. This project's own.
pub const TAG: u8 = 1;

/// The phase of a driver that is led by an agenda: codecs are walked or set up while commands are left.
pub(crate) fn phase_of(agenda: &Agenda) -> Phase
    ensures { result ≡ spec.phase_of agenda.now }
{
    if agenda.next().is_none() {
        Phase::Ready
    } else if agenda.is_walking() {
        Phase::Walking
    } else {
        Phase::SettingUp
    }
}

/// Takes the answer to the command that comes next, and gives the phase that it leads to.
///
/// # Errors
/// Want of memory. The graphs of the walks before stay.
pub(crate) fn take_answer<T: Setter>(
    agenda: &mut Agenda,
    setter: &T,
    word: u32,
) -> Result<Phase, AllocError>
    requires { IsSome (spec.next_on agenda.old) }
    ensures leads_on { IfOk result (spec.LeadsOn (T.means setter.now agenda.old.format TAG) word agenda.old
        agenda.new) }
    ensures follows { IfOk result (λ phase. can_follow phase ≡ true) }
    ensures ends { IfOk result (spec.EndsBy (T.means setter.now agenda.old.format TAG) word agenda.old
        agenda.new) }
    ensures wanting { OnErr result (WasLeft (T.means setter.now agenda.old.format TAG) agenda.old.walk word agenda.old
        agenda.new) }
    ensures addresses { agenda.new.addresses ≡ agenda.old.addresses }
    ensures format { agenda.new.format ≡ agenda.old.format }
{
    match agenda.take(setter, word) {
        Ok(()) => Ok(phase_of(agenda)),
        Err(AgendaFault::Malformed { codec, fault }) => Ok(Phase::Malformed { codec, fault }),
        Err(AgendaFault::NothingRouted) => Ok(Phase::NothingRouted),
        Err(AgendaFault::OutOfMemory) => Err(AllocError),
    }
}
