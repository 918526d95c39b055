//! What `route` answers.
ghost use Rattle.std.specs.Prelude.{◌≡◌, ◌≢◌, ◌≤◌, ℕ, List, IfOk};
ghost use Rattle.hda_program.specs.Answers.{MachineAnswers, RouteAnswers};
ghost use Rattle.hda_program.specs.Meanings.{message_meant};
ghost use Rattle.hda_program.specs.Files.{FailedUnder};

use crate::codec::read_codec_file;
use crate::message::Message;
use crate::plans::{nothing_routed, plans_of, routed};
use driver_agenda::have_route;
use hda_files::Machine;
use hda_outside::Shelf;
use route_planner::{Format, PinKind};
use std::alloc::{AllocError, Global};

/// What `route` answers for the codec file of this name and for this format.
///
/// # Errors
/// Want of memory.
pub(crate) fn answer_route<S: Shelf>(
    alloc: Global,
    shelf: &mut S,
    name: &str,
    format: Format,
) -> Result<Message, AllocError>
    ensures answers { IfOk result (λ message. RouteAnswers (S.told shelf.old)
        (FailedUnder (S.faults shelf.old) (S.faults shelf.new))
        name.now format (message_meant message)) }
    ensures asked { (other : List ℕ) → other ≢ name.now → S.asked shelf.new other ≡ S.asked shelf.old other }
    ensures told { S.told shelf.new ≡ S.told shelf.old }
    ensures later { (other : List ℕ) → S.faults shelf.old other ≤ S.faults shelf.new other }
    ensures empties_later { (other : List ℕ) → S.empties shelf.old other ≤ S.empties shelf.new other }
{
    match read_codec_file(alloc, shelf, name)? {
        Ok(machine) => answer_machine(alloc, &machine, format),
        Err(message) => Ok(message),
    }
}

/// What `route` answers for a machine: the plans of its codecs.
fn answer_machine(alloc: Global, machine: &Machine, format: Format) -> Result<Message, AllocError>
    ensures { IfOk result (λ message. MachineAnswers format machine.now (message_meant message)) }
{
    let plans = plans_of(alloc, PinKind::Analog, machine.codecs.as_slice(), format)?;
    if have_route(plans.as_slice()) {
        routed(alloc, machine.codecs.as_slice(), plans.as_slice())
    } else {
        nothing_routed(alloc, machine.codecs.as_slice(), plans.as_slice())
    }
}
