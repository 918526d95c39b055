//! What `walk` answers.
ghost use Rattle.std.specs.Prelude.{◌≡◌, ◌≢◌, ◌≤◌, ℕ, List, IfOk};
ghost use Rattle.hda_files.specs.Machines.{IsSound};
ghost use Rattle.hda_program.specs.Answers.{MachineWalks, ScheduleAnswers, WalkAnswers};
ghost use Rattle.laws_start.specs.Reading.{IsRead};
ghost use Rattle.hda_program.specs.Files.{FailedUnder, IsGoodSchedule, UnaskedUnder};
ghost use Rattle.hda_program.specs.Meanings.{answer_meant};

use crate::answer::Answer;
use crate::codec::read_codec_file;
use crate::plans::{nothing_routed, plans_of};
use crate::schedule::read_schedule_file;
use codec_graph::PinKind;
use driver_agenda::have_route;
use hda_files::Machine;
use hda_outside::Shelf;
use laws_start::read_machines_are_whole;
use program_runs::{walk, walk_format};
use schedule_reader::Schedule;
use std::alloc::{AllocError, Global};

/// What `walk` answers for the codec file and the schedule of these names.
///
/// # Errors
/// Want of memory.
pub(crate) fn answer_walk<S: Shelf>(
    alloc: Global,
    shelf: &mut S,
    codec: &str,
    schedule: &str,
) -> Result<Answer, AllocError>
    ensures answers { IfOk result (λ answer. WalkAnswers (S.told shelf.old)
        (FailedUnder (S.faults shelf.old) (S.faults shelf.new))
        (UnaskedUnder (S.asked shelf.old) (S.asked shelf.new)) codec.now schedule.now (answer_meant answer)) }
    ensures asked { (other : List ℕ) → other ≢ codec.now → other ≢ schedule.now
        → S.asked shelf.new other ≡ S.asked shelf.old other }
    ensures told { S.told shelf.new ≡ S.told shelf.old }
    ensures later { (other : List ℕ) → S.faults shelf.old other ≤ S.faults shelf.new other }
    ensures empties_later { (other : List ℕ) → S.empties shelf.old other ≤ S.empties shelf.new other }
{
    match read_codec_file(alloc, shelf, codec)? {
        Ok(machine) => walk_machine(alloc, shelf, machine, schedule),
        Err(message) => Ok(Answer::Message(message)),
    }
}

/// What `walk` answers for a machine and the schedule of this name.
///
/// # Errors
/// Want of memory.
fn walk_machine<S: Shelf>(
    alloc: Global,
    shelf: &mut S,
    machine: Machine,
    name: &str,
) -> Result<Answer, AllocError>
    requires sound { IsSound machine }
    requires read { IsRead machine }
    ensures answers { IfOk result (λ answer. MachineWalks (S.told shelf.old)
        (FailedUnder (S.faults shelf.old) (S.faults shelf.new))
        machine name.now (answer_meant answer)) }
    ensures asked { (other : List ℕ) → other ≢ name.now → S.asked shelf.new other ≡ S.asked shelf.old other }
    ensures told { S.told shelf.new ≡ S.told shelf.old }
    ensures later { (other : List ℕ) → S.faults shelf.old other ≤ S.faults shelf.new other }
    ensures empties_later { (other : List ℕ) → S.empties shelf.old other ≤ S.empties shelf.new other }
{
    match read_schedule_file(alloc, shelf, name)? {
        Ok(schedule) => walk_schedule(alloc, machine, &schedule),
        Err(message) => Ok(Answer::Message(message)),
    }
}

/// What `walk` answers for a machine and a schedule: it runs nothing where no pin has a route.
///
/// # Errors
/// Want of memory.
fn walk_schedule(alloc: Global, machine: Machine, schedule: &Schedule) -> Result<Answer, AllocError>
    requires sound { IsSound machine }
    requires read { IsRead machine }
    requires good { IsGoodSchedule schedule.now }
    ensures { IfOk result (λ answer. ScheduleAnswers machine schedule.now (answer_meant answer)) }
{
    read_machines_are_whole();
    let plans = plans_of(
        alloc,
        PinKind::Analog,
        machine.codecs.as_slice(),
        walk_format(),
    )?;
    if have_route(plans.as_slice()) {
        Ok(Answer::Run(walk(alloc, machine, plans, schedule)?))
    } else {
        let message = nothing_routed(alloc, machine.codecs.as_slice(), plans.as_slice())?;
        Ok(Answer::Message(message))
    }
}
