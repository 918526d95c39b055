//! What `capture` answers.
ghost use Rattle.std.specs.Prelude.{◌≡◌, ◌≢◌, ◌≤◌, ℕ, List, IfOk};
ghost use Rattle.hda_files.specs.Machines.{IsSound};
ghost use Rattle.laws_start.specs.Reading.{IsRead};
ghost use Rattle.program_words.specs.Asked.{IsRingInRange};
ghost use Rattle.hda_program.specs.CaptureAnswers.{CaptureAnswers};
ghost use Rattle.hda_program.specs.Capturing.{MachineCaptures, RingCaptures, ScheduleCaptures, SoundCaptures};
ghost use Rattle.hda_program.specs.Files.{FailedUnder, IsGoodSchedule, UnaskedUnder};
ghost use Rattle.hda_program.specs.Given.{IsWholeSound};
ghost use Rattle.hda_program.specs.Meanings.{answer_meant};

use crate::answer::Answer;
use crate::codec::read_codec_file;
use crate::given::read_given_file;
use crate::message::{geometry_refused, no_input};
use crate::schedule::read_schedule_file;
use hda_files::Machine;
use hda_outside::Shelf;
use laws_start::read_machines_are_whole;
use period_writer::Geometry;
use program_captures::{capture, inputs_of};
use schedule_reader::Schedule;
use std::alloc::{AllocError, Global};
use wav_reader::Wav;

/// What `capture` answers for the files of these names and a ring of so many periods of so many units.
///
/// # Errors
/// Want of memory.
pub(crate) fn answer_capture<S: Shelf>(
    alloc: Global,
    shelf: &mut S,
    codec: &str,
    wav: &str,
    schedule: &str,
    periods: u8,
    period: u8,
) -> Result<Answer, AllocError>
    requires ring { IsRingInRange periods period }
    ensures answers { IfOk result (λ answer. CaptureAnswers (S.told shelf.old)
        (FailedUnder (S.faults shelf.old) (S.faults shelf.new))
        (UnaskedUnder (S.asked shelf.old) (S.asked shelf.new))
        codec.now wav.now schedule.now periods period (answer_meant answer)) }
    ensures asked { (other : List ℕ) → other ≢ codec.now → other ≢ wav.now → other ≢ schedule.now
        → S.asked shelf.new other ≡ S.asked shelf.old other }
    ensures told { S.told shelf.new ≡ S.told shelf.old }
    ensures later { (other : List ℕ) → S.faults shelf.old other ≤ S.faults shelf.new other }
    ensures empties_later { (other : List ℕ) → S.empties shelf.old other ≤ S.empties shelf.new other }
{
    match read_codec_file(alloc, shelf, codec)? {
        Ok(machine) => capture_machine(alloc, shelf, machine, wav, schedule, periods, period),
        Err(message) => Ok(Answer::Message(message)),
    }
}

/// What `capture` answers for a machine, and the WAV file and the schedule of these names.
///
/// # Errors
/// Want of memory.
fn capture_machine<S: Shelf>(
    alloc: Global,
    shelf: &mut S,
    machine: Machine,
    wav: &str,
    schedule: &str,
    periods: u8,
    period: u8,
) -> Result<Answer, AllocError>
    requires sound { IsSound machine }
    requires read { IsRead machine }
    requires ring { IsRingInRange periods period }
    ensures answers { IfOk result (λ answer. MachineCaptures (S.told shelf.old)
        (FailedUnder (S.faults shelf.old) (S.faults shelf.new))
        (UnaskedUnder (S.asked shelf.old) (S.asked shelf.new))
        periods period machine wav.now schedule.now (answer_meant answer)) }
    ensures asked { (other : List ℕ) → other ≢ wav.now → other ≢ schedule.now
        → S.asked shelf.new other ≡ S.asked shelf.old other }
    ensures told { S.told shelf.new ≡ S.told shelf.old }
    ensures later { (other : List ℕ) → S.faults shelf.old other ≤ S.faults shelf.new other }
    ensures empties_later { (other : List ℕ) → S.empties shelf.old other ≤ S.empties shelf.new other }
{
    match read_given_file(alloc, shelf, wav)? {
        Ok(given) => capture_sound(alloc, shelf, machine, given, schedule, periods, period),
        Err(message) => Ok(Answer::Message(message)),
    }
}

/// What `capture` answers for a machine, a sound that its input pins are given, and the schedule of this name.
///
/// # Errors
/// Want of memory.
fn capture_sound<S: Shelf>(
    alloc: Global,
    shelf: &mut S,
    machine: Machine,
    given: Wav,
    schedule: &str,
    periods: u8,
    period: u8,
) -> Result<Answer, AllocError>
    requires sound { IsSound machine }
    requires read { IsRead machine }
    requires whole { IsWholeSound given }
    requires ring { IsRingInRange periods period }
    ensures answers { IfOk result (λ answer. SoundCaptures (S.told shelf.old)
        (FailedUnder (S.faults shelf.old) (S.faults shelf.new))
        periods period machine given schedule.now (answer_meant answer)) }
    ensures asked { (other : List ℕ) → other ≢ schedule.now → S.asked shelf.new other ≡ S.asked shelf.old other }
    ensures told { S.told shelf.new ≡ S.told shelf.old }
    ensures later { (other : List ℕ) → S.faults shelf.old other ≤ S.faults shelf.new other }
    ensures empties_later { (other : List ℕ) → S.empties shelf.old other ≤ S.empties shelf.new other }
{
    match read_schedule_file(alloc, shelf, schedule)? {
        Ok(steps) => capture_schedule(alloc, machine, given, &steps, periods, period),
        Err(message) => Ok(Answer::Message(message)),
    }
}

/// What `capture` answers for a machine, a sound and a schedule: it records through the ring of these numbers, if it is
/// good.
///
/// # Errors
/// Want of memory.
fn capture_schedule(
    alloc: Global,
    machine: Machine,
    given: Wav,
    schedule: &Schedule,
    periods: u8,
    period: u8,
) -> Result<Answer, AllocError>
    requires sound { IsSound machine }
    requires read { IsRead machine }
    requires whole { IsWholeSound given }
    requires good { IsGoodSchedule schedule.now }
    requires ring { IsRingInRange periods period }
    ensures { IfOk result (λ answer. ScheduleCaptures periods period machine given schedule.now (answer_meant answer)) }
{
    match Geometry::new(periods, period, machine.fifo, given.format) {
        Ok(geometry) => capture_ring(alloc, machine, given, geometry, schedule),
        Err(fault) => {
            let text = fault.to_string(alloc)?;
            let message = geometry_refused(alloc, text.as_str())?;
            Ok(Answer::Message(message))
        }
    }
}

/// What `capture` answers for a machine, a sound, a ring and a schedule: it runs nothing where no codec has an input.
///
/// # Errors
/// Want of memory.
fn capture_ring(
    alloc: Global,
    machine: Machine,
    given: Wav,
    geometry: Geometry,
    schedule: &Schedule,
) -> Result<Answer, AllocError>
    requires sound { IsSound machine }
    requires read { IsRead machine }
    requires whole { IsWholeSound given }
    requires good { IsGoodSchedule schedule.now }
    requires fifo { geometry.fifo ≡ machine.fifo }
    requires format { geometry.format ≡ given.format }
    ensures { IfOk result (λ answer. RingCaptures machine given geometry schedule.now (answer_meant answer)) }
{
    read_machines_are_whole();
    match inputs_of(alloc, machine.codecs.as_slice(), given.format)? {
        Some((address, plans)) => {
            let captured = capture(alloc, address, machine, plans, given, geometry, schedule)?;
            Ok(Answer::Captured(captured))
        }
        None => Ok(Answer::Message(no_input(alloc)?)),
    }
}
