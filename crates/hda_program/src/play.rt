//! What `play` and `spdif` answer.
ghost use Rattle.std.specs.Prelude.{◌≡◌, ◌≢◌, ◌≤◌, ℕ, List, IfOk};
ghost use Rattle.hda_files.specs.Machines.{IsSound};
ghost use Rattle.program_words.specs.Asked.{IsRingInRange};
ghost use Rattle.hda_program.specs.Answers.{PlayAnswers};
ghost use Rattle.hda_program.specs.Playing.{MachinePlays, PinsPlay, RingPlays, SchedulePlays, SoundPlays};
ghost use Rattle.laws_start.specs.Reading.{IsRead};
ghost use Rattle.hda_program.specs.Files.{EmptiedUnder, FailedUnder, GivenAtMost, IsGoodSchedule, IsHeadOf};
ghost use Rattle.hda_program.specs.Files.{UnaskedUnder};
ghost use Rattle.hda_program.specs.Meanings.{answer_meant};

use crate::answer::Answer;
use crate::codec::read_codec_file;
use crate::message::{codec_refused, geometry_refused};
use crate::pins::are_few_pins;
use crate::plans::{nothing_routed, plans_of};
use crate::schedule::read_schedule_file;
use crate::wav::open_wav_file;
use codec_graph::PinKind;
use driver_agenda::have_route;
use hda_files::Machine;
use hda_outside::Shelf;
use laws_start::read_machines_are_whole;
use period_writer::Geometry;
use program_runs::play;
use schedule_reader::Schedule;
use std::alloc::{AllocError, Global};
use wav_reader::WavHead;

/// What is answered for the files of these names and a ring of so many periods of so many units, where the sound is
/// played through pins of the kind.
///
/// # Errors
/// Want of memory.
pub(crate) fn answer_play<S: Shelf>(
    alloc: Global,
    shelf: &mut S,
    kind: PinKind,
    codec: &str,
    wav: &str,
    schedule: &str,
    periods: u8,
    period: u8,
) -> Result<Answer, AllocError>
    requires ring { IsRingInRange periods period }
    ensures answers { IfOk result (λ answer. PlayAnswers kind (S.told shelf.old)
        (FailedUnder (S.faults shelf.old) (S.faults shelf.new))
        (EmptiedUnder (S.empties shelf.old) (S.empties shelf.new))
        (UnaskedUnder (S.asked shelf.old) (S.asked shelf.new))
        (GivenAtMost (S.given shelf.old) (S.given shelf.new))
        codec.now wav.now schedule.now periods period (answer_meant answer)) }
    ensures asked { (other : List ℕ) → other ≢ codec.now → other ≢ wav.now → other ≢ schedule.now
        → S.asked shelf.new other ≡ S.asked shelf.old other }
    ensures told { S.told shelf.new ≡ S.told shelf.old }
    ensures later { (other : List ℕ) → S.faults shelf.old other ≤ S.faults shelf.new other }
    ensures empties_later { (other : List ℕ) → S.empties shelf.old other ≤ S.empties shelf.new other }
{
    match read_codec_file(alloc, shelf, codec)? {
        Ok(machine) => play_machine(alloc, shelf, kind, machine, wav, schedule, periods, period),
        Err(message) => Ok(Answer::Message(message)),
    }
}

/// What is answered for a machine, and the WAV file and the schedule of these names: it plays where it can through the
/// pins of the kind.
///
/// # Errors
/// Want of memory.
fn play_machine<S: Shelf>(
    alloc: Global,
    shelf: &mut S,
    kind: PinKind,
    machine: Machine,
    wav: &str,
    schedule: &str,
    periods: u8,
    period: u8,
) -> Result<Answer, AllocError>
    requires sound { IsSound machine }
    requires read { IsRead machine }
    requires ring { IsRingInRange periods period }
    ensures answers { IfOk result (λ answer. MachinePlays kind (S.told shelf.old)
        (FailedUnder (S.faults shelf.old) (S.faults shelf.new))
        (EmptiedUnder (S.empties shelf.old) (S.empties shelf.new))
        (UnaskedUnder (S.asked shelf.old) (S.asked shelf.new))
        (GivenAtMost (S.given shelf.old) (S.given shelf.new))
        periods period machine wav.now schedule.now (answer_meant answer)) }
    ensures asked { (other : List ℕ) → other ≢ wav.now → other ≢ schedule.now
        → S.asked shelf.new other ≡ S.asked shelf.old other }
    ensures told { S.told shelf.new ≡ S.told shelf.old }
    ensures later { (other : List ℕ) → S.faults shelf.old other ≤ S.faults shelf.new other }
    ensures empties_later { (other : List ℕ) → S.empties shelf.old other ≤ S.empties shelf.new other }
{
    if are_few_pins(alloc, kind, machine.codecs.as_slice())? {
        play_pins(alloc, shelf, kind, machine, wav, schedule, periods, period)
    } else {
        let message = codec_refused(alloc, "TooManyPins")?;
        Ok(Answer::Message(message))
    }
}

/// What is answered for a machine whose pins of the kind are few, and the WAV file and the schedule of these names.
///
/// # Errors
/// Want of memory.
fn play_pins<S: Shelf>(
    alloc: Global,
    shelf: &mut S,
    kind: PinKind,
    machine: Machine,
    wav: &str,
    schedule: &str,
    periods: u8,
    period: u8,
) -> Result<Answer, AllocError>
    requires sound { IsSound machine }
    requires read { IsRead machine }
    requires ring { IsRingInRange periods period }
    ensures answers { IfOk result (λ answer. PinsPlay kind (S.told shelf.old)
        (FailedUnder (S.faults shelf.old) (S.faults shelf.new))
        (EmptiedUnder (S.empties shelf.old) (S.empties shelf.new))
        (UnaskedUnder (S.asked shelf.old) (S.asked shelf.new))
        (GivenAtMost (S.given shelf.old) (S.given shelf.new))
        periods period machine wav.now schedule.now (answer_meant answer)) }
    ensures asked { (other : List ℕ) → other ≢ wav.now → other ≢ schedule.now
        → S.asked shelf.new other ≡ S.asked shelf.old other }
    ensures told { S.told shelf.new ≡ S.told shelf.old }
    ensures later { (other : List ℕ) → S.faults shelf.old other ≤ S.faults shelf.new other }
    ensures empties_later { (other : List ℕ) → S.empties shelf.old other ≤ S.empties shelf.new other }
{
    match open_wav_file(alloc, shelf, wav)? {
        Ok(head) => play_sound(
            alloc, shelf, kind, machine, head, wav, schedule, periods, period,
        ),
        Err(message) => Ok(Answer::Message(message)),
    }
}

/// What is answered for a machine, the WAV file that says this before its sound, and the schedule of this name.
///
/// # Errors
/// Want of memory.
fn play_sound<S: Shelf>(
    alloc: Global,
    shelf: &mut S,
    kind: PinKind,
    machine: Machine,
    head: WavHead,
    wav: &str,
    schedule: &str,
    periods: u8,
    period: u8,
) -> Result<Answer, AllocError>
    requires sound { IsSound machine }
    requires read { IsRead machine }
    requires file { IsHeadOf (S.told shelf.old) wav.now head }
    requires ring { IsRingInRange periods period }
    ensures answers { IfOk result (λ answer. SoundPlays kind (S.told shelf.old)
        (FailedUnder (S.faults shelf.old) (S.faults shelf.new))
        (EmptiedUnder (S.empties shelf.old) (S.empties shelf.new))
        (GivenAtMost (S.given shelf.old) (S.given shelf.new))
        periods period wav.now machine head schedule.now (answer_meant answer)) }
    ensures asked { (other : List ℕ) → other ≢ wav.now → other ≢ schedule.now
        → S.asked shelf.new other ≡ S.asked shelf.old other }
    ensures told { S.told shelf.new ≡ S.told shelf.old }
    ensures later { (other : List ℕ) → S.faults shelf.old other ≤ S.faults shelf.new other }
    ensures empties_later { (other : List ℕ) → S.empties shelf.old other ≤ S.empties shelf.new other }
{
    match read_schedule_file(alloc, shelf, schedule)? {
        Ok(steps) => play_schedule(
            alloc, shelf, kind, machine, head, wav, &steps, periods, period,
        ),
        Err(message) => Ok(Answer::Message(message)),
    }
}

/// What is answered for a machine, a WAV file and a schedule: it plays through the ring of these numbers, if it is
/// good.
///
/// # Errors
/// Want of memory.
fn play_schedule<S: Shelf>(
    alloc: Global,
    shelf: &mut S,
    kind: PinKind,
    machine: Machine,
    head: WavHead,
    wav: &str,
    schedule: &Schedule,
    periods: u8,
    period: u8,
) -> Result<Answer, AllocError>
    requires sound { IsSound machine }
    requires read { IsRead machine }
    requires file { IsHeadOf (S.told shelf.old) wav.now head }
    requires good { IsGoodSchedule schedule.now }
    requires ring { IsRingInRange periods period }
    ensures answers { IfOk result (λ answer. SchedulePlays kind (S.told shelf.old)
        (FailedUnder (S.faults shelf.old) (S.faults shelf.new))
        (EmptiedUnder (S.empties shelf.old) (S.empties shelf.new))
        (GivenAtMost (S.given shelf.old) (S.given shelf.new))
        periods period wav.now machine head schedule.now (answer_meant answer)) }
    ensures asked { (other : List ℕ) → other ≢ wav.now → S.asked shelf.new other ≡ S.asked shelf.old other }
    ensures told { S.told shelf.new ≡ S.told shelf.old }
    ensures later { (other : List ℕ) → S.faults shelf.old other ≤ S.faults shelf.new other }
    ensures empties_later { (other : List ℕ) → S.empties shelf.old other ≤ S.empties shelf.new other }
{
    match Geometry::new(periods, period, machine.fifo, head.format) {
        Ok(geometry) => play_ring(alloc, shelf, kind, machine, head, wav, geometry, schedule),
        Err(fault) => {
            let text = fault.to_string(alloc)?;
            let message = geometry_refused(alloc, text.as_str())?;
            Ok(Answer::Message(message))
        }
    }
}

/// What is answered for a machine, a WAV file, a ring and a schedule: it runs nothing where no pin has a route.
///
/// # Errors
/// Want of memory.
fn play_ring<S: Shelf>(
    alloc: Global,
    shelf: &mut S,
    kind: PinKind,
    machine: Machine,
    head: WavHead,
    wav: &str,
    geometry: Geometry,
    schedule: &Schedule,
) -> Result<Answer, AllocError>
    requires sound { IsSound machine }
    requires read { IsRead machine }
    requires file { IsHeadOf (S.told shelf.old) wav.now head }
    requires good { IsGoodSchedule schedule.now }
    requires fifo { geometry.fifo ≡ machine.fifo }
    requires format { geometry.format ≡ head.format }
    ensures answers { IfOk result (λ answer. RingPlays kind (S.told shelf.old)
        (FailedUnder (S.faults shelf.old) (S.faults shelf.new))
        (EmptiedUnder (S.empties shelf.old) (S.empties shelf.new))
        (GivenAtMost (S.given shelf.old) (S.given shelf.new))
        wav.now machine head geometry schedule.now (answer_meant answer)) }
    ensures asked { (other : List ℕ) → other ≢ wav.now → S.asked shelf.new other ≡ S.asked shelf.old other }
    ensures told { S.told shelf.new ≡ S.told shelf.old }
    ensures later { (other : List ℕ) → S.faults shelf.old other ≤ S.faults shelf.new other }
    ensures empties_later { (other : List ℕ) → S.empties shelf.old other ≤ S.empties shelf.new other }
{
    read_machines_are_whole();
    let plans = plans_of(alloc, kind, machine.codecs.as_slice(), head.format)?;
    if have_route(plans.as_slice()) {
        let played = play(
            alloc, shelf, kind, machine, plans, head, wav, geometry, schedule,
        )?;
        Ok(Answer::Run(played))
    } else {
        let message = nothing_routed(alloc, machine.codecs.as_slice(), plans.as_slice())?;
        Ok(Answer::Message(message))
    }
}
