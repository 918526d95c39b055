//! A driver over a rig by a whole schedule.
ghost use Rattle.std.specs.Prelude.{◌≡◌, ◌≤◌, ◌+◌, ℕ, List, length, false, IfOk, OnOk};
ghost use Rattle.wav_reader.specs.Fills.{IsBeside};
ghost use Rattle.period_writer.specs.Rings.{ring_bytes};
ghost use Rattle.period_writer.specs.Writers.{measures_of};
ghost use Rattle.program_runs.specs.Feeding.{IsFedSo, shelves_of};
ghost use Rattle.rig.specs.Rigs.{telling_of, setting_of};
ghost use Rattle.program_runs.specs.Lines.{lines_of};
ghost use Rattle.audio_driver.specs.declared.room.TheConstants.{ROOM_BYTES};
ghost use Rattle.program_runs.specs.Going as spec;

use crate::calls::run_last;
use crate::items::run_schedule;
use audio_driver::{Closed, Driver};
use hda_outside::{Cut, Shelf};
use rig::Rig;
use route_setup::Setter;
use schedule_reader::Schedule;
use std::alloc::{AllocError, Global};

/// What came of a schedule that was run: what is left of the driver, and how many bytes of the sound were read.
#[derive(Drop)]
pub(crate) struct Driven {
    /// What is left of the driver.
    pub closed: Closed,
    /// How many bytes of the sound were read.
    pub read: u64,
}

/// Runs a schedule over a rig from first to last: its items with repeats written out, and then the last call of the
/// driver.
///
/// # Errors
/// Want of memory.
pub(crate) fn drive<T: Setter + Drop, S: Shelf>(
    alloc: Global,
    shelf: &mut S,
    cut: &mut Option<Cut>,
    rig: &mut Rig,
    mut driver: Driver<T>,
    schedule: &Schedule,
    bytes: u32,
) -> Result<Driven, AllocError>
    requires fed { IsFedSo (measures_of driver.writer) (shelves_of (S.told shelf.old) (S.faults shelf.old)
        (S.empties shelf.old) (S.given shelf.old)) cut.old driver.supply driver.writer.course }
    requires between { (setting_of rig.old).in_run ≡ false }
    requires few { driver.calls + length (lines_of schedule.now) ≤ driver.runs }
    requires room { ring_bytes driver.writer.geometry.periods driver.writer.geometry.period + ROOM_BYTES ≤ bytes }
    ensures driven { IfOk result (λ driven. spec.HasDriven
        (T.means driver.setter) driver.bring_up.agenda.format driver.play schedule.now
        (spec.stand_of driver.bring_up driver.writer driver.supply (shelves_of (S.told shelf.old) (S.faults shelf.old)
        (S.empties shelf.old) (S.given shelf.old)) cut.old rig.old)
        driven.closed driven.read (shelves_of (S.told shelf.new) (S.faults shelf.new) (S.empties shelf.new)
        (S.given shelf.new)) cut.new (telling_of rig.new)) }
    ensures machine { OnOk result ((setting_of rig.new).machine ≡ (setting_of rig.old).machine) }
    ensures kind { OnOk result ((setting_of rig.new).kind ≡ (setting_of rig.old).kind) }
    ensures told { S.told shelf.new ≡ S.told shelf.old }
    ensures asked { (other : List ℕ) → IsBeside driver.supply.source other
        → S.asked shelf.new other ≡ S.asked shelf.old other }
    ensures later { (other : List ℕ) → S.faults shelf.old other ≤ S.faults shelf.new other }
    ensures empties_later { (other : List ℕ) → S.empties shelf.old other ≤ S.empties shelf.new other }
{
    match run_schedule(alloc, shelf, cut, rig, &mut driver, schedule, bytes) {
        Ok(()) => {
            let read = driver.bytes_read();
            let closed = run_last(rig, driver, bytes)?;
            Ok(Driven { closed, read })
        }
        Err(failed) => {
            let _ = driver.abandon();
            Err(failed)
        }
    }
}
