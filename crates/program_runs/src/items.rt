//! The items of a schedule, one after another.
ghost use Rattle.std.specs.Prelude.{◌≡◌, ◌≤◌, ◌+◌, ℕ, List, [], ◌∷◌, length, false, OnOk};
ghost use Rattle.schedule_reader.specs.Counts.{items_in, items_of};
ghost use Rattle.wav_reader.specs.Fills.{IsBeside};
ghost use Rattle.period_writer.specs.Rings.{ring_bytes};
ghost use Rattle.period_writer.specs.Writers.{measures_of};
ghost use Rattle.audio_driver.specs.declared.room.TheConstants.{ROOM_BYTES};
ghost use Rattle.program_runs.specs.Feeding.{IsFedSo, shelves_of};
ghost use Rattle.rig.specs.Rigs.{setting_of};
ghost use Rattle.program_runs.specs.Lines.{lines_in, lines_of};
ghost use Rattle.program_runs.specs.Going as spec;

use crate::calls::run_line;
use audio_driver::Driver;
use driver_bring_up::TAG;
use hda_outside::{Cut, Shelf};
use laws_driver::drivers_keep_to_progress;
use rig::{Rig, pieces_follow};
use route_setup::Setter;
use schedule_reader::{Item, Part, Schedule};
use std::alloc::{AllocError, Global};

/// Runs an item: a step of the device, or a call of the driver.
///
/// # Errors
/// Want of memory.
fn run_item<T: Setter, S: Shelf>(
    alloc: Global,
    shelf: &mut S,
    cut: &mut Option<Cut>,
    rig: &mut Rig,
    driver: &mut Driver<T>,
    item: &Item,
    bytes: u32,
) -> Result<(), AllocError>
    requires fed { IsFedSo (measures_of driver.old.writer) (shelves_of (S.told shelf.old) (S.faults shelf.old)
        (S.empties shelf.old) (S.given shelf.old)) cut.old driver.old.supply driver.old.writer.course }
    requires between { (setting_of rig.old).in_run ≡ false }
    requires few { driver.old.calls + length (lines_in (item.now ∷ [])) ≤ driver.old.runs }
    requires room { ring_bytes driver.old.writer.geometry.periods
        driver.old.writer.geometry.period + ROOM_BYTES ≤ bytes }
    ensures ran { OnOk result (spec.Ran
        (T.means driver.old.setter) driver.old.bring_up.agenda.format driver.old.play (item.now ∷ [])
        (spec.stand_of driver.old.bring_up driver.old.writer driver.old.supply
        (shelves_of (S.told shelf.old) (S.faults shelf.old) (S.empties shelf.old) (S.given shelf.old)) cut.old rig.old)
        (spec.stand_of driver.new.bring_up driver.new.writer driver.new.supply
        (shelves_of (S.told shelf.new) (S.faults shelf.new) (S.empties shelf.new) (S.given shelf.new)) cut.new
        rig.new)) }
    ensures geometry { OnOk result (driver.new.writer.geometry ≡ driver.old.writer.geometry) }
    ensures setter { OnOk result (driver.new.setter ≡ driver.old.setter) }
    ensures play { OnOk result (driver.new.play ≡ driver.old.play) }
    ensures runs { OnOk result (driver.new.runs ≡ driver.old.runs) }
    ensures calls { OnOk result (driver.new.calls ≡ driver.old.calls + length (lines_in (item.now ∷ []))) }
    ensures told { S.told shelf.new ≡ S.told shelf.old }
    ensures asked { (other : List ℕ) → IsBeside driver.old.supply.source other
        → S.asked shelf.new other ≡ S.asked shelf.old other }
    ensures later { (other : List ℕ) → S.faults shelf.old other ≤ S.faults shelf.new other }
    ensures empties_later { (other : List ℕ) → S.empties shelf.old other ≤ S.empties shelf.new other }
{
    drivers_keep_to_progress::<T>();
    pieces_follow();
    match item {
        Item::Device(step) => rig.step(step),
        Item::Drive(line) => run_line(alloc, shelf, cut, rig, driver, line, bytes),
    }
}

/// Runs some items in turn.
///
/// # Errors
/// Want of memory.
fn run_items<T: Setter, S: Shelf>(
    alloc: Global,
    shelf: &mut S,
    cut: &mut Option<Cut>,
    rig: &mut Rig,
    driver: &mut Driver<T>,
    items: &[Item],
    bytes: u32,
) -> Result<(), AllocError>
    requires fed { IsFedSo (measures_of driver.old.writer) (shelves_of (S.told shelf.old) (S.faults shelf.old)
        (S.empties shelf.old) (S.given shelf.old)) cut.old driver.old.supply driver.old.writer.course }
    requires between { (setting_of rig.old).in_run ≡ false }
    requires few { driver.old.calls + length (lines_in items.now) ≤ driver.old.runs }
    requires room { ring_bytes driver.old.writer.geometry.periods
        driver.old.writer.geometry.period + ROOM_BYTES ≤ bytes }
    ensures ran { OnOk result (spec.Ran
        (T.means driver.old.setter) driver.old.bring_up.agenda.format driver.old.play items.now
        (spec.stand_of driver.old.bring_up driver.old.writer driver.old.supply
        (shelves_of (S.told shelf.old) (S.faults shelf.old) (S.empties shelf.old) (S.given shelf.old)) cut.old rig.old)
        (spec.stand_of driver.new.bring_up driver.new.writer driver.new.supply
        (shelves_of (S.told shelf.new) (S.faults shelf.new) (S.empties shelf.new) (S.given shelf.new)) cut.new
        rig.new)) }
    ensures geometry { OnOk result (driver.new.writer.geometry ≡ driver.old.writer.geometry) }
    ensures setter { OnOk result (driver.new.setter ≡ driver.old.setter) }
    ensures play { OnOk result (driver.new.play ≡ driver.old.play) }
    ensures runs { OnOk result (driver.new.runs ≡ driver.old.runs) }
    ensures calls { OnOk result (driver.new.calls ≡ driver.old.calls + length (lines_in items.now)) }
    ensures told { S.told shelf.new ≡ S.told shelf.old }
    ensures asked { (other : List ℕ) → IsBeside driver.old.supply.source other
        → S.asked shelf.new other ≡ S.asked shelf.old other }
    ensures later { (other : List ℕ) → S.faults shelf.old other ≤ S.faults shelf.new other }
    ensures empties_later { (other : List ℕ) → S.empties shelf.old other ≤ S.empties shelf.new other }
{
    pieces_follow();
    for item in items {
        run_item(alloc, shelf, cut, rig, driver, item, bytes)?;
    }
    Ok(())
}

/// Runs the items of a part, as often as it is repeated.
///
/// # Errors
/// Want of memory.
fn run_part<T: Setter, S: Shelf>(
    alloc: Global,
    shelf: &mut S,
    cut: &mut Option<Cut>,
    rig: &mut Rig,
    driver: &mut Driver<T>,
    part: &Part,
    bytes: u32,
) -> Result<(), AllocError>
    requires fed { IsFedSo (measures_of driver.old.writer) (shelves_of (S.told shelf.old) (S.faults shelf.old)
        (S.empties shelf.old) (S.given shelf.old)) cut.old driver.old.supply driver.old.writer.course }
    requires between { (setting_of rig.old).in_run ≡ false }
    requires few { driver.old.calls + length (lines_in (items_in part.now)) ≤ driver.old.runs }
    requires room { ring_bytes driver.old.writer.geometry.periods
        driver.old.writer.geometry.period + ROOM_BYTES ≤ bytes }
    ensures ran { OnOk result (spec.Ran
        (T.means driver.old.setter) driver.old.bring_up.agenda.format driver.old.play (items_in part.now)
        (spec.stand_of driver.old.bring_up driver.old.writer driver.old.supply
        (shelves_of (S.told shelf.old) (S.faults shelf.old) (S.empties shelf.old) (S.given shelf.old)) cut.old rig.old)
        (spec.stand_of driver.new.bring_up driver.new.writer driver.new.supply
        (shelves_of (S.told shelf.new) (S.faults shelf.new) (S.empties shelf.new) (S.given shelf.new)) cut.new
        rig.new)) }
    ensures geometry { OnOk result (driver.new.writer.geometry ≡ driver.old.writer.geometry) }
    ensures setter { OnOk result (driver.new.setter ≡ driver.old.setter) }
    ensures play { OnOk result (driver.new.play ≡ driver.old.play) }
    ensures runs { OnOk result (driver.new.runs ≡ driver.old.runs) }
    ensures calls { OnOk result (driver.new.calls ≡ driver.old.calls + length (lines_in (items_in part.now))) }
    ensures told { S.told shelf.new ≡ S.told shelf.old }
    ensures asked { (other : List ℕ) → IsBeside driver.old.supply.source other
        → S.asked shelf.new other ≡ S.asked shelf.old other }
    ensures later { (other : List ℕ) → S.faults shelf.old other ≤ S.faults shelf.new other }
    ensures empties_later { (other : List ℕ) → S.empties shelf.old other ≤ S.empties shelf.new other }
{
    pieces_follow();
    for _ in 0..part.times {
        run_items(alloc, shelf, cut, rig, driver, part.items.as_slice(), bytes)?;
    }
    Ok(())
}

/// Runs the items of a schedule with its repeats written out.
///
/// # Errors
/// Want of memory.
pub(crate) fn run_schedule<T: Setter, S: Shelf>(
    alloc: Global,
    shelf: &mut S,
    cut: &mut Option<Cut>,
    rig: &mut Rig,
    driver: &mut Driver<T>,
    schedule: &Schedule,
    bytes: u32,
) -> Result<(), AllocError>
    requires fed { IsFedSo (measures_of driver.old.writer) (shelves_of (S.told shelf.old) (S.faults shelf.old)
        (S.empties shelf.old) (S.given shelf.old)) cut.old driver.old.supply driver.old.writer.course }
    requires between { (setting_of rig.old).in_run ≡ false }
    requires few { driver.old.calls + length (lines_of schedule.now) ≤ driver.old.runs }
    requires room { ring_bytes driver.old.writer.geometry.periods
        driver.old.writer.geometry.period + ROOM_BYTES ≤ bytes }
    ensures ran { OnOk result (spec.Ran
        (T.means driver.old.setter) driver.old.bring_up.agenda.format driver.old.play (items_of schedule.now)
        (spec.stand_of driver.old.bring_up driver.old.writer driver.old.supply
        (shelves_of (S.told shelf.old) (S.faults shelf.old) (S.empties shelf.old) (S.given shelf.old)) cut.old rig.old)
        (spec.stand_of driver.new.bring_up driver.new.writer driver.new.supply
        (shelves_of (S.told shelf.new) (S.faults shelf.new) (S.empties shelf.new) (S.given shelf.new)) cut.new
        rig.new)) }
    ensures geometry { OnOk result (driver.new.writer.geometry ≡ driver.old.writer.geometry) }
    ensures setter { OnOk result (driver.new.setter ≡ driver.old.setter) }
    ensures play { OnOk result (driver.new.play ≡ driver.old.play) }
    ensures runs { OnOk result (driver.new.runs ≡ driver.old.runs) }
    ensures told { S.told shelf.new ≡ S.told shelf.old }
    ensures asked { (other : List ℕ) → IsBeside driver.old.supply.source other
        → S.asked shelf.new other ≡ S.asked shelf.old other }
    ensures later { (other : List ℕ) → S.faults shelf.old other ≤ S.faults shelf.new other }
    ensures empties_later { (other : List ℕ) → S.empties shelf.old other ≤ S.empties shelf.new other }
{
    pieces_follow();
    for part in schedule.parts.as_slice() {
        run_part(alloc, shelf, cut, rig, driver, part, bytes)?;
    }
    Ok(())
}
