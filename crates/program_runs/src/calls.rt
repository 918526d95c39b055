//! Calls of a driver over a rig.
ghost use Rattle.std.specs.Prelude.{◌≡◌, ◌≤◌, ◌<◌, ◌+◌, ℕ, List, [], ◌∷◌, length, true, false, IfOk, OnOk};
ghost use Rattle.schedule_reader.specs.declared.schedule.Item.TheVariants.{Drive};
ghost use Rattle.wav_reader.specs.Supplies.{MayGive, EndsWith, IsTaken, sound_before};
ghost use Rattle.wav_reader.specs.Fills.{IsBeside};
ghost use Rattle.period_writer.specs.Accounts.{Accounts};
ghost use Rattle.period_writer.specs.Rings.{ring_bytes};
ghost use Rattle.period_writer.specs.Writers.{measures_of};
ghost use Rattle.driver_bring_up.specs.Calls.{IsKept};
ghost use Rattle.audio_driver.specs.States.{plays_now, is_open};
ghost use Rattle.audio_driver.specs.declared.room.TheConstants.{ROOM_ACCESSES, ROOM_BYTES};
ghost use Rattle.program_runs.specs.Feeding.{IsFedSo, IsFilledUp, shelves_of};
ghost use Rattle.laws_driver.specs.Keeping.{Calls};
ghost use Rattle.rig.specs.Rigs.{telling_of, setting_of};
ghost use Rattle.program_runs.specs.Going as spec;

use crate::feeding::feed;
use audio_driver::{Closed, Driver, ROOM_ACCESSES};
use driver_bring_up::{TAG, events_are_of_pins};
use driver_progress::Phase;
use hda_outside::{Cut, Shelf};
use hda_platform::Platform;
use laws_driver::drivers_keep_to_progress;
use rig::{Rig, runs_follow};
use route_setup::Setter;
use schedule_reader::DriverLine;
use std::alloc::{AllocError, Global};

/// Calls a driver as a line says: for an interrupt or not, and with its budget.
///
/// # Errors
/// Want of memory.
fn call<T: Setter, P: Platform>(
    platform: &mut P,
    driver: &mut Driver<T>,
    line: &DriverLine,
) -> Result<Phase, AllocError>
    requires within { length driver.old.supply.held ≤ driver.old.supply.left }
    requires up { plays_now driver.old.play driver.old.bring_up ≡ true → is_open driver.old.writer.course.ran ≡ true
        → IsFilledUp (measures_of driver.old.writer).ring driver.old.supply }
    requires few { driver.old.calls < driver.old.runs }
    requires room { ROOM_ACCESSES ≤ P.spare_accesses platform.old }
    requires bytes_room { ring_bytes driver.old.writer.geometry.periods
        driver.old.writer.geometry.period + ROOM_BYTES ≤ P.spare_bytes platform.old }
    ensures taken { IsTaken driver.old.supply driver.new.supply }
    ensures accounts { Accounts (measures_of driver.old.writer) driver.old.supply driver.new.supply
        driver.old.writer.course driver.new.writer.course }
    ensures leads { OnOk result ((later : List ℕ) → MayGive driver.new.supply later
        → Calls (T.means driver.old.setter driver.old.bring_up.agenda.format TAG) driver.old.play
        line.now.irq line.now.budget (spec.parts_with driver.old.bring_up driver.old.writer
        (sound_before driver.old.supply driver.new.supply later)) (spec.parts_with driver.new.bring_up driver.new.writer
        later) (P.told platform.old) (P.told platform.new)) }
    ensures kept { IsKept driver.old.bring_up driver.new.bring_up }
    ensures geometry { driver.new.writer.geometry ≡ driver.old.writer.geometry }
    ensures setter { driver.new.setter ≡ driver.old.setter }
    ensures play { driver.new.play ≡ driver.old.play }
    ensures runs { driver.new.runs ≡ driver.old.runs }
    ensures calls { driver.new.calls ≡ driver.old.calls + 1 }
    ensures fixed { P.fixed platform.new ≡ P.fixed platform.old }
{
    if line.irq {
        driver.irq(platform, line.budget)
    } else {
        driver.run(platform, line.budget)
    }
}

/// Runs a driver line of a schedule, for which the supply was filled: a call of the driver with the steps of the line's
/// groups between its accesses.
///
/// # Errors
/// Want of memory.
fn run_filled<T: Setter>(
    rig: &mut Rig,
    driver: &mut Driver<T>,
    line: &DriverLine,
    bytes: u32,
) -> Result<(), AllocError>
    requires between { (setting_of rig.old).in_run ≡ false }
    requires within { length driver.old.supply.held ≤ driver.old.supply.left }
    requires up { plays_now driver.old.play driver.old.bring_up ≡ true → is_open driver.old.writer.course.ran ≡ true
        → IsFilledUp (measures_of driver.old.writer).ring driver.old.supply }
    requires few { driver.old.calls < driver.old.runs }
    requires room { ring_bytes driver.old.writer.geometry.periods
        driver.old.writer.geometry.period + ROOM_BYTES ≤ bytes }
    ensures ran { OnOk result (spec.RanLine
        (T.means driver.old.setter) driver.old.bring_up.agenda.format driver.old.play line.now
        (spec.parts_of driver.old.bring_up driver.old.writer driver.old.supply)
        (spec.parts_of driver.new.bring_up driver.new.writer driver.new.supply) rig.old rig.new) }
    ensures geometry { OnOk result (driver.new.writer.geometry ≡ driver.old.writer.geometry) }
    ensures setter { OnOk result (driver.new.setter ≡ driver.old.setter) }
    ensures play { OnOk result (driver.new.play ≡ driver.old.play) }
    ensures runs { OnOk result (driver.new.runs ≡ driver.old.runs) }
    ensures calls { OnOk result (driver.new.calls ≡ driver.old.calls + 1) }
{
    drivers_keep_to_progress::<T>();
    runs_follow();
    rig.begin(line.groups.as_slice(), ROOM_ACCESSES, bytes)?;
    call(rig, driver, line)?;
    rig.end();
    Ok(())
}

/// Runs a driver line of a schedule: fills the supply where the call may play, and calls the driver with the steps of
/// the line's groups between its accesses.
///
/// # Errors
/// Want of memory.
pub(crate) fn run_line<T: Setter, S: Shelf>(
    alloc: Global,
    shelf: &mut S,
    cut: &mut Option<Cut>,
    rig: &mut Rig,
    driver: &mut Driver<T>,
    line: &DriverLine,
    bytes: u32,
) -> Result<(), AllocError>
    requires fed { IsFedSo (measures_of driver.old.writer) (shelves_of (S.told shelf.old) (S.faults shelf.old)
        (S.empties shelf.old) (S.given shelf.old)) cut.old driver.old.supply driver.old.writer.course }
    requires between { (setting_of rig.old).in_run ≡ false }
    requires few { driver.old.calls < driver.old.runs }
    requires room { ring_bytes driver.old.writer.geometry.periods
        driver.old.writer.geometry.period + ROOM_BYTES ≤ bytes }
    ensures ran { OnOk result (spec.Ran
        (T.means driver.old.setter) driver.old.bring_up.agenda.format driver.old.play (Drive line.now ∷ [])
        (spec.stand_of driver.old.bring_up driver.old.writer driver.old.supply
        (shelves_of (S.told shelf.old) (S.faults shelf.old) (S.empties shelf.old) (S.given shelf.old)) cut.old rig.old)
        (spec.stand_of driver.new.bring_up driver.new.writer driver.new.supply
        (shelves_of (S.told shelf.new) (S.faults shelf.new) (S.empties shelf.new) (S.given shelf.new)) cut.new
        rig.new)) }
    ensures geometry { OnOk result (driver.new.writer.geometry ≡ driver.old.writer.geometry) }
    ensures setter { OnOk result (driver.new.setter ≡ driver.old.setter) }
    ensures play { OnOk result (driver.new.play ≡ driver.old.play) }
    ensures runs { OnOk result (driver.new.runs ≡ driver.old.runs) }
    ensures calls { OnOk result (driver.new.calls ≡ driver.old.calls + 1) }
    ensures told { S.told shelf.new ≡ S.told shelf.old }
    ensures asked { (other : List ℕ) → IsBeside driver.old.supply.source other
        → S.asked shelf.new other ≡ S.asked shelf.old other }
    ensures later { (other : List ℕ) → S.faults shelf.old other ≤ S.faults shelf.new other }
    ensures empties_later { (other : List ℕ) → S.empties shelf.old other ≤ S.empties shelf.new other }
{
    feed(alloc, shelf, cut, driver)?;
    run_filled(rig, driver, line, bytes)
}

/// The last call of a driver, in a run without steps.
///
/// # Errors
/// Want of memory.
pub(crate) fn run_last<T: Setter + Drop>(
    rig: &mut Rig,
    driver: Driver<T>,
    bytes: u32,
) -> Result<Closed, AllocError>
    requires between { (setting_of rig.old).in_run ≡ false }
    requires room { ring_bytes driver.writer.geometry.periods driver.writer.geometry.period + ROOM_BYTES ≤ bytes }
    ensures closed { IfOk result (λ closed. (sound : List ℕ) → MayGive driver.supply sound
        → EndsWith driver.supply sound
        → spec.IsClosed (T.means driver.setter) driver.bring_up.agenda.format driver.play
        (spec.parts_with driver.bring_up driver.writer sound) closed (telling_of rig.old) (telling_of rig.new)) }
    ensures machine { OnOk result ((setting_of rig.new).machine ≡ (setting_of rig.old).machine) }
    ensures kind { OnOk result ((setting_of rig.new).kind ≡ (setting_of rig.old).kind) }
{
    drivers_keep_to_progress::<T>();
    runs_follow();
    events_are_of_pins();
    match rig.begin(&[], ROOM_ACCESSES, bytes) {
        Ok(()) => {}
        Err(failed) => {
            let _ = driver.abandon();
            return Err(failed);
        }
    }
    let closed = driver.close(rig)?;
    rig.end();
    Ok(closed)
}
