//! How the supply of a driver is fed before its calls.
ghost use Rattle.std.specs.Prelude.{◌≡◌, ◌≤◌, ℕ, List, [], true, Option, Err, IsErr, OnOk};
ghost use Rattle.hda_outside.specs.declared.pieces.Cut.TheVariants.{OutOfMemory};
ghost use Rattle.wav_reader.specs.Supplies.{Source};
ghost use Rattle.wav_reader.specs.Fills.{IsBeside};
ghost use Rattle.period_writer.specs.Writers.{measures_of};
ghost use Rattle.driver_progress.specs.Phases.{may_play};
ghost use Rattle.audio_driver.specs.States.{phase_of};
ghost use Rattle.program_runs.specs.Feeding as spec;

use audio_driver::Driver;
use hda_outside::{Cut, Shelf};
use route_setup::Setter;
use std::alloc::{AllocError, Global};

/// Keeps how a fill was cut, if it was.
///
/// # Errors
/// Want of memory.
fn note_cut(cut: &mut Option<Cut>, filled: Result<(), Cut>) -> Result<(), AllocError>
    ensures cut { OnOk result (cut.new ≡ spec.cut_after cut.old filled) }
    ensures memory { filled ≡ Err OutOfMemory → IsErr result }
{
    match filled {
        Ok(()) => Ok(()),
        Err(Cut::OutOfMemory) => Err(AllocError),
        Err(Cut::Failed) => {
            *cut = Some(Cut::Failed);
            Ok(())
        }
        Err(Cut::Short(place)) => {
            *cut = Some(Cut::Short(place));
            Ok(())
        }
    }
}

/// Reads more of the sound before a call that may play, and keeps how the reading was cut, if it was.
///
/// # Errors
/// Want of memory.
pub(crate) fn feed<T: Setter, S: Shelf>(
    alloc: Global,
    shelf: &mut S,
    cut: &mut Option<Cut>,
    driver: &mut Driver<T>,
) -> Result<(), AllocError>
    requires fed { spec.IsFedSo (measures_of driver.old.writer) (spec.shelves_of (S.told shelf.old) (S.faults shelf.old)
        (S.empties shelf.old) (S.given shelf.old))
        cut.old driver.old.supply driver.old.writer.course }
    ensures fed { OnOk result ((source : Option Source) (first : spec.Shelves)
        → spec.IsFed (measures_of driver.old.writer) source first
        (spec.shelves_of (S.told shelf.old) (S.faults shelf.old) (S.empties shelf.old) (S.given shelf.old))
        cut.old driver.old.supply driver.old.writer.course
        → spec.IsFed (measures_of driver.old.writer) source first
        (spec.shelves_of (S.told shelf.new) (S.faults shelf.new) (S.empties shelf.new) (S.given shelf.new))
        cut.new driver.new.supply driver.old.writer.course) }
    ensures took { OnOk result (spec.Took [] (spec.shelves_of (S.told shelf.old) (S.faults shelf.old)
        (S.empties shelf.old) (S.given shelf.old)) driver.old.supply driver.new.supply) }
    ensures up { OnOk result (may_play (phase_of driver.old.bring_up driver.old.writer) ≡ true
        → spec.IsFilledUp (measures_of driver.old.writer).ring driver.new.supply) }
    ensures told { S.told shelf.new ≡ S.told shelf.old }
    ensures asked { (other : List ℕ) → IsBeside driver.old.supply.source other
        → S.asked shelf.new other ≡ S.asked shelf.old other }
    ensures later { (other : List ℕ) → S.faults shelf.old other ≤ S.faults shelf.new other }
    ensures empties_later { (other : List ℕ) → S.empties shelf.old other ≤ S.empties shelf.new other }
    ensures bring_up { driver.new.bring_up ≡ driver.old.bring_up }
    ensures writer { driver.new.writer ≡ driver.old.writer }
    ensures setter { driver.new.setter ≡ driver.old.setter }
    ensures play { driver.new.play ≡ driver.old.play }
    ensures runs { driver.new.runs ≡ driver.old.runs }
    ensures calls { driver.new.calls ≡ driver.old.calls }
{
    if !driver.phase().may_play() {
        return Ok(());
    }
    let filled = driver.fill(alloc, shelf);
    note_cut(cut, filled)
}
