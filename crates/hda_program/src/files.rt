//! What `play` does with three files, for callers that have no words.
ghost use Rattle.std.specs.Prelude.{◌≡◌, ◌≢◌, ◌≤◌, ◌∷◌, [], ℕ, List, IfSome, IsNone, IsSome, IsSomeAnd};
ghost use Rattle.hda_outside.specs.Counts.{Rose};
ghost use Rattle.codec_graph.specs.declared.pin_kind.PinKind.TheVariants as kind;
ghost use Rattle.program_words.specs.Asked.{IsRingInRange};
ghost use Rattle.sound_report.specs.Statuses.{number_of};
ghost use Rattle.hda_program.specs.Answers.{HasEndedPlay};
ghost use Rattle.hda_program.specs.Causes.{HasStoppedUnread, IsOfSound, IsRunless, WasShortened, WasUnread};
ghost use Rattle.hda_program.specs.PlayedFiles.{HasPlayedFiles};
ghost use Rattle.hda_program.specs.Promises.{IsReported, KeepsPromise};
ghost use Rattle.hda_program.specs.Complete.{CanPlay, HasPlayedOn};
ghost use Rattle.hda_program.specs.Files.{EmptiedUnder, FailedUnder, GivenAtMost, UnaskedUnder};
ghost use Rattle.period_writer.specs.declared.geometry.Geometry.{Geometry};
ghost use Rattle.program_runs.specs.Served.{ServesPlay};
ghost use Rattle.hda_program.specs.Rings.{IsRingOf};
ghost use Rattle.hda_program.specs.Served.{EndsSo, PlaysSo, PlaysWhole};

use crate::play::answer_play;
use crate::run::{Ended, write_answer};
use codec_graph::PinKind;
use hda_outside::{Shelf, Sink};
use laws_start::read_machines_are_whole;
use program_runs::{plays_all_so, plays_end_so};
use sound_report::Status;
use std::alloc::Global;

/// Plays the sound of the WAV file through analog pins of the machine of the codec file, by the schedule, and writes its
/// text, as `play` does with these names. The ring has 2 to 32 periods of 1 to 128 units, each of 384 bytes.
///
/// It ends with a status of [`Status`]: 0 where all frames of sound were played. Its run of the driver is given also
/// where its text could not be written. The sound is read while it is played; where its reading is cut the run goes on
/// over what was read.
pub fn play_files<S: Shelf, K: Sink>(
    alloc: Global,
    shelf: &mut S,
    out: &mut K,
    codec: &str,
    wav: &str,
    schedule: &str,
    periods: u8,
    period: u8,
) -> Ended
    requires ring { IsRingInRange periods period }

    // The meant text was written whole, or its front at a fault of the sink or at want of memory.
    ensures ended { HasEndedPlay kind.Analog (S.told shelf.old) (FailedUnder (S.faults shelf.old) (S.faults shelf.new))
        (EmptiedUnder (S.empties shelf.old) (S.empties shelf.new))
        (UnaskedUnder (S.asked shelf.old) (S.asked shelf.new))
        (GivenAtMost (S.given shelf.old) (S.given shelf.new))
        codec.now wav.now schedule.now periods period (K.taken out.old) (K.taken out.new)
        (Rose (K.faults out.old) (K.faults out.new)) result.play result.capture result.status }

    // The promise of `play`: the run that is given is that of these files and this ring, few bytes were read for it,
    // and its report was written.
    ensures promise { IfSome result.play (KeepsPromise (IsReported (HasPlayedFiles kind.Analog (S.told shelf.old)
        (FailedUnder (S.faults shelf.old) (S.faults shelf.new))
        (EmptiedUnder (S.empties shelf.old) (S.empties shelf.new))
        (GivenAtMost (S.given shelf.old) (S.given shelf.new))
        codec.now wav.now schedule.now periods period))
        (K.taken out.old) (K.taken out.new) (Rose (K.faults out.old) (K.faults out.new)) result.status) }

    // When a run is given.
    ensures runless { IsRunless result.status → IsNone result.play }
    ensures runs { IsOfSound result.status → IsSome result.play }
    ensures capture { IsNone result.capture }

    // Where the reading of the sound was cut. A shelf that tells its files lets none get shorter.
    ensures unread_run { result.status ≡ number_of Status.ShelfFailed
        → IfSome result.play (WasUnread (FailedUnder (S.faults shelf.old) (S.faults shelf.new)) wav.now) }
    ensures shrunk_run { result.status ≡ number_of Status.WavShrank
        → IsSomeAnd result.play (WasShortened (EmptiedUnder (S.empties shelf.old) (S.empties shelf.new)) wav.now) }
    ensures never_shrinks { IfSome (S.told shelf.old) (λ files. result.status ≢ number_of Status.WavShrank) }

    // A command that ends at a file has asked for none after it: no run is left untold.
    ensures stopped_unread { result.status ≡ number_of Status.ShelfFailed → IsNone result.play
        → HasStoppedUnread (FailedUnder (S.faults shelf.old) (S.faults shelf.new))
        (UnaskedUnder (S.asked shelf.old) (S.asked shelf.new))
        (codec.now ∷ wav.now ∷ schedule.now ∷ []) }

    // Good files and a good ring are not refused.
    ensures completes { CanPlay kind.Analog (S.told shelf.old) (FailedUnder (S.faults shelf.old) (S.faults shelf.new))
        codec.now wav.now schedule.now periods period
        → (Rose (K.faults out.old) (K.faults out.new) → ⊥) → HasPlayedOn result.status }

    // A run is given then, also where its report was not written.
    ensures given { CanPlay kind.Analog (S.told shelf.old) (FailedUnder (S.faults shelf.old) (S.faults shelf.new))
        codec.now wav.now schedule.now periods period
        → result.status ≢ number_of Status.OutOfMemory → IsSome result.play }

    // What comes of a schedule that serves: the sound ends so by how many driver lines it has, and all of it is played
    // where it is fed.
    ensures served { (geometry : Geometry)
        → (can : CanPlay kind.Analog (S.told shelf.old) (FailedUnder (S.faults shelf.old) (S.faults shelf.new))
        codec.now wav.now schedule.now periods period)
        → (Rose (K.faults out.old) (K.faults out.new) → ⊥) → IsRingOf periods period can.machine can.head geometry
        → ServesPlay kind.Analog can.head.format can.machine can.plans geometry can.schedule
        → EndsSo (PlaysSo kind.Analog can.machine can.plans can.head can.schedule) result.play result.status }
    ensures served_whole { (geometry : Geometry)
        → (can : CanPlay kind.Analog (S.told shelf.old) (FailedUnder (S.faults shelf.old) (S.faults shelf.new))
        codec.now wav.now schedule.now periods period)
        → (Rose (K.faults out.old) (K.faults out.new) → ⊥) → IsRingOf periods period can.machine can.head geometry
        → ServesPlay kind.Analog can.head.format can.machine can.plans geometry can.schedule
        → EndsSo (PlaysWhole kind.Analog can.machine can.plans can.head geometry can.schedule) result.play
        result.status }

    // The shelf is asked under the three names alone.
    ensures asked { (other : List ℕ) → other ≢ codec.now → other ≢ wav.now → other ≢ schedule.now
        → S.asked shelf.new other ≡ S.asked shelf.old other }

    // The shelf's files stay as they are, and no count of faults or of empty answers falls.
    ensures told { S.told shelf.new ≡ S.told shelf.old }
    ensures shelf_later { (name : List ℕ) → S.faults shelf.old name ≤ S.faults shelf.new name }
    ensures empties_later { (name : List ℕ) → S.empties shelf.old name ≤ S.empties shelf.new name }
    ensures sink_later { K.faults out.old ≤ K.faults out.new }
{
    read_machines_are_whole();
    plays_end_so();
    plays_all_so();
    match answer_play(
        alloc,
        shelf,
        PinKind::Analog,
        codec,
        wav,
        schedule,
        periods,
        period,
    ) {
        Ok(answer) => write_answer(alloc, out, answer),
        Err(_) => Ended {
            status: Status::OutOfMemory.number(),
            play: None,
            capture: None,
        },
    }
}
