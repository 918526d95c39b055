//! The program over any shelf and sink.
ghost use Rattle.std.specs.Prelude.{◌≡◌, ◌≢◌, ◌≤◌, ◌⊎◌, ℕ, List, map, string_bytes, IfSome, IsNone, IsSome, IsSomeAnd};
ghost use Rattle.stream_format.specs.declared.format.Format.{Format};
ghost use Rattle.codec_graph.specs.declared.pin_kind.PinKind.TheVariants as kind;
ghost use Rattle.hda_outside.specs.Counts.{Rose};
ghost use Rattle.sound_report.specs.Statuses.{number_of};
ghost use Rattle.hda_program.specs.Answers.{HasEnded, HasWritten};
ghost use Rattle.program_words.specs.Asked.{request_of};
ghost use Rattle.hda_program.specs.Asks.{AsksForItsFiles, IsCaptureOf, IsNoCommand, IsPlayOf, IsRouteOf, IsSpdifOf};
ghost use Rattle.hda_program.specs.Asks.{IsWalkOf, files_asked};
ghost use Rattle.hda_program.specs.Causes.{HasBadCodecFile, HasBadRing, HasBadSchedule, HasBadWav, HasPlanned};
ghost use Rattle.hda_program.specs.Causes.{HasBadGiven, HasBadRecordingRing, HasManyDigitalPins, HasPlannedInput};
ghost use Rattle.hda_program.specs.Causes.{HasSomeInput, IsOfPlay};
ghost use Rattle.hda_program.specs.Causes.{SomeRoute, NoRoute};
ghost use Rattle.hda_program.specs.Causes.{HasStoppedUnread, HasUnreadFile, IsOfSound, IsOfWalk, IsRunless};
ghost use Rattle.hda_program.specs.Causes.{OfItsWav, WasShortened, WasUnread};
ghost use Rattle.hda_program.specs.Made.{IsMakeOf, IsOfMade, WantsMade};
ghost use Rattle.hda_program.specs.Promises.{HasCaptured, HasRun, KeepsCapture, KeepsPromise};
ghost use Rattle.hda_program.specs.Complete.{CanCapture, CanPlay, CanRoute, CanWalk, HasPlayedOn, HasRoutes};
ghost use Rattle.hda_program.specs.Complete.{HasWalkedOn};
ghost use Rattle.hda_program.specs.Meanings.{answer_meant, capture_status, fault_status, of_capture, of_made, of_run};
ghost use Rattle.hda_program.specs.Meanings.{status_of, telling, written_status};
ghost use Rattle.hda_program.specs.Files.{EmptiedUnder, FailedUnder, GivenAtMost, UnaskedUnder};
ghost use Rattle.period_writer.specs.declared.geometry.Geometry.{Geometry};
ghost use Rattle.program_captures.specs.Inputs.{HasNoInput};
ghost use Rattle.program_runs.specs.Walks.{walk_format};
ghost use Rattle.program_runs.specs.Served.{ServesBringUp, ServesPlay};
ghost use Rattle.hda_program.specs.Rings.{IsRingOf};
ghost use Rattle.hda_program.specs.Served.{EndsSo, PlaysSo, PlaysWhole, WalksSo};

use crate::answer::{Answer, answer_words};
use capture_report::{Captured, write_capture};
use hda_outside::{Fault, Shelf, Sink, write_all};
use laws_start::read_machines_are_whole;
use program_runs::{made_line, plays_all_so, plays_end_so, walks_end_so};
use sound_report::{CutLine, PlayFault, Played, Status, write_report};
use std::alloc::Global;

/// How the program ended. This project's own.
#[derive(Drop)]
pub struct Ended {
    /// The exit status.
    pub status: u8,
    /// The run of the driver, for commands that make one.
    pub play: Option<Played>,
    /// The capture, for the command that makes one.
    pub capture: Option<Captured>,
}

/// Runs the command of these words, those after the program's name, and writes its text.
///
/// The statuses are those of [`Status`]. `route` ends with 0 where some pin has a route, `walk` where all codecs were
/// set up, `play` and `spdif` where all frames of sound were played, and `make`, whose inputs are made of a number,
/// wherever its line could be written. `spdif` plays as `play` does, through digital pins in place of analog ones: a
/// codec file with more than 16 of them is refused. `walk`, `play`, `spdif` and `make` give their run of the driver,
/// also where its text could not be written. Where the files and the ring are good, some pin has a route and neither
/// shelf nor sink fails, nothing is refused. `play` and `spdif` read the sound while it is played; where its reading is
/// cut the run goes on over what was read.
///
/// `capture` gives the sound of the WAV file to every input pin, and records from the first codec of which some input
/// pin has a path. It reads the WAV file whole before, and refuses a sound of other than two channels, where one that
/// is doubled has two. It ends with 0 where all frames were recorded, with 8 where no codec has an input, and else as
/// `play` does. It gives its capture, also where its text could not be written.
pub fn hda_main<S: Shelf, K: Sink>(
    alloc: Global,
    words: &[String],
    shelf: &mut S,
    out: &mut K,
) -> Ended
    // The meant text was written whole, or its front at a fault of the sink or at want of memory.
    ensures ended { HasEnded (S.told shelf.old) (FailedUnder (S.faults shelf.old) (S.faults shelf.new))
        (EmptiedUnder (S.empties shelf.old) (S.empties shelf.new))
        (UnaskedUnder (S.asked shelf.old) (S.asked shelf.new))
        (GivenAtMost (S.given shelf.old) (S.given shelf.new))
        (map string_bytes words.now) (K.taken out.old) (K.taken out.new) (Rose (K.faults out.old) (K.faults out.new))
        result.play result.capture result.status }

    // The promise of `walk`, of `play`, of `spdif` and of `make`: the run that is given is the one that the words ask
    // for, few bytes were read for a sound, and its report was written, or its line.
    ensures promise { IfSome result.play (KeepsPromise (HasRun (S.told shelf.old)
        (FailedUnder (S.faults shelf.old) (S.faults shelf.new))
        (EmptiedUnder (S.empties shelf.old) (S.empties shelf.new))
        (GivenAtMost (S.given shelf.old) (S.given shelf.new))
        (map string_bytes words.now))
        (K.taken out.old) (K.taken out.new) (Rose (K.faults out.old) (K.faults out.new)) result.status) }

    // The promise of `capture`: the capture that is given is the one that the words ask for, and its text was written.
    ensures capture_promise { IfSome result.capture (KeepsCapture
        (HasCaptured (S.told shelf.old) (map string_bytes words.now))
        (K.taken out.old) (K.taken out.new) (Rose (K.faults out.old) (K.faults out.new)) result.status) }

    // When a run is given.
    ensures runless { IsRunless result.status → IsNone result.play }
    ensures route_runless { (name : List ℕ) (format : Format) → IsRouteOf (map string_bytes words.now) name format
        → IsNone result.play }
    ensures walk_runs { (codec schedule : List ℕ) → IsWalkOf (map string_bytes words.now) codec schedule
        → IsOfWalk result.status → IsSome result.play }
    ensures make_runs { (number : ℕ) → IsMakeOf (map string_bytes words.now) number
        → (result.status ≡ number_of Status.OutOfMemory → ⊥) → IsSome result.play }
    ensures play_runs { (codec wav schedule : List ℕ) (periods period : ℕ)
        → IsPlayOf (map string_bytes words.now) codec wav schedule periods period
        → IsOfSound result.status → IsSome result.play }
    ensures spdif_runs { (codec wav schedule : List ℕ) (periods period : ℕ)
        → IsSpdifOf (map string_bytes words.now) codec wav schedule periods period
        → IsOfSound result.status → IsSome result.play }

    // When a capture is given.
    ensures capture_runless { IsRunless result.status → IsNone result.capture }
    ensures capture_unread { result.status ≡ number_of Status.ShelfFailed → IsNone result.capture }
    ensures capture_runs { (codec wav schedule : List ℕ) (periods period : ℕ)
        → IsCaptureOf (map string_bytes words.now) codec wav schedule periods period
        → IsOfPlay result.status → IsSome result.capture }
    ensures capture_plays_nothing { (codec wav schedule : List ℕ) (periods period : ℕ)
        → IsCaptureOf (map string_bytes words.now) codec wav schedule periods period → IsNone result.play }

    // Where the reading of a sound was cut. A shelf that tells its files lets none get shorter.
    ensures unread_run { result.status ≡ number_of Status.ShelfFailed → IfSome result.play (λ played.
        OfItsWav (λ name. WasUnread (FailedUnder (S.faults shelf.old) (S.faults shelf.new)) name played)
        (map string_bytes words.now)) }
    ensures shrunk_run { result.status ≡ number_of Status.WavShrank → IsSomeAnd result.play (λ played.
        OfItsWav (λ name. WasShortened (EmptiedUnder (S.empties shelf.old) (S.empties shelf.new)) name played)
        (map string_bytes words.now)) }
    ensures never_shrinks { IfSome (S.told shelf.old) (λ files. result.status ≢ number_of Status.WavShrank) }

    // The causes of single statuses.
    ensures refused_words { result.status ≡ number_of Status.WordsRefused → IsNoCommand (map string_bytes words.now) }
    ensures unread { result.status ≡ number_of Status.ShelfFailed
        → HasUnreadFile (FailedUnder (S.faults shelf.old) (S.faults shelf.new)) (map string_bytes words.now) }
    // A command that ends at a file has asked for none after it: no run is left untold.
    ensures stopped_unread { result.status ≡ number_of Status.ShelfFailed → IsNone result.play
        → HasStoppedUnread (FailedUnder (S.faults shelf.old) (S.faults shelf.new))
        (UnaskedUnder (S.asked shelf.old) (S.asked shelf.new))
        (files_asked (request_of (map string_bytes words.now))) }
    ensures refused_codec { result.status ≡ number_of Status.CodecRefused
        → HasBadCodecFile (S.told shelf.old) (map string_bytes words.now)
        ⊎ HasManyDigitalPins (S.told shelf.old) (map string_bytes words.now) }
    ensures refused_wav { result.status ≡ number_of Status.WavRefused
        → HasBadWav (S.told shelf.old) (map string_bytes words.now)
        ⊎ HasBadGiven (S.told shelf.old) (map string_bytes words.now) }
    ensures refused_schedule { result.status ≡ number_of Status.ScheduleRefused
        → HasBadSchedule (S.told shelf.old) (map string_bytes words.now) }
    ensures refused_geometry { result.status ≡ number_of Status.GeometryRefused
        → HasBadRing (S.told shelf.old) (map string_bytes words.now)
        ⊎ HasBadRecordingRing (S.told shelf.old) (map string_bytes words.now) }
    ensures routed { result.status ≡ number_of Status.Done
        → (HasPlanned (S.told shelf.old) (map string_bytes words.now) SomeRoute
        ⊎ WantsMade (map string_bytes words.now))
        ⊎ HasPlannedInput (S.told shelf.old) (map string_bytes words.now) HasSomeInput }
    ensures nothing_routed { result.status ≡ number_of Status.NothingRouted
        → HasPlanned (S.told shelf.old) (map string_bytes words.now) NoRoute
        ⊎ HasPlannedInput (S.told shelf.old) (map string_bytes words.now) HasNoInput }
    ensures unwritten { result.status ≡ number_of Status.SinkFailed → Rose (K.faults out.old) (K.faults out.new) }

    // Good files and a good ring are not refused.
    ensures route_completes { (name : List ℕ) (format : Format) → IsRouteOf (map string_bytes words.now) name format
        → CanRoute (S.told shelf.old) (FailedUnder (S.faults shelf.old) (S.faults shelf.new)) name format
        → (Rose (K.faults out.old) (K.faults out.new) → ⊥) → HasRoutes result.status }
    ensures walk_completes { (codec schedule : List ℕ) → IsWalkOf (map string_bytes words.now) codec schedule
        → CanWalk (S.told shelf.old) (FailedUnder (S.faults shelf.old) (S.faults shelf.new)) codec schedule
        → (Rose (K.faults out.old) (K.faults out.new) → ⊥) → HasWalkedOn result.status }
    ensures play_completes { (codec wav schedule : List ℕ) (periods period : ℕ)
        → IsPlayOf (map string_bytes words.now) codec wav schedule periods period
        → CanPlay kind.Analog (S.told shelf.old) (FailedUnder (S.faults shelf.old) (S.faults shelf.new)) codec wav
        schedule periods period
        → (Rose (K.faults out.old) (K.faults out.new) → ⊥) → HasPlayedOn result.status }
    ensures spdif_completes { (codec wav schedule : List ℕ) (periods period : ℕ)
        → IsSpdifOf (map string_bytes words.now) codec wav schedule periods period
        → CanPlay kind.Digital (S.told shelf.old) (FailedUnder (S.faults shelf.old) (S.faults shelf.new)) codec wav
        schedule periods period
        → (Rose (K.faults out.old) (K.faults out.new) → ⊥) → HasPlayedOn result.status }

    ensures capture_completes { (codec wav schedule : List ℕ) (periods period : ℕ)
        → IsCaptureOf (map string_bytes words.now) codec wav schedule periods period
        → CanCapture (S.told shelf.old) (FailedUnder (S.faults shelf.old) (S.faults shelf.new)) codec wav schedule
        periods period
        → (Rose (K.faults out.old) (K.faults out.new) → ⊥) → HasPlayedOn result.status }

    // A run is given then, also where its report was not written.
    ensures walk_given { (codec schedule : List ℕ) → IsWalkOf (map string_bytes words.now) codec schedule
        → CanWalk (S.told shelf.old) (FailedUnder (S.faults shelf.old) (S.faults shelf.new)) codec schedule
        → result.status ≢ number_of Status.OutOfMemory → IsSome result.play }
    ensures play_given { (codec wav schedule : List ℕ) (periods period : ℕ)
        → IsPlayOf (map string_bytes words.now) codec wav schedule periods period
        → CanPlay kind.Analog (S.told shelf.old) (FailedUnder (S.faults shelf.old) (S.faults shelf.new)) codec wav
        schedule periods period
        → result.status ≢ number_of Status.OutOfMemory → IsSome result.play }
    ensures spdif_given { (codec wav schedule : List ℕ) (periods period : ℕ)
        → IsSpdifOf (map string_bytes words.now) codec wav schedule periods period
        → CanPlay kind.Digital (S.told shelf.old) (FailedUnder (S.faults shelf.old) (S.faults shelf.new)) codec wav
        schedule periods period
        → result.status ≢ number_of Status.OutOfMemory → IsSome result.play }

    ensures capture_given { (codec wav schedule : List ℕ) (periods period : ℕ)
        → IsCaptureOf (map string_bytes words.now) codec wav schedule periods period
        → CanCapture (S.told shelf.old) (FailedUnder (S.faults shelf.old) (S.faults shelf.new)) codec wav schedule
        periods period
        → result.status ≢ number_of Status.OutOfMemory → IsSome result.capture }

    // What is made of a number is played to its end.
    ensures make_ends { (number : ℕ) → IsMakeOf (map string_bytes words.now) number
        → IsOfMade (Rose (K.faults out.old) (K.faults out.new)) result.status }

    // What comes of schedules that serve: a walk ends so by how many driver lines they have, and so does a sound; and
    // all of a sound is played where it is fed.
    ensures walk_served { (codec schedule : List ℕ) → IsWalkOf (map string_bytes words.now) codec schedule
        → (can : CanWalk (S.told shelf.old) (FailedUnder (S.faults shelf.old) (S.faults shelf.new)) codec schedule)
        → (Rose (K.faults out.old) (K.faults out.new) → ⊥)
        → ServesBringUp kind.Analog walk_format can.machine can.plans can.schedule
        → EndsSo (WalksSo can.machine can.plans can.schedule) result.play result.status }
    ensures play_served { (codec wav schedule : List ℕ) (periods period : ℕ) (geometry : Geometry)
        → IsPlayOf (map string_bytes words.now) codec wav schedule periods period
        → (can : CanPlay kind.Analog (S.told shelf.old) (FailedUnder (S.faults shelf.old) (S.faults shelf.new)) codec
        wav schedule periods period)
        → (Rose (K.faults out.old) (K.faults out.new) → ⊥) → IsRingOf periods period can.machine can.head geometry
        → ServesPlay kind.Analog can.head.format can.machine can.plans geometry can.schedule
        → EndsSo (PlaysSo kind.Analog can.machine can.plans can.head can.schedule) result.play result.status }
    ensures play_served_whole { (codec wav schedule : List ℕ) (periods period : ℕ) (geometry : Geometry)
        → IsPlayOf (map string_bytes words.now) codec wav schedule periods period
        → (can : CanPlay kind.Analog (S.told shelf.old) (FailedUnder (S.faults shelf.old) (S.faults shelf.new)) codec
        wav schedule periods period)
        → (Rose (K.faults out.old) (K.faults out.new) → ⊥) → IsRingOf periods period can.machine can.head geometry
        → ServesPlay kind.Analog can.head.format can.machine can.plans geometry can.schedule
        → EndsSo (PlaysWhole kind.Analog can.machine can.plans can.head geometry can.schedule) result.play
        result.status }
    ensures spdif_served { (codec wav schedule : List ℕ) (periods period : ℕ) (geometry : Geometry)
        → IsSpdifOf (map string_bytes words.now) codec wav schedule periods period
        → (can : CanPlay kind.Digital (S.told shelf.old) (FailedUnder (S.faults shelf.old) (S.faults shelf.new)) codec
        wav schedule periods period)
        → (Rose (K.faults out.old) (K.faults out.new) → ⊥) → IsRingOf periods period can.machine can.head geometry
        → ServesPlay kind.Digital can.head.format can.machine can.plans geometry can.schedule
        → EndsSo (PlaysSo kind.Digital can.machine can.plans can.head can.schedule) result.play result.status }
    ensures spdif_served_whole { (codec wav schedule : List ℕ) (periods period : ℕ) (geometry : Geometry)
        → IsSpdifOf (map string_bytes words.now) codec wav schedule periods period
        → (can : CanPlay kind.Digital (S.told shelf.old) (FailedUnder (S.faults shelf.old) (S.faults shelf.new)) codec
        wav schedule periods period)
        → (Rose (K.faults out.old) (K.faults out.new) → ⊥) → IsRingOf periods period can.machine can.head geometry
        → ServesPlay kind.Digital can.head.format can.machine can.plans geometry can.schedule
        → EndsSo (PlaysWhole kind.Digital can.machine can.plans can.head geometry can.schedule) result.play
        result.status }

    // The shelf is asked under the names of the words alone.
    ensures asked { AsksForItsFiles (map string_bytes words.now) (S.asked shelf.old) (S.asked shelf.new) }

    // The shelf's files stay as they are, and no count of faults or of empty answers falls.
    ensures told { S.told shelf.new ≡ S.told shelf.old }
    ensures shelf_later { (name : List ℕ) → S.faults shelf.old name ≤ S.faults shelf.new name }
    ensures empties_later { (name : List ℕ) → S.empties shelf.old name ≤ S.empties shelf.new name }
    ensures sink_later { K.faults out.old ≤ K.faults out.new }
{
    read_machines_are_whole();
    walks_end_so();
    plays_end_so();
    plays_all_so();
    match answer_words(alloc, words, shelf) {
        Ok(answer) => write_answer(alloc, out, answer),
        Err(_) => Ended {
            status: Status::OutOfMemory.number(),
            play: None,
            capture: None,
        },
    }
}

/// Writes the text of an answer, and gives its status and its run or its capture.
pub(crate) fn write_answer<K: Sink>(alloc: Global, out: &mut K, answer: Answer) -> Ended
    ensures written { HasWritten (K.taken out.old) (K.taken out.new) (Rose (K.faults out.old) (K.faults out.new))
        (answer_meant answer) result.status }
    ensures play { result.play ≡ (answer_meant answer).play }
    ensures capture { result.capture ≡ (answer_meant answer).capture }
    ensures later { K.faults out.old ≤ K.faults out.new }
{
    match answer {
        Answer::Message(message) => Ended {
            status: write_text(alloc, out, message.text.as_bytes(), message.status).number(),
            play: None,
            capture: None,
        },
        Answer::Run(played) => Ended {
            status: write_run(alloc, out, &played).number(),
            play: Some(played),
            capture: None,
        },
        Answer::Made(number, made) => Ended {
            status: write_made(alloc, out, number, &made).number(),
            play: Some(made),
            capture: None,
        },
        Answer::Captured(captured) => Ended {
            status: write_captured(alloc, out, &captured).number(),
            play: None,
            capture: Some(captured),
        },
    }
}

/// Writes a text, and gives its status, or that of the fault.
pub fn write_text<K: Sink>(alloc: Global, out: &mut K, text: &[u8], status: Status) -> Status
    ensures written { HasWritten (K.taken out.old) (K.taken out.new) (Rose (K.faults out.old) (K.faults out.new))
        (telling status text.now) (number_of result) }
    ensures later { K.faults out.old ≤ K.faults out.new }
{
    written_status(write_all(alloc, out, text), status)
}

/// Writes the report of a run, and gives the status of its end, or that of the fault.
fn write_run<K: Sink>(alloc: Global, out: &mut K, played: &Played) -> Status
    ensures written { HasWritten (K.taken out.old) (K.taken out.new) (Rose (K.faults out.old) (K.faults out.new))
        (of_run played.now) (number_of result) }
    ensures later { K.faults out.old ≤ K.faults out.new }
{
    written_status(write_report(alloc, out, played), status_of(played))
}

/// Writes the line of a run of made inputs, and gives the status of its end, or that of the fault.
fn write_made<K: Sink>(alloc: Global, out: &mut K, number: u16, played: &Played) -> Status
    ensures written { HasWritten (K.taken out.old) (K.taken out.new) (Rose (K.faults out.old) (K.faults out.new))
        (of_made number played.now) (number_of result) }
    ensures later { K.faults out.old ≤ K.faults out.new }
{
    let status = status_of(played);
    match made_line(alloc, number, status.number(), played) {
        Ok(line) => write_text(alloc, out, line.as_bytes(), status),
        Err(_) => Status::OutOfMemory,
    }
}

/// Writes the text of a capture, and gives the status of its end, or that of the fault.
pub fn write_captured<K: Sink>(alloc: Global, out: &mut K, captured: &Captured) -> Status
    ensures written { HasWritten (K.taken out.old) (K.taken out.new) (Rose (K.faults out.old) (K.faults out.new))
        (of_capture captured.now) (number_of result) }
    ensures later { K.faults out.old ≤ K.faults out.new }
{
    written_status(
        write_capture(alloc, out, captured),
        capture_status(captured),
    )
}

/// The status of a text that was written so: its own, or that of the fault.
pub fn written_status(written: Result<(), Fault>, status: Status) -> Status
    ensures { result ≡ written_status written status }
{
    match written {
        Ok(()) => status,
        Err(Fault::Failed) => Status::SinkFailed,
        Err(Fault::OutOfMemory) => Status::OutOfMemory,
    }
}

/// The status of a run: how the reading of its sound was cut comes first.
pub fn status_of(played: &Played) -> Status
    ensures { result ≡ status_of played.now }
{
    match played.cut {
        Some(CutLine::Failed(_)) => Status::ShelfFailed,
        Some(CutLine::Short(_)) => Status::WavShrank,
        None => fault_status(played.fault),
    }
}

/// The status of a capture.
fn capture_status(captured: &Captured) -> Status
    ensures { result ≡ capture_status captured.now }
{
    fault_status(captured.fault)
}

/// The status of a run that ended so.
fn fault_status(fault: Option<PlayFault>) -> Status
    ensures { result ≡ fault_status fault }
{
    match fault {
        None => Status::Done,
        Some(PlayFault::Unanswered { .. }) => Status::Unanswered,
        Some(PlayFault::Late { .. }) => Status::Late,
        Some(PlayFault::CommandsLeft { .. } | PlayFault::FramesLeft { .. }) => {
            Status::ScheduleEnded
        }
    }
}
