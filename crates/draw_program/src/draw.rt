//! The program over any shelf and sink.
ghost use Rattle.std.specs.Prelude.{◌≡◌, ◌≤◌, ◌⊎◌, ℕ, List, drop, map, string_bytes, IfSome, Some, None};
ghost use Rattle.hda_outside.specs.Counts.{Rose};
ghost use Rattle.sound_report.specs.Statuses.{number_of};
ghost use Rattle.svg_text.specs.Pictures.{picture_text};
ghost use Rattle.hda_program.specs.Answers.{HasEnded, HasWritten};
ghost use Rattle.hda_program.specs.Asks.{AsksForItsFiles, IsNoCommand};
ghost use Rattle.hda_program.specs.Files.{EmptiedUnder, FailedUnder, GivenAtMost, UnaskedUnder};
ghost use Rattle.hda_program.specs.Meanings.{telling};
ghost use Rattle.hda_program.specs.Promises.{KeepsPromise};
ghost use Rattle.draw_program.specs.Drawn.{HasEndedDrawing, IsRunPictured, drawing_meant};
ghost use Rattle.draw_program.specs.Words.{played_words};

use crate::answer::{Drawing, answer_drawing};
use hda_outside::{Shelf, Sink};
use hda_program::{Ended, Status, status_of, write_text, written_status};
use std::alloc::Global;
use svg_text::{Picture, write_picture};

/// Draws what these words ask for, the program's name and those after it, as a text in SVG: behind `codec` the widgets
/// of a codec file and their routes, behind `run` a run of the driver.
///
/// Operands and options are those of `route` or of `play` of `hda_play`; files, refusals and statuses are those with
/// which it ends. Where no pin has a route the picture is drawn, and the status is 8. Where the words ask for neither
/// the status is 2 and the text the usage line. The run is given also where the sink did not take its picture.
pub fn draw_main<S: Shelf, K: Sink>(
    alloc: Global,
    words: &[String],
    shelf: &mut S,
    out: &mut K,
) -> Ended
    // The meant text was written whole, or its front at a fault of the sink or at want of memory.
    ensures ended { HasEndedDrawing (S.told shelf.old) (FailedUnder (S.faults shelf.old) (S.faults shelf.new))
        (EmptiedUnder (S.empties shelf.old) (S.empties shelf.new))
        (UnaskedUnder (S.asked shelf.old) (S.asked shelf.new))
        (GivenAtMost (S.given shelf.old) (S.given shelf.new))
        (drop 1 (map string_bytes words.now)) (K.taken out.old) (K.taken out.new)
        (Rose (K.faults out.old) (K.faults out.new)) result.play result.capture result.status }

    // The run that is given is the one that `hda_play` makes of the same words, and the text is its picture.
    ensures promise { IfSome result.play (KeepsPromise (IsRunPictured (S.told shelf.old)
        (FailedUnder (S.faults shelf.old) (S.faults shelf.new))
        (EmptiedUnder (S.empties shelf.old) (S.empties shelf.new))
        (GivenAtMost (S.given shelf.old) (S.given shelf.new))
        (drop 1 (map string_bytes words.now)))
        (K.taken out.old) (K.taken out.new) (Rose (K.faults out.old) (K.faults out.new)) result.status) }

    // But for the text it ends as `hda_play` does with the same words over a sink that tells nothing: each status has
    // its cause, and what is good is not refused.
    ensures ends_so { IsNoCommand (played_words (drop 1 (map string_bytes words.now)))
        ⊎ HasEnded (S.told shelf.old) (FailedUnder (S.faults shelf.old) (S.faults shelf.new))
        (EmptiedUnder (S.empties shelf.old) (S.empties shelf.new))
        (UnaskedUnder (S.asked shelf.old) (S.asked shelf.new))
        (GivenAtMost (S.given shelf.old) (S.given shelf.new))
        (played_words (drop 1 (map string_bytes words.now))) None None (Rose (K.faults out.old) (K.faults out.new))
        result.play result.capture result.status }

    // The shelf is asked under the names of the words alone.
    ensures asked { AsksForItsFiles (played_words (drop 1 (map string_bytes words.now))) (S.asked shelf.old)
        (S.asked shelf.new) }

    // The shelf's files stay as they are, and no count of faults or of empty answers falls.
    ensures told { S.told shelf.new ≡ S.told shelf.old }
    ensures shelf_later { (name : List ℕ) → S.faults shelf.old name ≤ S.faults shelf.new name }
    ensures empties_later { (name : List ℕ) → S.empties shelf.old name ≤ S.empties shelf.new name }
    ensures sink_later { K.faults out.old ≤ K.faults out.new }
{
    match answer_drawing(alloc, words, shelf) {
        Ok(drawing) => write_drawing(alloc, out, drawing),
        Err(_) => Ended {
            status: Status::OutOfMemory.number(),
            play: None,
            capture: None,
        },
    }
}

/// Writes the text of a message or of a picture, and gives the status and the run.
fn write_drawing<K: Sink>(alloc: Global, out: &mut K, drawing: Drawing) -> Ended
    ensures written { HasWritten (K.taken out.old) (K.taken out.new) (Rose (K.faults out.old) (K.faults out.new))
        (drawing_meant drawing) result.status }
    ensures play { result.play ≡ (drawing_meant drawing).play }
    ensures capture { result.capture ≡ (drawing_meant drawing).capture }
    ensures later { K.faults out.old ≤ K.faults out.new }
{
    match drawing {
        Drawing::Message(message) => Ended {
            status: write_text(alloc, out, message.text.as_bytes(), message.status).number(),
            play: None,
            capture: None,
        },
        Drawing::Codecs(status, picture) => Ended {
            status: write_shown(alloc, out, &picture, status).number(),
            play: None,
            capture: None,
        },
        Drawing::Run(played, picture) => Ended {
            status: write_shown(alloc, out, &picture, status_of(&played)).number(),
            play: Some(played),
            capture: None,
        },
    }
}

/// Writes a picture, and gives this status, or that of the fault.
fn write_shown<K: Sink>(alloc: Global, out: &mut K, picture: &Picture, status: Status) -> Status
    ensures written { HasWritten (K.taken out.old) (K.taken out.new) (Rose (K.faults out.old) (K.faults out.new))
        (telling status (picture_text picture.now)) (number_of result) }
    ensures later { K.faults out.old ≤ K.faults out.new }
{
    written_status(write_picture(alloc, out, picture), status)
}
