//! The program over any shelf and sink.
ghost use Rattle.std.specs.Prelude.{◌≡◌, ◌≤◌, ◌⊎◌, ℕ, List, drop, map, string_bytes, IfSome, Some, None};
ghost use Rattle.hda_outside.specs.Counts.{Rose};
ghost use Rattle.sound_report.specs.Statuses.{number_of};
ghost use Rattle.hda_program.specs.Answers.{HasEnded, HasWritten};
ghost use Rattle.hda_program.specs.Asks.{AsksForItsFiles, IsNoCommand};
ghost use Rattle.hda_program.specs.Files.{EmptiedUnder, FailedUnder, GivenAtMost, UnaskedUnder};
ghost use Rattle.hda_program.specs.Meanings.{answer_meant, run_meant};
ghost use Rattle.hda_program.specs.Promises.{KeepsPromise};
ghost use Rattle.trace_program.specs.Traced.{HasEndedTrace, IsRunTraced, trace_of, traced};
ghost use Rattle.trace_program.specs.Words.{form_of, played_words};

use crate::answer::{answer_run, is_raw};
use hda_outside::{Shelf, Sink};
use hda_program::{Answer, Ended, Status, status_of, write_captured, write_text, written_status};
use program_runs::walk_total;
use sound_report::Played;
use std::alloc::Global;
use trace_lines::{Form, write_trace};

/// The form for which the program's name and the words after it ask.
fn form_of(words: &[String]) -> Form
    ensures { result ≡ form_of (drop 1 (map string_bytes words.now)) }
{
    if is_raw(words) {
        Form::Raw
    } else {
        Form::Lines
    }
}

/// Makes the run of these words, the program's name and those after it, and writes its journal: an entry a line, or
/// with `--raw` before the operands as lines of JSON.
///
/// The operands and options are those of `play` of `hda_play`, or those of `walk`; files, refusals and statuses are
/// those with which it ends. Where the words ask for no run the status is 2 and the text the usage line. The run is
/// given also where its journal could not be written.
pub fn trace_main<S: Shelf, K: Sink>(
    alloc: Global,
    words: &[String],
    shelf: &mut S,
    out: &mut K,
) -> Ended
    // The meant text was written whole, or its front at a fault of the sink or at want of memory.
    ensures ended { HasEndedTrace (S.told shelf.old) (FailedUnder (S.faults shelf.old) (S.faults shelf.new))
        (EmptiedUnder (S.empties shelf.old) (S.empties shelf.new))
        (UnaskedUnder (S.asked shelf.old) (S.asked shelf.new))
        (GivenAtMost (S.given shelf.old) (S.given shelf.new))
        (drop 1 (map string_bytes words.now)) (K.taken out.old) (K.taken out.new)
        (Rose (K.faults out.old) (K.faults out.new)) result.play result.capture result.status }

    // The run that is given is the one that `hda_play` makes of the same words, and the text is its journal.
    ensures promise { IfSome result.play (KeepsPromise (IsRunTraced (S.told shelf.old)
        (FailedUnder (S.faults shelf.old) (S.faults shelf.new))
        (EmptiedUnder (S.empties shelf.old) (S.empties shelf.new))
        (GivenAtMost (S.given shelf.old) (S.given shelf.new))
        (drop 1 (map string_bytes words.now)))
        (K.taken out.old) (K.taken out.new) (Rose (K.faults out.old) (K.faults out.new)) result.status) }

    // But for the text it ends as `hda_play` does with the same words over a sink that tells nothing: each status has
    // its cause, and what is good is not refused.
    ensures ends_so { IsNoCommand (played_words (drop 1 (map string_bytes words.now)))
        ⊎ HasEnded (S.told shelf.old) (FailedUnder (S.faults shelf.old) (S.faults shelf.new))
        (EmptiedUnder (S.empties shelf.old) (S.empties shelf.new))
        (UnaskedUnder (S.asked shelf.old) (S.asked shelf.new))
        (GivenAtMost (S.given shelf.old) (S.given shelf.new))
        (played_words (drop 1 (map string_bytes words.now))) None None (Rose (K.faults out.old) (K.faults out.new))
        result.play result.capture result.status }

    // The shelf is asked under the names of the words alone.
    ensures asked { AsksForItsFiles (played_words (drop 1 (map string_bytes words.now))) (S.asked shelf.old)
        (S.asked shelf.new) }

    // The shelf's files stay as they are, and no count of faults or of empty answers falls.
    ensures told { S.told shelf.new ≡ S.told shelf.old }
    ensures shelf_later { (name : List ℕ) → S.faults shelf.old name ≤ S.faults shelf.new name }
    ensures empties_later { (name : List ℕ) → S.empties shelf.old name ≤ S.empties shelf.new name }
    ensures sink_later { K.faults out.old ≤ K.faults out.new }
{
    let form = form_of(words);
    match answer_run(alloc, words, shelf) {
        Ok(answer) => write_answer(alloc, out, form, answer),
        Err(_) => Ended {
            status: Status::OutOfMemory.number(),
            play: None,
            capture: None,
        },
    }
}

/// Writes the text of a message, or the journal of a run, and gives the status and the run. A capture, for which these
/// words cannot ask, is written as its report.
fn write_answer<K: Sink>(alloc: Global, out: &mut K, form: Form, answer: Answer) -> Ended
    ensures written { HasWritten (K.taken out.old) (K.taken out.new) (Rose (K.faults out.old) (K.faults out.new))
        (traced form (answer_meant answer)) result.status }
    ensures play { result.play ≡ (answer_meant answer).play }
    ensures capture { result.capture ≡ (traced form (answer_meant answer)).capture }
    ensures later { K.faults out.old ≤ K.faults out.new }
{
    match answer {
        Answer::Message(message) => Ended {
            status: write_text(alloc, out, message.text.as_bytes(), message.status).number(),
            play: None,
            capture: None,
        },
        Answer::Run(played) => end_run(alloc, out, form, played),
        Answer::Made(_, played) => end_run(alloc, out, form, played),
        Answer::Captured(captured) => Ended {
            status: write_captured(alloc, out, &captured).number(),
            play: None,
            capture: Some(captured),
        },
    }
}

/// Ends with a run, whose journal it writes.
fn end_run<K: Sink>(alloc: Global, out: &mut K, form: Form, played: Played) -> Ended
    ensures written { HasWritten (K.taken out.old) (K.taken out.new) (Rose (K.faults out.old) (K.faults out.new))
        (run_meant played (trace_of form played)) result.status }
    ensures play { result.play ≡ Some played }
    ensures capture { result.capture ≡ None }
    ensures later { K.faults out.old ≤ K.faults out.new }
{
    Ended {
        status: write_run(alloc, out, form, &played).number(),
        play: Some(played),
        capture: None,
    }
}

/// Writes the journal of a run, and gives the status of its end, or that of the fault.
fn write_run<K: Sink>(alloc: Global, out: &mut K, form: Form, played: &Played) -> Status
    ensures written { HasWritten (K.taken out.old) (K.taken out.new) (Rose (K.faults out.old) (K.faults out.new))
        (run_meant played.now (trace_of form played.now)) (number_of result) }
    ensures later { K.faults out.old ≤ K.faults out.new }
{
    let walks = walk_total(played.machine.codecs.as_slice());
    written_status(
        write_trace(alloc, out, form, walks, played),
        status_of(played),
    )
}
