//! What the words come to, before anything is written.
ghost use Rattle.std.specs.Prelude.{◌≡◌, ◌≤◌, ℕ, List, drop, map, string_bytes, IfOk};
ghost use Rattle.hda_program.specs.Asks.{AsksForItsFiles};
ghost use Rattle.hda_program.specs.Files.{EmptiedUnder, FailedUnder, GivenAtMost, UnaskedUnder};
ghost use Rattle.hda_program.specs.Meanings.{answer_meant, telling};
ghost use Rattle.trace_program.specs.Traced.{IsAnswered};
ghost use Rattle.trace_program.specs.Words.{is_raw, operands_of, played_words, usage_line};

use hda_outside::Shelf;
use hda_program::{Answer, Message, Status, answer_request};
use program_words::{WordsFault, read_run};
use std::alloc::{AllocError, Global};

/// The line for words that ask for no run.
const USAGE: &str =
    "usage: hda_trace [--raw] CODEC WAV SCHEDULE [--periods K] [--period M] | CODEC SCHEDULE\n";

/// Whether the program's name and the words after it ask for lines of JSON.
pub(crate) fn is_raw(words: &[String]) -> bool
    ensures { result ≡ is_raw (drop 1 (map string_bytes words.now)) }
{
    match words.get(1) {
        Some(word) => word.as_str() == "--raw",
        None => false,
    }
}

/// The words from the one on that stands before the operands.
fn operand_words(words: &[String]) -> &[String]
    ensures { drop 1 (map string_bytes result.now) ≡ operands_of (drop 1 (map string_bytes words.now)) }
{
    if is_raw(words) { &words[1..] } else { words }
}

/// The words ask for no run.
///
/// # Errors
/// Want of memory.
fn words_refused(alloc: Global) -> Result<Answer, AllocError>
    ensures { IfOk result (λ answer. answer_meant answer ≡ telling Status.WordsRefused usage_line) }
{
    Ok(Answer::Message(Message {
        status: Status::WordsRefused,
        text: String::from_str(alloc, USAGE)?,
    }))
}

/// What the program's name and the words after it come to: a message, or a run.
///
/// # Errors
/// Want of memory.
pub(crate) fn answer_run<S: Shelf>(
    alloc: Global,
    words: &[String],
    shelf: &mut S,
) -> Result<Answer, AllocError>
    ensures meant { IfOk result (λ answer. IsAnswered (S.told shelf.old)
        (FailedUnder (S.faults shelf.old) (S.faults shelf.new))
        (EmptiedUnder (S.empties shelf.old) (S.empties shelf.new))
        (UnaskedUnder (S.asked shelf.old) (S.asked shelf.new))
        (GivenAtMost (S.given shelf.old) (S.given shelf.new))
        (drop 1 (map string_bytes words.now)) (answer_meant answer)) }
    ensures asked { AsksForItsFiles (played_words (drop 1 (map string_bytes words.now))) (S.asked shelf.old)
        (S.asked shelf.new) }
    ensures told { S.told shelf.new ≡ S.told shelf.old }
    ensures later { (name : List ℕ) → S.faults shelf.old name ≤ S.faults shelf.new name }
    ensures empties_later { (name : List ℕ) → S.empties shelf.old name ≤ S.empties shelf.new name }
{
    let words = operand_words(words);
    if words.is_empty() {
        return words_refused(alloc);
    }
    match read_run(alloc, words) {
        Ok(request) => answer_request(alloc, shelf, request),
        Err(WordsFault::NoCommand) => words_refused(alloc),
        Err(WordsFault::OutOfMemory) => Err(AllocError),
    }
}
