//! What the program answers to its words, before anything is written.
ghost use Rattle.std.specs.Prelude.{◌≡◌, ◌≤◌, ℕ, List, Contains, map, string_bytes, IfOk};
ghost use Rattle.program_words.specs.Asked.{asked_by, IsInRange};
ghost use Rattle.hda_program.specs.Answers.{IsMeant, RequestAnswers};
ghost use Rattle.hda_program.specs.Asks.{AsksForItsFiles, files_of};
ghost use Rattle.hda_program.specs.Meanings.{answer_meant};
ghost use Rattle.hda_program.specs.Files.{EmptiedUnder, FailedUnder, GivenAtMost, UnaskedUnder};

use crate::capture::answer_capture;
use crate::make::answer_make;
use crate::message::{Message, words_refused};
use crate::play::answer_play;
use crate::route::answer_route;
use crate::walk::answer_walk;
use capture_report::Captured;
use codec_graph::PinKind;
use hda_outside::Shelf;
use program_words::{Request, WordsFault, read_words};
use sound_report::Played;
use std::alloc::{AllocError, Global};

/// What a command comes to, before anything is written. This project's own.
#[derive(Drop)]
pub enum Answer {
    /// A text, and no run of the driver.
    Message(Message),
    /// A run of the driver, whose report is the text.
    Run(Played),
    /// A run of the inputs that are made of a number, whose line is the text.
    Made(u16, Played),
    /// A capture, whose text is the text.
    Captured(Captured),
}

/// What the program answers to its words.
///
/// # Errors
/// Want of memory.
pub(crate) fn answer_words<S: Shelf>(
    alloc: Global,
    words: &[String],
    shelf: &mut S,
) -> Result<Answer, AllocError>
    ensures meant { IfOk result (λ answer. IsMeant (S.told shelf.old)
        (FailedUnder (S.faults shelf.old) (S.faults shelf.new))
        (EmptiedUnder (S.empties shelf.old) (S.empties shelf.new))
        (UnaskedUnder (S.asked shelf.old) (S.asked shelf.new))
        (GivenAtMost (S.given shelf.old) (S.given shelf.new))
        (map string_bytes words.now) (answer_meant answer)) }
    ensures asked { AsksForItsFiles (map string_bytes words.now) (S.asked shelf.old) (S.asked shelf.new) }
    ensures told { S.told shelf.new ≡ S.told shelf.old }
    ensures later { (name : List ℕ) → S.faults shelf.old name ≤ S.faults shelf.new name }
    ensures empties_later { (name : List ℕ) → S.empties shelf.old name ≤ S.empties shelf.new name }
{
    match read_words(alloc, words) {
        Ok(request) => answer_request(alloc, shelf, request),
        Err(WordsFault::NoCommand) => Ok(Answer::Message(words_refused(alloc)?)),
        Err(WordsFault::OutOfMemory) => Err(AllocError),
    }
}

/// What the program answers to a request, before anything is written: a message, a run of the driver, or a capture.
///
/// # Errors
/// Want of memory.
pub fn answer_request<S: Shelf>(
    alloc: Global,
    shelf: &mut S,
    request: Request<'_>,
) -> Result<Answer, AllocError>
    requires ranges { IsInRange request }
    ensures answers { IfOk result (λ answer. RequestAnswers (S.told shelf.old)
        (FailedUnder (S.faults shelf.old) (S.faults shelf.new))
        (EmptiedUnder (S.empties shelf.old) (S.empties shelf.new))
        (UnaskedUnder (S.asked shelf.old) (S.asked shelf.new))
        (GivenAtMost (S.given shelf.old) (S.given shelf.new))
        request.entry (answer_meant answer)) }
    ensures asked { (other : List ℕ) → (Contains (files_of (asked_by request.entry)) other → ⊥)
        → S.asked shelf.new other ≡ S.asked shelf.old other }
    ensures told { S.told shelf.new ≡ S.told shelf.old }
    ensures later { (other : List ℕ) → S.faults shelf.old other ≤ S.faults shelf.new other }
    ensures empties_later { (other : List ℕ) → S.empties shelf.old other ≤ S.empties shelf.new other }
{
    match request {
        Request::Route { codec, format } => {
            let message = answer_route(alloc, shelf, codec, format)?;
            Ok(Answer::Message(message))
        }
        Request::Walk { codec, schedule } => answer_walk(alloc, shelf, codec, schedule),
        Request::Play {
            codec,
            wav,
            schedule,
            periods,
            period,
        } => answer_play(
            alloc,
            shelf,
            PinKind::Analog,
            codec,
            wav,
            schedule,
            periods,
            period,
        ),
        Request::Make { number } => answer_make(alloc, number),
        Request::Spdif {
            codec,
            wav,
            schedule,
            periods,
            period,
        } => answer_play(
            alloc,
            shelf,
            PinKind::Digital,
            codec,
            wav,
            schedule,
            periods,
            period,
        ),
        Request::Capture {
            codec,
            wav,
            schedule,
            periods,
            period,
        } => answer_capture(alloc, shelf, codec, wav, schedule, periods, period),
    }
}
