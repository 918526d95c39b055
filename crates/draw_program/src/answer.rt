//! What the words come to, before anything is written.
ghost use Rattle.std.specs.Prelude.{◌≡◌, ◌≢◌, ◌≤◌, ℕ, List, Some, None, Contains, drop, map, string_bytes, IfOk};
ghost use Rattle.hda_program.specs.Asks.{AsksForItsFiles, files_of};
ghost use Rattle.hda_program.specs.Files.{EmptiedUnder, FailedUnder, GivenAtMost, UnaskedUnder};
ghost use Rattle.hda_program.specs.Meanings.{answer_meant, telling};
ghost use Rattle.hda_files.specs.Machines.{IsSound};
ghost use Rattle.program_words.specs.Asked.{asked_by, IsInRange};
ghost use Rattle.draw_program.specs.Drawn.{CodecDrawn, IsDrawn, IsDrawnOf, IsForPicture, IsRunDrawn, MachineDrawn};
ghost use Rattle.draw_program.specs.Drawn.{RequestDrawn, drawing_meant};
ghost use Rattle.draw_program.specs.Words.{played_words, usage_line};

use crate::words::played_words;
use codec_picture::codec_picture;
use driver_agenda::have_route;
use hda_files::Machine;
use hda_outside::Shelf;
use hda_program::{Answer, Message, Status, answer_request, plans_of, read_codec_file};
use program_words::{Request, WordsFault, read_words};
use route_planner::{Format, PinKind};
use run_picture::run_picture;
use sound_report::Played;
use std::alloc::{AllocError, Global};
use svg_text::Picture;

/// The line for words that ask for no picture.
const USAGE: &str =
    "usage: hda_draw codec CODEC [--rate R] [--channels C] | run CODEC WAV SCHEDULE [--periods K] [--period M]\n";

/// What the words come to, before anything is written. This project's own.
#[derive(Drop)]
pub(crate) enum Drawing {
    /// A text, and no picture.
    Message(Message),
    /// The picture of a machine's codecs, and the status for it.
    Codecs(Status, Picture),
    /// A run of the driver, and its picture.
    Run(Played, Picture),
}

/// The words ask for no picture.
fn words_refused(alloc: Global) -> Result<Drawing, AllocError>
    ensures { IfOk result (λ drawing. drawing_meant drawing ≡ telling Status.WordsRefused usage_line) }
{
    Ok(Drawing::Message(Message {
        status: Status::WordsRefused,
        text: String::from_str(alloc, USAGE)?,
    }))
}

/// The picture of a machine's codecs with their plans for a format.
fn draw_machine(alloc: Global, machine: &Machine, format: Format) -> Result<Drawing, AllocError>
    requires { IsSound machine.now }
    ensures { IfOk result (λ drawing. MachineDrawn format machine.now (drawing_meant drawing)) }
{
    let codecs = machine.codecs.as_slice();
    let plans = plans_of(alloc, PinKind::Analog, codecs, format)?;
    let status = if have_route(plans.as_slice()) {
        Status::Done
    } else {
        Status::NothingRouted
    };
    Ok(Drawing::Codecs(status, codec_picture(alloc, codecs, plans.as_slice())?))
}

/// The picture of the codecs of the file of this name, for this format.
fn draw_codec<S: Shelf>(
    alloc: Global,
    shelf: &mut S,
    name: &str,
    format: Format,
) -> Result<Drawing, AllocError>
    ensures drawn { IfOk result (λ drawing. CodecDrawn (S.told shelf.old)
        (FailedUnder (S.faults shelf.old) (S.faults shelf.new))
        name.now format (drawing_meant drawing)) }
    ensures asked { (other : List ℕ) → other ≢ name.now → S.asked shelf.new other ≡ S.asked shelf.old other }
    ensures told { S.told shelf.new ≡ S.told shelf.old }
    ensures later { (other : List ℕ) → S.faults shelf.old other ≤ S.faults shelf.new other }
    ensures empties_later { (other : List ℕ) → S.empties shelf.old other ≤ S.empties shelf.new other }
{
    match read_codec_file(alloc, shelf, name)? {
        Ok(machine) => draw_machine(alloc, &machine, format),
        Err(message) => Ok(Drawing::Message(message)),
    }
}

/// The picture of a run.
fn draw_run(alloc: Global, played: Played) -> Result<Drawing, AllocError>
    ensures { IfOk result (λ drawing. IsRunDrawn played (drawing_meant drawing)) }
{
    let picture = run_picture(alloc, &played)?;
    Ok(Drawing::Run(played, picture))
}

/// The picture of the run of an answer that is no capture, where it has one.
fn draw_answer(alloc: Global, answer: Answer) -> Result<Drawing, AllocError>
    requires { (answer_meant answer).capture ≡ None }
    ensures { IfOk result (λ drawing. IsDrawnOf (answer_meant answer) (drawing_meant drawing)) }
{
    match answer {
        Answer::Message(message) => Ok(Drawing::Message(message)),
        Answer::Run(played) => draw_run(alloc, played),
        Answer::Made(_, played) => draw_run(alloc, played),
        Answer::Captured(_) => unreachable!(),
    }
}

/// What the program's name and the words after it come to: a message, or a picture.
///
/// # Errors
/// Want of memory.
pub(crate) fn answer_drawing<S: Shelf>(
    alloc: Global,
    words: &[String],
    shelf: &mut S,
) -> Result<Drawing, AllocError>
    ensures meant { IfOk result (λ drawing. IsDrawn (S.told shelf.old)
        (FailedUnder (S.faults shelf.old) (S.faults shelf.new))
        (EmptiedUnder (S.empties shelf.old) (S.empties shelf.new))
        (UnaskedUnder (S.asked shelf.old) (S.asked shelf.new))
        (GivenAtMost (S.given shelf.old) (S.given shelf.new))
        (drop 1 (map string_bytes words.now)) (drawing_meant drawing)) }
    ensures asked { AsksForItsFiles (played_words (drop 1 (map string_bytes words.now))) (S.asked shelf.old)
        (S.asked shelf.new) }
    ensures told { S.told shelf.new ≡ S.told shelf.old }
    ensures later { (name : List ℕ) → S.faults shelf.old name ≤ S.faults shelf.new name }
    ensures empties_later { (name : List ℕ) → S.empties shelf.old name ≤ S.empties shelf.new name }
{
    let words = played_words(alloc, words)?;
    match read_words(alloc, words.as_slice()) {
        Ok(request) => draw_request(alloc, shelf, request),
        Err(WordsFault::NoCommand) => words_refused(alloc),
        Err(WordsFault::OutOfMemory) => Err(AllocError),
    }
}

/// The picture for which a request asks: of codecs, or of a run.
fn draw_request<S: Shelf>(
    alloc: Global,
    shelf: &mut S,
    request: Request<'_>,
) -> Result<Drawing, AllocError>
    requires draws { IsForPicture (asked_by request) }
    requires ranges { IsInRange request }
    ensures drawn { IfOk result (λ drawing. RequestDrawn (S.told shelf.old)
        (FailedUnder (S.faults shelf.old) (S.faults shelf.new))
        (EmptiedUnder (S.empties shelf.old) (S.empties shelf.new))
        (UnaskedUnder (S.asked shelf.old) (S.asked shelf.new))
        (GivenAtMost (S.given shelf.old) (S.given shelf.new))
        request.entry (drawing_meant drawing)) }
    ensures asked { (other : List ℕ) → (Contains (files_of (asked_by request.entry)) other → ⊥)
        → S.asked shelf.new other ≡ S.asked shelf.old other }
    ensures told { S.told shelf.new ≡ S.told shelf.old }
    ensures later { (other : List ℕ) → S.faults shelf.old other ≤ S.faults shelf.new other }
    ensures empties_later { (other : List ℕ) → S.empties shelf.old other ≤ S.empties shelf.new other }
{
    match request {
        Request::Route { codec, format } => draw_codec(alloc, shelf, codec, format),
        Request::Play { .. } => {
            let answer = answer_request(alloc, shelf, request)?;
            draw_answer(alloc, answer)
        }
        Request::Walk { .. }
        | Request::Make { .. }
        | Request::Spdif { .. }
        | Request::Capture { .. } => unreachable!(),
    }
}
