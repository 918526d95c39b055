//! Words that ask for a run of the driver without a command's name.
ghost use Rattle.std.specs.Prelude.{◌≡◌, ◌<◌, ◌∷◌, IfOk, Some, None, Err, codes, drop, length, map, string_bytes};
ghost use Rattle.program_words.specs.Asked.{asked_by, request_of, IsInRange};
ghost use Rattle.program_words.specs.RunWords.{run_words};

use crate::line::read_line;
use crate::request::{Request, WordsFault, play_of, walk_of};
use crate::table::{PLAY, WALK};
use std::alloc::Global;

/// Reads the words behind the first one, as they stand behind `walk`.
fn read_walk<'a>(alloc: Global, words: &'a [String]) -> Result<Request<'a>, WordsFault>
    requires named { 0 < length words.now }
    ensures asked { IfOk result (λ request. request_of (codes "walk" ∷ drop 1 (map string_bytes words.now)) ≡ Some
        (asked_by request)) }
    ensures ranges { IfOk result IsInRange }
    ensures no_walk { result ≡ Err WordsFault.NoCommand
        → request_of (codes "walk" ∷ drop 1 (map string_bytes words.now)) ≡ None }
{
    let walk = WALK;
    let line = read_line(alloc, &walk, words)?;
    Ok(walk_of(&line))
}

/// Reads the words behind the first one, as they stand behind `play` or behind `walk`: three operands play a sound, two
/// walk over the codecs. The first word may be any.
///
/// # Errors
/// [`WordsFault::NoCommand`] where the words are those of neither, and want of memory.
pub fn read_run<'a>(alloc: Global, words: &'a [String]) -> Result<Request<'a>, WordsFault>
    requires named { 0 < length words.now }
    ensures asked { IfOk result (λ request. request_of (run_words (drop 1 (map string_bytes words.now))) ≡ Some
        (asked_by request)) }
    ensures ranges { IfOk result IsInRange }
    ensures no_run { result ≡ Err WordsFault.NoCommand
        → request_of (run_words (drop 1 (map string_bytes words.now))) ≡ None }
{
    let play = PLAY;
    match read_line(alloc, &play, words) {
        Ok(line) => Ok(play_of(&line)),
        Err(WordsFault::NoCommand) => read_walk(alloc, words),
        Err(WordsFault::OutOfMemory) => Err(WordsFault::OutOfMemory),
    }
}
