//! The words as `hda_play` has them.
ghost use Rattle.std.specs.Prelude.{◌≡◌, ◌∷◌, drop, map, string_bytes, IfOk, option_map};
ghost use Rattle.draw_program.specs.Words.{command_of, played_words};

use std::alloc::{AllocError, Global};

/// The command of `hda_play` whose files a picture needs.
fn command_of(word: &str) -> Option<&'static str>
    ensures { option_map (λ command. command.now) result ≡ command_of word.now }
{
    if word == "codec" {
        Some("route")
    } else if word == "run" {
        Some("play")
    } else {
        None
    }
}

/// A command, and words behind it.
fn words_behind(alloc: Global, command: &str, words: &[String]) -> Result<Vec<String>, AllocError>
    ensures { IfOk result (λ all. map string_bytes all.items ≡ command.now ∷ map string_bytes words.now) }
{
    let mut all = Vec::new(alloc);
    all.push(String::from_str(alloc, command)?)?;
    for word in words {
        all.push(word.clone()?)?;
    }
    Ok(all)
}

/// The words with which `hda_play` reads the same files: `route` in place of `codec`, and `play` in place of `run`;
/// none where the first is neither. The program's name stands before the words that are given.
///
/// # Errors
/// Want of memory.
pub(crate) fn played_words(alloc: Global, words: &[String]) -> Result<Vec<String>, AllocError>
    ensures { IfOk result (λ played. map string_bytes played.items
        ≡ played_words (drop 1 (map string_bytes words.now))) }
{
    let [_, word, rest @ ..] = words else {
        return Ok(Vec::new(alloc));
    };
    match command_of(word.as_str()) {
        Some(command) => words_behind(alloc, command, rest),
        None => Ok(Vec::new(alloc)),
    }
}
