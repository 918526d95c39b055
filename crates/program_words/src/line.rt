//! The words after a command's name, by the row of the command.
ghost use Rattle.std.specs.Prelude.{◌≡◌, ◌≢◌, ◌<◌, IfOk, Err, Some, None, drop, length, map, string_bytes, false};
ghost use Rattle.program_words.specs.ClapCommand.{numbers_found, operands_id, values_found};
ghost use Rattle.program_words.specs.Commands.{option_names};
ghost use Rattle.program_words.specs.Lines.{command_line_of, number_once};
ghost use Rattle.program_words.specs.Seen.{line_seen};
ghost use Rattle.program_words.specs.Tables.{grammar_of, option_of};
ghost use Rattle.program_words.specs.Words.{has_single, is_among, is_single, word_of};

use crate::arguments::{find_parts, operands_given};
use crate::request::WordsFault;
use crate::table::{CommandRow, OptionRow};
use clap::ArgMatches;
use std::alloc::Global;

/// The operands, and a number for each option of the row.
#[derive(Drop)]
pub struct Line<'a> {
    pub operands: Vec<&'a str>,
    pub numbers: Vec<u64>,
}

/// Whether a word is a hyphen alone, or a hyphen and then something else.
fn is_single_hyphen(word: &str) -> bool
    ensures { result ≡ is_single (word_of word.now) }
{
    word.as_bytes().starts_with(b"-".as_slice()) && !word.as_bytes().starts_with(b"--".as_slice())
}

/// Whether a word before any `--` has a single hyphen at its front. No command has options of one letter, and `clap`
/// would take a hyphen alone for an operand.
fn has_single_hyphen(words: &[String]) -> bool
    ensures { result ≡ has_single (map string_bytes words.now) }
{
    for word in words {
        if word.as_str() == "--" {
            return false;
        }
        if is_single_hyphen(word.as_str()) {
            return true;
        }
    }
    false
}

/// The number of an option: it may be given once.
fn number_given(option: &OptionRow, matches: &ArgMatches) -> Option<u64>
    ensures { result ≡ number_once (option_of option.now) (values_found matches.now option.now.name.now) }
{
    let Some(values) = matches.get_strs(option.name) else {
        return Some(option.default);
    };
    match values.len() {
        0 => Some(option.default),
        1 => option.numbers.read(values[0]),
        _ => None,
    }
}

/// The numbers of the options.
fn numbers_given(
    alloc: Global,
    options: &[OptionRow],
    matches: &ArgMatches,
) -> Result<Vec<u64>, WordsFault>
    ensures ok { IfOk result (λ numbers. numbers_found (map option_of options.now) matches.now ≡ Some numbers.items) }
    ensures err { result ≡ Err WordsFault.NoCommand → numbers_found (map option_of options.now) matches.now ≡ None }
{
    let mut numbers = Vec::new(alloc);
    for option in options {
        let number = number_given(option, matches).ok_or(WordsFault::NoCommand)?;
        numbers.push(number)?;
    }
    Ok(numbers)
}

/// The operands: as many as the row has.
fn operands_of<'a>(
    alloc: Global,
    row: &CommandRow,
    matches: &ArgMatches<'a>,
) -> Result<Vec<&'a str>, WordsFault>
    ensures found { IfOk result (λ operands. map (λ word. word.now) operands.items ≡ values_found matches.now
        operands_id) }
    ensures count { IfOk result (λ operands. length operands.items ≡ row.now.operands) }
    ensures err { result ≡ Err WordsFault.NoCommand → length (values_found matches.now operands_id) ≢ row.now.operands }
{
    let operands = operands_given(alloc, matches)?;
    if operands.as_slice().len() == row.operands {
        Ok(operands)
    } else {
        Err(WordsFault::NoCommand)
    }
}

/// The words, of which the first is the name of the row's command.
pub fn read_line<'a>(
    alloc: Global,
    row: &CommandRow,
    words: &'a [String],
) -> Result<Line<'a>, WordsFault>
    requires apart { is_among (option_names (grammar_of row.now)) operands_id ≡ false }
    requires named { 0 < length words.now }
    ensures ok { IfOk result (λ line. command_line_of (grammar_of row.now) (drop 1 (map string_bytes words.now)) ≡ Some
        (line_seen line)) }
    ensures err { result ≡ Err WordsFault.NoCommand
        → command_line_of (grammar_of row.now) (drop 1 (map string_bytes words.now)) ≡ None }
{
    if has_single_hyphen(&words[1..]) {
        return Err(WordsFault::NoCommand);
    }
    let matches = find_parts(alloc, row, words)?;
    let operands = operands_of(alloc, row, &matches)?;
    let numbers = numbers_given(alloc, row.options, &matches)?;
    Ok(Line { operands, numbers })
}
