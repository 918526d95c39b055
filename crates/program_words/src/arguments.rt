//! The `clap` command of a row, and what it finds in the words.
ghost use Rattle.std.specs.Prelude.{◌≡◌, IfOk, Err, drop, map, string_bytes, false};
ghost use Rattle.clap.specs.Words.{app_of, rule_of};
ghost use Rattle.program_words.specs.Commands.{option_names};
ghost use Rattle.program_words.specs.Tables.{grammar_of};
ghost use Rattle.program_words.specs.Words.{has_single, is_among, parts_of};
ghost use Rattle.program_words.specs.ClapCommand.{FindsParts, command_app, operand_rule, operands_id, option_rule};
ghost use Rattle.program_words.specs.ClapCommand.{values_found};

use crate::request::WordsFault;
use crate::table::{CommandRow, OptionRow};
use clap::error::ErrorKind;
use clap::{Arg, ArgAction, ArgMatches, Command};
use std::alloc::{AllocError, Global};

/// The name by which `clap` knows the operands.
pub const OPERANDS: &str = "FILE";

/// An option of a row.
fn option_argument<'a>(alloc: Global, option: &OptionRow) -> Arg<'a>
    ensures rule { rule_of result ≡ option_rule option.now.name.now }
    ensures local { result.global ≡ false }
{
    Arg::new(alloc, option.name)
        .long(option.name)
        .action(ArgAction::Append)
}

/// The operands.
fn operand_argument<'a>(alloc: Global) -> Arg<'a>
    ensures rule { rule_of result ≡ operand_rule }
    ensures local { result.global ≡ false }
{
    Arg::new(alloc, OPERANDS).action(ArgAction::Append)
}

/// The command of a row. `clap` lets its options and its operands be given any number of times.
fn command_of<'a>(alloc: Global, row: &CommandRow) -> Result<Command<'a>, AllocError>
    ensures { IfOk result (λ command. app_of command ≡ command_app row.now.name.now
        (option_names (grammar_of row.now))) }
{
    let mut command = Command::new(alloc, row.name).disable_help_flag(true);
    for option in row.options {
        command = command.arg(option_argument(alloc, option))?;
    }
    command.arg(operand_argument(alloc))
}

/// What `clap` finds in the words, of which the first is the command's name.
pub fn find_parts<'a>(
    alloc: Global,
    row: &CommandRow,
    words: &'a [String],
) -> Result<ArgMatches<'a>, WordsFault>
    requires apart { is_among (option_names (grammar_of row.now)) operands_id ≡ false }
    requires no_single { has_single (drop 1 (map string_bytes words.now)) ≡ false }
    ensures ok { IfOk result (FindsParts (option_names (grammar_of row.now))
        (parts_of (option_names (grammar_of row.now)) (drop 1 (map string_bytes words.now)))) }
    ensures err { result ≡ Err WordsFault.NoCommand
        → parts_of (option_names (grammar_of row.now)) (drop 1 (map string_bytes words.now)) ≡ None }
{
    let command = command_of(alloc, row)?;
    match command.try_get_matches_from(words) {
        Ok(matches) => Ok(matches),
        Err(error) => match error.kind() {
            ErrorKind::OutOfMemory => Err(WordsFault::OutOfMemory),
            _ => Err(WordsFault::NoCommand),
        },
    }
}

/// The operands that were found.
pub fn operands_given<'a>(
    alloc: Global,
    matches: &ArgMatches<'a>,
) -> Result<Vec<&'a str>, AllocError>
    ensures { IfOk result (λ operands. map (λ word. word.now) operands.items ≡ values_found matches.now operands_id) }
{
    match matches.get_strs(OPERANDS) {
        Some(operands) => Vec::from_slice(alloc, operands),
        None => Ok(Vec::new(alloc)),
    }
}
