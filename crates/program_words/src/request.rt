//! What the words ask the program to do.
ghost use Rattle.std.specs.Prelude.{◌≡◌, IfOk, IfSome, Some, None, Err, map, option_map, string_bytes, true};
ghost use Rattle.stream_format.specs.Cadence.{hertz};
ghost use Rattle.program_words.specs.Asked.{asked_by, asked_of, bits_of, request_of, IsInRange};
ghost use Rattle.program_words.specs.Commands.{bits_option, capture_grammar, channels_option, make_grammar};
ghost use Rattle.program_words.specs.Commands.{play_grammar, rate_option, route_grammar, spdif_grammar, walk_grammar};
ghost use Rattle.program_words.specs.Lines.{IsLineOf};
ghost use Rattle.program_words.specs.Numbers.{is_taken};
ghost use Rattle.program_words.specs.Seen.{line_seen};
ghost use Rattle.program_words.specs.declared.request.WordsFault.TheVariants.{OutOfMemory};

use crate::line::{Line, read_line};
use crate::table::{CommandName, MADE_NUMBERS, command_named};
use std::alloc::{AllocError, AllocFailed, Global};
use stream_format::{Bits, Format, Rate};

/// What the words ask the program to do.
#[derive(Clone, Copy)]
pub enum Request<'a> {
    /// Plans the routes of a codec file for a format.
    Route {
        /// The name of the codec file.
        codec: &'a str,
        /// The format of the routes.
        format: Format,
    },
    /// Drives the machine of a codec file by a schedule until its codecs are set up.
    Walk {
        /// The name of the codec file.
        codec: &'a str,
        /// The name of the schedule.
        schedule: &'a str,
    },
    /// Plays a WAV file through the analog pins of the machine of a codec file by a schedule.
    Play {
        /// The name of the codec file.
        codec: &'a str,
        /// The name of the WAV file.
        wav: &'a str,
        /// The name of the schedule.
        schedule: &'a str,
        /// How many periods the ring of sound has: 2 to 32.
        periods: u8,
        /// How many units of 384 bytes a period has: 1 to 128.
        period: u8,
    },
    /// Plays the input that is made of a number.
    Make {
        /// The number.
        number: u16,
    },
    /// Plays a WAV file through the digital pins of the machine of a codec file by a schedule.
    Spdif {
        /// The name of the codec file.
        codec: &'a str,
        /// The name of the WAV file.
        wav: &'a str,
        /// The name of the schedule.
        schedule: &'a str,
        /// How many periods the ring of sound has: 2 to 32.
        periods: u8,
        /// How many units of 384 bytes a period has: 1 to 128.
        period: u8,
    },
    /// Records what the input pin of a codec file's machine is given, the sound of a WAV file, by a schedule.
    Capture {
        /// The name of the codec file.
        codec: &'a str,
        /// The name of the WAV file.
        wav: &'a str,
        /// The name of the schedule.
        schedule: &'a str,
        /// How many periods the ring of sound has: 2 to 32.
        periods: u8,
        /// How many units of 384 bytes a period has: 1 to 128.
        period: u8,
    },
}

/// Why the words ask for nothing.
#[derive(Clone, Copy, Debug, PartialEq, Eq)]
pub enum WordsFault {
    /// They are those of no command.
    NoCommand,
    /// Want of memory.
    OutOfMemory,
}

impl From<AllocError> for WordsFault {
    ghost from_gives = { λ _ fault. fault ≡ OutOfMemory };

    fn from(_: AllocError) -> Self {
        WordsFault::OutOfMemory
    }
}

impl<T: Drop> From<AllocFailed<T>> for WordsFault {
    ghost from_gives = { λ _ fault. fault ≡ OutOfMemory };

    fn from(_: AllocFailed<T>) -> Self {
        WordsFault::OutOfMemory
    }
}

/// The rate of so many blocks in a second.
fn rate_of(number: u64) -> Rate
    requires { is_taken rate_option.numbers number ≡ true }
    ensures { hertz result ≡ number }
{
    match number {
        8000 => Rate::R8,
        16000 => Rate::R16,
        44100 => Rate::R44,
        48000 => Rate::R48,
        96000 => Rate::R96,
        _ => Rate::R192,
    }
}

/// The sample size of so many bits.
fn sample_size(number: u64) -> Bits
    requires { is_taken bits_option.numbers number ≡ true }
    ensures { bits_of result ≡ number }
{
    match number {
        16 => Bits::B16,
        24 => Bits::B24,
        _ => Bits::B32,
    }
}

/// The format of so many blocks in a second, channels, and bits of a sample.
fn format_of(rate: u64, channels: u64, bits: u64) -> Format
    requires rate { is_taken rate_option.numbers rate ≡ true }
    requires channels { is_taken channels_option.numbers channels ≡ true }
    requires bits { is_taken bits_option.numbers bits ≡ true }
    ensures rate { hertz result.rate ≡ rate }
    ensures channels { result.channels ≡ channels }
    ensures bits { bits_of result.bits ≡ bits }
{
    Format {
        rate: rate_of(rate),
        bits: sample_size(bits),
        channels: channels as u8,
    }
}

/// What a line of `route` asks.
fn route_of<'a>(line: &Line<'a>) -> Request<'a>
    requires { IsLineOf route_grammar (line_seen line.now) }
    ensures { asked_of CommandName.Route (line_seen line.now) ≡ Some (asked_by result) }
{
    Request::Route {
        codec: line.operands[0],
        format: format_of(line.numbers[0], line.numbers[1], line.numbers[2]),
    }
}

/// What a line of `walk` asks.
pub(crate) fn walk_of<'a>(line: &Line<'a>) -> Request<'a>
    requires { IsLineOf walk_grammar (line_seen line.now) }
    ensures { asked_of CommandName.Walk (line_seen line.now) ≡ Some (asked_by result) }
{
    Request::Walk {
        codec: line.operands[0],
        schedule: line.operands[1],
    }
}

/// What a line of `play` asks.
pub(crate) fn play_of<'a>(line: &Line<'a>) -> Request<'a>
    requires { IsLineOf play_grammar (line_seen line.now) }
    ensures asked { asked_of CommandName.Play (line_seen line.now) ≡ Some (asked_by result) }
    ensures ranges { IsInRange result }
{
    Request::Play {
        codec: line.operands[0],
        wav: line.operands[1],
        schedule: line.operands[2],
        periods: line.numbers[0] as u8,
        period: line.numbers[1] as u8,
    }
}

/// What a line of `spdif` asks.
fn spdif_of<'a>(line: &Line<'a>) -> Request<'a>
    requires { IsLineOf spdif_grammar (line_seen line.now) }
    ensures asked { asked_of CommandName.Spdif (line_seen line.now) ≡ Some (asked_by result) }
    ensures ranges { IsInRange result }
{
    Request::Spdif {
        codec: line.operands[0],
        wav: line.operands[1],
        schedule: line.operands[2],
        periods: line.numbers[0] as u8,
        period: line.numbers[1] as u8,
    }
}

/// What a line of `capture` asks.
fn capture_of<'a>(line: &Line<'a>) -> Request<'a>
    requires { IsLineOf capture_grammar (line_seen line.now) }
    ensures asked { asked_of CommandName.Capture (line_seen line.now) ≡ Some (asked_by result) }
    ensures ranges { IsInRange result }
{
    Request::Capture {
        codec: line.operands[0],
        wav: line.operands[1],
        schedule: line.operands[2],
        periods: line.numbers[0] as u8,
        period: line.numbers[1] as u8,
    }
}

/// What a line of `make` asks, where its operand is a number of which an input is made.
fn make_of<'a>(line: &Line<'a>) -> Option<Request<'a>>
    requires { IsLineOf make_grammar (line_seen line.now) }
    ensures asked { asked_of CommandName.Make (line_seen line.now) ≡ option_map asked_by result }
    ensures ranges { IfSome result IsInRange }
{
    let number = MADE_NUMBERS.read(line.operands[0])?;
    Some(Request::Make {
        number: number as u16,
    })
}

/// Reads the words that stand after the program's name.
///
/// The first is the name of a command, and those after it are its operands and options. Without `--rate`, `--channels`
/// and `--bits` a route is for 48,000 blocks in a second, 2 channels and samples of 16 bits. Without `--periods` and
/// `--period` a sound is played or recorded through a ring of 4 periods of 8 units. The operand of `make` is a number
/// of 0 to 65,535.
///
/// # Errors
/// [`WordsFault::NoCommand`] where the words are those of no command, and want of memory.
pub fn read_words<'a>(alloc: Global, words: &'a [String]) -> Result<Request<'a>, WordsFault>
    ensures asked { IfOk result (λ request. request_of (map string_bytes words.now) ≡ Some (asked_by request)) }
    ensures ranges { IfOk result IsInRange }
    ensures no_command { result ≡ Err WordsFault.NoCommand → request_of (map string_bytes words.now) ≡ None }
{
    let name = words.first().ok_or(WordsFault::NoCommand)?;
    let row = command_named(name.as_str()).ok_or(WordsFault::NoCommand)?;
    let line = read_line(alloc, &row, words)?;
    match row.command {
        CommandName::Route => Ok(route_of(&line)),
        CommandName::Walk => Ok(walk_of(&line)),
        CommandName::Play => Ok(play_of(&line)),
        CommandName::Make => make_of(&line).ok_or(WordsFault::NoCommand),
        CommandName::Spdif => Ok(spdif_of(&line)),
        CommandName::Capture => Ok(capture_of(&line)),
    }
}
