//! The program's commands, with their operands and options.
ghost use Rattle.std.specs.Prelude.{◌≡◌, find, option_map};
ghost use Rattle.std.specs.Str.{bytes_eq};
ghost use Rattle.program_words.specs.Asked.{grammar_named};
ghost use Rattle.program_words.specs.Tables.{grammar_of};

/// A command of the program.
#[derive(Clone, Copy)]
pub enum CommandName {
    /// Plans the routes of a codec file.
    Route,
    /// Sets the codecs of a codec file up by a schedule.
    Walk,
    /// Plays a WAV file through the analog pins of a codec file by a schedule.
    Play,
    /// Plays the input that is made of a number.
    Make,
    /// Plays a WAV file through the digital pins of a codec file by a schedule.
    Spdif,
    /// Records what the input pin of a codec file is given, the sound of a WAV file, by a schedule.
    Capture,
}

/// The numbers that an option takes.
#[derive(Clone, Copy)]
pub enum Numbers {
    /// Those that are listed.
    Listed(&'static [u64]),
    /// All from the first to the second.
    Between(u64, u64),
}

/// An option `--name`, the numbers that it takes, and the one that stands for it where it isn't given.
#[derive(Clone, Copy)]
pub struct OptionRow {
    pub name: &'static str,
    pub numbers: Numbers,
    pub default: u64,
}

/// A command: its first word, how many operands it has, and its options.
#[derive(Clone, Copy)]
pub struct CommandRow {
    pub command: CommandName,
    pub name: &'static str,
    pub operands: usize,
    pub options: &'static [OptionRow],
}

const RATES: [u64; 6] = [8000, 16000, 44100, 48000, 96000, 192000];

const CHANNELS: [u64; 4] = [2, 4, 6, 8];

const BITS: [u64; 3] = [16, 24, 32];

const ROUTE_OPTIONS: [OptionRow; 3] = [
    OptionRow {
        name: "rate",
        numbers: Numbers::Listed(&RATES),
        default: 48000,
    },
    OptionRow {
        name: "channels",
        numbers: Numbers::Listed(&CHANNELS),
        default: 2,
    },
    OptionRow {
        name: "bits",
        numbers: Numbers::Listed(&BITS),
        default: 16,
    },
];

const ROUTE: CommandRow = CommandRow {
    command: CommandName::Route,
    name: "route",
    operands: 1,
    options: &ROUTE_OPTIONS,
};

/// `walk CODEC SCHEDULE`
pub(crate) const WALK: CommandRow = CommandRow {
    command: CommandName::Walk,
    name: "walk",
    operands: 2,
    options: &[],
};

const PLAY_OPTIONS: [OptionRow; 2] = [
    OptionRow {
        name: "periods",
        numbers: Numbers::Between(2, 32),
        default: 4,
    },
    OptionRow {
        name: "period",
        numbers: Numbers::Between(1, 128),
        default: 8,
    },
];

/// `play CODEC WAV SCHEDULE [--periods K] [--period M]`
pub(crate) const PLAY: CommandRow = CommandRow {
    command: CommandName::Play,
    name: "play",
    operands: 3,
    options: &PLAY_OPTIONS,
};

const MAKE: CommandRow = CommandRow {
    command: CommandName::Make,
    name: "make",
    operands: 1,
    options: &[],
};

/// `spdif CODEC WAV SCHEDULE [--periods K] [--period M]`
const SPDIF: CommandRow = CommandRow {
    command: CommandName::Spdif,
    name: "spdif",
    operands: 3,
    options: &PLAY_OPTIONS,
};

/// `capture CODEC WAV SCHEDULE [--periods K] [--period M]`
const CAPTURE: CommandRow = CommandRow {
    command: CommandName::Capture,
    name: "capture",
    operands: 3,
    options: &PLAY_OPTIONS,
};

const COMMANDS: [CommandRow; 6] = [ROUTE, WALK, PLAY, MAKE, SPDIF, CAPTURE];

/// The numbers of which an input is made.
pub const MADE_NUMBERS: Numbers = Numbers::Between(0, 65535);

/// The row with this name.
fn row_named(rows: &[CommandRow], name: &str) -> Option<CommandRow>
    ensures { result ≡ find (λ row. bytes_eq row.name.now name.now) rows.now }
{
    for row in rows {
        if row.name == name {
            return Some(*row);
        }
    }
    None
}

/// The command with this name.
pub fn command_named(name: &str) -> Option<CommandRow>
    ensures { option_map grammar_of result ≡ grammar_named name.now }
{
    row_named(COMMANDS.as_slice(), name)
}
