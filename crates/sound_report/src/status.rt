//! Exit statuses.
ghost use Rattle.std.specs.Prelude.{◌≡◌};
ghost use Rattle.sound_report.specs.Statuses.{number_of};

/// How the program ends. This project's own.
#[derive(Clone, Copy, Debug, PartialEq, Eq)]
pub enum Status {
    /// All was done.
    Done,
    /// The words are those of no command.
    WordsRefused,
    /// A file could not be read.
    ShelfFailed,
    /// Standard output could not be written.
    SinkFailed,
    /// The codec file has a fault.
    CodecRefused,
    /// The WAV file has a fault.
    WavRefused,
    /// The schedule has a fault.
    ScheduleRefused,
    /// No pin of any codec has a route.
    NothingRouted,
    /// A codec left a command unanswered.
    Unanswered,
    /// A run of the driver ended too late.
    Late,
    /// The schedule ended before the driver was done.
    ScheduleEnded,
    /// Memory was wanting.
    OutOfMemory,
    /// The ring of sound has a fault.
    GeometryRefused,
    /// The WAV file got shorter while it was played.
    WavShrank,
}

impl Status {
    /// The number of the exit status.
    pub fn number(self) -> u8
        ensures { result ≡ number_of self }
    {
        match self {
            Status::Done => 0,
            Status::WordsRefused => 2,
            Status::ShelfFailed => 3,
            Status::SinkFailed => 4,
            Status::CodecRefused => 5,
            Status::WavRefused => 6,
            Status::ScheduleRefused => 7,
            Status::NothingRouted => 8,
            Status::Unanswered => 9,
            Status::Late => 10,
            Status::ScheduleEnded => 11,
            Status::OutOfMemory => 12,
            Status::GeometryRefused => 13,
            Status::WavShrank => 14,
        }
    }
}
