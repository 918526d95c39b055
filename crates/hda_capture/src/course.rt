//! What is kept of the runs that record.

/// A recorded run.
#[derive(Clone, Copy, Debug, PartialEq, Eq)]
pub struct RecordedRun {
    /// The clock that it read first, in ticks of 1/24,000,000 s.
    pub from: u32,
    /// The clock that it read last.
    pub to: u32,
    /// The position of the link when the run read it, in bytes since RUN rose; 0 in the first.
    pub at: u64,
    /// How many bytes it read from the ring.
    pub read: u64,
}

/// What a run tells.
#[derive(Clone, Copy, Debug, PartialEq, Eq)]
pub enum Recorded {
    /// The stream records on.
    Recording,
    /// All that is to be recorded was read, and the stream was stopped.
    Complete,
    /// The run ended too late, and the stream was stopped.
    Late {
        /// The clock from which the link frames count: the first one of the run before.
        from: u32,
        /// The clock that this run read last.
        to: u32,
    },
}

/// Where the last run stood, and how much was read.
#[derive(Clone, Copy, Debug, PartialEq, Eq)]
pub struct RecordCourse {
    /// Whether there was a run.
    pub started: bool,
    /// The position of the last recorded run, 0 before the first.
    pub at: u64,
    /// Up to this position all bytes were read.
    pub read: u64,
    /// The clock that the last recorded run read first.
    pub from: u32,
    /// How the last run ended.
    pub recorded: Recorded,
}
