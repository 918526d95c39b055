//! What is kept of the runs that play.

/// A recorded run.
#[derive(Clone, Copy, Debug, PartialEq, Eq)]
pub struct Run {
    /// The position of the link in the line when the run read it, in bytes from the line's start; 0 in the first.
    pub at: u64,
    /// The clock that it read first, in ticks of 1/24,000,000 s.
    pub from: u32,
    /// The clock that it read last.
    pub to: u32,
    /// How many bytes of sound it might write.
    pub budget: u32,
    /// How many it wrote.
    pub written: u64,
}

/// Bytes of the line in a row: the position of the first, and the position after the last.
#[derive(Clone, Copy, Debug, PartialEq, Eq)]
pub struct Span {
    /// The position of the first.
    pub start: u64,
    /// The position after the last.
    pub end: u64,
}

/// What a run tells.
#[derive(Clone, Copy, Debug, PartialEq, Eq)]
pub enum Ran {
    /// The stream plays on.
    Playing,
    /// All sound was played, and the stream was stopped.
    Drained,
    /// The run ended too late, and the stream was stopped.
    Late {
        /// The clock from which the link frames count: the first one of the run before, or its own where it took
        /// silence back and was too slow.
        from: u32,
        /// The clock that this run read last.
        to: u32,
        /// How many link frames may pass between the two.
        limit: u32,
    },
}

/// Where the last run stood, and how long the line is.
#[derive(Clone, Copy, Debug, PartialEq, Eq)]
pub struct Course {
    /// Whether there was a run.
    pub started: bool,
    /// The position of the last recorded run, 0 before the first.
    pub at: u64,
    /// The clock that it read first.
    pub from: u32,
    /// How many bytes the line has.
    pub reach: u64,
    /// Below this position what was fetched is the line: its end, and less where a late run took silence back.
    pub sure: u64,
    /// How many of the line's bytes are sound.
    pub used: u64,
    /// Where the last byte of sound ends, 0 where there is none.
    pub sound_end: u64,
    /// How the last run ended.
    pub ran: Ran,
}
