//! What a column of a picture shows of the moments that fall in it.
ghost use Rattle.std.specs.Prelude.{◌≡◌};
ghost use Rattle.run_picture.specs.Columns as spec;

use crate::meter::Meter;
use period_writer::Run;

/// What the recorded runs say of a moment.
#[derive(Clone, Copy)]
pub(crate) struct Sight {
    /// Where the line ends.
    pub line: u64,
    /// Where it ended before the run that was recorded last.
    pub start: u64,
    /// The ticks between the first clock of the run before and the last one of the run that began last.
    pub gap: u64,
}

/// What a column shows: all 0 where no moment falls in it.
#[derive(Clone, Copy)]
pub(crate) struct Column {
    /// Whether a moment falls in it.
    pub seen: bool,
    /// The bytes that were sent up to its last moment.
    pub sent: u64,
    /// The bytes that were fetched up to then.
    pub fetched: u64,
    /// Where the line ended then.
    pub line: u64,
    /// Where it ended before the run that was recorded last: the least of its moments.
    pub start: u64,
    /// The bytes in the FIFO: the least of its moments.
    pub held: u64,
    /// The bytes from what was sent to the end of the line: the least of its moments.
    pub ahead: u64,
    /// The ticks from a run to the next: the most of its moments.
    pub gap: u64,
    /// How many items each pin's list had at its last moment.
    pub items: u64,
    /// Whether a link frame missed its blocks.
    pub missed: bool,
}

/// Where the line ends after so many of the runs, over a ring of so many bytes.
fn line_after(runs: &[Run], ring: u32, count: usize) -> u64
    ensures { result ≡ spec.line_after runs.now ring count }
{
    if count == 0 || count > runs.len() {
        return 0;
    }
    runs[count - 1].at.saturating_add(ring.into())
}

/// The ticks between the first clock of the run before this one and its last clock. The clock has 32 bits.
fn gap_before(runs: &[Run], count: usize) -> u32
    ensures { result ≡ spec.gap_before runs.now count }
{
    if count < 2 || count > runs.len() {
        return 0;
    }
    runs[count - 1].to.wrapping_sub(runs[count - 2].from)
}

/// How many of so many recorded runs have begun.
fn count_begun(begun: u64, recorded: usize) -> usize
    ensures { result ≡ spec.count_begun begun recorded }
{
    begun.min(recorded as u64) as usize
}

/// What the recorded runs say of a moment. A run that was too late has no record, and took so many ticks.
pub(crate) fn sight_of(runs: &[Run], late: u32, moment: &Meter) -> Sight
    ensures { result ≡ spec.sight_of runs.now late moment.now }
{
    let count = count_begun(moment.runs, runs.len());
    let gap = if moment.runs > runs.len() as u64 {
        late
    } else {
        gap_before(runs, count)
    };
    Sight {
        line: line_after(runs, moment.ring, count),
        start: line_after(runs, moment.ring, count.saturating_sub(1)),
        gap: gap.into(),
    }
}

/// The lesser of two, or the second where the first was not seen.
fn least(seen: bool, first: u64, second: u64) -> u64
    ensures { result ≡ spec.least seen first second }
{
    if seen { first.min(second) } else { second }
}

impl Column {
    ghost use Rattle.std.specs.Prelude.{◌≡◌};
    ghost use Rattle.run_picture.specs.Columns as spec;

    /// A column without a moment.
    pub(crate) fn empty() -> Column
        ensures { result ≡ spec.column_empty }
    {
        Column {
            seen: false,
            sent: 0,
            fetched: 0,
            line: 0,
            start: 0,
            held: 0,
            ahead: 0,
            gap: 0,
            items: 0,
            missed: false,
        }
    }

    /// With one moment more.
    pub(crate) fn with(self, sight: Sight, moment: &Meter) -> Column
        ensures { result ≡ spec.column_with sight moment.now self }
    {
        let ahead = sight.line.saturating_sub(moment.sent);
        Column {
            seen: true,
            sent: moment.sent,
            fetched: moment.fetched,
            line: sight.line,
            start: least(self.seen, self.start, sight.start),
            held: least(self.seen, self.held, moment.held()),
            ahead: least(self.seen, self.ahead, ahead),
            gap: self.gap.max(sight.gap),
            items: moment.items,
            missed: self.missed || moment.missed,
        }
    }
}
