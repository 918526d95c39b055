//! How many frames of sound were written and heard.
ghost use Rattle.std.specs.Prelude.{◌≡◌, ◌≤◌, sum_by};
ghost use Rattle.program_runs.specs.FrameCounts as spec;
ghost use Rattle.program_runs.specs.FrameCounts.{written_by};

use period_writer::{Run, Span};

/// The bytes of a silence below a position of the line.
fn silent_below(at: u64, span: &Span) -> u64
    ensures { result ≡ spec.silent_below at span.now }
{
    let _span = *span;
    span.end.min(at).saturating_sub(span.start.min(at))
}

/// How many bytes below a position of the line are silence.
fn silence_below(at: u64, silences: &[Span]) -> u128
    ensures { result ≡ sum_by (spec.silent_below at) silences.now }
{
    let mut bytes = 0u128;
    for span in silences {
        bytes += u128::from(silent_below(at, span));
    }
    bytes
}

/// The position of the last run, 0 where there is none.
pub(crate) fn last_at(runs: &[Run]) -> u64
    ensures { result ≡ spec.last_at runs.now }
{
    match runs.last() {
        Some(run) => run.at,
        None => 0,
    }
}

/// How many frames of so many bytes end at or below a position of the line that has these silences.
pub(crate) fn frames_below(block: u32, silences: &[Span], at: u64) -> u64
    requires { 1 ≤ block }
    ensures { result ≡ spec.frames_below block silences.now at }
{
    let sound = u128::from(at).saturating_sub(silence_below(at, silences));
    (sound / u128::from(block)) as u64
}

/// How many frames of so many bytes some runs wrote, where they are as many as a number can say.
pub(crate) fn frames_written(block: u32, runs: &[Run]) -> u64
    requires some { 1 ≤ block }
    requires few { written_by runs.now ≤ 0xFFFFFFFFFFFFFFFF }
    ensures { result ≡ spec.frames_written block runs.now }
{
    let mut bytes = 0u64;
    for run in runs {
        bytes += run.written;
    }
    bytes / u64::from(block)
}
