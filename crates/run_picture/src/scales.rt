//! Values of columns as heights in pixels.
ghost use Rattle.std.specs.Prelude.{◌≡◌, ◌≤◌, ◌<◌, length, map, IfOk};
ghost use Rattle.run_picture.specs.Scales as spec;

use crate::columns::Column;
use period_writer::Span;
use std::alloc::{AllocError, Global};

/// What is drawn of columns.
#[derive(Clone, Copy)]
pub(crate) enum Series {
    /// The bytes that were sent.
    Sent,
    /// The bytes that were fetched.
    Fetched,
    /// The end of the line.
    Line,
    /// The end of the line before the run that was recorded last.
    Start,
    /// The bytes from what was sent to the end of the line, at the last moment.
    Ahead,
    /// The least of them.
    LeastAhead,
    /// The bytes in the FIFO, at the last moment.
    Held,
    /// The least of them.
    LeastHeld,
    /// The ticks from a run to the next.
    Gap,
}

impl Column {
    ghost use Rattle.std.specs.Prelude.{◌≡◌};
    ghost use Rattle.run_picture.specs.Scales as spec;

    /// What is drawn of it.
    pub(crate) fn value(&self, series: Series) -> u64
        ensures { result ≡ spec.value_of series self.now }
    {
        match series {
            Series::Sent => self.sent,
            Series::Fetched => self.fetched,
            Series::Line => self.line,
            Series::Start => self.start,
            Series::Ahead => self.line.saturating_sub(self.sent),
            Series::LeastAhead => self.ahead,
            Series::Held => self.fetched.saturating_sub(self.sent),
            Series::LeastHeld => self.held,
            Series::Gap => self.gap,
        }
    }
}

/// The greatest value of columns, 0 where there is none.
pub(crate) fn greatest(columns: &[Column], series: Series) -> u64
    ensures { result ≡ spec.greatest series columns.now }
{
    let mut most = 0;
    for column in columns {
        most = column.value(series).max(most);
    }
    most
}

/// How values are drawn over a base line: how much a pixel stands for, and how many there are at most.
#[derive(Clone, Copy)]
pub(crate) struct Measure {
    /// How much a pixel stands for.
    pub unit: u64,
    /// The most pixels.
    pub height: u32,
    /// The base line, in pixels from the top.
    pub base: u32,
}

/// The measure by which so much stands within so many pixels over a base line.
pub(crate) fn measure_for(most: u64, height: u32, base: u32) -> Measure
    requires { 0 < height }
    ensures unit { result.unit ≡ spec.unit_for most height }
    ensures height { result.height ≡ height }
    ensures base { result.base ≡ base }
{
    Measure {
        unit: (most / u64::from(height)).saturating_add(1),
        height,
        base,
    }
}

/// A value in pixels.
pub(crate) fn pixels(value: u64, measure: Measure) -> u32
    ensures value { result ≡ spec.pixels measure.unit measure.height value }
    ensures within { result ≤ measure.height }
{
    (value / measure.unit.max(1)).min(measure.height.into()) as u32
}

/// The heights of columns.
///
/// # Errors
/// Want of memory.
pub(crate) fn heights(
    alloc: Global,
    columns: &[Column],
    series: Series,
    measure: Measure,
) -> Result<Vec<u32>, AllocError>
    ensures { IfOk result (λ list. list.items ≡ spec.heights series measure.unit measure.height columns.now) }
{
    let mut list = Vec::new(alloc);
    for column in columns {
        list.push(pixels(column.value(series), measure))?;
    }
    Ok(list)
}

/// A height where something is so, and else 0.
pub(crate) fn height_if(is: bool, height: u32) -> u32
    ensures { result ≡ spec.height_if height is }
{
    if is { height } else { 0 }
}

/// Marks of a height at columns with a link frame that missed its blocks.
///
/// # Errors
/// Want of memory.
pub(crate) fn missed_marks(
    alloc: Global,
    columns: &[Column],
    height: u32,
) -> Result<Vec<u32>, AllocError>
    ensures { IfOk result (λ list. list.items ≡ map (λ column. spec.height_if height column.missed) columns.now) }
{
    let mut list = Vec::new(alloc);
    for column in columns {
        list.push(height_if(column.missed, height))?;
    }
    Ok(list)
}

/// Whether a silence begins before a position of the line, and ends after another.
fn meets_silence(silences: &[Span], from: u64, to: u64) -> bool
    ensures { result ≡ spec.meets_silence silences.now from to }
{
    silences
        .iter()
        .any(|silence| silence.start < to && from < silence.end)
}

/// Whether there are bytes of the line from one position to another, and some of them are silence.
fn has_silence(silences: &[Span], from: u64, to: u64) -> bool
    ensures { result ≡ spec.has_silence silences.now from to }
{
    from < to && meets_silence(silences, from, to)
}

/// Marks of a height at columns in which silence was sent.
///
/// # Errors
/// Want of memory.
pub(crate) fn silence_marks(
    alloc: Global,
    columns: &[Column],
    silences: &[Span],
    height: u32,
) -> Result<Vec<u32>, AllocError>
    ensures items { IfOk result (λ list. list.items ≡ spec.silence_marks silences.now height 0 columns.now) }
    ensures len { IfOk result (λ list. length list.items ≡ length columns.now) }
{
    let mut list = Vec::new(alloc);
    let mut from = 0;
    for column in columns {
        list.push(height_if(has_silence(silences, from, column.sent), height))?;
        from = column.sent;
    }
    Ok(list)
}
