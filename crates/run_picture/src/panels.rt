//! What is drawn of a run's columns, panel by panel.
ghost use Rattle.std.specs.Prelude.{◌≡◌, ◌≤◌, ◌++◌, ◌∷◌, [], length, max, OnOk};
ghost use Rattle.svg_text.specs.declared.shapes.Shape.TheVariants as shape;
ghost use Rattle.run_picture.specs.declared.scales.Series.TheVariants as series;
ghost use Rattle.run_picture.specs.Panels as spec;
ghost use Rattle.run_picture.specs.Scales as scale;

use crate::columns::Column;
use crate::lettering::TICKS;
use crate::scales::{
    Measure, Series, greatest, heights, measure_for, missed_marks, pixels, silence_marks,
};
use crate::series::{LEFT, WIDTH, push_area, push_between, push_line};
use hda_items::Items;
use period_writer::Span;
use std::alloc::{AllocError, Global};
use stream_format::Format;
use svg_text::{Paint, Point, Shape};

/// The base line of the panel of the line, and its height.
pub(crate) const LINE_BASE: u32 = 330;

pub(crate) const LINE_HEIGHT: u32 = 230;
/// The base lines of the marks of silence and of holes, and their height.
pub(crate) const SILENCE_BASE: u32 = 348;

pub(crate) const HOLE_BASE: u32 = 364;

const MARK_HEIGHT: u32 = 10;
/// The base line of the panel of what was written and not sent, and its height.
pub(crate) const AHEAD_BASE: u32 = 538;

pub(crate) const AHEAD_HEIGHT: u32 = 100;
/// The base line of the panel of the FIFO, and its height.
pub(crate) const HELD_BASE: u32 = 646;

pub(crate) const HELD_HEIGHT: u32 = 70;
/// The base line of the panel of the runs, and its height.
pub(crate) const GAP_BASE: u32 = 774;

pub(crate) const GAP_HEIGHT: u32 = 90;

/// The greatest value of the panel of the line.
pub(crate) fn most_line(columns: &[Column]) -> u64
    ensures { result ≡ spec.most_line columns.now }
{
    greatest(columns, Series::Line)
        .max(greatest(columns, Series::Fetched))
        .max(greatest(columns, Series::Sent))
}

/// The greatest value of the panel of a FIFO of so many bytes.
pub(crate) fn most_held(columns: &[Column], fifo: u16) -> u64
    ensures { result ≡ max (scale.greatest series.Held columns.now) fifo }
{
    greatest(columns, Series::Held).max(fifo.into())
}

/// The greatest value of the panel of the runs, with so many ticks that may pass.
pub(crate) fn most_gap(columns: &[Column], limit: u64) -> u64
    ensures { result ≡ spec.most_gap limit columns.now }
{
    greatest(columns, Series::Gap).max(limit)
}

/// How many ticks may pass from a run to the next, over a ring and a FIFO of so many bytes.
pub(crate) fn limit_ticks(format: Format, ring: u32, fifo: u16) -> u64
    ensures { result ≡ spec.limit_ticks format ring fifo }
{
    let most = format.most();
    if most == 0 {
        return 0;
    }
    u64::from(ring.saturating_sub(fifo.into()) / most) * TICKS
}

/// A line along the values of columns.
fn push_series(
    shapes: &mut Items<Shape>,
    alloc: Global,
    columns: &[Column],
    series: Series,
    measure: Measure,
    paint: Paint,
) -> Result<(), AllocError>
    requires few { length columns.now ≤ 540 }
    ensures { OnOk result (shapes.new ≡ shapes.old ++ spec.series_shape columns.now series measure paint ∷ []) }
{
    let list = heights(alloc, columns, series, measure)?;
    push_line(shapes, alloc, paint, measure.base, list.as_slice())
}

/// The area between the values of columns and greater ones.
fn push_span(
    shapes: &mut Items<Shape>,
    alloc: Global,
    columns: &[Column],
    lower: Series,
    upper: Series,
    measure: Measure,
    paint: Paint,
) -> Result<(), AllocError>
    requires few { length columns.now ≤ 540 }
    ensures { OnOk result (shapes.new ≡ shapes.old ++ spec.span_shape columns.now lower upper measure paint ∷ []) }
{
    let low = heights(alloc, columns, lower, measure)?;
    let high = heights(alloc, columns, upper, measure)?;
    push_between(
        shapes,
        alloc,
        paint,
        measure.base,
        low.as_slice(),
        high.as_slice(),
    )
}

/// The marks under the panel of the line: silence that was sent, and frames that missed their blocks.
fn push_marks(
    shapes: &mut Items<Shape>,
    alloc: Global,
    columns: &[Column],
    silences: &[Span],
) -> Result<(), AllocError>
    requires few { length columns.now ≤ 540 }
    ensures { OnOk result (shapes.new ≡ shapes.old ++ spec.marks columns.now silences.now) }
{
    let silent = silence_marks(alloc, columns, silences, MARK_HEIGHT)?;
    push_area(
        shapes,
        alloc,
        Paint::Silence,
        SILENCE_BASE,
        silent.as_slice(),
    )?;
    let missed = missed_marks(alloc, columns, MARK_HEIGHT)?;
    push_area(shapes, alloc, Paint::Hole, HOLE_BASE, missed.as_slice())
}

/// The panel of the line: what was written, sent and fetched.
///
/// # Errors
/// Want of memory.
pub(crate) fn push_line_panel(
    shapes: &mut Items<Shape>,
    alloc: Global,
    columns: &[Column],
    silences: &[Span],
) -> Result<(), AllocError>
    requires { length columns.now ≤ 540 }
    ensures { OnOk result (shapes.new ≡ shapes.old ++ spec.line_panel columns.now silences.now) }
{
    let line = measure_for(most_line(columns), LINE_HEIGHT, LINE_BASE);
    push_span(
        shapes,
        alloc,
        columns,
        Series::Start,
        Series::Line,
        line,
        Paint::Written,
    )?;
    push_series(shapes, alloc, columns, Series::Line, line, Paint::Reach)?;
    push_series(
        shapes,
        alloc,
        columns,
        Series::Fetched,
        line,
        Paint::Fetched,
    )?;
    push_series(shapes, alloc, columns, Series::Sent, line, Paint::Sent)?;
    push_marks(shapes, alloc, columns, silences)
}

/// A panel of last values over the least ones: the area between them, and a line along the least.
///
/// # Errors
/// Want of memory.
pub(crate) fn push_least_panel(
    shapes: &mut Items<Shape>,
    alloc: Global,
    columns: &[Column],
    least: Series,
    last: Series,
    measure: Measure,
    paint: Paint,
) -> Result<(), AllocError>
    requires { length columns.now ≤ 540 }
    ensures { OnOk result (shapes.new ≡ shapes.old ++ spec.least_panel columns.now least last measure paint) }
{
    push_span(shapes, alloc, columns, least, last, measure, paint)?;
    push_series(shapes, alloc, columns, least, measure, paint)
}

/// The line of the limit.
fn push_limit(shapes: &mut Items<Shape>, limit: u64, gap: Measure) -> Result<(), AllocError>
    ensures { OnOk result (shapes.new ≡ shapes.old ++ spec.limit_shape limit gap ∷ []) }
{
    let y = gap.base.saturating_sub(pixels(limit, gap));
    shapes.push(Shape::Line {
        paint: Paint::Limit,
        from: Point { x: LEFT, y },
        to: Point { x: LEFT + WIDTH, y },
    })?;
    Ok(())
}

/// The panel of the runs: the ticks from each to the next, and how many may pass.
///
/// # Errors
/// Want of memory.
pub(crate) fn push_gap_panel(
    shapes: &mut Items<Shape>,
    alloc: Global,
    columns: &[Column],
    limit: u64,
) -> Result<(), AllocError>
    requires { length columns.now ≤ 540 }
    ensures { OnOk result (shapes.new ≡ shapes.old ++ spec.gap_panel columns.now limit) }
{
    let gap = measure_for(most_gap(columns, limit), GAP_HEIGHT, GAP_BASE);
    let list = heights(alloc, columns, Series::Gap, gap)?;
    push_area(shapes, alloc, Paint::Sent, GAP_BASE, list.as_slice())?;
    push_limit(shapes, limit, gap)
}
