//! Words, scales and legends: what stands behind what is drawn of a run.
ghost use Rattle.std.specs.Prelude.{◌≤◌};

use crate::scales::{Measure, pixels};
use crate::series::{LEFT, WIDTH, place_of};
use hda_items::Items;
use std::alloc::{AllocError, Global};
use svg_text::{Anchor, Lettering, Paint, Point, Shape};

/// How many steps a scale has at most.
const MOST_STEPS: u64 = 6;
/// How many decades a number of 64 bits has.
const DECADES: u32 = 20;
/// How far apart the numbers of a scale are at least, in pixels.
const LINE: u32 = 11;
/// The ticks of a link frame.
pub(crate) const TICKS: u64 = 500;
/// The link frames of a millisecond.
const FRAMES_IN_MS: u64 = 48;

/// Words at a place.
pub(crate) fn push_words(
    shapes: &mut Items<Shape>,
    paint: Paint,
    anchor: Anchor,
    x: u32,
    y: u32,
    words: String,
) -> Result<(), AllocError> {
    shapes.push(Shape::Text {
        paint,
        anchor,
        at: Point { x, y },
        text: Lettering::new(words),
    })?;
    Ok(())
}

/// Fixed words at a place.
pub(crate) fn push_fixed(
    shapes: &mut Items<Shape>,
    alloc: Global,
    paint: Paint,
    x: u32,
    y: u32,
    words: &str,
) -> Result<(), AllocError> {
    push_words(
        shapes,
        paint,
        Anchor::Start,
        x,
        y,
        String::from_str(alloc, words)?,
    )
}

/// A line between two places.
pub(crate) fn push_stroke(
    shapes: &mut Items<Shape>,
    paint: Paint,
    from: Point,
    to: Point,
) -> Result<(), AllocError> {
    shapes.push(Shape::Line { paint, from, to })?;
    Ok(())
}

/// An entry of a legend: a patch of a colour, and what it stands for.
pub(crate) fn push_legend(
    shapes: &mut Items<Shape>,
    alloc: Global,
    paint: Paint,
    x: u32,
    y: u32,
    words: &str,
) -> Result<(), AllocError> {
    shapes.push(Shape::Rect {
        paint,
        at: Point {
            x,
            y: y.saturating_sub(9),
        },
        width: 14,
        height: 10,
    })?;
    push_fixed(shapes, alloc, Paint::Ink, x.saturating_add(20), y, words)
}

/// A round number, so that no more than `MOST_STEPS` times it is a greatest value.
fn round_step(most: u64) -> u64 {
    let mut step: u64 = 1;
    for _decade in 0..DECADES {
        for times in [1u64, 2, 5] {
            let round = step.saturating_mul(times);
            if most <= round.saturating_mul(MOST_STEPS) {
                return round;
            }
        }
        step = step.saturating_mul(10);
    }
    step
}

/// A number of bytes.
fn bytes_words(alloc: Global, bytes: u64) -> Result<String, AllocError> {
    if bytes != 0 && bytes % 1_000_000 == 0 {
        return format!(in alloc; "{} MB", bytes / 1_000_000);
    }
    if bytes != 0 && bytes % 1000 == 0 {
        return format!(in alloc; "{} kB", bytes / 1000);
    }
    format!(in alloc; "{bytes} B")
}

/// How long so many link frames take.
fn time_words(alloc: Global, frames: u64) -> Result<String, AllocError> {
    let ms = frames / FRAMES_IN_MS;
    let rest = frames % FRAMES_IN_MS;
    if ms == 0 {
        return format!(in alloc; "{} us", rest * 125 / 6);
    }
    if ms >= 10_000 {
        return format!(in alloc; "{}.{} s", ms / 1000, ms % 1000 / 100);
    }
    format!(in alloc; "{ms}.{} ms", rest * 10 / FRAMES_IN_MS)
}

/// A mark of a scale at the left: a line over all columns, and its number.
fn push_mark(shapes: &mut Items<Shape>, y: u32, words: String) -> Result<(), AllocError> {
    push_stroke(
        shapes,
        Paint::Grid,
        Point { x: LEFT, y },
        Point { x: LEFT + WIDTH, y },
    )?;
    push_words(
        shapes,
        Paint::Faint,
        Anchor::End,
        LEFT - 8,
        y.saturating_add(4),
        words,
    )
}

/// A scale of bytes over a base line, up to a greatest value.
pub(crate) fn push_bytes_scale(
    shapes: &mut Items<Shape>,
    alloc: Global,
    most: u64,
    measure: Measure,
) -> Result<(), AllocError> {
    let step = round_step(most);
    let mut below = u32::MAX;
    for times in 0..MOST_STEPS + 1 {
        let value = step.saturating_mul(times);
        let y = measure.base.saturating_sub(pixels(value, measure));
        if value <= most && y.saturating_add(LINE) <= below {
            below = y;
            push_mark(shapes, y, bytes_words(alloc, value)?)?;
        }
    }
    Ok(())
}

/// A scale of link frames over a base line, up to so many ticks.
pub(crate) fn push_ticks_scale(
    shapes: &mut Items<Shape>,
    alloc: Global,
    most: u64,
    measure: Measure,
) -> Result<(), AllocError> {
    let step = round_step(most / TICKS);
    for times in 0..MOST_STEPS + 1 {
        let frames = step.saturating_mul(times);
        let value = frames.saturating_mul(TICKS);
        if value <= most {
            let y = measure.base.saturating_sub(pixels(value, measure));
            push_mark(shapes, y, format!(in alloc; "{frames} frames")?)?;
        }
    }
    Ok(())
}

/// A mark of the time scale: a line over all panels, and its numbers under the first.
fn push_moment(
    shapes: &mut Items<Shape>,
    alloc: Global,
    x: u32,
    y: u32,
    bottom: u32,
    frames: u64,
) -> Result<(), AllocError> {
    push_stroke(
        shapes,
        Paint::Grid,
        Point { x, y: 84 },
        Point { x, y: bottom },
    )?;
    push_words(
        shapes,
        Paint::Faint,
        Anchor::Middle,
        x,
        y,
        format!(in alloc; "{frames}")?,
    )?;
    push_words(
        shapes,
        Paint::Faint,
        Anchor::Middle,
        x,
        y.saturating_add(14),
        time_words(alloc, frames)?,
    )
}

/// The time scale of so many columns of so many link frames each.
pub(crate) fn push_time_scale(
    shapes: &mut Items<Shape>,
    alloc: Global,
    y: u32,
    bottom: u32,
    per: u64,
    columns: usize,
) -> Result<(), AllocError>
    requires { columns ≤ 540 }
{
    let step = round_step(per.saturating_mul(columns as u64));
    for times in 0..MOST_STEPS + 1 {
        let frames = step.saturating_mul(times);
        let column = frames / per.max(1);
        if column <= columns as u64 {
            let x = place_of(column as usize, columns);
            push_moment(shapes, alloc, x, y, bottom, frames)?;
        }
    }
    Ok(())
}
