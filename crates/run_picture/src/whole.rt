//! The whole picture of a run.
ghost use Rattle.std.specs.Prelude.{◌≡◌, ◌≤◌, ◌<◌, ◌++◌, [], length, OnOk, IfOk, true, not, fold};
ghost use Rattle.std.specs.List.{list_any};
ghost use Rattle.run_picture.specs.Charts.{chart_empty, chart_noted};
ghost use Rattle.run_picture.specs.Moments.{moments};
ghost use Rattle.run_picture.specs.Panels.{ahead_panel, held_panel, limit_ticks};
ghost use Rattle.run_picture.specs.Pictures as spec;

use crate::bands::{band_base, band_count, push_bands};
use crate::charts::Chart;
use crate::columns::Column;
use crate::ends::{end_words, format_words};
use crate::lettering::{
    push_bytes_scale, push_fixed, push_legend, push_ticks_scale, push_time_scale, push_words,
};
use crate::meter::Meter;
use crate::moments::note_moments;
use crate::panels::{
    AHEAD_BASE, AHEAD_HEIGHT, GAP_BASE, GAP_HEIGHT, HELD_BASE, HELD_HEIGHT, HOLE_BASE, LINE_BASE,
    LINE_HEIGHT, SILENCE_BASE, limit_ticks, most_gap, most_held, most_line, push_gap_panel,
    push_least_panel, push_line_panel,
};
use crate::scales::{Series, greatest, measure_for};
use crate::series::LEFT;
use crate::windows::{Window, no_extent, window_of};
use hda_items::Items;
use sound_report::{PlayFault, Played};
use std::alloc::{AllocError, Global};
use svg_text::{Anchor, Lettering, Paint, Picture, Shape};

/// The width of a picture.
const PICTURE_WIDTH: u32 = 1200;
/// The height of one of a run in which nothing was played.
const PLAIN_HEIGHT: u32 = 120;
/// How many shapes stand behind what is drawn at most.
const MOST_BEHIND: usize = 240;
/// How many bytes the words of one have at most.
const MOST_WORDS: usize = 160;

/// How many ticks a run took that was too late, 0 where none was.
fn late_ticks(fault: &Option<PlayFault>) -> u32
    ensures { result ≡ spec.late_ticks fault.now }
{
    match fault {
        Some(PlayFault::Late { from, to, .. }) => to.wrapping_sub(*from),
        _ => 0,
    }
}

/// Whether a shape may stand behind what is drawn: few words, a straight line or a rectangle.
fn is_behind(shape: &Shape) -> bool
    ensures { result ≡ spec.is_behind shape.now }
{
    match shape {
        Shape::Text { text, .. } => text.as_str().len() <= MOST_WORDS,
        Shape::Line { .. } | Shape::Rect { .. } => true,
        Shape::Trail { .. } | Shape::Area { .. } | Shape::Hint { .. } => false,
    }
}

/// Whether some of these shapes may not.
fn some_before(shapes: &[Shape]) -> bool
    ensures { result ≡ list_any (λ shape. not (spec.is_behind shape)) shapes.now }
{
    shapes.iter().any(|shape| !is_behind(shape))
}

/// Whether all of these shapes may, and are few.
fn are_behind(shapes: &[Shape]) -> bool
    ensures { result ≡ spec.are_behind shapes.now }
{
    shapes.len() <= MOST_BEHIND && !some_before(shapes)
}

/// Leaves shapes out that may not stand behind what is drawn.
fn keep_behind(shapes: &mut Items<Shape>)
    ensures { spec.are_behind shapes.new ≡ true }
{
    if !are_behind(shapes.as_slice()) {
        shapes.clear();
    }
}

/// How the run ended, and its format and sizes.
fn push_head(
    shapes: &mut Items<Shape>,
    alloc: Global,
    played: &Played,
    meter: &Meter,
) -> Result<(), AllocError> {
    push_words(
        shapes,
        Paint::Ink,
        Anchor::Start,
        16,
        24,
        end_words(alloc, played)?,
    )?;
    let format = format_words(alloc, played.format)?;
    let runs = played.runs.len();
    let fifo = played.machine.fifo;
    let words = format!(in alloc;
        "{format}; ring {} bytes, FIFO {fifo} bytes, {runs} runs",
        meter.ring
    )?;
    push_words(shapes, Paint::Faint, Anchor::Start, 16, 44, words)
}

/// The legend of the panel of the line.
fn push_line_legend(shapes: &mut Items<Shape>, alloc: Global) -> Result<(), AllocError> {
    push_legend(shapes, alloc, Paint::Sent, LEFT, 76, "sent on the link (L)")?;
    push_legend(
        shapes,
        alloc,
        Paint::Fetched,
        LEFT + 160,
        76,
        "fetched into the FIFO (X)",
    )?;
    push_legend(
        shapes,
        alloc,
        Paint::Reach,
        LEFT + 350,
        76,
        "end of the line (reach)",
    )?;
    push_legend(
        shapes,
        alloc,
        Paint::Written,
        LEFT + 530,
        76,
        "written by the last run",
    )?;
    push_legend(
        shapes,
        alloc,
        Paint::Silence,
        LEFT + 710,
        76,
        "silence sent",
    )?;
    push_legend(
        shapes,
        alloc,
        Paint::Hole,
        LEFT + 830,
        76,
        "hole: too little in the FIFO",
    )
}

/// What stands behind the panel of the line.
fn push_behind_line(
    shapes: &mut Items<Shape>,
    alloc: Global,
    columns: &[Column],
) -> Result<(), AllocError> {
    let most = most_line(columns);
    push_line_legend(shapes, alloc)?;
    push_bytes_scale(
        shapes,
        alloc,
        most,
        measure_for(most, LINE_HEIGHT, LINE_BASE),
    )?;
    push_fixed(shapes, alloc, Paint::Faint, 16, SILENCE_BASE - 1, "silence")?;
    push_fixed(shapes, alloc, Paint::Faint, 16, HOLE_BASE - 1, "holes")?;
    push_fixed(
        shapes,
        alloc,
        Paint::Faint,
        16,
        HOLE_BASE + 20,
        "link frames",
    )?;
    push_fixed(shapes, alloc, Paint::Faint, 16, HOLE_BASE + 34, "time")
}

/// What stands behind the panels of what was written and not sent, and of the FIFO.
fn push_behind_ahead(
    shapes: &mut Items<Shape>,
    alloc: Global,
    columns: &[Column],
    fifo: u16,
) -> Result<(), AllocError> {
    let ahead = greatest(columns, Series::Ahead);
    let held = most_held(columns, fifo);
    let y = AHEAD_BASE - AHEAD_HEIGHT - 14;
    push_fixed(shapes, alloc, Paint::Ink, 16, y, "reach - L")?;
    push_legend(
        shapes,
        alloc,
        Paint::Reach,
        LEFT,
        y,
        "written and not sent yet: the least and the last value",
    )?;
    push_bytes_scale(
        shapes,
        alloc,
        ahead,
        measure_for(ahead, AHEAD_HEIGHT, AHEAD_BASE),
    )?;
    let y = HELD_BASE - HELD_HEIGHT - 14;
    push_fixed(shapes, alloc, Paint::Ink, 16, y, "X - L")?;
    push_legend(
        shapes,
        alloc,
        Paint::Fetched,
        LEFT,
        y,
        "in the FIFO: the least and the last value",
    )?;
    push_bytes_scale(
        shapes,
        alloc,
        held,
        measure_for(held, HELD_HEIGHT, HELD_BASE),
    )
}

/// What stands behind the panel of the runs.
fn push_behind_gap(
    shapes: &mut Items<Shape>,
    alloc: Global,
    columns: &[Column],
    limit: u64,
) -> Result<(), AllocError> {
    let most = most_gap(columns, limit);
    let y = GAP_BASE - GAP_HEIGHT - 14;
    push_fixed(shapes, alloc, Paint::Ink, 16, y, "Runs")?;
    push_legend(
        shapes,
        alloc,
        Paint::Sent,
        LEFT,
        y,
        "from a run's first clock to the next one's last",
    )?;
    push_legend(
        shapes,
        alloc,
        Paint::Limit,
        LEFT + 350,
        y,
        "the limit: a run is late above it",
    )?;
    push_ticks_scale(shapes, alloc, most, measure_for(most, GAP_HEIGHT, GAP_BASE))
}

/// The name of the band of the pin at a place.
fn push_pin_name(
    shapes: &mut Items<Shape>,
    alloc: Global,
    played: &Played,
    place: usize,
) -> Result<(), AllocError>
    requires there { place < length played.now.heard }
    requires drawn { place < 16 }
{
    let (codec, pin) = played.heard.head(place);
    let words = format!(in alloc; "codec {codec} pin {pin:02x}")?;
    push_words(
        shapes,
        Paint::Ink,
        Anchor::Start,
        16,
        band_base(place) - 5,
        words,
    )
}

/// What stands behind the bands of pins.
fn push_behind_bands(
    shapes: &mut Items<Shape>,
    alloc: Global,
    played: &Played,
) -> Result<(), AllocError> {
    let y = GAP_BASE + 30;
    push_fixed(shapes, alloc, Paint::Ink, 16, y, "Pins heard")?;
    push_legend(shapes, alloc, Paint::Sound, LEFT, y, "sound")?;
    push_legend(shapes, alloc, Paint::Quiet, LEFT + 160, y, "quiet")?;
    push_legend(shapes, alloc, Paint::Hole, LEFT + 350, y, "hole")?;
    push_legend(shapes, alloc, Paint::Limit, LEFT + 530, y, "altered")?;
    for place in 0..band_count(&played.heard) {
        push_pin_name(shapes, alloc, played, place)?;
    }
    Ok(())
}

/// What stands behind what is drawn of a run that played.
fn push_behind(
    shapes: &mut Items<Shape>,
    alloc: Global,
    played: &Played,
    window: &Window,
    columns: &[Column],
    limit: u64,
) -> Result<(), AllocError>
    requires { length columns.now ≤ 540 }
{
    let bottom = height_of(played) - 16;
    push_time_scale(
        shapes,
        alloc,
        HOLE_BASE + 20,
        bottom,
        window.per,
        columns.len(),
    )?;
    push_behind_line(shapes, alloc, columns)?;
    push_behind_ahead(shapes, alloc, columns, played.machine.fifo)?;
    push_behind_gap(shapes, alloc, columns, limit)?;
    push_behind_bands(shapes, alloc, played)
}

/// The height of the picture of a run that played.
fn height_of(played: &Played) -> u32
    ensures { result ≡ spec.height_of played.now }
{
    match band_count(&played.heard) {
        0 => band_base(0),
        count => band_base(count - 1) + 30,
    }
}

/// The panels of what was written and not sent, and of the FIFO.
fn push_ahead_panels(
    shapes: &mut Items<Shape>,
    alloc: Global,
    columns: &[Column],
    fifo: u16,
) -> Result<(), AllocError>
    requires { length columns.now ≤ 540 }
    ensures { OnOk result (shapes.new ≡ shapes.old ++ (ahead_panel columns.now ++ held_panel fifo columns.now)) }
{
    let ahead = measure_for(greatest(columns, Series::Ahead), AHEAD_HEIGHT, AHEAD_BASE);
    push_least_panel(
        shapes,
        alloc,
        columns,
        Series::LeastAhead,
        Series::Ahead,
        ahead,
        Paint::Reach,
    )?;
    let held = measure_for(most_held(columns, fifo), HELD_HEIGHT, HELD_BASE);
    push_least_panel(
        shapes,
        alloc,
        columns,
        Series::LeastHeld,
        Series::Held,
        held,
        Paint::Fetched,
    )
}

/// What is drawn of a run that played.
fn push_drawn(
    shapes: &mut Items<Shape>,
    alloc: Global,
    played: &Played,
    columns: &[Column],
    limit: u64,
) -> Result<(), AllocError>
    requires { length columns.now ≤ 540 }
    ensures { OnOk result (shapes.new ≡ shapes.old ++ spec.drawn_in columns.now limit played.now) }
{
    push_line_panel(shapes, alloc, columns, played.silences.as_slice())?;
    push_ahead_panels(shapes, alloc, columns, played.machine.fifo)?;
    push_gap_panel(shapes, alloc, columns, limit)?;
    push_bands(shapes, alloc, columns, &played.heard)?;
    Ok(())
}

/// The picture of a run in which nothing was played: words alone.
fn plain_picture(alloc: Global, played: &Played, meter: &Meter) -> Result<Picture, AllocError>
    ensures { IfOk result (λ picture. spec.IsPicture PLAIN_HEIGHT [] picture) }
{
    let mut shapes = Items::new(alloc);
    push_head(&mut shapes, alloc, played, meter)?;
    let time = meter.time;
    let words = format!(in alloc; "Nothing was played; {time} link frames passed since the reset")?;
    push_words(&mut shapes, Paint::Ink, Anchor::Start, 16, 76, words)?;
    keep_behind(&mut shapes);
    Ok(Picture {
        width: PICTURE_WIDTH,
        height: PLAIN_HEIGHT,
        title: Lettering::new(end_words(alloc, played)?),
        shapes,
    })
}

/// The picture of a run that played in these columns.
fn played_picture(
    alloc: Global,
    played: &Played,
    meter: &Meter,
    window: Window,
) -> Result<Picture, AllocError>
    ensures { IfOk result (λ picture. spec.IsPicture (spec.height_of played.now)
        (spec.drawn_in (fold chart_noted (chart_empty window.first window.per window.columns played.now.runs
        (spec.late_ticks played.now.fault)) (moments played.now.format played.now.machine.fifo
        played.now.journal.entries)).columns
        (limit_ticks played.now.format meter.now.ring played.now.machine.fifo) played.now) picture) }
{
    let entries = played.journal.entries();
    let fifo = played.machine.fifo;
    let late = late_ticks(&played.fault);
    let mut chart = Chart::new(alloc, window, played.runs.as_slice(), late)?;
    let _meter = note_moments(&mut chart, played.format, fifo, entries);
    let limit = limit_ticks(played.format, meter.ring, fifo);
    let mut shapes = Items::new(alloc);
    push_head(&mut shapes, alloc, played, meter)?;
    push_behind(&mut shapes, alloc, played, &window, chart.columns(), limit)?;
    keep_behind(&mut shapes);
    push_drawn(&mut shapes, alloc, played, chart.columns(), limit)?;
    Ok(Picture {
        width: PICTURE_WIDTH,
        height: height_of(played),
        title: Lettering::new(end_words(alloc, played)?),
        shapes,
    })
}

/// The picture of a run.
///
/// # Errors
/// Want of memory.
pub fn run_picture(alloc: Global, played: &Played) -> Result<Picture, AllocError>
    ensures { IfOk result (λ picture. spec.IsPictureOf played.now picture) }
{
    let entries = played.journal.entries();
    let mut extent = no_extent();
    let meter = note_moments(&mut extent, played.format, played.machine.fifo, entries);
    if !extent.seen {
        let picture = plain_picture(alloc, played, &meter)?;
        return Ok(picture);
    }
    let window = window_of(extent.first, extent.last);
    let picture = played_picture(alloc, played, &meter, window)?;
    Ok(picture)
}
