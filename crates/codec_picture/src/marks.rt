//! What was found for pins, marked at their boxes.
ghost use Rattle.std.specs.Prelude.{◌≡◌, ◌≤◌, ◌++◌, OnOk, IfOk, string_bytes};
ghost use Rattle.codec_picture.specs.Codecs as codecs;
ghost use Rattle.codec_picture.specs.Columns.{IsDrawable};
ghost use Rattle.codec_picture.specs.Repeats.{numbered};
ghost use Rattle.codec_picture.specs.Texts as texts;

use crate::boxes::push_words;
use crate::columns::{BOX_HEIGHT, BOX_WIDTH, corner_of};
use codec_graph::RawCodec;
use hda_items::Items;
use route_planner::{Outcome, PinPlan};
use std::alloc::{AllocError, Global};
use svg_text::{Anchor, Lettering, Paint, Point, Shape};

/// How wide the mark of a route is at its pin.
const MARK: u32 = 6;

/// The words for the pair of channels that a pin plays.
fn pair_text(alloc: Global, pair: u8) -> Result<String, AllocError>
    ensures { IfOk result (λ text. string_bytes text ≡ texts.pair_text pair) }
{
    format!(in alloc; "pair {pair}")
}

/// The words at the upper right of a box.
fn push_mark_words(shapes: &mut Items<Shape>, corner: Point, text: String) -> Result<(), AllocError>
    requires right { corner.x ≤ 1000 }
    requires down { corner.y ≤ 1100000 }
    ensures { OnOk result (shapes.new ≡ shapes.old ++ codecs.mark_words corner (string_bytes text)) }
{
    let at = Point {
        x: corner.x + 194,
        y: corner.y + 14,
    };
    push_words(shapes, Paint::Ink, Anchor::End, at, text)
}

/// The mark of a route of this number.
fn push_routed(
    shapes: &mut Items<Shape>,
    corner: Point,
    number: usize,
    pair: u8,
) -> Result<(), AllocError>
    requires right { corner.x ≤ 1000 }
    requires down { corner.y ≤ 1100000 }
    ensures { OnOk result (shapes.new ≡ shapes.old ++ codecs.routed_mark corner number pair) }
{
    shapes.push(Shape::Rect {
        paint: Paint::Route((number % 8) as u8),
        at: corner,
        width: MARK,
        height: BOX_HEIGHT,
    })?;
    let text = pair_text(shapes.allocator(), pair)?;
    push_mark_words(shapes, corner, text)
}

/// The mark of a pin without a route.
fn push_unrouted(
    shapes: &mut Items<Shape>,
    corner: Point,
    paint: Paint,
    word: &str,
    hint: &str,
) -> Result<(), AllocError>
    requires right { corner.x ≤ 1000 }
    requires down { corner.y ≤ 1100000 }
    ensures { OnOk result (shapes.new ≡ shapes.old ++ codecs.unrouted_mark corner paint word.now hint.now) }
{
    let alloc = shapes.allocator();
    let text = Lettering::of(alloc, hint)?;
    shapes.push(Shape::Hint {
        paint,
        at: corner,
        width: BOX_WIDTH,
        height: BOX_HEIGHT,
        text,
    })?;
    push_mark_words(shapes, corner, String::from_str(alloc, word)?)
}

/// The mark of a pin.
fn push_mark(
    shapes: &mut Items<Shape>,
    codec: &RawCodec,
    top: u32,
    number: usize,
    entry: &PinPlan,
) -> Result<(), AllocError>
    requires { IsDrawable codec.now top }
    ensures { OnOk result (shapes.new ≡ shapes.old ++ codecs.mark_of codec.now top number entry.now) }
{
    let corner = corner_of(codec, top, entry.pin);
    match &entry.outcome {
        Outcome::Route(_) => push_routed(shapes, corner, number, entry.pair),
        Outcome::Blocked => push_unrouted(
            shapes,
            corner,
            Paint::Blocked,
            "blocked",
            "blocked: routes of pins before it take each of its paths",
        ),
        Outcome::NoPath => push_unrouted(
            shapes,
            corner,
            Paint::Pathless,
            "no path",
            "no path: none of its paths can carry the sound",
        ),
    }
}

/// The marks of all pins.
pub(crate) fn push_marks(
    shapes: &mut Items<Shape>,
    codec: &RawCodec,
    top: u32,
    pins: &[PinPlan],
) -> Result<(), AllocError>
    requires { IsDrawable codec.now top }
    ensures { OnOk result (shapes.new ≡ shapes.old ++ numbered (codecs.mark_of codec.now top) 0 pins.now) }
{
    for number in 0..pins.len() {
        push_mark(shapes, codec, top, number, &pins[number])?;
    }
    Ok(())
}
