//! The whole picture of codecs.
ghost use Rattle.std.specs.Prelude.{◌≡◌, ◌≤◌, ◌++◌, OnOk, IfOk, length, string_bytes, slice_get};
ghost use Rattle.codec_picture.specs.Codecs as codecs;
ghost use Rattle.codec_picture.specs.Columns.{IsDrawable};
ghost use Rattle.codec_picture.specs.Texts as texts;
ghost use Rattle.codec_picture.specs.Wholes as wholes;

use crate::boxes::{push_all_names, push_boxes, push_word_digits, push_words};
use crate::columns::{FOOT, MARGIN, WIDTH, height_of};
use crate::marks::push_marks;
use crate::routes::{push_all_connections, push_routes};
use codec_graph::RawCodec;
use hda_files::CodecFile;
use hda_items::Items;
use route_planner::{PinPlan, Plan};
use std::alloc::{AllocError, Global};
use svg_text::{Anchor, Lettering, Paint, Picture, Point, Shape};

/// How far down the part of the first codec begins.
const FIRST_TOP: u32 = 64;

/// The words above a codec.
fn heading_of(alloc: Global, codec: &RawCodec) -> Result<String, AllocError>
    ensures { IfOk result (λ text. string_bytes text ≡ texts.heading_of codec.now) }
{
    let mut text = format!(in alloc; "Codec {}, vendor ", codec.address)?;
    push_word_digits(&mut text, codec.vendor)?;
    Ok(text)
}

/// The word above a column, and the words above a codec.
fn push_head(shapes: &mut Items<Shape>, codec: &RawCodec, top: u32) -> Result<(), AllocError>
    requires { IsDrawable codec.now top }
    ensures { OnOk result (shapes.new ≡ shapes.old ++ codecs.head_of codec.now top) }
{
    let alloc = shapes.allocator();
    let at = Point {
        x: MARGIN,
        y: top + 16,
    };
    push_words(
        shapes,
        Paint::Ink,
        Anchor::Start,
        at,
        heading_of(alloc, codec)?,
    )?;
    push_column(shapes, top, 0, "Converters and others")?;
    push_column(shapes, top, 1, "Mixers")?;
    push_column(shapes, top, 2, "Selectors")?;
    push_column(shapes, top, 3, "Pins")
}

/// The word above a column.
fn push_column(
    shapes: &mut Items<Shape>,
    top: u32,
    column: u32,
    word: &str,
) -> Result<(), AllocError>
    requires down { top ≤ 1000000 }
    requires few { column ≤ 3 }
    ensures { OnOk result (shapes.new ≡ shapes.old ++ codecs.column_head top column word.now) }
{
    let at = Point {
        x: MARGIN + 320 * column,
        y: top + 42,
    };
    let text = String::from_str(shapes.allocator(), word)?;
    push_words(shapes, Paint::Faint, Anchor::Start, at, text)
}

/// The part of a codec.
fn push_codec(
    shapes: &mut Items<Shape>,
    codec: &RawCodec,
    top: u32,
    pins: &[PinPlan],
) -> Result<(), AllocError>
    requires { IsDrawable codec.now top }
    ensures { OnOk result (shapes.new ≡ shapes.old ++ codecs.codec_shapes codec.now top pins.now) }
{
    push_head(shapes, codec, top)?;
    push_all_connections(shapes, codec, top)?;
    push_boxes(shapes, codec, top)?;
    push_marks(shapes, codec, top, pins)?;
    push_routes(shapes, codec, top, pins)?;
    push_all_names(shapes, codec, top)
}

/// The pins of the plan at a place.
fn pins_at(plans: &[Plan], place: usize) -> &[PinPlan]
    ensures { result.now ≡ wholes.pins_in (slice_get plans.now place) }
{
    match plans.get(place) {
        Some(plan) => plan.pins.as_slice(),
        None => &[],
    }
}

/// The parts of codecs below one another, and how far down they end.
fn push_codecs(
    shapes: &mut Items<Shape>,
    codecs: &[CodecFile],
    plans: &[Plan],
) -> Result<u32, AllocError>
    requires { length codecs.now ≤ 15 }
    ensures shapes { OnOk result (shapes.new ≡ shapes.old ++ wholes.codecs_shapes codecs.now plans.now) }
    ensures end { IfOk result (λ end. end ≡ wholes.top_of codecs.now (length codecs.now)) }
    ensures down { IfOk result (λ end. end ≤ 1000000) }
{
    let mut top = FIRST_TOP;
    for place in 0..codecs.len() {
        let codec = codecs[place].graph.raw();
        push_codec(shapes, codec, top, pins_at(plans, place))?;
        top += height_of(codec);
    }
    Ok(top)
}

/// The picture of codecs with their plans, in pixels: for each codec, one below the other, a box for each widget in the
/// column of its type, a line for each connection, the hops of each route in its colour, and each pin that was planned
/// marked by what was found for it. The plan at a codec's place is its own. This project's own.
///
/// # Errors
/// Want of memory.
pub fn codec_picture(
    alloc: Global,
    codecs: &[CodecFile],
    plans: &[Plan],
) -> Result<Picture, AllocError>
    requires { length codecs.now ≤ 15 }
    ensures { IfOk result (λ picture. picture ≡ wholes.codec_picture codecs.now plans.now) }
{
    let mut shapes = Items::new(alloc);
    let at = Point { x: MARGIN, y: 28 };
    let words = String::from_str(
        alloc,
        "Each route has a colour. Grey lines are connections.",
    )?;
    push_words(&mut shapes, Paint::Faint, Anchor::Start, at, words)?;
    let end = push_codecs(&mut shapes, codecs, plans)?;
    Ok(Picture {
        width: WIDTH,
        height: end + FOOT,
        title: Lettering::of(alloc, "Widgets and routes")?,
        shapes,
    })
}
