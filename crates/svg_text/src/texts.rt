//! The texts of shapes. Each call here appends to a text.
ghost use Rattle.std.specs.Prelude.{◌≡◌, ◌++◌, OnOk};
ghost use Rattle.std.specs.List.{flat_map};
ghost use Rattle.svg_text.specs.Escapes as escape;
ghost use Rattle.svg_text.specs.Shapes as text;

use crate::shapes::{Anchor, Paint, Point, Shape};
use sound_report::{push_number, push_word};
use std::alloc::AllocError;

/// A byte of a text, as it stands in an element.
fn push_escaped_byte(out: &mut Vec<u8>, byte: u8) -> Result<(), AllocError>
    ensures { OnOk result (out.new.items ≡ out.old.items ++ escape.byte_text byte) }
{
    match byte {
        b'<' => push_word(out, "&lt;"),
        b'>' => push_word(out, "&gt;"),
        b'&' => push_word(out, "&amp;"),
        b'"' => push_word(out, "&quot;"),
        b' '..=b'~' => Ok(out.push(byte)?),
        _ => push_word(out, "?"),
    }
}

/// A text, as it stands in an element.
fn push_escaped(out: &mut Vec<u8>, words: &[u8]) -> Result<(), AllocError>
    ensures { OnOk result (out.new.items ≡ out.old.items ++ escape.escaped words.now) }
{
    for byte in words {
        push_escaped_byte(out, *byte)?;
    }
    Ok(())
}

/// An attribute that is a word.
fn push_attribute(out: &mut Vec<u8>, name: &str, value: &str) -> Result<(), AllocError>
    ensures { OnOk result (out.new.items ≡ out.old.items ++ text.attribute name.now value.now) }
{
    push_word(out, " ")?;
    push_word(out, name)?;
    push_word(out, "=\"")?;
    push_word(out, value)?;
    push_word(out, "\"")
}

/// An attribute that is a number.
pub(crate) fn push_count(out: &mut Vec<u8>, name: &str, value: u32) -> Result<(), AllocError>
    ensures { OnOk result (out.new.items ≡ out.old.items ++ text.count name.now value) }
{
    push_word(out, " ")?;
    push_word(out, name)?;
    push_word(out, "=\"")?;
    push_number(out, value.into())?;
    push_word(out, "\"")
}

/// The class of a route of a number.
fn push_route_class(out: &mut Vec<u8>, number: u8) -> Result<(), AllocError>
    ensures { OnOk result (out.new.items ≡ out.old.items ++ text.route_class number) }
{
    push_word(out, "route")?;
    push_number(out, u64::from(number % 8))
}

/// The class of a paint.
fn push_class(out: &mut Vec<u8>, paint: Paint) -> Result<(), AllocError>
    ensures { OnOk result (out.new.items ≡ out.old.items ++ text.class_of paint) }
{
    match paint {
        Paint::Route(number) => push_route_class(out, number),
        Paint::Ink => push_word(out, "ink"),
        Paint::Faint => push_word(out, "faint"),
        Paint::Box => push_word(out, "box"),
        Paint::Edge => push_word(out, "edge"),
        Paint::Grid => push_word(out, "grid"),
        Paint::Blocked => push_word(out, "blocked"),
        Paint::Pathless => push_word(out, "pathless"),
        Paint::Sent => push_word(out, "sent"),
        Paint::Fetched => push_word(out, "fetched"),
        Paint::Reach => push_word(out, "reach"),
        Paint::Written => push_word(out, "written"),
        Paint::Silence => push_word(out, "silence"),
        Paint::Hole => push_word(out, "hole"),
        Paint::Limit => push_word(out, "limit"),
        Paint::Sound => push_word(out, "sound"),
        Paint::Quiet => push_word(out, "quiet"),
    }
}

/// The word for an anchor.
fn anchor_word(anchor: Anchor) -> &'static str
    ensures { result.now ≡ text.anchor_word anchor }
{
    match anchor {
        Anchor::Start => "start",
        Anchor::Middle => "middle",
        Anchor::End => "end",
    }
}

/// The front of an element of a shape, up to its class.
fn push_front(out: &mut Vec<u8>, name: &str, paint: Paint) -> Result<(), AllocError>
    ensures { OnOk result (out.new.items ≡ out.old.items ++ text.front name.now paint) }
{
    push_word(out, "<")?;
    push_word(out, name)?;
    push_word(out, " class=\"")?;
    push_class(out, paint)?;
    push_word(out, "\"")
}

/// The place of a shape.
fn push_place(out: &mut Vec<u8>, at: Point) -> Result<(), AllocError>
    ensures { OnOk result (out.new.items ≡ out.old.items ++ text.place at) }
{
    push_count(out, "x", at.x)?;
    push_count(out, "y", at.y)
}

/// How wide and high a shape is.
pub(crate) fn push_extent(out: &mut Vec<u8>, width: u32, height: u32) -> Result<(), AllocError>
    ensures { OnOk result (out.new.items ≡ out.old.items ++ text.extent width height) }
{
    push_count(out, "width", width)?;
    push_count(out, "height", height)
}

/// The front of a rectangle, but for its end.
fn push_rect(
    out: &mut Vec<u8>,
    paint: Paint,
    at: Point,
    width: u32,
    height: u32,
) -> Result<(), AllocError>
    ensures { OnOk result (out.new.items ≡ out.old.items ++ text.rect_front paint at width height) }
{
    push_front(out, "rect", paint)?;
    push_place(out, at)?;
    push_extent(out, width, height)
}

/// A line.
fn push_line(out: &mut Vec<u8>, paint: Paint, from: Point, to: Point) -> Result<(), AllocError>
    ensures { OnOk result (out.new.items ≡ out.old.items ++ text.line_text paint from to) }
{
    push_front(out, "line", paint)?;
    push_count(out, "x1", from.x)?;
    push_count(out, "y1", from.y)?;
    push_count(out, "x2", to.x)?;
    push_count(out, "y2", to.y)?;
    push_word(out, "/>\n")
}

/// A point among others.
fn push_point(out: &mut Vec<u8>, point: Point) -> Result<(), AllocError>
    ensures { OnOk result (out.new.items ≡ out.old.items ++ text.point_text point) }
{
    push_number(out, point.x.into())?;
    push_word(out, ",")?;
    push_number(out, point.y.into())?;
    push_word(out, " ")
}

/// Points.
fn push_points(out: &mut Vec<u8>, points: &[Point]) -> Result<(), AllocError>
    ensures { OnOk result (out.new.items ≡ out.old.items ++ flat_map text.point_text points.now) }
{
    for point in points {
        push_point(out, *point)?;
    }
    Ok(())
}

/// An element that goes along points.
fn push_along(
    out: &mut Vec<u8>,
    name: &str,
    paint: Paint,
    points: &[Point],
) -> Result<(), AllocError>
    ensures { OnOk result (out.new.items ≡ out.old.items ++ text.along_text name.now paint points.now) }
{
    push_front(out, name, paint)?;
    push_word(out, " points=\"")?;
    push_points(out, points)?;
    push_word(out, "\"/>\n")
}

/// A text at a place.
fn push_text(
    out: &mut Vec<u8>,
    paint: Paint,
    anchor: Anchor,
    at: Point,
    words: &str,
) -> Result<(), AllocError>
    ensures { OnOk result (out.new.items ≡ out.old.items ++ text.words_text paint anchor at words.now) }
{
    push_front(out, "text", paint)?;
    push_attribute(out, "text-anchor", anchor_word(anchor))?;
    push_place(out, at)?;
    push_word(out, ">")?;
    push_escaped(out, words.as_bytes())?;
    push_word(out, "</text>\n")
}

/// A title in an element.
pub(crate) fn push_title(out: &mut Vec<u8>, words: &str) -> Result<(), AllocError>
    ensures { OnOk result (out.new.items ≡ out.old.items ++ text.title_text words.now) }
{
    push_word(out, "<title>")?;
    push_escaped(out, words.as_bytes())?;
    push_word(out, "</title>")
}

/// The end of a rectangle with a text that shows under the pointer.
fn push_hint_end(out: &mut Vec<u8>, words: &str) -> Result<(), AllocError>
    ensures { OnOk result (out.new.items ≡ out.old.items ++ text.hint_end words.now) }
{
    push_word(out, ">")?;
    push_title(out, words)?;
    push_word(out, "</rect>\n")
}

/// Appends the element of a shape.
///
/// # Errors
/// Want of memory.
pub(crate) fn push_shape(out: &mut Vec<u8>, shape: &Shape) -> Result<(), AllocError>
    ensures { OnOk result (out.new.items ≡ out.old.items ++ text.shape_text shape.now) }
{
    match shape {
        Shape::Rect {
            paint,
            at,
            width,
            height,
        } => {
            push_rect(out, *paint, *at, *width, *height)?;
            push_word(out, "/>\n")
        }
        Shape::Line { paint, from, to } => push_line(out, *paint, *from, *to),
        Shape::Trail { paint, points } => push_along(out, "polyline", *paint, points.as_slice()),
        Shape::Area { paint, points } => push_along(out, "polygon", *paint, points.as_slice()),
        Shape::Text {
            paint,
            anchor,
            at,
            text,
        } => push_text(out, *paint, *anchor, *at, text.as_str()),
        Shape::Hint {
            paint,
            at,
            width,
            height,
            text,
        } => {
            push_rect(out, *paint, *at, *width, *height)?;
            push_hint_end(out, text.as_str())
        }
    }
}
