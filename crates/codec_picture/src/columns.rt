//! Where the boxes of widgets lie: converters at the left, then mixers, selectors and pins, and in each column by their
//! node identifiers.
ghost use Rattle.std.specs.Prelude.{◌≡◌, ◌≤◌, length, IfOk};
ghost use Rattle.codec_picture.specs.Columns as columns;

use codec_graph::{RawCodec, RawNode};
use hda_items::Items;
use std::alloc::{AllocError, Global};
use svg_text::{Paint, Point, Shape};

/// The width of a picture in pixels.
pub(crate) const WIDTH: u32 = 1_200;
/// How wide a box is, and how high.
pub(crate) const BOX_WIDTH: u32 = 200;

pub(crate) const BOX_HEIGHT: u32 = 34;
/// How far a column is from the next one, and a row.
pub(crate) const COLUMN: u32 = 320;

pub(crate) const ROW: u32 = 44;
/// How far the first column is from the edge.
pub(crate) const MARGIN: u32 = 20;
/// How high the words above the boxes of a codec are, and what is left below these.
pub(crate) const HEAD: u32 = 56;

pub(crate) const FOOT: u32 = 24;
/// How far a line between boxes of one column goes out.
pub(crate) const BEND: u32 = 40;

/// The column of a widget: 1 for a mixer, 2 for a selector, 3 for a pin, and else 0.
fn column_of(node: &RawNode) -> u32
    ensures value { result ≡ columns.column_of node.now }
    ensures few { result ≤ 3 }
{
    if node.is_mixer() {
        1
    } else if node.is_selector() {
        2
    } else if node.is_pin() {
        3
    } else {
        0
    }
}

/// The column of the widget with this node identifier.
fn column_at(codec: &RawCodec, nid: u8) -> u32
    ensures value { result ≡ columns.column_at codec.now nid }
    ensures few { result ≤ 3 }
{
    match codec.node(nid) {
        Some(node) => column_of(node),
        None => 0,
    }
}

/// How many of some widgets stand in a column.
fn count_in(column: u32, nodes: &[RawNode]) -> usize
    ensures value { result ≡ columns.count_in column nodes.now }
    ensures few { result ≤ length nodes.now }
{
    nodes
        .iter()
        .filter(|node| column_of(node) == column)
        .count()
}

/// How many widgets of its column have a lesser node identifier than this one.
fn rank_at(codec: &RawCodec, nid: u8) -> usize
    ensures value { result ≡ columns.rank_at codec.now nid }
    ensures few { result ≤ length codec.now.nodes }
{
    let nodes = codec.nodes.as_slice();
    let before = usize::from(nid.saturating_sub(codec.first)).min(nodes.len());
    count_in(column_at(codec, nid), &nodes[..before])
}

/// How many widgets stand in the longest column.
fn rows_of(codec: &RawCodec) -> usize
    ensures value { result ≡ columns.rows_of codec.now }
    ensures few { result ≤ length codec.now.nodes }
{
    let nodes = codec.nodes.as_slice();
    let left = count_in(0, nodes).max(count_in(1, nodes));
    left.max(count_in(2, nodes).max(count_in(3, nodes)))
}

/// How high the part of a codec is, in pixels.
pub(crate) fn height_of(codec: &RawCodec) -> u32
    requires { length codec.now.nodes ≤ 128 }
    ensures value { result ≡ columns.height_of codec.now }
    ensures few { result ≤ 6000 }
{
    HEAD + ROW * rows_of(codec) as u32 + FOOT
}

/// The upper left corner of a widget's box, where the part of its codec begins so far down.
pub(crate) fn corner_of(codec: &RawCodec, top: u32, nid: u8) -> Point
    requires { columns.IsDrawable codec.now top }
    ensures value { result ≡ columns.corner_of codec.now top nid }
    ensures right { result.x ≤ 1000 }
    ensures down { result.y ≤ 1100000 }
{
    Point {
        x: MARGIN + COLUMN * column_at(codec, nid),
        y: top + HEAD + ROW * rank_at(codec, nid) as u32,
    }
}

/// Where a line to another widget's box leaves that of a widget, so far below its upper edge: on its left side where
/// the other one stands further left, and else on its right side.
fn side_of(codec: &RawCodec, top: u32, nid: u8, other: u8, lane: u32) -> Point
    requires drawable { columns.IsDrawable codec.now top }
    requires inside { lane ≤ BOX_HEIGHT }
    ensures value { result ≡ columns.side_of codec.now top nid other lane }
    ensures right { result.x ≤ 1200 }
    ensures down { result.y ≤ 1200000 }
{
    let corner = corner_of(codec, top, nid);
    let width = if column_at(codec, other) < column_at(codec, nid) {
        0
    } else {
        BOX_WIDTH
    };
    Point {
        x: corner.x + width,
        y: corner.y + lane,
    }
}

/// A line between the boxes of two widgets. Between boxes of one column it goes round those that stand between them.
///
/// # Errors
/// Want of memory.
pub(crate) fn link_of(
    alloc: Global,
    paint: Paint,
    codec: &RawCodec,
    top: u32,
    from: u8,
    to: u8,
    lane: u32,
) -> Result<Shape, AllocError>
    requires drawable { columns.IsDrawable codec.now top }
    requires inside { lane ≤ BOX_HEIGHT }
    ensures { IfOk result (λ shape. shape ≡ columns.link_of paint codec.now top from to lane) }
{
    let start = side_of(codec, top, from, to, lane);
    let end = side_of(codec, top, to, from, lane);
    if column_at(codec, from) != column_at(codec, to) {
        return Ok(Shape::Line {
            paint,
            from: start,
            to: end,
        });
    }
    let bend = Point {
        x: start.x + BEND,
        y: (start.y + end.y) / 2,
    };
    Ok(Shape::Trail {
        paint,
        points: Items::from_slice(alloc, &[start, bend, end])?,
    })
}
