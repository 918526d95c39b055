//! The boxes of widgets, and the words in them.
ghost use Rattle.std.specs.Prelude.{◌≡◌, ◌++◌, OnOk, IfOk, string_bytes};
ghost use Rattle.codec_picture.specs.Codecs as codecs;
ghost use Rattle.codec_picture.specs.Columns.{IsDrawable};
ghost use Rattle.codec_picture.specs.Repeats.{each};
ghost use Rattle.codec_picture.specs.Texts as texts;

use crate::columns::{BOX_HEIGHT, BOX_WIDTH, corner_of};
use crate::names::{chassis_word, colour_word, device_word, location_word, widget_word};
use codec_graph::{RawCodec, RawNode, bits_of};
use hda_items::Items;
use sound_report::push_nid;
use std::alloc::{AllocError, Global};
use svg_text::{Anchor, Lettering, Paint, Point, Shape};

/// The name of a widget: its node identifier, and what a pin is or else the widget's type.
fn name_of(alloc: Global, nid: u8, node: &RawNode) -> Result<String, AllocError>
    ensures { IfOk result (λ text. string_bytes text ≡ texts.name_of nid node.now) }
{
    let mut text = String::new(alloc);
    push_nid(&mut text, nid)?;
    text.push_str(" ")?;
    if node.is_pin() {
        text.push_str(device_word(node))?;
    } else {
        text.push_str(widget_word(node))?;
    }
    Ok(text)
}

/// Whether a pin's port leads to no jack and no device (HDA 1.0a, 7.3.3.31).
fn is_unconnected(node: &RawNode) -> bool
    ensures { result ≡ texts.is_unconnected node.now }
{
    bits_of(node.default, 30, 2) == 1
}

/// Where a pin's jack is, and in which colour.
fn jack_text(alloc: Global, node: &RawNode) -> Result<String, AllocError>
    ensures { IfOk result (λ text. string_bytes text ≡ texts.jack_text node.now) }
{
    let mut text = String::from_str(alloc, chassis_word(node))?;
    text.push_str(", ")?;
    text.push_str(location_word(node))?;
    text.push_str(", ")?;
    text.push_str(colour_word(node))?;
    Ok(text)
}

/// What a widget carries.
fn carried(node: &RawNode) -> &'static str
    ensures { result.now ≡ texts.carried node.now }
{
    match (node.is_stereo(), node.is_digital()) {
        (true, false) => "stereo",
        (true, true) => "stereo, digital",
        (false, false) => "mono",
        (false, true) => "mono, digital",
    }
}

/// What else there is to say of a widget.
fn detail_of(alloc: Global, node: &RawNode) -> Result<String, AllocError>
    ensures { IfOk result (λ text. string_bytes text ≡ texts.detail_of node.now) }
{
    if !node.is_pin() {
        String::from_str(alloc, carried(node))
    } else if is_unconnected(node) {
        String::from_str(alloc, "no physical connection")
    } else {
        jack_text(alloc, node)
    }
}

/// Eight digits of a word.
pub(crate) fn push_word_digits(out: &mut String, word: u32) -> Result<(), AllocError>
    ensures { OnOk result (string_bytes out.new ≡ string_bytes out.old ++ texts.digits word) }
{
    out.push_str(hex::encode(*out.allocator(), word.to_be_bytes())?.as_str())
}

/// The words of a widget's type and its capabilities, which show under the pointer.
fn hint_of(alloc: Global, node: &RawNode) -> Result<String, AllocError>
    ensures { IfOk result (λ text. string_bytes text ≡ texts.hint_of node.now) }
{
    let mut text = String::from_str(alloc, widget_word(node))?;
    text.push_str(", capabilities ")?;
    push_word_digits(&mut text, node.caps)?;
    Ok(text)
}

/// The box of a widget.
fn push_box(
    shapes: &mut Items<Shape>,
    codec: &RawCodec,
    top: u32,
    nid: u8,
) -> Result<(), AllocError>
    requires { IsDrawable codec.now top }
    ensures { OnOk result (shapes.new ≡ shapes.old ++ codecs.box_of codec.now top nid) }
{
    let Some(node) = codec.node(nid) else {
        return Ok(());
    };
    let text = Lettering::new(hint_of(shapes.allocator(), node)?);
    Ok(shapes.push(Shape::Hint {
        paint: Paint::Box,
        at: corner_of(codec, top, nid),
        width: BOX_WIDTH,
        height: BOX_HEIGHT,
        text,
    })?)
}

/// The boxes of all widgets.
pub(crate) fn push_boxes(
    shapes: &mut Items<Shape>,
    codec: &RawCodec,
    top: u32,
) -> Result<(), AllocError>
    requires { IsDrawable codec.now top }
    ensures { OnOk result (shapes.new ≡ shapes.old ++ each (codecs.box_at codec.now top) codec.now.count) }
{
    for place in 0..codec.count {
        push_box(shapes, codec, top, codec.first + place)?;
    }
    Ok(())
}

/// Words from a place on.
pub(crate) fn push_words(
    shapes: &mut Items<Shape>,
    paint: Paint,
    anchor: Anchor,
    at: Point,
    text: String,
) -> Result<(), AllocError>
    ensures { OnOk result (shapes.new ≡ shapes.old ++ codecs.words_at paint anchor at (string_bytes text)) }
{
    let text = Lettering::new(text);
    Ok(shapes.push(Shape::Text {
        paint,
        anchor,
        at,
        text,
    })?)
}

/// The words in the box of a widget.
fn push_names(
    shapes: &mut Items<Shape>,
    codec: &RawCodec,
    top: u32,
    nid: u8,
) -> Result<(), AllocError>
    requires { IsDrawable codec.now top }
    ensures { OnOk result (shapes.new ≡ shapes.old ++ codecs.names_of codec.now top nid) }
{
    let Some(node) = codec.node(nid) else {
        return Ok(());
    };
    let alloc = shapes.allocator();
    let corner = corner_of(codec, top, nid);
    let x = corner.x + 12;
    let upper = Point {
        x,
        y: corner.y + 14,
    };
    let lower = Point {
        x,
        y: corner.y + 28,
    };
    push_words(
        shapes,
        Paint::Ink,
        Anchor::Start,
        upper,
        name_of(alloc, nid, node)?,
    )?;
    push_words(
        shapes,
        Paint::Faint,
        Anchor::Start,
        lower,
        detail_of(alloc, node)?,
    )
}

/// The words in all boxes.
pub(crate) fn push_all_names(
    shapes: &mut Items<Shape>,
    codec: &RawCodec,
    top: u32,
) -> Result<(), AllocError>
    requires { IsDrawable codec.now top }
    ensures { OnOk result (shapes.new ≡ shapes.old ++ each (codecs.names_at codec.now top) codec.now.count) }
{
    for place in 0..codec.count {
        push_names(shapes, codec, top, codec.first + place)?;
    }
    Ok(())
}
