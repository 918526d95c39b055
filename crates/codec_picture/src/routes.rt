//! The connections of a codec as lines, and its routes over them.
ghost use Rattle.std.specs.Prelude.{◌≡◌, ◌≤◌, ◌++◌, OnOk, option_copied};
ghost use Rattle.std.specs.List.{flat_map};
ghost use Rattle.codec_picture.specs.Codecs as codecs;
ghost use Rattle.codec_picture.specs.Columns.{IsDrawable};
ghost use Rattle.codec_picture.specs.Repeats.{each, numbered};
ghost use Rattle.route_planner.specs.Paths.{connection};

use crate::columns::{BOX_HEIGHT, link_of};
use codec_graph::RawCodec;
use hda_items::Items;
use route_planner::{Hop, Outcome, PinPlan};
use std::alloc::AllocError;
use svg_text::{Paint, Shape};

/// The lines of a widget's connections.
fn push_connections(
    shapes: &mut Items<Shape>,
    codec: &RawCodec,
    top: u32,
    nid: u8,
) -> Result<(), AllocError>
    requires { IsDrawable codec.now top }
    ensures { OnOk result (shapes.new ≡ shapes.old ++ codecs.connections codec.now top nid) }
{
    match codec.node(nid) {
        Some(node) => push_listed(shapes, codec, top, nid, node.list.as_slice()),
        None => Ok(()),
    }
}

/// The lines of the connections to these nodes.
fn push_listed(
    shapes: &mut Items<Shape>,
    codec: &RawCodec,
    top: u32,
    nid: u8,
    list: &[u8],
) -> Result<(), AllocError>
    requires { IsDrawable codec.now top }
    ensures { OnOk result (shapes.new ≡ shapes.old ++ flat_map (codecs.connection_line codec.now top nid) list.now) }
{
    for from in list {
        push_connection(shapes, codec, top, nid, *from)?;
    }
    Ok(())
}

/// The line of a connection.
fn push_connection(
    shapes: &mut Items<Shape>,
    codec: &RawCodec,
    top: u32,
    nid: u8,
    from: u8,
) -> Result<(), AllocError>
    requires { IsDrawable codec.now top }
    ensures { OnOk result (shapes.new ≡ shapes.old ++ codecs.connection_line codec.now top nid from) }
{
    let line = link_of(
        shapes.allocator(),
        Paint::Edge,
        codec,
        top,
        from,
        nid,
        BOX_HEIGHT / 2,
    )?;
    Ok(shapes.push(line)?)
}

/// The lines of all connections.
pub(crate) fn push_all_connections(
    shapes: &mut Items<Shape>,
    codec: &RawCodec,
    top: u32,
) -> Result<(), AllocError>
    requires { IsDrawable codec.now top }
    ensures { OnOk result (shapes.new ≡ shapes.old
        ++ each (codecs.connections_at codec.now top) codec.now.count) }
{
    for place in 0..codec.count {
        push_connections(shapes, codec, top, codec.first + place)?;
    }
    Ok(())
}

/// The node to which a hop leads.
fn next_node(codec: &RawCodec, hop: Hop) -> Option<u8>
    ensures { result ≡ connection codec.now hop.nid hop.index }
{
    let node = codec.node(hop.nid)?;
    node.list.as_slice().get(usize::from(hop.index)).copied()
}

/// The line of a hop of the route of this number.
fn push_hop(
    shapes: &mut Items<Shape>,
    codec: &RawCodec,
    top: u32,
    number: usize,
    hop: Hop,
) -> Result<(), AllocError>
    requires { IsDrawable codec.now top }
    ensures { OnOk result (shapes.new ≡ shapes.old ++ codecs.hop_line codec.now top number hop) }
{
    let Some(next) = next_node(codec, hop) else {
        return Ok(());
    };
    let colour = (number % 8) as u8;
    let lane = 3 + 4 * u32::from(colour);
    let line = link_of(
        shapes.allocator(),
        Paint::Route(colour),
        codec,
        top,
        next,
        hop.nid,
        lane,
    )?;
    Ok(shapes.push(line)?)
}

/// The lines of hops.
fn push_hops(
    shapes: &mut Items<Shape>,
    codec: &RawCodec,
    top: u32,
    number: usize,
    hops: &[Hop],
) -> Result<(), AllocError>
    requires { IsDrawable codec.now top }
    ensures { OnOk result (shapes.new ≡ shapes.old ++ flat_map (codecs.hop_line codec.now top number) hops.now) }
{
    for hop in hops {
        push_hop(shapes, codec, top, number, *hop)?;
    }
    Ok(())
}

/// The lines of the route of a pin, where it has one.
fn push_route(
    shapes: &mut Items<Shape>,
    codec: &RawCodec,
    top: u32,
    number: usize,
    entry: &PinPlan,
) -> Result<(), AllocError>
    requires { IsDrawable codec.now top }
    ensures { OnOk result (shapes.new ≡ shapes.old ++ codecs.route_lines codec.now top number entry.now) }
{
    match &entry.outcome {
        Outcome::Route(route) => push_hops(shapes, codec, top, number, route.hops.as_slice()),
        Outcome::Blocked | Outcome::NoPath => Ok(()),
    }
}

/// The lines of all routes, which are numbered by their pins.
pub(crate) fn push_routes(
    shapes: &mut Items<Shape>,
    codec: &RawCodec,
    top: u32,
    pins: &[PinPlan],
) -> Result<(), AllocError>
    requires { IsDrawable codec.now top }
    ensures { OnOk result (shapes.new ≡ shapes.old ++ numbered (codecs.route_lines codec.now top) 0 pins.now) }
{
    for number in 0..pins.len() {
        push_route(shapes, codec, top, number, &pins[number])?;
    }
    Ok(())
}
