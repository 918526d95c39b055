//! The least way from a node to an end, by the levels of the nodes.
ghost use Rattle.std.specs.Prelude.{IfOk};
ghost use Rattle.route_planner.specs.Search as spec;
ghost use Rattle.route_planner.specs.Ways as ways;

use crate::direction::Direction;
use crate::left::Left;
use crate::levels::first_step;
use crate::routes::Hop;
use codec_graph::RawCodec;
use hda_items::Items;
use std::alloc::{AllocError, Global};

/// A way along allowed connections: the hops, and the node to which they lead.
#[derive(Debug, Drop)]
pub(crate) struct Way {
    pub(crate) hops: Items<Hop>,
    pub(crate) end: u8,
}

/// The way from the node that always takes the first connection to a node nearer by one.
pub(crate) fn walk(
    alloc: Global,
    direction: Direction,
    codec: &RawCodec,
    lefts: &[Left; 256],
    levels: &[u16; 256],
    start: u8,
    level: u16,
) -> Result<Way, AllocError>
    requires bounded { spec.IsBounded codec.now }
    requires nearest { ways.IsNearest (spec.is_inner_at codec.now) (spec.target direction codec.now lefts.now)
        (ways.has_level_0 levels.now) levels.now start level }
    ensures { IfOk result (ways.IsLeastWay (spec.is_inner_at codec.now) (spec.target direction codec.now lefts.now)
        (ways.has_level_0 levels.now) start) }
{
    let mut hops = Items::new(alloc);
    let mut from = start;
    let mut level = level;
    loop {
        let Some(step) = first_step(direction, codec, lefts, levels, from, level) else {
            unreachable!();
        };
        hops.push(Hop {
            nid: from,
            index: step.index,
        })?;
        if level == 0 {
            return Ok(Way { hops, end: step.to });
        }
        from = step.to;
        level -= 1;
    }
}
