//! How many hops lead from each node to an end: a converter, or the pin of an input.
ghost use Rattle.std.specs.Prelude.{◌≡◌, ◌≢◌, ◌&&◌, ◌<◌, ◌≤◌, ◌+◌, ℕ, Bool, MatchOption, length};
ghost use Rattle.std.specs.Bool.{OnTrue, OnFalse};
ghost use Rattle.route_planner.specs.Search as spec;
ghost use Rattle.route_planner.specs.Levels as stage;
ghost use Rattle.route_planner.specs.Ways as ways;

use crate::allowed::{can_leave, is_end, is_inner};
use crate::direction::Direction;
use crate::left::Left;
use crate::routes::PinPlan;
use codec_graph::{NODE_IDENTIFIERS, PinKind, RawCodec};
use stream_format::Format;

/// The level of a node from which no way is known.
pub(crate) const FAR: u16 = u16::MAX;

/// A connection of a node: its index and the node to which it leads.
#[derive(Clone, Copy, Debug)]
pub(crate) struct Step {
    pub(crate) index: u8,
    pub(crate) to: u8,
}

/// The level of the node.
fn level_of(levels: &[u16; 256], nid: u8) -> u16
    ensures { result ≡ spec.level_of levels.now nid }
{
    levels[usize::from(nid)]
}

/// Level 0 for each converter at which a route of the kind may end, and no level for the other nodes.
pub(crate) fn end_levels(
    kind: PinKind,
    codec: &RawCodec,
    format: Format,
    earlier: &[PinPlan],
    pair: u8,
) -> [u16; 256]
    requires { spec.IsBounded codec.now }
    ensures { stage.AreEndLevels (spec.is_end kind codec.now format earlier.now pair) result }
{
    let mut levels = [FAR; 256];
    for nid in 0..NODE_IDENTIFIERS as u8 {
        if is_end(kind, codec, format, earlier, pair, nid) {
            levels[usize::from(nid)] = 0;
        }
    }
    levels
}

/// Level 0 for the one node at which the paths of an input end, and no level for the other nodes.
pub(crate) fn pin_levels(pin: u8) -> [u16; 256]
    ensures { stage.AreEndLevels (spec.is_pin_end pin) result }
{
    let mut levels = [FAR; 256];
    levels[usize::from(pin)] = 0;
    levels
}

/// The first connection of the node that may be taken and leads to a node of the level.
pub(crate) fn first_step(
    direction: Direction,
    codec: &RawCodec,
    lefts: &[Left; 256],
    levels: &[u16; 256],
    nid: u8,
    level: u16,
) -> Option<Step>
    requires { spec.IsBounded codec.now }
    ensures { MatchOption result
        (stage.LeadsNowhere (spec.target direction codec.now lefts.now nid) levels.now level)
        (stage.IsFirstStep (spec.target direction codec.now lefts.now nid) levels.now level) }
{
    let node = codec.node(nid)?;
    let left = lefts[usize::from(nid)];
    for (index, to) in node.list.as_slice().iter().enumerate() {
        if level_of(levels, *to) == level && can_leave(direction, codec, left, index, node) {
            return Some(Step {
                index: index as u8,
                to: *to,
            });
        }
    }
    None
}

/// Whether the node is a mixer or selector that has no level and leads to a node of the level.
fn is_next(
    direction: Direction,
    codec: &RawCodec,
    lefts: &[Left; 256],
    levels: &[u16; 256],
    nid: u8,
    level: u16,
) -> bool
    requires { spec.IsBounded codec.now }
    ensures yes { OnTrue result
        (stage.IsNext (spec.is_inner_at codec.now) (spec.target direction codec.now lefts.now) levels.now level nid) }
    ensures no { OnFalse result
        (stage.IsNext (spec.is_inner_at codec.now) (spec.target direction codec.now lefts.now) levels.now level nid
        → ⊥) }
{
    level_of(levels, nid) == FAR
        && is_inner(codec, nid)
        && first_step(direction, codec, lefts, levels, nid, level).is_some()
}

/// Gives the next level to each mixer or selector that has none and leads to a node of the level. Whether there is one.
fn mark_level(
    direction: Direction,
    codec: &RawCodec,
    lefts: &[Left; 256],
    levels: &mut [u16; 256],
    level: u16,
) -> bool
    requires bounded { spec.IsBounded codec.now }
    requires near { level < 65534 }
    ensures marked { stage.IsNextLevel (spec.is_inner_at codec.now) (spec.target direction codec.now lefts.now)
        levels.old
        levels.new level }
    ensures fewer { OnTrue result (spec.count_far levels.new < spec.count_far levels.old) }
    ensures same { OnFalse result (levels.new ≡ levels.old) }
{
    let mut marked = false;
    for nid in 0..NODE_IDENTIFIERS as u8 {
        if is_next(direction, codec, lefts, levels, nid, level) {
            levels[usize::from(nid)] = level + 1;
            marked = true;
        }
    }
    marked
}

/// Gives the nodes their levels until a connection of the node leads to one with a level, which is then the least that
/// any leads to. None where no way leads from the node to an end.
pub(crate) fn nearest_level(
    direction: Direction,
    codec: &RawCodec,
    lefts: &[Left; 256],
    levels: &mut [u16; 256],
    from: u8,
) -> Option<u16>
    requires { spec.IsBounded codec.now }
    ensures { (end : ℕ → Bool) → stage.AreEndLevels end levels.old
        → MatchOption result
        (ways.LeadsToNoEnd (spec.is_inner_at codec.now) (spec.target direction codec.now lefts.now) end from)
        (ways.IsNearest (spec.is_inner_at codec.now) (spec.target direction codec.now lefts.now) end levels.new from) }
{
    let mut level = 0;
    loop {
        if first_step(direction, codec, lefts, levels, from, level).is_some() {
            return Some(level);
        }
        if !mark_level(direction, codec, lefts, levels, level) {
            return None;
        }
        level += 1;
    }
}
