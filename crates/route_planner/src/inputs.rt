//! The plan of a graph for an input.
ghost use Rattle.std.specs.Prelude.{◌≡◌, ◌+◌, ◌&&◌, true, IfOk, MatchOption};
ghost use Rattle.std.specs.Option.{option_to_list};
ghost use Rattle.codec_graph.specs.Widget.{node_identifiers};
ghost use Rattle.route_planner.specs.FoundInputs as found;
ghost use Rattle.route_planner.specs.Inputs as inputs;
ghost use Rattle.route_planner.specs.Search as spec;

use crate::allowed::is_begin;
use crate::direction::Direction;
use crate::left::lefts_of;
use crate::levels::{nearest_level, pin_levels};
use crate::routes::{Outcome, PinPlan, Plan, Route};
use crate::walk::{Way, walk};
use codec_graph::{
    Graph, NODE_IDENTIFIERS, RawCodec, RawNode, UNCONNECTED, bits_of, comes_before, has_bit,
};
use hda_items::Items;
use std::alloc::{AllocError, Global};
use stream_format::Format;

/// The default device of a line in: Line In (HDA 1.0a, 7.3.3.31).
const LINE_IN_DEVICE: u32 = 0x8;

/// The default device of a microphone: Mic In (HDA 1.0a, 7.3.3.31).
const MIC_IN_DEVICE: u32 = 0xA;

/// The bit of the pin capabilities that says that it can take an input (HDA 1.0a, 7.3.4.9).
const INPUT_CAPABLE: u32 = 5;

/// The plan of a graph for an input in a stream format: the first candidate pin, a line in or a microphone of two
/// analog channels, that has an admissible path, and the least one: by the number of hops, then by the converter's node
/// identifier, then by the indexes in order. The hops lead from the converter to the pin, the pair is 0, and the plan
/// has no entry where no candidate has such a path. This project's own.
///
/// # Errors
/// Want of memory.
pub fn input_plan(alloc: Global, graph: &Graph, format: Format) -> Result<Plan, AllocError>
    ensures plan { IfOk result (inputs.IsInputPlan graph.now format) }
    ensures only { IfOk result (inputs.IsOnlyInputPlan graph.now format) }
{
    let first = first_input(alloc, graph.raw(), format)?;
    plan_of(alloc, first)
}

/// The plan that has this entry, or none.
fn plan_of(alloc: Global, first: Option<PinPlan>) -> Result<Plan, AllocError>
    ensures { IfOk result (λ plan. plan.pins ≡ option_to_list first) }
{
    let mut pins = Items::new(alloc);
    if let Some(entry) = first {
        pins.push(entry)?;
    }
    Ok(Plan { pins })
}

/// The entry of the first candidate pin that has an admissible path.
fn first_input(
    alloc: Global,
    codec: &RawCodec,
    format: Format,
) -> Result<Option<PinPlan>, AllocError>
    requires { spec.IsBounded codec.now }
    ensures { IfOk result (found.IsFirstBelow codec.now format node_identifiers) }
{
    let mut first = None;
    for pin in 0..NODE_IDENTIFIERS as u8 {
        first = first_with(alloc, codec, format, first, pin)?;
    }
    Ok(first)
}

/// The first of the entry so far and that of one more pin, if this is a candidate with an admissible path.
fn first_with(
    alloc: Global,
    codec: &RawCodec,
    format: Format,
    first: Option<PinPlan>,
    pin: u8,
) -> Result<Option<PinPlan>, AllocError>
    requires bounded { spec.IsBounded codec.now }
    requires below { found.IsFirstBelow codec.now format pin first }
    ensures { IfOk result (found.IsFirstBelow codec.now format (pin + 1)) }
{
    if !can_be_first(codec, pin, &first) {
        return Ok(first);
    }
    let found = least_input(alloc, codec, format, pin)?;
    Ok(entry_or(pin, found, first))
}

/// The entry of a pin with its path, and the entry so far where none was found.
fn entry_or(pin: u8, found: Option<Route>, first: Option<PinPlan>) -> Option<PinPlan>
    ensures { MatchOption found
        (result ≡ first)
        (λ route. result ≡ Some record { pin = pin; pair = 0; outcome = Outcome.Route route }) }
{
    match found {
        Some(route) => Some(PinPlan {
            pin,
            pair: 0,
            outcome: Outcome::Route(route),
        }),
        None => first,
    }
}

/// Whether the widget is a line in or a microphone of two analog channels that is connected to something and has an
/// association.
fn is_candidate(node: &RawNode) -> bool
    ensures { result ≡ inputs.is_input_candidate_node node.now }
{
    let connectivity = bits_of(node.default, 30, 2);
    let device = bits_of(node.default, 20, 4);
    node.is_pin()
        && node.is_stereo()
        && !node.is_digital()
        && has_bit(node.pin_caps, INPUT_CAPABLE)
        && connectivity != UNCONNECTED
        && (device == LINE_IN_DEVICE || device == MIC_IN_DEVICE)
        && node.association() != 0
}

/// Whether the widget with this node identifier is a candidate pin of an input.
fn is_candidate_at(codec: &RawCodec, nid: u8) -> bool
    ensures { result ≡ inputs.is_input_candidate codec.now nid }
{
    match codec.node(nid) {
        Some(node) => is_candidate(node),
        None => false,
    }
}

/// Whether the pin is a candidate that comes before the one so far.
fn can_be_first(codec: &RawCodec, pin: u8, first: &Option<PinPlan>) -> bool
    ensures { result ≡ (inputs.is_input_candidate codec.now pin && found.is_earlier codec.now pin first.now) }
{
    is_candidate_at(codec, pin) && is_earlier(codec, pin, first)
}

/// Whether the pin comes before that of the entry so far, if there is one.
fn is_earlier(codec: &RawCodec, pin: u8, first: &Option<PinPlan>) -> bool
    ensures { result ≡ found.is_earlier codec.now pin first.now }
{
    match first {
        Some(entry) => comes_before(codec, pin, entry.pin),
        None => true,
    }
}

/// The least admissible path of a candidate pin.
fn least_input(
    alloc: Global,
    codec: &RawCodec,
    format: Format,
    pin: u8,
) -> Result<Option<Route>, AllocError>
    requires bounded { spec.IsBounded codec.now }
    requires candidate { inputs.is_input_candidate codec.now pin ≡ true }
    ensures { IfOk result (found.IsFoundInput codec.now format pin) }
{
    let mut least = None;
    for converter in 0..NODE_IDENTIFIERS as u8 {
        least = least_with(alloc, codec, format, pin, least, converter)?;
    }
    Ok(least)
}

/// The least of the path so far and the least from one more node.
fn least_with(
    alloc: Global,
    codec: &RawCodec,
    format: Format,
    pin: u8,
    least: Option<Route>,
    converter: u8,
) -> Result<Option<Route>, AllocError>
    requires bounded { spec.IsBounded codec.now }
    requires candidate { inputs.is_input_candidate codec.now pin ≡ true }
    requires below { found.IsFoundBelow codec.now format pin converter least }
    ensures { IfOk result (found.IsFoundBelow codec.now format pin (converter + 1)) }
{
    let Some(route) = least_from(alloc, codec, format, pin, converter)? else {
        return Ok(least);
    };
    if is_shorter(&route, &least) {
        Ok(Some(route))
    } else {
        Ok(least)
    }
}

/// Whether the path has fewer hops than the one so far, if there is one.
fn is_shorter(route: &Route, least: &Option<Route>) -> bool
    ensures { result ≡ found.is_shorter route.now least.now }
{
    match least {
        Some(other) => route.hops.len() < other.hops.len(),
        None => true,
    }
}

/// The least admissible path of a candidate pin that begins at a node.
fn least_from(
    alloc: Global,
    codec: &RawCodec,
    format: Format,
    pin: u8,
    converter: u8,
) -> Result<Option<Route>, AllocError>
    requires bounded { spec.IsBounded codec.now }
    requires candidate { inputs.is_input_candidate codec.now pin ≡ true }
    ensures { IfOk result (found.IsFoundFrom codec.now format pin converter) }
{
    if !is_begin(codec, format, converter) {
        return Ok(None);
    }
    let lefts = lefts_of(&[]);
    let mut levels = pin_levels(pin);
    let Some(level) = nearest_level(Direction::In, codec, &lefts, &mut levels, converter) else {
        return Ok(None);
    };
    let Way { hops, end: _ } = walk(
        alloc,
        Direction::In,
        codec,
        &lefts,
        &levels,
        converter,
        level,
    )?;
    Ok(Some(Route { hops, converter }))
}
