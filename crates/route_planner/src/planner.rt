//! The plan of a graph for each kind of pins.
ghost use Rattle.std.specs.Prelude.{◌≡◌, ◌≤◌, IfOk, MatchOption, ◌++◌, [], ◌∷◌};
ghost use Rattle.route_planner.specs.Plans as plans;
ghost use Rattle.route_planner.specs.Found as found;
ghost use Rattle.route_planner.specs.Search as spec;
ghost use Rattle.route_planner.specs.Laws as laws;

use crate::direction::Direction;
use crate::left::lefts_of;
use crate::levels::{end_levels, nearest_level};
use crate::pairs::pair_as;
use crate::routes::{Outcome, PinPlan, Plan, Route};
use crate::walk::{Way, walk};
use codec_graph::{Graph, PinKind, RawCodec, order_as};
use hda_items::Items;
use std::alloc::{AllocError, Global};
use stream_format::Format;

/// The plan of a graph for a stream format: for each candidate pin, in order, the least admissible path that the routes
/// of earlier pins leave open, by the number of hops and then by the indexes in order. This project's own.
///
/// # Errors
/// Want of memory.
pub fn plan(alloc: Global, graph: &Graph, format: Format) -> Result<Plan, AllocError>
    ensures plan { IfOk result (plans.IsPlan graph.now format) }
    ensures admissible { IfOk result (plans.HasAdmissibleRoutes graph.now format) }
    ensures only { IfOk result (laws.IsOnlyPlan graph.now format) }
    ensures unblocked { format.channels ≡ 2 → IfOk result laws.HasNoBlocked }
{
    plan_as(alloc, PinKind::Analog, graph, format)
}

/// The plan of a graph's digital pins for a stream format, as [`plan`] has one of the analog ones: each pin has the
/// first pair of channels, so that none is blocked. This project's own.
///
/// # Errors
/// Want of memory.
pub fn digital_plan(alloc: Global, graph: &Graph, format: Format) -> Result<Plan, AllocError>
    ensures plan { IfOk result (plans.IsDigitalPlan graph.now format) }
    ensures admissible { IfOk result (plans.HasDigitalRoutes graph.now format) }
    ensures only { IfOk result (laws.IsOnlyDigitalPlan graph.now format) }
    ensures unblocked { IfOk result laws.HasNoBlocked }
{
    plan_as(alloc, PinKind::Digital, graph, format)
}

/// The plan of a graph for a kind of pins. Digital pins have the first pair each, and so have the pins of a sound of
/// two channels, so that none of them is blocked; of analog pins and more channels some may be.
///
/// # Errors
/// Want of memory.
pub fn plan_as(
    alloc: Global,
    kind: PinKind,
    graph: &Graph,
    format: Format,
) -> Result<Plan, AllocError>
    ensures plan { IfOk result (plans.IsPlanAs kind graph.now format) }
    ensures admissible { IfOk result (plans.HasAdmissibleRoutesAs kind graph.now format) }
    ensures only { IfOk result (laws.IsOnlyPlanAs kind graph.now format) }
    ensures unblocked { laws.HaveOnePair kind graph.now format.channels → IfOk result laws.HasNoBlocked }
{
    let codec = graph.raw();
    let mut pins = Items::new(alloc);
    let ordered = order_as(alloc, kind, graph)?;
    for pin in &ordered {
        pins.push(pin_plan(alloc, kind, codec, format, pins.as_slice(), *pin)?)?;
    }
    Ok(Plan { pins })
}

/// The plan of a pin after some earlier entries.
fn pin_plan(
    alloc: Global,
    kind: PinKind,
    codec: &RawCodec,
    format: Format,
    earlier: &[PinPlan],
    pin: u8,
) -> Result<PinPlan, AllocError>
    requires { spec.IsBounded codec.now }
    ensures { IfOk result (found.IsEntry kind codec.now format earlier.now pin) }
{
    let pair = pair_as(kind, codec, format.channels, pin);
    let outcome = outcome_of(alloc, kind, codec, format, earlier, pair, pin)?;
    Ok(PinPlan { pin, pair, outcome })
}

/// The outcome of a pin after some earlier entries.
fn outcome_of(
    alloc: Global,
    kind: PinKind,
    codec: &RawCodec,
    format: Format,
    earlier: &[PinPlan],
    pair: u8,
    pin: u8,
) -> Result<Outcome, AllocError>
    requires { spec.IsBounded codec.now }
    ensures { IfOk result (plans.IsOutcomeAs kind codec.now format earlier.now pair pin) }
{
    if let Some(route) = least_open(alloc, kind, codec, format, earlier, pair, pin)? {
        return Ok(Outcome::Route(route));
    }
    match least_open(alloc, kind, codec, format, &[], pair, pin)? {
        Some(_) => Ok(Outcome::Blocked),
        None => Ok(Outcome::NoPath),
    }
}

/// The least admissible path of a pin that the earlier entries leave open.
fn least_open(
    alloc: Global,
    kind: PinKind,
    codec: &RawCodec,
    format: Format,
    earlier: &[PinPlan],
    pair: u8,
    pin: u8,
) -> Result<Option<Route>, AllocError>
    requires { spec.IsBounded codec.now }
    ensures { IfOk result (λ least. MatchOption least
        (found.HasNoOpenPath kind codec.now format earlier.now pair pin)
        (found.IsLeastOpen kind codec.now format earlier.now pair pin)) }
{
    let lefts = lefts_of(earlier);
    let mut levels = end_levels(kind, codec, format, earlier, pair);
    let direction = Direction::Out(kind);
    let Some(level) = nearest_level(direction, codec, &lefts, &mut levels, pin) else {
        return Ok(None);
    };
    let Way { hops, end } = walk(alloc, direction, codec, &lefts, &levels, pin, level)?;
    Ok(Some(Route {
        hops,
        converter: end,
    }))
}
