//! The set-up verbs of a codec for each kind of pins.
ghost use Rattle.std.specs.Prelude.{◌≡◌, ◌≤◌, All, IfOk};
ghost use Rattle.route_planner.specs.Plans.{IsPlan, IsPlanAs};
ghost use Rattle.setup_verbs.specs.VerbList.{setup_verbs, setup_verbs_as};
ghost use Rattle.setup_verbs.specs.SetUp.{IsCommandOf, LeadToHearing, LeadToSetUp};

use crate::roles::roles_of;
use crate::sending::send_if;
use crate::steps::{Step, send_step};
use codec_graph::Graph;
use route_planner::{PinKind, Plan};
use std::alloc::{AllocError, Global};
use stream_format::Format;
use verb_codes::{Command, Verb};

/// The verbs that set the codec up for the plan of its graph, while the stream with this tag, 1 to 15, and format
/// plays. First the function group and the nodes of routes are powered, then pins without a route are silenced, then
/// converters on no route are released from their streams, and last the nodes of the routes are opened; in each step
/// nodes ascend. This project's own.
///
/// # Errors
/// Want of memory.
pub fn verbs(
    alloc: Global,
    graph: &Graph,
    plan: &Plan,
    format: Format,
    tag: u8,
) -> Result<Vec<Command>, AllocError>
    requires plan { IsPlan graph.now format plan.now }
    requires some { 1 ≤ tag }
    requires few { tag ≤ 15 }
    ensures list { IfOk result (λ commands. commands.items ≡ setup_verbs graph.now plan.now format tag) }
    ensures set_up { IfOk result (λ commands. LeadToSetUp graph.now plan.now format tag commands.items) }
    ensures encodable { IfOk result (λ commands. All (IsCommandOf graph.now) commands.items) }
{
    // The graph keeps that it is well-formed.
    let _codec = graph.raw();
    verbs_as(alloc, PinKind::Analog, graph, plan, format, tag)
}

/// The same for the plan of the graph for a kind of pins. To digital pins and what leads to them other verbs go in the
/// last step: the converters of their routes have their digital output enabled (HDA 1.0a, 7.3.3.9).
///
/// # Errors
/// Want of memory.
pub fn verbs_as(
    alloc: Global,
    kind: PinKind,
    graph: &Graph,
    plan: &Plan,
    format: Format,
    tag: u8,
) -> Result<Vec<Command>, AllocError>
    requires plan { IsPlanAs kind graph.now format plan.now }
    requires some { 1 ≤ tag }
    requires few { tag ≤ 15 }
    ensures list { IfOk result (λ commands. commands.items ≡ setup_verbs_as kind graph.now plan.now format tag) }
    ensures set_up { IfOk result (λ commands. LeadToHearing kind graph.now plan.now format tag commands.items) }
    ensures encodable { IfOk result (λ commands. All (IsCommandOf graph.now) commands.items) }
{
    let codec = graph.raw();
    let roles = roles_of(plan.pins.as_slice());
    let mut commands = Vec::new(alloc);
    send_if(&mut commands, codec, codec.group, true, Verb::SetPower(0))?;
    send_step(
        &mut commands,
        kind,
        codec,
        plan,
        &roles,
        format,
        tag,
        Step::Power,
    )?;
    send_step(
        &mut commands,
        kind,
        codec,
        plan,
        &roles,
        format,
        tag,
        Step::Silence,
    )?;
    send_step(
        &mut commands,
        kind,
        codec,
        plan,
        &roles,
        format,
        tag,
        Step::Release,
    )?;
    send_step(
        &mut commands,
        kind,
        codec,
        plan,
        &roles,
        format,
        tag,
        Step::Route,
    )?;
    Ok(commands)
}
