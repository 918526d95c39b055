//! The verbs of a codec for an input.
ghost use Rattle.std.specs.Prelude.{◌≡◌, ◌≤◌, All, IfOk};
ghost use Rattle.setup_verbs.specs.SetUp.{IsCommandOf};
ghost use Rattle.input_verbs.specs.InputVerbs.{input_verbs};
ghost use Rattle.input_verbs.specs.OpenInputs.{IsInputPlanOrNone, LeadToOpenIn};

use crate::roles::roles_of;
use crate::steps::send_step;
use codec_graph::Graph;
use route_planner::Plan;
use setup_verbs::{Step, send_if};
use std::alloc::{AllocError, Global};
use stream_format::Format;
use verb_codes::{Command, Verb};

/// The verbs that set the codec up for an input that gives the stream with this tag, 1 to 15, in this format: for the
/// plan of its graph for an input, or for one without an entry, where nothing is recorded from the codec. First the
/// function group and the nodes of the route are powered, then pins off the route are silenced, then converters off the
/// route are released from their streams, and last the nodes of the route are opened; in each step nodes ascend. This
/// project's own.
///
/// # Errors
/// Want of memory.
pub fn verbs(
    alloc: Global,
    graph: &Graph,
    plan: &Plan,
    format: Format,
    tag: u8,
) -> Result<Vec<Command>, AllocError>
    requires plan { IsInputPlanOrNone graph.now format plan.now }
    requires some { 1 ≤ tag }
    requires few { tag ≤ 15 }
    ensures list { IfOk result (λ commands. commands.items ≡ input_verbs graph.now plan.now format tag) }
    ensures opens { IfOk result (λ commands. LeadToOpenIn graph.now plan.now format tag commands.items) }
    ensures encodable { IfOk result (λ commands. All (IsCommandOf graph.now) commands.items) }
{
    let codec = graph.raw();
    let roles = roles_of(plan.pins.as_slice());
    let mut commands = Vec::new(alloc);
    send_if(&mut commands, codec, codec.group, true, Verb::SetPower(0))?;
    send_step(&mut commands, codec, &roles, format, tag, Step::Power)?;
    send_step(&mut commands, codec, &roles, format, tag, Step::Silence)?;
    send_step(&mut commands, codec, &roles, format, tag, Step::Release)?;
    send_step(&mut commands, codec, &roles, format, tag, Step::Route)?;
    Ok(commands)
}
