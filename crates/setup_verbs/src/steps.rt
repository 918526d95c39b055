//! The steps of set-up for a kind of pins, each over all nodes.
ghost use Rattle.std.specs.Prelude.{◌≡◌, ◌≤◌, ◌<◌, ◌&&◌, ◌++◌, ℕ, true, length, OnOk, Some};
ghost use Rattle.codec_graph.specs.Widget as widget;
ghost use Rattle.codec_graph.specs.declared.raw.RawNode.{RawNode};
ghost use Rattle.setup_verbs.specs.Steps as spec;
ghost use Rattle.setup_verbs.specs.VerbList as list;

use crate::openings::{open_passed_as, open_source};
use crate::roles::Role;
use crate::sending::send_if;
use codec_graph::{NODE_IDENTIFIERS, RawCodec, RawNode};
use route_planner::{PinKind, Plan};
use std::alloc::AllocError;
use stream_format::Format;
use verb_codes::{Command, Verb};

/// A step of set-up. This project's own.
#[derive(Clone, Copy, Debug, PartialEq, Eq)]
pub enum Step {
    /// The nodes of routes are powered.
    Power,
    /// Pins off the routes are silenced.
    Silence,
    /// Converters off the routes are released from their streams.
    Release,
    /// The nodes of routes are opened.
    Route,
}

/// The commands of a step to all nodes, ascending.
///
/// # Errors
/// Want of memory.
pub(crate) fn send_step(
    commands: &mut Vec<Command>,
    kind: PinKind,
    codec: &RawCodec,
    plan: &Plan,
    roles: &[Role; 256],
    format: Format,
    tag: u8,
    step: Step,
) -> Result<(), AllocError>
    requires roles { spec.AreRoles plan.now roles.now }
    requires tag { tag ≤ 15 }
    requires fits { spec.FitsVerbs codec.now plan.now }
    ensures { OnOk result (commands.new.items ≡ commands.old.items ++ spec.commands_of kind codec.now plan.now format
        tag
        step) }
{
    for nid in 0..NODE_IDENTIFIERS as u8 {
        send_at(commands, kind, codec, plan, roles, format, tag, step, nid)?;
    }
    Ok(())
}

/// The commands of a step to one node.
fn send_at(
    commands: &mut Vec<Command>,
    kind: PinKind,
    codec: &RawCodec,
    plan: &Plan,
    roles: &[Role; 256],
    format: Format,
    tag: u8,
    step: Step,
    nid: u8,
) -> Result<(), AllocError>
    requires roles { spec.AreRoles plan.now roles.now }
    requires tag { tag ≤ 15 }
    requires fits { spec.FitsVerbs codec.now plan.now }
    ensures { OnOk result (commands.new.items ≡ commands.old.items ++ spec.commands_at kind codec.now plan.now format
        tag
        step nid) }
{
    let role = roles[usize::from(nid)];
    match codec.node(nid) {
        Some(node) => send_to_widget(
            commands, kind, codec, plan, format, tag, step, nid, node, role,
        ),
        None => Ok(()),
    }
}

/// The commands of a step to one widget, by what the routes make of it.
fn send_to_widget(
    commands: &mut Vec<Command>,
    kind: PinKind,
    codec: &RawCodec,
    plan: &Plan,
    format: Format,
    tag: u8,
    step: Step,
    nid: u8,
    node: &RawNode,
    role: Role,
) -> Result<(), AllocError>
    requires tag { tag ≤ 15 }
    requires fits { spec.FitsWidget plan.now node.now role }
    ensures { OnOk result (commands.new.items
        ≡ commands.old.items ++ list.commands_to codec.now nid
        (spec.step_verbs kind codec.now plan.now format tag step nid node.now role)) }
{
    match step {
        Step::Power => power_node(commands, codec, nid, node, role),
        Step::Silence => silence_pin(commands, codec, nid, node, role),
        Step::Release => {
            let applies = !role.is_used() && node.is_output_converter();
            send_if(commands, codec, nid, applies, Verb::SetStream(0))
        }
        Step::Route => send_route(commands, kind, codec, plan, format, tag, nid, node, role),
    }
}

/// A node of a route is put into the power state 0, fully on (HDA 1.0a, 7.3.3.10). This project's own.
///
/// # Errors
/// Want of memory.
pub fn power_node(
    commands: &mut Vec<Command>,
    codec: &RawCodec,
    nid: u8,
    node: &RawNode,
    role: Role,
) -> Result<(), AllocError>
    ensures { OnOk result (commands.new.items
        ≡ commands.old.items ++ list.commands_to codec.now nid (list.power_verbs node.now role)) }
{
    let applies = role.is_used() && node.has_power_control();
    send_if(commands, codec, nid, applies, Verb::SetPower(0))
}

/// A pin off the routes neither drives anything nor takes anything in (HDA 1.0a, 7.3.3.13). This project's own.
///
/// # Errors
/// Want of memory.
pub fn silence_pin(
    commands: &mut Vec<Command>,
    codec: &RawCodec,
    nid: u8,
    node: &RawNode,
    role: Role,
) -> Result<(), AllocError>
    ensures { OnOk result (commands.new.items
        ≡ commands.old.items ++ list.commands_to codec.now nid (list.silence_verbs node.now role)) }
{
    let applies = !role.is_used() && node.is_pin();
    send_if(commands, codec, nid, applies, Verb::SetPin(0))
}

/// The verbs of a node by what the routes make of it.
fn send_route(
    commands: &mut Vec<Command>,
    kind: PinKind,
    codec: &RawCodec,
    plan: &Plan,
    format: Format,
    tag: u8,
    nid: u8,
    node: &RawNode,
    role: Role,
) -> Result<(), AllocError>
    requires tag { tag ≤ 15 }
    requires fits { spec.FitsWidget plan.now node.now role }
    ensures { OnOk result (commands.new.items
        ≡ commands.old.items ++ list.commands_to codec.now nid
        (list.route_verbs kind codec.now plan.now format tag nid node.now role)) }
{
    match role {
        Role::Unused => Ok(()),
        Role::Passed(index) => open_passed_as(commands, kind, codec, plan, nid, node, index),
        Role::Source(pair) => open_source(commands, kind, codec, format, tag, nid, node, pair),
    }
}
