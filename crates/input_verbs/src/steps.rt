//! The steps of an input's verbs, each over all nodes.
ghost use Rattle.std.specs.Prelude.{◌≡◌, ◌≤◌, ◌++◌, OnOk};
ghost use Rattle.setup_verbs.specs.Roles.{role_in};
ghost use Rattle.setup_verbs.specs.VerbList.{commands_to, step_at_by, step_by};
ghost use Rattle.input_verbs.specs.InputVerbs.{input_release_verbs, input_route_verbs};
ghost use Rattle.input_verbs.specs.InputSteps as spec;

use crate::openings::{open_passed, open_pin};
use codec_graph::{NODE_IDENTIFIERS, RawCodec, RawNode};
use setup_verbs::{Role, Step, power_node, send_if, silence_pin};
use std::alloc::AllocError;
use stream_format::Format;
use verb_codes::{Command, Verb};

/// The commands of a step to all nodes, ascending.
///
/// # Errors
/// Want of memory.
pub(crate) fn send_step(
    commands: &mut Vec<Command>,
    codec: &RawCodec,
    roles: &[Role; 256],
    format: Format,
    tag: u8,
    step: Step,
) -> Result<(), AllocError>
    requires tag { tag ≤ 15 }
    requires fits { spec.FitsInputVerbs codec.now (role_in roles.now) }
    ensures { OnOk result (commands.new.items
        ≡ commands.old.items ++ step_by codec.now (role_in roles.now)
        (spec.input_step_verbs codec.now format tag step)) }
{
    for nid in 0..NODE_IDENTIFIERS as u8 {
        send_at(commands, codec, roles, format, tag, step, nid)?;
    }
    Ok(())
}

/// The commands of a step to one node.
fn send_at(
    commands: &mut Vec<Command>,
    codec: &RawCodec,
    roles: &[Role; 256],
    format: Format,
    tag: u8,
    step: Step,
    nid: u8,
) -> Result<(), AllocError>
    requires tag { tag ≤ 15 }
    requires fits { spec.FitsInputVerbs codec.now (role_in roles.now) }
    ensures { OnOk result (commands.new.items
        ≡ commands.old.items ++ step_at_by codec.now (role_in roles.now)
        (spec.input_step_verbs codec.now format tag step) nid) }
{
    let role = roles[usize::from(nid)];
    match codec.node(nid) {
        Some(node) => send_to_widget(commands, codec, format, tag, step, nid, node, role),
        None => Ok(()),
    }
}

/// The commands of a step to one widget, by what the route makes of it.
fn send_to_widget(
    commands: &mut Vec<Command>,
    codec: &RawCodec,
    format: Format,
    tag: u8,
    step: Step,
    nid: u8,
    node: &RawNode,
    role: Role,
) -> Result<(), AllocError>
    requires tag { tag ≤ 15 }
    requires fits { spec.FitsInput node.now role }
    ensures { OnOk result (commands.new.items
        ≡ commands.old.items ++ commands_to codec.now nid
        (spec.input_step_verbs codec.now format tag step nid node.now role)) }
{
    match step {
        Step::Power => power_node(commands, codec, nid, node, role),
        Step::Silence => silence_pin(commands, codec, nid, node, role),
        Step::Release => release_converter(commands, codec, nid, node, role),
        Step::Route => send_route(commands, codec, format, tag, nid, node, role),
    }
}

/// A converter off the route takes no stream and gives none.
fn release_converter(
    commands: &mut Vec<Command>,
    codec: &RawCodec,
    nid: u8,
    node: &RawNode,
    role: Role,
) -> Result<(), AllocError>
    ensures { OnOk result (commands.new.items
        ≡ commands.old.items ++ commands_to codec.now nid (input_release_verbs node.now role)) }
{
    let applies = !role.is_used() && node.is_converter();
    send_if(commands, codec, nid, applies, Verb::SetStream(0))
}

/// The verbs of a node by what the route makes of it.
fn send_route(
    commands: &mut Vec<Command>,
    codec: &RawCodec,
    format: Format,
    tag: u8,
    nid: u8,
    node: &RawNode,
    role: Role,
) -> Result<(), AllocError>
    requires tag { tag ≤ 15 }
    requires fits { spec.FitsInput node.now role }
    ensures { OnOk result (commands.new.items
        ≡ commands.old.items ++ commands_to codec.now nid (input_route_verbs codec.now format tag node.now role)) }
{
    match role {
        Role::Unused => Ok(()),
        Role::Passed(index) => open_passed(commands, codec, format, tag, nid, node, index),
        Role::Source(_) => open_pin(commands, codec, nid, node),
    }
}
