//! The verbs of the nodes of the route.
ghost use Rattle.std.specs.Prelude.{◌≡◌, ◌≤◌, ◌<◌, ◌&&◌, ◌++◌, true, length, OnOk};
ghost use Rattle.codec_graph.specs.Widget as widget;
ghost use Rattle.setup_verbs.specs.VerbList.{commands_to};
ghost use Rattle.input_verbs.specs.InputVerbs as spec;

use codec_graph::{RawCodec, RawNode};
use setup_verbs::{open_mixer, open_output, pass_input, send_if};
use std::alloc::AllocError;
use stream_format::Format;
use verb_codes::{Command, PinControl, Verb};

/// A converter, mixer or selector that the route leaves by the connection at this index.
///
/// # Errors
/// Want of memory.
pub(crate) fn open_passed(
    commands: &mut Vec<Command>,
    codec: &RawCodec,
    format: Format,
    tag: u8,
    nid: u8,
    node: &RawNode,
    index: u8,
) -> Result<(), AllocError>
    requires tag { tag ≤ 15 }
    requires inputs { widget.is_mixer node.now ≡ true → length node.now.list ≤ 16 }
    requires selected { (spec.selects_input node.now && widget.has_input_amplifier node.now) ≡ true → index < 16 }
    ensures { OnOk result (commands.new.items
        ≡ commands.old.items ++ commands_to codec.now nid
        (spec.input_passed_verbs codec.now format tag node.now index)) }
{
    open_mixer(commands, codec, nid, node, index)?;
    open_choice(commands, codec, nid, node, index)?;
    open_stream(commands, codec, format, tag, nid, node)?;
    open_selected(commands, codec, nid, node, index)?;
    open_output(commands, codec, nid, node)
}

/// Whether the widget is an audio input converter.
fn is_input_converter(node: &RawNode) -> bool
    ensures { result ≡ widget.is_input_converter node.now }
{
    node.is_converter() && !node.is_output_converter()
}

/// Whether the widget has one of its connections selected on the way in.
fn selects_input(node: &RawNode) -> bool
    ensures { result ≡ spec.selects_input node.now }
{
    node.is_selector() || is_input_converter(node)
}

/// A selector or converter that has a choice selects the connection at the index.
fn open_choice(
    commands: &mut Vec<Command>,
    codec: &RawCodec,
    nid: u8,
    node: &RawNode,
    index: u8,
) -> Result<(), AllocError>
    ensures { OnOk result (commands.new.items
        ≡ commands.old.items ++ commands_to codec.now nid (spec.input_select_verbs node.now index)) }
{
    let selects = selects_input(node) && node.list.len() >= 2;
    send_if(commands, codec, nid, selects, Verb::SetSelect(index))
}

/// The converter gives its stream in the format, from the first channel on.
fn open_stream(
    commands: &mut Vec<Command>,
    codec: &RawCodec,
    format: Format,
    tag: u8,
    nid: u8,
    node: &RawNode,
) -> Result<(), AllocError>
    requires { tag ≤ 15 }
    ensures { OnOk result (commands.new.items
        ≡ commands.old.items ++ commands_to codec.now nid (spec.input_stream_verbs format tag node.now)) }
{
    if is_input_converter(node) {
        send_if(commands, codec, nid, true, Verb::SetFormat(format.word()))?;
        return send_if(commands, codec, nid, true, Verb::SetStream(tag * 16));
    }
    Ok(())
}

/// The input of a selector or converter at the index passes.
fn open_selected(
    commands: &mut Vec<Command>,
    codec: &RawCodec,
    nid: u8,
    node: &RawNode,
    index: u8,
) -> Result<(), AllocError>
    requires { (spec.selects_input node.now && widget.has_input_amplifier node.now) ≡ true → index < 16 }
    ensures { OnOk result (commands.new.items
        ≡ commands.old.items ++ commands_to codec.now nid (spec.selected_verbs codec.now node.now index)) }
{
    if selects_input(node) && node.has_input_amplifier() {
        let verb = pass_input(codec.input_amplifier_word(node), index);
        return send_if(commands, codec, nid, true, verb);
    }
    Ok(())
}

/// The first input of the pin passes, and its input is enabled.
///
/// # Errors
/// Want of memory.
pub(crate) fn open_pin(
    commands: &mut Vec<Command>,
    codec: &RawCodec,
    nid: u8,
    node: &RawNode,
) -> Result<(), AllocError>
    ensures { OnOk result (commands.new.items
        ≡ commands.old.items ++ commands_to codec.now nid (spec.input_pin_verbs codec.now node.now)) }
{
    let verb = pass_input(codec.input_amplifier_word(node), 0);
    send_if(commands, codec, nid, node.has_input_amplifier(), verb)?;
    let control = PinControl::INPUT.0;
    send_if(commands, codec, nid, node.is_pin(), Verb::SetPin(control))?;
    open_output(commands, codec, nid, node)
}
