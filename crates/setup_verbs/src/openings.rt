//! The verbs of the nodes of routes.
ghost use Rattle.std.specs.Prelude.{◌≡◌, ◌≤◌, ◌<◌, ◌+◌, ◌*◌, ◌&&◌, ◌++◌, ℕ, true, length, map, OnOk};
ghost use Rattle.std.specs.List.{range_with_len};
ghost use Rattle.codec_graph.specs.Widget as widget;
ghost use Rattle.setup_verbs.specs.Roles.{place_among};
ghost use Rattle.codec_graph.specs.declared.pin_kind.PinKind.TheVariants as pin_kind;
ghost use Rattle.setup_verbs.specs.VerbList as spec;

use crate::roles::Role;
use crate::sending::{mute_input, pass_input, pass_output, send_if};
use bitflags::Flags;
use codec_graph::{RawCodec, RawNode};
use route_planner::{PinKind, PinPlan, Plan, is_headphone};
use std::alloc::AllocError;
use stream_format::Format;
use verb_codes::{Command, PinCapabilities, PinControl, Verb};

/// The control of a pin whose events are told, beside its tag (HDA 1.0a, 7.3.3.14).
const EVENTS_ENABLED: u8 = 0x80;

/// The control of an external amplifier that is on (HDA 1.0a, 7.3.3.16).
const EAPD_ON: u8 = 0x02;

/// The control of a digital converter whose output is enabled and that sets nothing else (HDA 1.0a, 7.3.3.9).
const DIGITAL_ON: u8 = 0x01;

/// The converter of a route takes the stream, from the first channel of the pair on. The output of a digital one is
/// enabled.
///
/// # Errors
/// Want of memory.
pub(crate) fn open_source(
    commands: &mut Vec<Command>,
    kind: PinKind,
    codec: &RawCodec,
    format: Format,
    tag: u8,
    nid: u8,
    node: &RawNode,
    pair: u8,
) -> Result<(), AllocError>
    requires tag { tag ≤ 15 }
    requires pair { pair < 8 }
    ensures { OnOk result (commands.new.items
        ≡ commands.old.items ++ spec.commands_to codec.now nid
        (spec.source_verbs_as kind format tag pair ++ spec.output_verbs codec.now node.now)) }
{
    send_if(commands, codec, nid, true, Verb::SetFormat(format.word()))?;
    send_if(
        commands,
        codec,
        nid,
        true,
        Verb::SetStream(tag * 16 + 2 * pair),
    )?;
    enable_output(commands, kind, codec, nid)?;
    open_output(commands, codec, nid, node)
}

/// The digital output of a converter for digital pins is enabled.
fn enable_output(
    commands: &mut Vec<Command>,
    kind: PinKind,
    codec: &RawCodec,
    nid: u8,
) -> Result<(), AllocError>
    ensures { OnOk result (commands.new.items
        ≡ commands.old.items ++ spec.commands_to codec.now nid (spec.enable_verbs kind)) }
{
    match kind {
        PinKind::Analog => Ok(()),
        PinKind::Digital => send_if(commands, codec, nid, true, Verb::SetDigital(DIGITAL_ON)),
    }
}

/// A node that a route of the kind leaves by the connection at this index.
///
/// # Errors
/// Want of memory.
pub(crate) fn open_passed_as(
    commands: &mut Vec<Command>,
    kind: PinKind,
    codec: &RawCodec,
    plan: &Plan,
    nid: u8,
    node: &RawNode,
    index: u8,
) -> Result<(), AllocError>
    requires pins { length plan.now.pins ≤ 126 }
    requires inputs { widget.is_mixer node.now ≡ true → length node.now.list ≤ 16 }
    requires selected { (widget.is_selector node.now && widget.has_input_amplifier node.now) ≡ true → index < 16 }
    ensures { OnOk result (commands.new.items
        ≡ commands.old.items ++ spec.commands_to codec.now nid
        (spec.passed_verbs_as kind codec.now plan.now nid node.now index)) }
{
    match kind {
        PinKind::Analog => open_passed(commands, codec, plan, nid, node, index),
        PinKind::Digital => open_digital(commands, codec, plan, nid, node, index),
    }
}

/// A digital pin or selector that a route leaves by the connection at this index.
fn open_digital(
    commands: &mut Vec<Command>,
    codec: &RawCodec,
    plan: &Plan,
    nid: u8,
    node: &RawNode,
    index: u8,
) -> Result<(), AllocError>
    ensures { OnOk result (commands.new.items
        ≡ commands.old.items ++ spec.commands_to codec.now nid
        (spec.passed_verbs_as pin_kind.Digital codec.now plan.now nid node.now index)) }
{
    open_choice(commands, codec, nid, node, index)?;
    open_output(commands, codec, nid, node)?;
    open_digital_pin(commands, codec, nid, node)
}

/// A digital pin's external amplifier is on, and its output is enabled.
fn open_digital_pin(
    commands: &mut Vec<Command>,
    codec: &RawCodec,
    nid: u8,
    node: &RawNode,
) -> Result<(), AllocError>
    ensures { OnOk result (commands.new.items
        ≡ commands.old.items ++ spec.commands_to codec.now nid (spec.digital_pin_verbs node.now)) }
{
    let amplifies = node.has_eapd();
    send_if(commands, codec, nid, amplifies, Verb::SetEapd(EAPD_ON))?;
    let control = PinControl::OUTPUT.0;
    send_if(commands, codec, nid, node.is_pin(), Verb::SetPin(control))
}

/// A pin, mixer or selector that an analog route leaves by the connection at this index.
fn open_passed(
    commands: &mut Vec<Command>,
    codec: &RawCodec,
    plan: &Plan,
    nid: u8,
    node: &RawNode,
    index: u8,
) -> Result<(), AllocError>
    requires pins { length plan.now.pins ≤ 126 }
    requires inputs { widget.is_mixer node.now ≡ true → length node.now.list ≤ 16 }
    requires selected { (widget.is_selector node.now && widget.has_input_amplifier node.now) ≡ true → index < 16 }
    ensures { OnOk result (commands.new.items
        ≡ commands.old.items ++ spec.commands_to codec.now nid
        (spec.passed_verbs codec.now plan.now nid node.now index)) }
{
    open_mixer(commands, codec, nid, node, index)?;
    open_choice(commands, codec, nid, node, index)?;
    open_selector(commands, codec, nid, node, index)?;
    open_output(commands, codec, nid, node)?;
    open_pin(commands, codec, plan, nid, node)
}

/// Whether a selector or pin has more connections than one.
fn has_choice(node: &RawNode) -> bool
    ensures { result ≡ spec.has_choice node.now }
{
    (node.is_selector() || node.is_pin()) && node.list.len() >= 2
}

/// A selector or pin that has a choice selects the connection at the index.
fn open_choice(
    commands: &mut Vec<Command>,
    codec: &RawCodec,
    nid: u8,
    node: &RawNode,
    index: u8,
) -> Result<(), AllocError>
    ensures { OnOk result (commands.new.items
        ≡ commands.old.items ++ spec.commands_to codec.now nid (spec.select_verbs node.now index)) }
{
    let selects = has_choice(node);
    send_if(commands, codec, nid, selects, Verb::SetSelect(index))
}

/// Of a mixer's inputs the one at the index passes at 0 dB, and all others are muted, where they have amplifiers (HDA
/// 1.0a, 7.3.3.7). This project's own.
///
/// # Errors
/// Want of memory.
pub fn open_mixer(
    commands: &mut Vec<Command>,
    codec: &RawCodec,
    nid: u8,
    node: &RawNode,
    index: u8,
) -> Result<(), AllocError>
    requires { widget.is_mixer node.now ≡ true → length node.now.list ≤ 16 }
    ensures { OnOk result (commands.new.items
        ≡ commands.old.items ++ spec.commands_to codec.now nid (spec.mixer_verbs codec.now node.now index)) }
{
    if node.is_mixer() && node.has_input_amplifier() {
        return open_inputs(commands, codec, nid, node, index);
    }
    Ok(())
}

/// Of a widget's inputs the one at the index passes, and all others are muted.
fn open_inputs(
    commands: &mut Vec<Command>,
    codec: &RawCodec,
    nid: u8,
    node: &RawNode,
    index: u8,
) -> Result<(), AllocError>
    requires { length node.now.list ≤ 16 }
    ensures { OnOk result (commands.new.items
        ≡ commands.old.items ++ spec.commands_to codec.now nid
        (map (spec.mixer_input codec.now node.now index) (range_with_len 0 (length node.now.list)))) }
{
    let inputs = node.list.len() as u8;
    for place in 0..inputs {
        let verb = mixer_input(codec, node, index, place);
        send_if(commands, codec, nid, true, verb)?;
    }
    Ok(())
}

/// The input at a place passes where the place is the index, and else is muted.
fn mixer_input(codec: &RawCodec, node: &RawNode, index: u8, place: u8) -> Verb
    requires { place < 16 }
    ensures { result ≡ spec.mixer_input codec.now node.now index place }
{
    if place == index {
        pass_input(codec.input_amplifier_word(node), place)
    } else {
        mute_input(place)
    }
}

/// The input of a selector at the index passes.
fn open_selector(
    commands: &mut Vec<Command>,
    codec: &RawCodec,
    nid: u8,
    node: &RawNode,
    index: u8,
) -> Result<(), AllocError>
    requires { (widget.is_selector node.now && widget.has_input_amplifier node.now) ≡ true → index < 16 }
    ensures { OnOk result (commands.new.items
        ≡ commands.old.items ++ spec.commands_to codec.now nid (spec.selector_verbs codec.now node.now index)) }
{
    if node.is_selector() && node.has_input_amplifier() {
        let verb = pass_input(codec.input_amplifier_word(node), index);
        return send_if(commands, codec, nid, true, verb);
    }
    Ok(())
}

/// The output passes at 0 dB, where it has an amplifier (HDA 1.0a, 7.3.3.7). This project's own.
///
/// # Errors
/// Want of memory.
pub fn open_output(
    commands: &mut Vec<Command>,
    codec: &RawCodec,
    nid: u8,
    node: &RawNode,
) -> Result<(), AllocError>
    ensures { OnOk result (commands.new.items
        ≡ commands.old.items ++ spec.commands_to codec.now nid (spec.output_verbs codec.now node.now)) }
{
    let verb = pass_output(codec.output_amplifier_word(node));
    send_if(commands, codec, nid, node.has_output_amplifier(), verb)
}

/// A pin's external amplifier is on, its events are told, and its output is enabled.
fn open_pin(
    commands: &mut Vec<Command>,
    codec: &RawCodec,
    plan: &Plan,
    nid: u8,
    node: &RawNode,
) -> Result<(), AllocError>
    requires { length plan.now.pins ≤ 126 }
    ensures { OnOk result (commands.new.items
        ≡ commands.old.items ++ spec.commands_to codec.now nid (spec.pin_verbs plan.now nid node.now)) }
{
    let amplifies = node.has_eapd();
    send_if(commands, codec, nid, amplifies, Verb::SetEapd(EAPD_ON))?;
    let tells = node.detects_presence() && node.sends_unsolicited();
    let events = EVENTS_ENABLED + event_tag(plan.pins.as_slice(), nid);
    send_if(commands, codec, nid, tells, Verb::SetUnsol(events))?;
    let control = pin_control(node);
    send_if(commands, codec, nid, node.is_pin(), Verb::SetPin(control))
}

/// The tag of a pin's events: its place in the order of pins, from 1.
fn event_tag(pins: &[PinPlan], pin: u8) -> u8
    requires { length pins.now ≤ 126 }
    ensures value { result ≡ place_among pins.now pin + 1 }
    ensures small { result ≤ 127 }
{
    let mut tag = 1;
    for entry in pins {
        if entry.pin == pin {
            return tag;
        }
        tag += 1;
    }
    tag
}

/// The control of a pin whose output is enabled, with the headphone drive where a headphone has it.
fn pin_control(node: &RawNode) -> u8
    ensures { result ≡ spec.pin_control node.now }
{
    if drives_headphone(node) {
        PinControl::OUTPUT.0 | PinControl::HEADPHONE.0
    } else {
        PinControl::OUTPUT.0
    }
}

/// Whether the pin is a headphone's and has the drive for one.
fn drives_headphone(node: &RawNode) -> bool
    ensures { result ≡ spec.drives_headphone node.now }
{
    is_headphone(node) && PinCapabilities(node.pin_caps).contains(PinCapabilities::HEADPHONE_DRIVE)
}
