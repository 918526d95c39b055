//! What each widget gives.
ghost use Rattle.std.specs.Prelude.{◌≡◌, option_copied};
ghost use Rattle.codec_graph.specs.Widget.{node_at};
ghost use Rattle.codec_sound.specs.Signals as spec;
ghost use Rattle.codec_sound.specs.Depths.{in_table};

use crate::amplifiers::{after_input, after_output, setting};
use crate::signals::{Signal, Table};
use crate::sources::Sources;
use crate::streams::LinkStream;
use codec_graph::{Control, PinKind, RawCodec, RawNode, Settings, bits_of, has_bit};

/// The bit of a digital converter's control that enables its output: DigEn (HDA 1.0a, 7.3.3.9).
const DIGITAL_ENABLE: u32 = 0;

/// The bit of the pin control that enables its input (HDA 1.0a, 7.3.3.13).
const INPUT_ENABLE: u32 = 5;

/// The bit of the pin capabilities that says that it has an input (HDA 1.0a, 7.3.4.9).
const INPUT_CAPABLE: u32 = 5;

/// Whether the function group or the widget is in another power state than 0, fully on (HDA 1.0a, 7.3.3.10).
pub(crate) fn is_off(codec: &RawCodec, settings: &Settings, nid: u8, node: &RawNode) -> bool
    ensures { result ≡ spec.is_off codec.now settings.now nid node.now }
{
    setting(settings, codec.group, Control::Power) != 0
        || node.has_power_control() && setting(settings, nid, Control::Power) != 0
}

/// The tag of the stream that a converter takes, 0 where it takes none (HDA 1.0a, 7.3.3.11).
pub(crate) fn tag_at(settings: &Settings, nid: u8) -> u32
    ensures { result ≡ spec.tag_at settings.now nid }
{
    bits_of(setting(settings, nid, Control::Stream), 4, 4)
}

/// The lowest channel that a converter takes (HDA 1.0a, 7.3.3.11).
fn channel_at(settings: &Settings, nid: u8) -> u8
    ensures { result ≡ spec.channel_at settings.now nid }
{
    bits_of(setting(settings, nid, Control::Stream), 0, 4) as u8
}

/// Whether a digital converter's output is enabled (HDA 1.0a, 7.3.3.9).
fn is_enabled(settings: &Settings, nid: u8) -> bool
    ensures { result ≡ spec.is_enabled settings.now nid }
{
    has_bit(setting(settings, nid, Control::Digital), DIGITAL_ENABLE)
}

/// Whether a converter takes the stream.
fn takes(settings: &Settings, stream: LinkStream, nid: u8) -> bool
    ensures { result ≡ spec.takes settings.now stream nid }
{
    let tag = tag_at(settings, nid);
    tag != 0 && tag == u32::from(stream.tag)
}

/// Whether a converter takes the stream for pins of the kind.
fn takes_as(kind: PinKind, settings: &Settings, stream: LinkStream, nid: u8) -> bool
    ensures { result ≡ spec.takes_as kind settings.now stream nid }
{
    match kind {
        PinKind::Analog => takes(settings, stream, nid),
        PinKind::Digital => takes(settings, stream, nid) && is_enabled(settings, nid),
    }
}

/// Whether the widget is of the other kind.
pub(crate) fn is_foreign(kind: PinKind, node: &RawNode) -> bool
    ensures { result ≡ spec.is_foreign kind node.now }
{
    match kind {
        PinKind::Analog => node.is_digital(),
        PinKind::Digital => !node.is_digital(),
    }
}

/// Whether a converter makes of the stream what is not followed.
fn converts_otherwise(
    kind: PinKind,
    settings: &Settings,
    stream: LinkStream,
    nid: u8,
    node: &RawNode,
) -> bool
    ensures { result ≡ spec.converts_otherwise kind settings.now stream nid node.now }
{
    let channel = channel_at(settings, nid);
    setting(settings, nid, Control::Format) != u32::from(stream.word)
        || is_foreign(kind, node)
        || !node.is_stereo()
        || channel % 2 == 1 && channel < stream.channels
}

/// The pair that begins at the channel, if the stream has it.
fn pair_from(stream: LinkStream, channel: u8) -> Signal
    ensures { result ≡ spec.pair_from stream channel }
{
    if channel < stream.channels {
        Signal::Pair(channel / 2)
    } else {
        Signal::Silence
    }
}

/// What an output converter makes of the stream.
fn converted(
    kind: PinKind,
    settings: &Settings,
    stream: LinkStream,
    nid: u8,
    node: &RawNode,
) -> Signal
    ensures { result ≡ spec.converted kind settings.now stream nid node.now }
{
    if !takes_as(kind, settings, stream, nid) {
        return Signal::Silence;
    }
    if converts_otherwise(kind, settings, stream, nid, node) {
        return Signal::Altered;
    }
    pair_from(stream, channel_at(settings, nid))
}

/// What a mixer makes of its connections.
fn mixed(codec: &RawCodec, settings: &Settings, table: &Table, nid: u8, node: &RawNode) -> Signal
    ensures { result ≡ spec.mixed codec.now settings.now (in_table table.now) nid node.now 0 node.now.list }
{
    let mut sum = Signal::Silence;
    for (place, from) in node.list.as_slice().iter().enumerate() {
        let input = table[usize::from(*from)];
        sum = sum.plus(after_input(codec, settings, nid, node, place, input));
    }
    sum
}

/// What a mixer makes for pins of the kind: nothing for digital ones.
fn mixed_as(
    kind: PinKind,
    codec: &RawCodec,
    settings: &Settings,
    table: &Table,
    nid: u8,
    node: &RawNode,
) -> Signal
    ensures { result ≡ spec.mixed_as kind codec.now settings.now (in_table table.now) nid node.now }
{
    match kind {
        PinKind::Analog => {
            mixed(codec, settings, table, nid, node).changed_if(!node.is_stereo())
        }
        PinKind::Digital => Signal::Silence,
    }
}

/// The place of its list that a selector or pin selects (HDA 1.0a, 7.3.3.2).
fn selected_place(settings: &Settings, nid: u8, node: &RawNode) -> usize
    ensures { result ≡ spec.selected_place settings.now nid node.now }
{
    if node.list.len() == 1 {
        0
    } else {
        setting(settings, nid, Control::Select) as usize
    }
}

/// The node that a selector or pin selects: `None` where its list is empty or ends before the place.
pub(crate) fn selected(settings: &Settings, nid: u8, node: &RawNode) -> Option<u8>
    ensures { result ≡ spec.selected settings.now nid node.now }
{
    let place = selected_place(settings, nid, node);
    node.list.as_slice().get(place).copied()
}

/// What a selector makes of the connection that it selects.
pub(crate) fn passed_on(
    codec: &RawCodec,
    settings: &Settings,
    table: &Table,
    nid: u8,
    node: &RawNode,
) -> Signal
    ensures { result
        ≡ spec.passed_on codec.now settings.now (in_table table.now) nid node.now
        (spec.selected settings.now nid node.now) }
{
    match selected(settings, nid, node) {
        Some(from) => {
            let place = selected_place(settings, nid, node);
            let input = table[usize::from(from)];
            after_input(codec, settings, nid, node, place, input)
        }
        None => Signal::Silence,
    }
}

/// Whether a pin takes sound in: whether its input is enabled, and it has one.
fn is_listening(settings: &Settings, nid: u8, node: &RawNode) -> bool
    ensures { result ≡ spec.is_listening_pin settings.now nid node.now }
{
    has_bit(setting(settings, nid, Control::Pin), INPUT_ENABLE)
        && has_bit(node.pin_caps, INPUT_CAPABLE)
}

/// What a pin makes of the sound that it takes in.
fn taken_in(codec: &RawCodec, settings: &Settings, nid: u8, node: &RawNode) -> Signal
    ensures { result ≡ spec.taken_in codec.now settings.now nid node.now }
{
    if !is_listening(settings, nid, node) {
        return Signal::Silence;
    }
    let signal = after_input(codec, settings, nid, node, 0, Signal::Pair(nid));
    signal.changed_if(!node.is_stereo() || node.is_digital())
}

/// Whether a signal begins at the widget.
fn is_source(sources: Sources, node: &RawNode) -> bool
    ensures { result ≡ spec.is_source sources node.now }
{
    match sources {
        Sources::Converters(..) => node.is_output_converter(),
        Sources::Pins => node.is_pin(),
    }
}

/// The signal that begins at the widget.
fn source_signal(
    sources: Sources,
    codec: &RawCodec,
    settings: &Settings,
    nid: u8,
    node: &RawNode,
) -> Signal
    ensures { result ≡ spec.source_signal sources codec.now settings.now nid node.now }
{
    match sources {
        Sources::Converters(kind, stream) => converted(kind, settings, stream, nid, node),
        Sources::Pins => taken_in(codec, settings, nid, node),
    }
}

/// The kind of the pins for which mixers add signals.
fn source_kind(sources: Sources) -> PinKind
    ensures { result ≡ spec.source_kind sources }
{
    match sources {
        Sources::Converters(kind, _) => kind,
        Sources::Pins => PinKind::Analog,
    }
}

/// What the widget makes of what begins at it and of the signals that the nodes give which it lists.
fn made(
    sources: Sources,
    codec: &RawCodec,
    settings: &Settings,
    table: &Table,
    nid: u8,
    node: &RawNode,
) -> Signal
    ensures { result ≡ spec.made_from sources codec.now settings.now (in_table table.now) nid node.now }
{
    if is_source(sources, node) {
        source_signal(sources, codec, settings, nid, node)
    } else if node.is_mixer() {
        mixed_as(source_kind(sources), codec, settings, table, nid, node)
    } else if node.is_selector() {
        passed_on(codec, settings, table, nid, node).changed_if(!node.is_stereo())
    } else {
        Signal::Silence
    }
}

/// What the node gives, if the nodes that it lists give what the table says.
#[tactic(auto, unfolding(crate::specs::Signals::gives_from))]
pub(crate) fn gives(
    sources: Sources,
    codec: &RawCodec,
    settings: &Settings,
    table: &Table,
    nid: u8,
) -> Signal
    ensures { result ≡ spec.gives_from sources codec.now settings.now (in_table table.now) nid }
{
    let Some(node) = codec.node(nid) else {
        return Signal::Silence;
    };
    if is_off(codec, settings, nid, node) {
        return Signal::Silence;
    }
    let signal = made(sources, codec, settings, table, nid, node);
    after_output(codec, settings, nid, node, signal)
}
