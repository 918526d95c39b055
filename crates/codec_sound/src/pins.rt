//! What pins hear.
ghost use Rattle.std.specs.Prelude.{◌≡◌};
ghost use Rattle.codec_sound.specs.Signals as spec;
ghost use Rattle.codec_sound.specs.Depths.{in_table};

use crate::amplifiers::{after_output, setting};
use crate::signals::{Signal, Table};
use crate::sources::Sources;
use crate::streams::LinkStream;
use crate::table::outputs;
use crate::widgets::{is_foreign, is_off, selected};
use codec_graph::{Control, Graph, PinKind, RawCodec, RawNode, Settings, has_bit};
use stream_format::Format;

/// The bit of the pin control that enables its output (HDA 1.0a, 7.3.3.13).
const OUTPUT_ENABLE: u32 = 6;

/// The bit of the pin capabilities that says that it can drive an output (HDA 1.0a, 7.3.4.9).
const OUTPUT_CAPABLE: u32 = 4;

/// The bit of the external amplifier's control that powers it (HDA 1.0a, 7.3.3.16).
const EAPD_ON: u32 = 1;

/// What the pin hears while a stream with this tag and format plays, as an analog pin. The settings are the graph's. A
/// node that is no pin hears nothing. Works out what each node gives once, and takes no memory.
pub fn signal(graph: &Graph, settings: &Settings, pin: u8, tag: u8, format: Format) -> Signal
    ensures { result ≡ spec.signal_of graph.now settings.now (spec.stream_of tag format) pin }
{
    signal_as(PinKind::Analog, graph, settings, pin, tag, format)
}

/// What the pin hears of it as a digital pin: the stream comes from digital converters whose output is enabled (DigEn,
/// HDA 1.0a, 7.3.3.9), through selectors alone. Mono pins and analog ones change it.
pub fn digital_signal(
    graph: &Graph,
    settings: &Settings,
    pin: u8,
    tag: u8,
    format: Format,
) -> Signal
    ensures { result ≡ spec.digital_signal_of graph.now settings.now (spec.stream_of tag format) pin }
{
    signal_as(PinKind::Digital, graph, settings, pin, tag, format)
}

/// What the pin hears of it as a pin of the kind.
fn signal_as(
    kind: PinKind,
    graph: &Graph,
    settings: &Settings,
    pin: u8,
    tag: u8,
    format: Format,
) -> Signal
    ensures { result ≡ spec.signal_as kind graph.now settings.now (spec.stream_of tag format) pin }
{
    let sources = Sources::Converters(kind, LinkStream::new(tag, format));
    let table = outputs(sources, graph, settings);
    hears(kind, graph.raw(), settings, &table, pin)
}

/// What the pin hears as a pin of the kind, where each node gives what the table says.
pub(crate) fn hears(
    kind: PinKind,
    codec: &RawCodec,
    settings: &Settings,
    table: &Table,
    pin: u8,
) -> Signal
    ensures { result ≡ spec.hears_at kind codec.now settings.now (in_table table.now) pin }
{
    match codec.node(pin) {
        Some(node) if node.is_pin() => pin_hears(kind, codec, settings, table, pin, node),
        _ => Signal::Silence,
    }
}

fn pin_hears(
    kind: PinKind,
    codec: &RawCodec,
    settings: &Settings,
    table: &Table,
    pin: u8,
    node: &RawNode,
) -> Signal
    ensures { result ≡ spec.pin_hears kind codec.now settings.now (in_table table.now) pin node.now }
{
    if is_silent(codec, settings, pin, node) {
        return Signal::Silence;
    }
    let Some(from) = selected(settings, pin, node) else {
        return Signal::Silence;
    };
    let signal = after_output(codec, settings, pin, node, table[usize::from(from)]);
    signal.changed_if(!node.is_stereo() || is_foreign(kind, node))
}

/// Whether the pin is off, its output is not enabled or can't drive one, or its external amplifier is not powered.
fn is_silent(codec: &RawCodec, settings: &Settings, pin: u8, node: &RawNode) -> bool
    ensures { result ≡ spec.is_silent_pin codec.now settings.now pin node.now }
{
    is_off(codec, settings, pin, node)
        || !has_bit(setting(settings, pin, Control::Pin), OUTPUT_ENABLE)
        || !has_bit(node.pin_caps, OUTPUT_CAPABLE)
        || node.has_eapd() && !has_bit(setting(settings, pin, Control::Eapd), EAPD_ON)
}
