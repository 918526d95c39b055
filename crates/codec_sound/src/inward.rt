//! What input converters hear.
ghost use Rattle.std.specs.Prelude.{◌≡◌};
ghost use Rattle.codec_sound.specs.Depths.{in_table};
ghost use Rattle.codec_graph.specs.Widget as widget;
ghost use Rattle.codec_graph.specs.Widget.{node_at};
ghost use Rattle.codec_sound.specs.Inward as spec;

use crate::amplifiers::{after_output, setting};
use crate::in_heard::InHeard;
use crate::signals::{Signal, Table};
use crate::sources::Sources;
use crate::table::outputs;
use crate::widgets::{is_off, passed_on, tag_at};
use codec_graph::{Control, Graph, RawCodec, RawNode, Settings};

/// What the input converter hears: nothing, the sound of one pin, or something that is not followed. Sound comes from
/// pins whose input is enabled (HDA 1.0a, 7.3.3.13), through mixers, selectors and amplifiers. The settings are the
/// graph's. A node that is no input converter hears nothing. Works out what each node gives once, and takes no memory.
pub fn in_signal(graph: &Graph, settings: &Settings, converter: u8) -> InHeard
    ensures { result ≡ spec.in_signal_of graph.now settings.now converter }
{
    let table = outputs(Sources::Pins, graph, settings);
    InHeard::of(hears_in(graph.raw(), settings, &table, converter))
}

/// Whether the node is an input converter that takes the stream with this tag, of which 0 is none, and this format word
/// (HDA 1.0a, 7.3.3.11 and 7.3.3.8). The settings are the graph's.
pub fn is_taking(graph: &Graph, settings: &Settings, converter: u8, tag: u8, word: u16) -> bool
    ensures { result ≡ spec.is_taking settings.now tag word converter (node_at graph.now converter) }
{
    match graph.raw().node(converter) {
        Some(node) => is_input_converter(node) && takes_in(settings, tag, word, converter),
        None => false,
    }
}

/// Whether a converter takes the stream.
fn takes_in(settings: &Settings, tag: u8, word: u16, nid: u8) -> bool
    ensures { result ≡ spec.takes_in settings.now tag word nid }
{
    let taken = tag_at(settings, nid);
    taken != 0
        && taken == u32::from(tag)
        && setting(settings, nid, Control::Format) == u32::from(word)
}

/// What the node hears where each node gives what the table says.
fn hears_in(codec: &RawCodec, settings: &Settings, table: &Table, nid: u8) -> Signal
    ensures { result ≡ spec.hears_in_at codec.now settings.now (in_table table.now) nid }
{
    match codec.node(nid) {
        Some(node) if is_input_converter(node) => {
            converter_hears(codec, settings, table, nid, node)
        }
        _ => Signal::Silence,
    }
}

/// What an input converter makes of the connection that it selects.
fn converter_hears(
    codec: &RawCodec,
    settings: &Settings,
    table: &Table,
    nid: u8,
    node: &RawNode,
) -> Signal
    ensures { result ≡ spec.converter_hears codec.now settings.now (in_table table.now) nid node.now }
{
    if is_off(codec, settings, nid, node) {
        return Signal::Silence;
    }
    let signal = passed_on(codec, settings, table, nid, node);
    after_output(codec, settings, nid, node, signal)
}

/// Whether the widget is an audio input converter.
fn is_input_converter(node: &RawNode) -> bool
    ensures { result ≡ widget.is_input_converter node.now }
{
    node.is_converter() && !node.is_output_converter()
}
