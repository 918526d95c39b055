//! The parameters of a codec's nodes (HDA 1.0a, 7.3.4).
ghost use Rattle.std.specs.Prelude.{◌≡◌, ◌≤◌, ◌+◌, ◌*◌, ◌^◌, length};
ghost use Rattle.codec_graph.specs.Cycles.{IsWellFormed};
ghost use Rattle.codec_graph.specs.Listed.{most_entries};
ghost use Rattle.codec_graph.specs.VerbMeaning as spec;

use crate::raw::{RawCodec, RawNode};
use verb_codes::Parameter;

/// The bit of a list's length that says that its entries are long.
const LONG: u32 = 1 << 7;

/// The parameter of this number at the root, the function group or a widget, and 0 where it has none.
pub(crate) fn parameter(codec: &RawCodec, nid: u8, number: u8) -> u32
    requires { IsWellFormed codec.now }
    ensures { result ≡ spec.parameter_at codec.now nid number }
{
    match Parameter::of_number(number) {
        Some(known) => known_parameter(codec, nid, known),
        None => 0,
    }
}

/// The parameter at the root, the function group or a widget.
fn known_parameter(codec: &RawCodec, nid: u8, parameter: Parameter) -> u32
    requires { IsWellFormed codec.now }
    ensures { result ≡ spec.known_parameter codec.now nid parameter }
{
    if nid == 0 {
        return root_parameter(codec, parameter);
    }
    if nid == codec.group {
        return group_parameter(codec, parameter);
    }
    match codec.node(nid) {
        Some(node) => widget_parameter(node, parameter),
        None => 0,
    }
}

/// The parameter of the root.
fn root_parameter(codec: &RawCodec, parameter: Parameter) -> u32
    ensures { result ≡ spec.root_parameter codec.now parameter }
{
    match parameter {
        Parameter::Vendor => codec.vendor,
        Parameter::Revision => codec.revision,
        Parameter::Nodes => nodes_word(codec.group, 1),
        Parameter::GroupType | Parameter::WidgetCapabilities | Parameter::PcmSizesAndRates => 0,
        Parameter::StreamFormats | Parameter::PinCapabilities | Parameter::InputAmplifier => 0,
        Parameter::ListLength | Parameter::PowerStates | Parameter::OutputAmplifier => 0,
    }
}

/// The parameter of the function group.
fn group_parameter(codec: &RawCodec, parameter: Parameter) -> u32
    ensures { result ≡ spec.group_parameter codec.now parameter }
{
    match parameter {
        Parameter::Nodes => nodes_word(codec.first, codec.count),
        Parameter::GroupType => codec.group_type,
        Parameter::PcmSizesAndRates => codec.group_words.pcm,
        Parameter::StreamFormats => codec.group_words.formats,
        Parameter::InputAmplifier => codec.group_words.amp_in,
        Parameter::OutputAmplifier => codec.group_words.amp_out,
        Parameter::PowerStates => codec.group_words.power,
        Parameter::Vendor | Parameter::Revision | Parameter::WidgetCapabilities => 0,
        Parameter::PinCapabilities | Parameter::ListLength => 0,
    }
}

/// The parameter of a widget.
fn widget_parameter(node: &RawNode, parameter: Parameter) -> u32
    requires { length node.now.entries ≤ most_entries }
    ensures { result ≡ spec.widget_parameter node.now parameter }
{
    match parameter {
        Parameter::WidgetCapabilities => node.caps,
        Parameter::PcmSizesAndRates => node.pcm,
        Parameter::StreamFormats => node.formats,
        Parameter::PinCapabilities => node.pin_caps,
        Parameter::InputAmplifier => node.amp_in,
        Parameter::OutputAmplifier => node.amp_out,
        Parameter::ListLength => list_length(node),
        Parameter::PowerStates => node.power,
        Parameter::Vendor | Parameter::Revision | Parameter::Nodes | Parameter::GroupType => 0,
    }
}

/// The first node below in bits 23:16 and how many in 7:0.
fn nodes_word(first: u8, count: u8) -> u32
    ensures { result ≡ first * 2 ^ 16 + count }
{
    (u32::from(first) << 16) + u32::from(count)
}

/// The number of entries of the connection list in bits 6:0, and bit 7 where they are long.
fn list_length(node: &RawNode) -> u32
    requires { length node.now.entries ≤ most_entries }
    ensures { result ≡ spec.list_length node.now }
{
    let entries = node.entries.len() as u32;
    if node.long { entries + LONG } else { entries }
}
