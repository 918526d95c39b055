//! Whether two codecs are the same.
ghost use Rattle.std.specs.Prelude.{◌≡◌, true, All, map};
ghost use Rattle.hda_files.specs.Machines.{IsSoundCodec};
ghost use Rattle.codec_dump.specs.Machines.{machine_with};
ghost use Rattle.codec_graph.specs.Settings.{IsSettingsOf, controls, key};
ghost use Rattle.codec_dump.specs.Left.{IsSameAt};

use codec_graph::{
    Control, Graph, GroupWords, MOST_AMPLIFIED, NODE_IDENTIFIERS, Presence, RawCodec, RawNode,
    Settings, controls_ascend,
};
use hda_files::{CodecFile, Machine, RingSize};

/// Whether two function groups have the same words.
fn same_words(one: &GroupWords, other: &GroupWords) -> bool
    ensures same { result ≡ true → one.now ≡ other.now }
    ensures found { one.now ≡ other.now → result ≡ true }
{
    one.pcm == other.pcm
        && one.formats == other.formats
        && one.amp_in == other.amp_in
        && one.amp_out == other.amp_out
        && one.power == other.power
}

/// Whether two widgets are the same.
fn same_node(one: &RawNode, other: &RawNode) -> bool
    ensures same { result ≡ true → one.now ≡ other.now }
    ensures found { one.now ≡ other.now → result ≡ true }
{
    one.caps == other.caps
        && one.pcm == other.pcm
        && one.formats == other.formats
        && one.pin_caps == other.pin_caps
        && one.amp_in == other.amp_in
        && one.amp_out == other.amp_out
        && one.power == other.power
        && one.default == other.default
        && one.long == other.long
        && one.entries.as_slice() == other.entries.as_slice()
        && one.list.as_slice() == other.list.as_slice()
}

/// Whether two lists have the same widgets.
fn same_nodes(one: &[RawNode], other: &[RawNode]) -> bool
    ensures same { result ≡ true → one.now ≡ other.now }
    ensures found { one.now ≡ other.now → result ≡ true }
{
    if one.len() != other.len() {
        return false;
    }
    for place in 0..one.len() {
        if !same_node(&one[place], &other[place]) {
            return false;
        }
    }
    true
}

/// Whether two codecs have the same words and widgets.
fn same_codec(one: &RawCodec, other: &RawCodec) -> bool
    ensures same { result ≡ true → one.now ≡ other.now }
    ensures found { one.now ≡ other.now → result ≡ true }
{
    one.address == other.address
        && one.vendor == other.vendor
        && one.revision == other.revision
        && one.group == other.group
        && one.group_type == other.group_type
        && same_words(&one.group_words, &other.group_words)
        && one.first == other.first
        && one.count == other.count
        && same_nodes(one.nodes.as_slice(), other.nodes.as_slice())
}

/// The controls but those of the input amplifiers.
const PLAIN_CONTROLS: [Control; 11] = [
    Control::Select,
    Control::Power,
    Control::Stream,
    Control::Pin,
    Control::Unsol,
    Control::Eapd,
    Control::Digital,
    Control::Default,
    Control::Format,
    Control::OutLeft,
    Control::OutRight,
];

/// Whether a control of a node is set to the same, if the node has it.
fn same_setting(graph: &Graph, one: &Settings, other: &Settings, nid: u8, control: Control) -> bool
    requires one { IsSettingsOf graph.now one.now }
    requires other { IsSettingsOf graph.now other.now }
    ensures same { result ≡ true → IsSameAt one.now other.now (key nid control) }
    ensures found { one.now ≡ other.now → result ≡ true }
{
    // Most nodes have few controls, and a look-up takes longer.
    !graph.raw().has_control(nid, control) || one.get(nid, control) == other.get(nid, control)
}

/// Whether the controls of a node are set to the same.
fn same_node_settings(graph: &Graph, one: &Settings, other: &Settings, nid: u8) -> bool
    requires one { IsSettingsOf graph.now one.now }
    requires other { IsSettingsOf graph.now other.now }
    ensures same { result ≡ true → All (IsSameAt one.now other.now) (map (key nid) controls) }
    ensures found { one.now ≡ other.now → result ≡ true }
{
    for control in PLAIN_CONTROLS {
        if !same_setting(graph, one, other, nid, control) {
            return false;
        }
    }
    for place in 0..MOST_AMPLIFIED {
        if !same_setting(graph, one, other, nid, Control::InLeft(place)) {
            return false;
        }
    }
    for place in 0..MOST_AMPLIFIED {
        if !same_setting(graph, one, other, nid, Control::InRight(place)) {
            return false;
        }
    }
    true
}

/// Whether two settings of one codec are the same.
fn same_settings(graph: &Graph, one: &Settings, other: &Settings) -> bool
    requires one { IsSettingsOf graph.now one.now }
    requires other { IsSettingsOf graph.now other.now }
    ensures same { result ≡ true → one.now ≡ other.now }
    ensures found { one.now ≡ other.now → result ≡ true }
{
    // The keys of both ascend.
    controls_ascend();
    for nid in 0..NODE_IDENTIFIERS as u8 {
        if !same_node_settings(graph, one, other, nid) {
            return false;
        }
    }
    true
}

/// Whether the same is plugged in.
fn same_presence(one: &Presence, other: &Presence) -> bool
    ensures same { result ≡ true → one.now ≡ other.now }
    ensures found { one.now ≡ other.now → result ≡ true }
{
    // Both have a place for each node identifier.
    let _ = one.has(0);
    let _ = other.has(0);
    for nid in 0..NODE_IDENTIFIERS as u8 {
        if one.has(nid) != other.has(nid) {
            return false;
        }
    }
    true
}

/// Whether two codecs start the same.
fn same_file(one: &CodecFile, other: &CodecFile) -> bool
    requires one { IsSettingsOf one.now.graph one.now.settings }
    requires other { IsSettingsOf other.now.graph other.now.settings }
    ensures same { result ≡ true → one.now ≡ other.now }
    ensures found { one.now ≡ other.now → result ≡ true }
{
    if !same_codec(one.graph.raw(), other.graph.raw()) {
        return false;
    }
    same_settings(&one.graph, &one.settings, &other.settings)
        && same_presence(&one.present, &other.present)
}

/// Whether a machine has this codec alone, a FIFO of 192 bytes and rings of 256 entries.
pub(crate) fn is_machine_of(machine: &Machine, codec: &CodecFile) -> bool
    requires machine { All IsSoundCodec machine.now.codecs }
    requires codec { IsSettingsOf codec.now.graph codec.now.settings }
    ensures same { result ≡ true → machine.now ≡ machine_with codec.now }
    ensures found { machine.now ≡ machine_with codec.now → result ≡ true }
{
    match machine.codecs.as_slice() {
        [only] => {
            machine.fifo == 192
                && machine.corb == RingSize::Full
                && machine.rirb == RingSize::Full
                && same_file(only, codec)
        }
        _ => false,
    }
}
