//! The settings and the plugs with which a codec starts: each key of its tables acts as the set verb of its control.
ghost use Rattle.std.specs.Prelude.{◌≡◌, ◌<◌, ◌^◌, IfOk, IfSome, IsTrue};
ghost use Rattle.std.specs.Option.{ForSome};
ghost use Rattle.verb_codes.specs.Verbs.{is_verb_in_range};
ghost use Rattle.codec_graph.specs.Settings.{IsSettingsOf};
ghost use Rattle.hda_files.specs.Starts as starts;

use crate::node::NodeTable;
use crate::opening::NodeOpening;
use codec_graph::{Graph, MOST_AMPLIFIED, NODE_IDENTIFIERS, Presence, Settings};
use std::alloc::{AllocError, Global};
use verb_codes::{AmpSetting, Command, Verb, bits_of, has_bit};

/// Sets what the verb sets at the node, where there is one.
fn set_given(settings: &mut Settings, graph: &Graph, nid: u8, verb: Option<Verb>)
    requires settings { IsSettingsOf graph.now settings.old }
    requires verb { ForSome verb (λ verb. IsTrue (is_verb_in_range verb)) }
    ensures value { settings.new ≡ starts.set_given graph.now nid settings.old verb }
    ensures of_graph { IsSettingsOf graph.now settings.new }
{
    if let Some(verb) = verb {
        let codec = graph.raw().address;
        settings.apply(graph, &Command { codec, nid, verb });
    }
}

/// Sets the controls of a widget but for its input amplifiers.
fn set_controls(settings: &mut Settings, graph: &Graph, nid: u8, keys: &NodeOpening)
    requires { IsSettingsOf graph.now settings.old }
    ensures value { settings.new ≡ starts.set_all graph.now nid settings.old (starts.control_verbs keys.now) }
    ensures of_graph { IsSettingsOf graph.now settings.new }
{
    set_given(settings, graph, nid, keys.select.map(Verb::SetSelect));
    set_given(settings, graph, nid, keys.power_state.map(Verb::SetPower));
    set_given(settings, graph, nid, keys.stream.map(Verb::SetStream));
    set_given(settings, graph, nid, keys.control.map(Verb::SetPin));
    set_given(settings, graph, nid, keys.unsol.map(Verb::SetUnsol));
    set_given(settings, graph, nid, keys.eapd.map(Verb::SetEapd));
    set_given(settings, graph, nid, keys.digital.map(Verb::SetDigital));
    set_given(settings, graph, nid, keys.gain_out.map(output_gain));
    set_given(settings, graph, nid, keys.format.map(Verb::SetFormat));
}

/// The verb that sets mute, in bit 7, and gain of both sides: of the output amplifier or else of the input amplifier at
/// a place.
fn amplifier_verb(output: bool, place: u8, gain: u8) -> Verb
    requires { place < 2 ^ 4 }
    ensures value { result ≡ starts.amplifier_verb output place gain }
    ensures in_range { IsTrue (is_verb_in_range result) }
{
    let word = u32::from(gain);
    let setting = AmpSetting {
        output,
        input: !output,
        left: true,
        right: true,
        place,
        mute: has_bit(word, 7),
        gain: bits_of(word, 0, 7) as u8,
    };
    Verb::SetAmp(setting.payload())
}

/// The verb that sets mute and gain of both sides of the output amplifier.
fn output_gain(gain: u8) -> Verb
    ensures value { result ≡ starts.output_gain gain }
    ensures in_range { IsTrue (is_verb_in_range result) }
{
    amplifier_verb(true, 0, gain)
}

/// The verb that sets mute and gain of both sides of the input amplifier at a place, where they are given.
fn gain_verb(gains: &[u8], place: u8) -> Option<Verb>
    requires { place < 2 ^ 4 }
    ensures value { result ≡ starts.gain_verb gains.now place }
    ensures in_range { IfSome result (λ verb. IsTrue (is_verb_in_range verb)) }
{
    match gains.get(usize::from(place)) {
        Some(gain) => Some(amplifier_verb(false, place, *gain)),
        None => None,
    }
}

/// Sets the input amplifiers of a widget.
fn set_gains(settings: &mut Settings, graph: &Graph, nid: u8, gains: &[u8])
    requires { IsSettingsOf graph.now settings.old }
    ensures value { settings.new ≡ starts.set_all graph.now nid settings.old (starts.gain_verbs gains.now) }
    ensures of_graph { IsSettingsOf graph.now settings.new }
{
    for place in 0..MOST_AMPLIFIED {
        set_given(settings, graph, nid, gain_verb(gains, place));
    }
}

/// Sets the controls of a widget as its table says.
fn set_node(settings: &mut Settings, graph: &Graph, node: &NodeTable)
    requires { IsSettingsOf graph.now settings.old }
    ensures value { settings.new ≡ starts.set_node graph.now settings.old node.now }
    ensures of_graph { IsSettingsOf graph.now settings.new }
{
    set_controls(settings, graph, node.nid, &node.opening);
    set_gains(settings, graph, node.nid, node.opening.gain_in.as_slice());
}

/// The settings with which the codec starts: those of the opening, and then what its tables say.
pub(crate) fn settings_of(
    alloc: Global,
    graph: &Graph,
    group_power: u8,
    nodes: &[NodeTable],
) -> Result<Settings, AllocError>
    ensures value { IfOk result (λ settings. settings ≡ starts.settings_of graph.now group_power nodes.now) }
    ensures of_graph { IfOk result (IsSettingsOf graph.now) }
{
    let mut settings = Settings::opening(alloc, graph)?;
    let group = graph.raw().group;
    set_given(
        &mut settings,
        graph,
        group,
        Some(Verb::SetPower(group_power)),
    );
    for node in nodes {
        set_node(&mut settings, graph, node);
    }
    Ok(settings)
}

/// Whether a table with this node identifier says that something is plugged in.
fn is_plugged(nodes: &[NodeTable], nid: u8) -> bool
    ensures { result ≡ starts.is_plugged nodes.now nid }
{
    nodes
        .iter()
        .any(|node| node.nid == nid && node.opening.present)
}

/// Where something is plugged in as the codec starts.
pub(crate) fn presence_of(nodes: &[NodeTable]) -> Presence
    ensures { result ≡ starts.presence_of nodes.now }
{
    let mut present = Presence::none();
    for nid in 0..NODE_IDENTIFIERS as u8 {
        present.set(nid, is_plugged(nodes, nid));
    }
    present
}
