//! The machine that the facts of a codec are.
ghost use Rattle.std.specs.Prelude.{◌≡◌, ◌≤◌, ◌<◌, ◌^◌, IfOk, IfSome, IsTrue, OnOk, map, length};
ghost use Rattle.std.specs.Option.{ForSome};
ghost use Rattle.verb_codes.specs.Verbs.{is_verb_in_range};
ghost use Rattle.codec_graph.specs.Widget.{normal};
ghost use Rattle.codec_graph.specs.Settings.{IsSettingsOf};
ghost use Rattle.hda_files.specs.Starts as starts;
ghost use Rattle.codec_dump.specs.Machines as machines;

use codec_graph::{Graph, GroupWords, MOST_AMPLIFIED, Presence, RawCodec, RawNode, Settings};
use dump_reader::{CodecFacts, Gain, NodeFacts};
use hda_files::CodecFile;
use hda_items::Items;
use std::alloc::{AllocError, Global};
use verb_codes::{AmpSetting, Command, Verb, bits_of, has_bit};

/// The supported power states, usually D0 to D3 of a widget with power control.
pub(crate) fn power_word(facts: &NodeFacts) -> u32
    ensures { result ≡ machines.power_word facts.now }
{
    let usual = if has_bit(facts.caps, 10) { 15 } else { 0 };
    facts.power.unwrap_or(usual)
}

/// The connection list, of a widget that has one.
pub(crate) fn list_word(facts: &NodeFacts) -> &[u8]
    ensures { result.now ≡ machines.list_word facts.now }
{
    match &facts.list {
        Some(list) if has_bit(facts.caps, 8) => list.as_slice(),
        _ => &[],
    }
}

/// A connection list as its entries.
fn entries_of(alloc: Global, list: &[u8]) -> Result<Items<u16>, AllocError>
    ensures { IfOk result (λ entries. entries ≡ list.now) }
{
    let mut entries = Vec::new(alloc);
    for nid in list {
        entries.push(u16::from(*nid))?;
    }
    Ok(Items::from_vec(entries))
}

/// A widget.
fn raw_node(alloc: Global, facts: &NodeFacts) -> Result<RawNode, AllocError>
    ensures { IfOk result (λ node. node ≡ machines.raw_node facts.now) }
{
    let list = list_word(facts);
    let mut node = RawNode::new(alloc, facts.caps);
    node.pcm = facts.pcm.unwrap_or(0);
    node.formats = facts.formats.unwrap_or(0);
    node.pin_caps = facts.pin_caps.unwrap_or(0);
    node.amp_in = facts.amp_in.unwrap_or(0);
    node.amp_out = facts.amp_out.unwrap_or(0);
    node.power = power_word(facts);
    node.default = facts.default.unwrap_or(0);
    node.entries = entries_of(alloc, list)?;
    node.list = Items::from_slice(alloc, list)?;
    Ok(node)
}

/// The widgets.
fn raw_nodes(alloc: Global, nodes: &[NodeFacts]) -> Result<Items<RawNode>, AllocError>
    ensures { IfOk result (λ widgets. widgets ≡ map machines.raw_node nodes.now) }
{
    let mut widgets = Items::new(alloc);
    for node in nodes {
        widgets.push(raw_node(alloc, node)?)?;
    }
    Ok(widgets)
}

/// The node identifier of the first widget.
fn first_nid(nodes: &[NodeFacts]) -> u8
    ensures { result ≡ machines.first_nid nodes.now }
{
    match nodes.first() {
        Some(node) => node.nid,
        None => 0,
    }
}

/// The words of the codec, which has at most 127 widgets.
pub(crate) fn raw_codec(alloc: Global, codec: &CodecFacts) -> Result<RawCodec, AllocError>
    requires { length codec.now.nodes ≤ 127 }
    ensures { IfOk result (λ words. words ≡ machines.raw_codec codec.now) }
{
    let group = &codec.group;
    Ok(RawCodec {
        address: codec.address.unwrap_or(0),
        vendor: codec.vendor.unwrap_or(0),
        revision: codec.revision.unwrap_or(0),
        group: codec.group_nid.unwrap_or(1),
        group_type: codec.group_type.unwrap_or(1),
        group_words: GroupWords {
            pcm: group.pcm.unwrap_or(0x0002_0040),
            formats: group.formats.unwrap_or(1),
            amp_in: group.amp_in.unwrap_or(0),
            amp_out: group.amp_out.unwrap_or(0),
            power: group.power.unwrap_or(0),
        },
        first: first_nid(codec.nodes.as_slice()),
        count: codec.nodes.len() as u8,
        nodes: raw_nodes(alloc, codec.nodes.as_slice())?,
    })
}

/// Sets what the verb sets at the node, where there is one.
fn set_given(settings: &mut Settings, graph: &Graph, nid: u8, verb: Option<Verb>)
    requires settings { IsSettingsOf graph.now settings.old }
    requires verb { ForSome verb (λ verb. IsTrue (is_verb_in_range verb)) }
    ensures value { settings.new ≡ starts.set_given graph.now nid settings.old verb }
    ensures of_graph { IsSettingsOf graph.now settings.new }
{
    if let Some(verb) = verb {
        let codec = graph.raw().address;
        settings.apply(graph, &Command { codec, nid, verb });
    }
}

/// The verb that sets mute, in bit 7, and gain of both sides: of the output amplifier or else of the input amplifier at
/// a place.
fn amplifier_verb(output: bool, place: u8, gain: u8) -> Verb
    requires { place < 2 ^ 4 }
    ensures value { result ≡ starts.amplifier_verb output place gain }
    ensures in_range { IsTrue (is_verb_in_range result) }
{
    let word = u32::from(gain);
    let setting = AmpSetting {
        output,
        input: !output,
        left: true,
        right: true,
        place,
        mute: has_bit(word, 7),
        gain: bits_of(word, 0, 7) as u8,
    };
    Verb::SetAmp(setting.payload())
}

/// The verb that sets mute and gain of both sides of the output amplifier, as the left one is.
fn output_gain(gain: Gain) -> Verb
    ensures value { result ≡ machines.gain_out_verb gain }
    ensures in_range { IsTrue (is_verb_in_range result) }
{
    amplifier_verb(true, 0, gain.left)
}

/// Sets the controls of a widget but for its input amplifiers.
fn set_controls(settings: &mut Settings, graph: &Graph, facts: &NodeFacts)
    requires { IsSettingsOf graph.now settings.old }
    ensures value { settings.new
        ≡ starts.set_all graph.now facts.now.nid settings.old (machines.control_verbs facts.now) }
    ensures of_graph { IsSettingsOf graph.now settings.new }
{
    let nid = facts.nid;
    set_given(settings, graph, nid, facts.select.map(Verb::SetSelect));
    set_given(settings, graph, nid, facts.power_state.map(Verb::SetPower));
    set_given(settings, graph, nid, facts.stream.map(Verb::SetStream));
    set_given(settings, graph, nid, facts.control.map(Verb::SetPin));
    set_given(settings, graph, nid, facts.unsol.map(Verb::SetUnsol));
    set_given(settings, graph, nid, facts.eapd.map(Verb::SetEapd));
    set_given(settings, graph, nid, facts.digital.map(Verb::SetDigital));
    set_given(settings, graph, nid, facts.gain_out.map(output_gain));
}

/// The verb that sets mute and gain of both sides of the input amplifier at a place, where they are given.
fn gain_verb(gains: &[u8], place: u8) -> Option<Verb>
    requires { place < 2 ^ 4 }
    ensures value { result ≡ starts.gain_verb gains.now place }
    ensures in_range { IfSome result (λ verb. IsTrue (is_verb_in_range verb)) }
{
    match gains.get(usize::from(place)) {
        Some(gain) => Some(amplifier_verb(false, place, *gain)),
        None => None,
    }
}

/// Sets the input amplifiers of a widget.
fn set_gains(settings: &mut Settings, graph: &Graph, nid: u8, gains: &[u8])
    requires { IsSettingsOf graph.now settings.old }
    ensures value { settings.new ≡ starts.set_all graph.now nid settings.old (starts.gain_verbs gains.now) }
    ensures of_graph { IsSettingsOf graph.now settings.new }
{
    for place in 0..MOST_AMPLIFIED {
        set_given(settings, graph, nid, gain_verb(gains, place));
    }
}

/// The left sides of some gains.
fn left_sides(alloc: Global, gains: &[Gain]) -> Result<Items<u8>, AllocError>
    ensures { IfOk result (λ sides. sides ≡ map machines.one_side gains.now) }
{
    let mut sides = Vec::new(alloc);
    for gain in gains {
        sides.push(gain.left)?;
    }
    Ok(Items::from_vec(sides))
}

/// Those of the first gains, as many as inputs have a place in a command.
fn first_sides(alloc: Global, gains: &[Gain]) -> Result<Items<u8>, AllocError>
    ensures { IfOk result (λ sides. sides ≡ machines.first_sides gains.now) }
{
    let most = usize::from(MOST_AMPLIFIED);
    if gains.len() <= most {
        return left_sides(alloc, gains);
    }
    left_sides(alloc, &gains[..most])
}

/// Mute and gain of the input amplifiers that have a place in a command.
pub(crate) fn gains_word(alloc: Global, facts: &NodeFacts) -> Result<Items<u8>, AllocError>
    ensures { IfOk result (λ gains. gains ≡ machines.gains_word facts.now.gains_in) }
{
    match &facts.gains_in {
        Some(gains) => first_sides(alloc, gains.as_slice()),
        None => Ok(Items::new(alloc)),
    }
}

/// Sets the controls of a widget as the dump says.
fn set_node(
    alloc: Global,
    settings: &mut Settings,
    graph: &Graph,
    facts: &NodeFacts,
) -> Result<(), AllocError>
    requires { IsSettingsOf graph.now settings.old }
    ensures value { OnOk result (settings.new ≡ machines.set_node graph.now settings.old facts.now) }
    ensures of_graph { IsSettingsOf graph.now settings.new }
{
    set_controls(settings, graph, facts);
    let gains = gains_word(alloc, facts)?;
    set_gains(settings, graph, facts.nid, gains.as_slice());
    Ok(())
}

/// The settings with which the codec starts: those of the opening, and then what the dump says.
fn settings_of(alloc: Global, graph: &Graph, codec: &CodecFacts) -> Result<Settings, AllocError>
    ensures value { IfOk result (λ settings. settings ≡ machines.settings_of graph.now codec.now) }
    ensures of_graph { IfOk result (IsSettingsOf graph.now) }
{
    let mut settings = Settings::opening(alloc, graph)?;
    let state = codec.group.power_state.unwrap_or(0);
    let group = graph.raw().group;
    set_given(&mut settings, graph, group, Some(Verb::SetPower(state)));
    for node in codec.nodes.as_slice() {
        set_node(alloc, &mut settings, graph, node)?;
    }
    Ok(settings)
}

/// The codec of a checked graph.
pub(crate) fn codec_of(
    alloc: Global,
    graph: Graph,
    codec: &CodecFacts,
) -> Result<CodecFile, AllocError>
    requires { graph ≡ normal (machines.raw_codec codec.now) }
    ensures value { IfOk result (λ file. file ≡ machines.codec_of codec.now) }
    ensures of_graph { IfOk result (λ file. IsSettingsOf file.graph file.settings) }
{
    let settings = settings_of(alloc, &graph, codec)?;
    Ok(CodecFile {
        graph,
        settings,
        present: Presence::none(),
    })
}
