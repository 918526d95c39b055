//! Writes a codec as the text of a codec file, for people.
ghost use Rattle.std.specs.Prelude.{◌≡◌, ◌++◌, IfOk, OnOk, map, string_bytes};
ghost use Rattle.codec_dump.specs.Texts as texts;

use crate::comments::{push_codec_comments, push_node_comments};
use crate::machine::{gains_word, list_word, power_word};
use crate::pieces::{
    push_array, push_byte, push_byte_given, push_small, push_text, push_word, push_word_given,
};
use codec_graph::has_bit;
use dump_reader::{CodecFacts, Gain, NodeFacts};
use std::alloc::{AllocError, Global};

/// A widget's node identifier and capabilities.
fn push_head(text: &mut String, facts: &NodeFacts) -> Result<(), AllocError>
    ensures { OnOk result (string_bytes text.new ≡ string_bytes text.old ++ texts.head_keys facts.now) }
{
    push_byte(text, "nid", facts.nid)?;
    push_word(text, "caps", facts.caps)
}

/// The gain of the output amplifier: the left one.
fn left_of(gain: Option<Gain>) -> Option<u8>
    ensures { result ≡ texts.left_of gain }
{
    match gain {
        Some(gain) => Some(gain.left),
        None => None,
    }
}

/// Its input amplifiers' gains.
fn push_gains(alloc: Global, text: &mut String, facts: &NodeFacts) -> Result<(), AllocError>
    ensures { OnOk result (string_bytes text.new ≡ string_bytes text.old ++ texts.gains_key facts.now) }
{
    let gains = gains_word(alloc, facts)?;
    push_array(text, "gain_in", gains.as_slice())
}

/// Its amplifiers.
fn push_amplifiers(alloc: Global, text: &mut String, facts: &NodeFacts) -> Result<(), AllocError>
    ensures { OnOk result (string_bytes text.new ≡ string_bytes text.old ++ texts.amplifier_keys facts.now) }
{
    push_word_given(text, "amp_in", facts.amp_in)?;
    push_gains(alloc, text, facts)?;
    push_word_given(text, "amp_out", facts.amp_out)?;
    push_byte_given(text, "gain_out", left_of(facts.gain_out))
}

/// Its stream, digital control and formats.
fn push_converter(text: &mut String, facts: &NodeFacts) -> Result<(), AllocError>
    ensures { OnOk result (string_bytes text.new ≡ string_bytes text.old ++ texts.converter_keys facts.now) }
{
    push_byte_given(text, "stream", facts.stream)?;
    push_byte_given(text, "digital", facts.digital)?;
    push_word_given(text, "formats", facts.formats)
}

/// What it has as a pin.
fn push_pin(text: &mut String, facts: &NodeFacts) -> Result<(), AllocError>
    ensures { OnOk result (string_bytes text.new ≡ string_bytes text.old ++ texts.pin_keys facts.now) }
{
    push_word_given(text, "pin_caps", facts.pin_caps)?;
    push_word_given(text, "default", facts.default)?;
    push_byte_given(text, "eapd", facts.eapd)?;
    push_byte_given(text, "control", facts.control)?;
    push_byte_given(text, "unsol", facts.unsol)
}

/// Its power states: those that are given, or the usual ones of a widget with power control.
fn push_power(text: &mut String, facts: &NodeFacts) -> Result<(), AllocError>
    ensures { OnOk result (string_bytes text.new ≡ string_bytes text.old ++ texts.power_key facts.now) }
{
    if facts.power.is_none() && !has_bit(facts.caps, 10) {
        return Ok(());
    }
    push_word(text, "power", power_word(facts))
}

/// Its power state, connections, PCM words and power states.
fn push_list(text: &mut String, facts: &NodeFacts) -> Result<(), AllocError>
    ensures { OnOk result (string_bytes text.new ≡ string_bytes text.old ++ texts.list_keys facts.now) }
{
    push_byte_given(text, "power_state", facts.power_state)?;
    push_array(text, "list", list_word(facts))?;
    push_byte_given(text, "select", facts.select)?;
    push_word_given(text, "pcm", facts.pcm)?;
    push_power(text, facts)
}

/// A widget's keys.
fn push_keys(alloc: Global, text: &mut String, facts: &NodeFacts) -> Result<(), AllocError>
    ensures { OnOk result (string_bytes text.new ≡ string_bytes text.old ++ texts.node_keys facts.now) }
{
    push_head(text, facts)?;
    push_amplifiers(alloc, text, facts)?;
    push_converter(text, facts)?;
    push_pin(text, facts)?;
    push_list(text, facts)
}

/// The table of a widget.
fn push_node(
    alloc: Global,
    text: &mut String,
    group: u8,
    before: &NodeFacts,
    facts: &NodeFacts,
) -> Result<(), AllocError>
    ensures { OnOk result (string_bytes text.new
        ≡ string_bytes text.old ++ texts.node_text group before.now facts.now) }
{
    push_text(text, "\n[[codec.node]]\n")?;
    push_node_comments(text, group, before, facts)?;
    push_keys(alloc, text, facts)
}

/// A codec's own words.
fn push_codec_words(text: &mut String, codec: &CodecFacts) -> Result<(), AllocError>
    ensures { OnOk result (string_bytes text.new ≡ string_bytes text.old ++ texts.codec_words codec.now) }
{
    push_byte(text, "address", codec.address.unwrap_or(0))?;
    push_word(text, "vendor", codec.vendor.unwrap_or(0))?;
    push_word_given(text, "revision", codec.revision)
}

/// Those of its function group.
fn push_group_words(text: &mut String, group: &NodeFacts) -> Result<(), AllocError>
    ensures { OnOk result (string_bytes text.new ≡ string_bytes text.old ++ texts.group_words group.now) }
{
    push_word_given(text, "formats", group.formats)?;
    push_word_given(text, "amp_in", group.amp_in)?;
    push_word_given(text, "amp_out", group.amp_out)?;
    push_word_given(text, "power", group.power)?;
    push_word_given(text, "pcm", group.pcm)
}

/// The function group's identifier, type and power state.
fn push_group(text: &mut String, codec: &CodecFacts) -> Result<(), AllocError>
    ensures { OnOk result (string_bytes text.new ≡ string_bytes text.old ++ texts.group_keys codec.now) }
{
    push_byte(text, "group", codec.group_nid.unwrap_or(1))?;
    push_small(text, "group_type", codec.group_type.unwrap_or(1))?;
    push_byte(text, "group_power", codec.group.power_state.unwrap_or(0))
}

/// The table of a codec without its widgets.
fn push_codec(text: &mut String, before: &CodecFacts, codec: &CodecFacts) -> Result<(), AllocError>
    ensures { OnOk result (string_bytes text.new
        ≡ string_bytes text.old ++ texts.codec_text before.now codec.now) }
{
    push_text(text, "[[codec]]\n")?;
    push_codec_comments(text, before, codec)?;
    push_codec_words(text, codec)?;
    push_group_words(text, &codec.group)?;
    push_group(text, codec)
}

/// The widget at a place as the dump says it, and this one where the dump has none there.
fn node_before<'a>(before: &'a [NodeFacts], place: usize, node: &'a NodeFacts) -> &'a NodeFacts
    ensures { result.now ≡ texts.node_at before.now place node.now }
{
    match before.get(place) {
        Some(before) => before,
        None => node,
    }
}

/// The tables of widgets.
fn push_nodes(
    alloc: Global,
    text: &mut String,
    group: u8,
    before: &[NodeFacts],
    nodes: &[NodeFacts],
) -> Result<(), AllocError>
    ensures { OnOk result (string_bytes text.new
        ≡ string_bytes text.old ++ texts.nodes_text group before.now nodes.now) }
{
    for place in 0..nodes.len() {
        let node = &nodes[place];
        push_node(alloc, text, group, node_before(before, place, node), node)?;
    }
    Ok(())
}

/// A byte, or a question mark where it is not printable.
fn printable(byte: u8) -> u8
    ensures { result ≡ texts.printable byte }
{
    if 32 <= byte && byte <= 126 {
        byte
    } else {
        b'?'
    }
}

/// A printable byte, or a question mark.
fn push_printable(text: &mut String, byte: u8) -> Result<(), AllocError>
    ensures { OnOk result (string_bytes text.new ≡ string_bytes text.old ++ texts.printable_text byte) }
{
    text.push(char::from(printable(byte)))
}

/// Bytes that are printable, with a question mark for each other one.
fn push_name(text: &mut String, name: &[u8]) -> Result<(), AllocError>
    ensures { OnOk result (string_bytes text.new ≡ string_bytes text.old ++ texts.name_text name.now) }
{
    for byte in name {
        push_printable(text, *byte)?;
    }
    Ok(())
}

/// The comment with the codec's name.
fn push_name_line(text: &mut String, name: &[u8]) -> Result<(), AllocError>
    ensures { OnOk result (string_bytes text.new ≡ string_bytes text.old ++ texts.name_line name.now) }
{
    push_text(text, "# ")?;
    push_name(text, name)?;
    push_text(text, "\n\n")
}

/// The text of a codec file with this codec alone. `before` is what the dump says of it, with comments of what
/// `codec`, the same codec or the mended one, has other. Behind it stands `tail`.
///
/// # Errors
/// Want of memory.
pub(crate) fn codec_text(
    alloc: Global,
    before: &CodecFacts,
    codec: &CodecFacts,
    tail: &str,
) -> Result<String, AllocError>
    ensures { IfOk result (λ text. string_bytes text ≡ texts.text_of (texts.draft before.now codec.now tail.now)) }
{
    let mut text = String::new(alloc);
    push_name_line(&mut text, codec.name.as_slice())?;
    push_codec(&mut text, before, codec)?;
    let group = codec.group_nid.unwrap_or(1);
    push_nodes(
        alloc,
        &mut text,
        group,
        before.nodes.as_slice(),
        codec.nodes.as_slice(),
    )?;
    push_text(&mut text, tail)?;
    Ok(text)
}
