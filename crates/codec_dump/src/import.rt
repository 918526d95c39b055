//! Writes the codec files of a dump.
ghost use Rattle.std.specs.Prelude.{◌≡◌, ◌≤◌, ◌<◌, ◌-◌, ◌^◌, ◌++◌, ◌↔◌, [], length, option_copied, string_bytes, true};
ghost use Rattle.std.specs.Prelude.{IfOk, Ok, OnOk};
ghost use Rattle.std.specs.Char.{encode_utf8};
ghost use Rattle.codec_graph.specs.Settings.{IsSettingsOf};
ghost use Rattle.hda_files.specs.Machines.{IsReadingOfBytes, candidates_below};
ghost use Rattle.codec_dump.specs.Imports as imports;
ghost use Rattle.codec_dump.specs.Imports.{AreImports, Imports, IsChecked, IsWritten};
ghost use Rattle.codec_dump.specs.Machines.{machine_with};
ghost use Rattle.codec_dump.specs.Texts as texts;

use crate::fault::DumpFault;
use crate::machine::{codec_of, raw_codec};
use crate::mend::mended;
use crate::pieces::{push_char, push_text};
use crate::same::is_machine_of;
use crate::text::codec_text;
use codec_graph::{
    Graph, GraphFault, NODE_IDENTIFIERS, amplifier_offset, amplifier_steps, has_bit,
};
use dump_reader::{CodecFacts, NodeFacts, read_dump};
use hda_files::{CodecFile, FileFault, read_machine};
use hda_items::Items;
use std::alloc::{AllocError, Global};

/// The most bytes of a codec file.
const MOST_CODEC_BYTES: usize = 262_144;

/// The most candidate pins of a codec file.
const MOST_PINS: usize = 16;

/// The most widgets of a codec.
const MOST_NODES: usize = 127;

/// Whether amplifier capabilities have an offset above their steps.
fn is_bad_word(word: Option<u32>) -> bool
    ensures { result ≡ imports.is_bad_word word }
{
    match word {
        Some(word) => amplifier_steps(word) < amplifier_offset(word),
        None => false,
    }
}

/// The line of the amplifier that has such an offset.
fn amplifier_line(applies: bool, facts: &NodeFacts) -> u32
    ensures { result ≡ imports.amplifier_line applies facts.now }
{
    if applies && is_bad_word(facts.amp_in) {
        facts.lines.amp_in
    } else {
        facts.lines.amp_out
    }
}

/// The widget with this node identifier.
fn node_with(nodes: &[NodeFacts], nid: u8) -> Option<&NodeFacts>
    ensures { option_copied result ≡ imports.node_with nodes.now nid }
{
    nodes.iter().find(|node| node.nid == nid)
}

/// The line that a fault of the graph comes from.
fn graph_line(codec: &CodecFacts, fault: GraphFault) -> u32
    ensures { result ≡ imports.graph_line codec.now fault }
{
    let nodes = codec.nodes.as_slice();
    match fault {
        GraphFault::AmpOffset(nid) if nid == codec.group_nid.unwrap_or(1) => {
            amplifier_line(true, &codec.group)
        }
        GraphFault::AmpOffset(nid) => match node_with(nodes, nid) {
            Some(facts) => amplifier_line(has_bit(facts.caps, 1) && has_bit(facts.caps, 3), facts),
            None => codec.line,
        },
        GraphFault::ConnectionOutside(nid)
        | GraphFault::ListTooLong(nid)
        | GraphFault::Cycle(nid) => match node_with(nodes, nid) {
            Some(facts) => facts.lines.list,
            None => codec.line,
        },
        _ => codec.line,
    }
}

/// How many of the node identifiers below `end` are those of candidate pins.
fn candidates(graph: &Graph, end: u8) -> usize
    ensures { result ≡ candidates_below graph.now end }
{
    (0..end).filter(|nid| graph.is_candidate(*nid)).count()
}

/// The codec of the facts, or the fault for which a codec file can't say it.
fn checked(alloc: Global, codec: &CodecFacts) -> Result<CodecFile, DumpFault>
    ensures { IsChecked codec.now result }
{
    if codec.nodes.len() > MOST_NODES {
        return Err(DumpFault::TooManyNodes(codec.line));
    }
    let words = raw_codec(alloc, codec)?;
    let address = words.address;
    if !words.has_readable_lists()? {
        return Err(DumpFault::UnreadableList(codec.line));
    }
    let graph = match Graph::check(words) {
        Ok(graph) => graph,
        Err(fault) => {
            let line = graph_line(codec, fault);
            return Err(DumpFault::Codec(line, FileFault::Graph(address, fault)));
        }
    };
    if candidates(&graph, NODE_IDENTIFIERS as u8) > MOST_PINS {
        return Err(DumpFault::Codec(codec.line, FileFault::TooManyPins));
    }
    Ok(codec_of(alloc, graph, codec)?)
}

/// Whether a text is read as the machine with this codec.
fn reads_as(alloc: Global, text: &str, file: &CodecFile) -> Result<bool, AllocError>
    requires { IsSettingsOf file.now.graph file.now.settings }
    ensures { IfOk result (λ is. is ≡ true ↔ IsReadingOfBytes text.now (Ok (machine_with file.now))) }
{
    match read_machine(alloc, text.as_bytes()) {
        Ok(machine) => Ok(is_machine_of(&machine, file)),
        Err(FileFault::OutOfMemory) => Err(AllocError),
        Err(_) => Ok(false),
    }
}

/// The codec file of a codec, with comments of what `before`, which is the codec as the dump says it, has other, and
/// with `tail` behind it. It is read back first, and answered only where it reads as the codec.
///
/// # Errors
/// [`DumpFault::Codec`], [`DumpFault::TooManyNodes`] and [`DumpFault::UnreadableList`] where a codec file can't say the
/// codec, [`DumpFault::TooLong`], [`DumpFault::Unlike`] and want of memory.
pub fn write_codec(
    alloc: Global,
    before: &CodecFacts,
    codec: &CodecFacts,
    tail: &str,
) -> Result<String, DumpFault>
    ensures { IsWritten (texts.draft before.now codec.now tail.now) result }
{
    let file = checked(alloc, codec)?;
    let text = codec_text(alloc, before, codec, tail)?;
    if text.len() > MOST_CODEC_BYTES {
        return Err(DumpFault::TooLong(codec.line));
    }
    if !reads_as(alloc, text.as_str(), &file)? {
        return Err(DumpFault::Unlike(codec.line));
    }
    Ok(text)
}

/// The codec file of a codec as the dump says it, or mended.
fn import_codec(
    alloc: Global,
    is_mended: bool,
    codec: &CodecFacts,
    tail: &str,
) -> Result<String, DumpFault>
    ensures { IsWritten (imports.draft_of is_mended tail.now codec.now) result }
{
    if is_mended {
        let after = mended(alloc, codec)?;
        return write_codec(alloc, codec, &after, tail);
    }
    write_codec(alloc, codec, codec, tail)
}

/// The codec files of a dump, one for each codec that has an audio function group, in order. Behind the first stands
/// a comment for each further one, with its number, from 2, and the name that it would have: `name`, a hyphen, the
/// number and `.toml`.
///
/// # Errors
/// [`DumpFault::Line`] and [`DumpFault::Modem`] for what can't be read, and those of [`write_codec`] for the first
/// codec that can't be written.
pub fn import_dump(
    alloc: Global,
    bytes: &[u8],
    is_mended: bool,
    name: &str,
) -> Result<Items<String>, DumpFault>
    requires { length bytes.now ≤ MOST_CODEC_BYTES }
    ensures { Imports is_mended name.now bytes.now result }
{
    let codecs = read_dump(alloc, bytes)?;
    let tail = further_lines(alloc, name, codecs.len())?;
    import_codecs(alloc, codecs.as_slice(), is_mended, tail.as_str())
}

/// The codec files of codecs, the first with `tail` behind it.
fn import_codecs(
    alloc: Global,
    codecs: &[CodecFacts],
    is_mended: bool,
    tail: &str,
) -> Result<Items<String>, DumpFault>
    ensures { AreImports (imports.drafts_with is_mended tail.now codecs.now) result }
{
    let mut texts = Items::new(alloc);
    let [first, further @ ..] = codecs else {
        return Ok(texts);
    };
    texts.push(import_codec(alloc, is_mended, first, tail)?)?;
    for codec in further {
        texts.push(import_codec(alloc, is_mended, codec, "")?)?;
    }
    Ok(texts)
}

/// The name of a further codec file, by its number from 2.
///
/// # Errors
/// Want of memory.
pub fn further_name(alloc: Global, name: &str, number: usize) -> Result<String, AllocError>
    ensures { IfOk result (λ further. string_bytes further ≡ texts.further_name name.now number) }
{
    format!(in alloc; "{name}-{number}.toml")
}

/// The comments that name the further codec files, of so many in all.
fn further_lines(alloc: Global, name: &str, count: usize) -> Result<String, AllocError>
    ensures { IfOk result (λ lines. string_bytes lines ≡ texts.further_lines name.now count) }
{
    let mut text = String::new(alloc);
    for place in 1..count {
        push_further_line(alloc, &mut text, name, place)?;
    }
    Ok(text)
}

/// Puts the comment that names the further codec file at a place.
fn push_further_line(
    alloc: Global,
    text: &mut String,
    name: &str,
    place: usize,
) -> Result<(), AllocError>
    requires { place < 2 ^ 64 - 1 }
    ensures { OnOk result (string_bytes text.new ≡ string_bytes text.old ++ texts.further_line name.now place) }
{
    let further = further_name(alloc, name, place + 1)?;
    push_text(text, "# the next codec: ")?;
    push_shown(text, further.as_str())?;
    push_text(text, "\n")
}

/// A character, or a question mark in place of one that no comment may have.
fn shown(c: char) -> char
    ensures { result ≡ texts.shown_byte c }
{
    if c < ' ' || c == '\u{7f}' { '?' } else { c }
}

/// Puts a character as a comment may have it.
fn push_shown_char(text: &mut String, c: char) -> Result<(), AllocError>
    ensures { OnOk result (string_bytes text.new ≡ string_bytes text.old ++ texts.shown (encode_utf8 c)) }
{
    push_char(text, shown(c))
}

/// Puts a name as a comment may have it: without control characters.
fn push_shown(text: &mut String, name: &str) -> Result<(), AllocError>
    ensures { OnOk result (string_bytes text.new ≡ string_bytes text.old ++ texts.shown name.now) }
{
    for c in name.chars() {
        push_shown_char(text, c)?;
    }
    Ok(())
}
