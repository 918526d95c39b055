//! Reads the tables of the codecs, and lays the widgets of a codec out by their node identifiers.
ghost use Rattle.std.specs.Prelude.{◌≡◌, ◌==◌, ◌≤◌, ◌<◌, ◌++◌, [], All, IfOk, filter, map, option_copied, length};
ghost use Rattle.std.specs.Prelude.{vec_len};
ghost use Rattle.std.specs.List.{find, range_with_len};
ghost use Rattle.toml.specs.View.{table_view};
ghost use Rattle.hda_files.specs.Codecs as codecs;
ghost use Rattle.hda_files.specs.Readers.{IsMeant, read_items, IsReadNode, IsReadCodec};
ghost use Rattle.hda_files.specs.Arrays.{tables_in};

use crate::fault::{FileFault, Key, Place};
use crate::node::{NodeTable, read_nodes};
use crate::values::{byte_or, given_byte, required_byte, required_word, tables_at, word_or};
use codec_graph::{GroupWords, RawCodec, RawNode};
use hda_items::Items;
use std::alloc::{AllocError, Global};
use toml::Table;
use toml::value::Array;

/// The capabilities of a vendor defined widget, of which nothing else is known.
const VENDOR_DEFINED: u32 = 0x00F0_0000;

/// The PCM sizes and rates of a function group whose table does not give them: 16 bits at 48 kHz.
const USUAL_PCM: u32 = 0x0002_0040;

/// What one table says of its codec.
#[derive(Debug, Drop)]
pub(crate) struct CodecTable {
    /// The words of the codec and of its function group, and the range of its widgets, with no widget.
    pub words: RawCodec,
    /// The function group's power state at the start.
    pub group_power: u8,
    /// The tables of its widgets in the file's order.
    pub nodes: Items<NodeTable>,
}

/// The table of the codec with this address.
pub(crate) fn codec_with_address(tables: &[CodecTable], address: u8) -> Option<&CodecTable>
    ensures { option_copied result ≡ codecs.codec_with_address tables.now address }
{
    tables.iter().find(|codec| codec.words.address == address)
}

/// The address of a codec, which no earlier codec of the file has.
fn address_at(table: &Table, place: Place, earlier: &[CodecTable]) -> Result<u8, FileFault>
    ensures value { result ≡ codecs.address_of (table_view table.now) place earlier.now }
    ensures bound { IfOk result (λ address. address ≤ 14) }
{
    let address = required_byte(table, place, Key::Address, 0, 14)?;
    if codec_with_address(earlier, address).is_some() {
        return Err(FileFault::Doubled(place, Key::Address));
    }
    Ok(address)
}

/// Reads the words of a codec and of its function group, with no widget, after the earlier codecs of the file.
fn read_codec_words(
    alloc: Global,
    table: &Table,
    place: Place,
    earlier: &[CodecTable],
) -> Result<RawCodec, FileFault>
    ensures value { result ≡ codecs.codec_words_of (table_view table.now) place earlier.now }
    ensures address { IfOk result (λ words. words.address ≤ 14) }
{
    let address = address_at(table, place, earlier)?;
    let vendor = required_word(table, place, Key::Vendor)?;
    let revision = word_or(table, place, Key::Revision, 0)?;
    let amp_in = word_or(table, place, Key::AmpIn, 0)?;
    let amp_out = word_or(table, place, Key::AmpOut, 0)?;
    let power = word_or(table, place, Key::Power, 0)?;
    let group = byte_or(table, place, Key::Group, 1, 127, 1)?;
    let group_type = word_or(table, place, Key::GroupType, 1)?;
    let formats = word_or(table, place, Key::Formats, 1)?;
    let pcm = word_or(table, place, Key::Pcm, USUAL_PCM)?;
    Ok(RawCodec {
        address,
        vendor,
        revision,
        group,
        group_type,
        group_words: GroupWords {
            pcm,
            formats,
            amp_in,
            amp_out,
            power,
        },
        first: 0,
        count: 0,
        nodes: Items::new(alloc),
    })
}

/// The least node identifier of the tables.
fn least_nid(nodes: &[NodeTable]) -> u8
    ensures { result ≡ codecs.least_nid nodes.now }
{
    nodes.iter().fold(127, |least, node| least.min(node.nid))
}

/// The greatest node identifier of the tables.
fn greatest_nid(nodes: &[NodeTable]) -> u8
    ensures { result ≡ codecs.greatest_nid nodes.now }
{
    nodes
        .iter()
        .fold(0, |greatest, node| greatest.max(node.nid))
}

/// How many node identifiers there are from the least of the tables to the greatest.
fn nid_span(nodes: &[NodeTable]) -> u8
    requires { All IsReadNode nodes.now }
    ensures { result ≡ codecs.nid_span nodes.now }
{
    greatest_nid(nodes).saturating_sub(least_nid(nodes)) + 1
}

/// The table with this node identifier.
pub(crate) fn table_with(nodes: &[NodeTable], nid: u16) -> Option<&NodeTable>
    ensures { option_copied result ≡ find (λ node. node.nid == nid) nodes.now }
{
    nodes.iter().find(|node| u16::from(node.nid) == nid)
}

/// The widget with this node identifier.
fn widget_at(alloc: Global, nodes: &[NodeTable], nid: u16) -> Result<RawNode, AllocError>
    ensures { IfOk result (λ widget. widget ≡ codecs.widget_at nodes.now nid) }
{
    match table_with(nodes, nid) {
        Some(node) => node.widget.copy(),
        None => Ok(RawNode::new(alloc, VENDOR_DEFINED)),
    }
}

/// The widgets with the `count` node identifiers from `first` on.
fn widgets_inside(
    alloc: Global,
    first: u8,
    count: u8,
    nodes: &[NodeTable],
) -> Result<Vec<RawNode>, AllocError>
    ensures { IfOk result (λ widgets. widgets.items ≡ map (codecs.widget_at nodes.now) (range_with_len first count)) }
{
    let mut widgets = Vec::new(alloc);
    let first = u16::from(first);
    for nid in first..first + u16::from(count) {
        widgets.push(widget_at(alloc, nodes, nid)?)?;
    }
    Ok(widgets)
}

/// Whether a table's node identifier is none of the `count` from `first` on.
fn is_outside(first: u8, count: u8, node: &NodeTable) -> bool
    ensures { result ≡ codecs.is_outside first count node.now }
{
    let end = u16::from(first) + u16::from(count);
    !(first <= node.nid && u16::from(node.nid) < end)
}

/// The widgets from `first` on, and after them those of the tables outside, each by its node identifier.
fn lay_out(
    alloc: Global,
    first: u8,
    count: u8,
    nodes: &[NodeTable],
) -> Result<Vec<RawNode>, AllocError>
    ensures { IfOk result (λ widgets. widgets.items ≡ codecs.widgets_of first count nodes.now) }
{
    let mut widgets = widgets_inside(alloc, first, count, nodes)?;
    for node in nodes {
        if is_outside(first, count, node) {
            widgets.push(widget_at(alloc, nodes, u16::from(node.nid))?)?;
        }
    }
    Ok(widgets)
}

/// The codec of a table with its widgets laid out by their node identifiers.
pub(crate) fn laid_out(alloc: Global, codec: &CodecTable) -> Result<RawCodec, AllocError>
    ensures { IfOk result (λ raw. raw ≡ codecs.laid_out codec.now) }
{
    let words = &codec.words;
    let nodes = lay_out(alloc, words.first, words.count, codec.nodes.as_slice())?;
    Ok(RawCodec {
        address: words.address,
        vendor: words.vendor,
        revision: words.revision,
        group: words.group,
        group_type: words.group_type,
        group_words: GroupWords {
            pcm: words.group_words.pcm,
            formats: words.group_words.formats,
            amp_in: words.group_words.amp_in,
            amp_out: words.group_words.amp_out,
            power: words.group_words.power,
        },
        first: words.first,
        count: words.count,
        nodes: Items::from_vec(nodes),
    })
}

/// Reads what one table says of its codec, after the earlier ones of the file.
fn read_codec(alloc: Global, table: &Table, earlier: &[CodecTable]) -> Result<CodecTable, FileFault>
    requires { length earlier.now < 256 }
    ensures value { IsMeant result (codecs.codec_of earlier.now (table_view table.now)) }
    ensures read { IfOk result IsReadCodec }
{
    let codec = earlier.len() as u8;
    let place = Place::Codec(codec);
    let mut words = read_codec_words(alloc, table, place, earlier)?;
    let group_power = byte_or(table, place, Key::GroupPower, 0, 3, 0)?;
    let first = given_byte(table, place, Key::First, 0, 127)?;
    let count = given_byte(table, place, Key::Count, 0, 127)?;
    let array = tables_at(table, place, Key::Node, 126)?;
    let nodes = read_nodes(alloc, array, codec)?;
    words.first = first.unwrap_or(least_nid(&nodes));
    words.count = count.unwrap_or(nid_span(&nodes));
    Ok(CodecTable {
        words,
        group_power,
        nodes: Items::from_vec(nodes),
    })
}

/// Reads the codecs of an array of tables in order, each after the earlier ones.
pub(crate) fn read_codecs(alloc: Global, array: &Array) -> Result<Vec<CodecTable>, FileFault>
    requires { vec_len array.now ≤ 4 }
    ensures value { IsMeant (read_items result) (codecs.codecs_after [] (tables_in array.now)) }
    ensures read { IfOk result (λ codecs. All IsReadCodec codecs.items) }
{
    let mut codecs = Vec::new(alloc);
    for value in array {
        if let Some(table) = value.as_table() {
            let codec = read_codec(alloc, table, codecs.as_slice())?;
            codecs.push(codec)?;
        }
    }
    Ok(codecs)
}
