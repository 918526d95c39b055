//! Reads the tables of a codec's widgets.
ghost use Rattle.std.specs.Prelude.{◌≡◌, ◌==◌, ◌≤◌, ◌<◌, ◌-◌, ◌^◌, [], All, length, vec_len, IfOk};
ghost use Rattle.std.specs.List.{list_any};
ghost use Rattle.toml.specs.View.{view, table_view, array_view};
ghost use Rattle.verb_codes.specs.Lists as lists;
ghost use Rattle.codec_graph.specs.Listed.{most_entries};
ghost use Rattle.hda_files.specs.Nodes as nodes;
ghost use Rattle.hda_files.specs.Values as values;
ghost use Rattle.hda_files.specs.Readers.{IsMeant, read_items, IsReadNode};
ghost use Rattle.hda_files.specs.Arrays.{tables_in};

use crate::fault::{FileFault, Key, Place};
use crate::numbers::read_numbers;
use crate::opening::{NodeOpening, read_opening};
use crate::values::{flag_at, required_byte, required_word, value_at, word_or};
use codec_graph::{MOST_ENTRIES, RawNode};
use hda_items::Items;
use std::alloc::Global;
use toml::value::Array;
use toml::{Table, Value};
use verb_codes::ListFault;

/// What one table says of its widget.
#[derive(Debug, Drop)]
pub(crate) struct NodeTable {
    /// The widget's node identifier, from 1 to 127.
    pub nid: u8,
    /// Its words and its connection list, which is empty where its entries have a fault.
    pub widget: RawNode,
    /// What its connection list has wrong.
    pub list_fault: Option<ListFault>,
    /// Its settings at the start.
    pub opening: NodeOpening,
}

/// Reads the words of a widget, with an empty connection list.
fn read_words(alloc: Global, table: &Table, place: Place) -> Result<RawNode, FileFault>
    ensures { result ≡ nodes.words_of (table_view table.now) place }
{
    let mut widget = RawNode::new(alloc, required_word(table, place, Key::Caps)?);
    widget.pcm = word_or(table, place, Key::Pcm, 0)?;
    widget.formats = word_or(table, place, Key::Formats, 0)?;
    widget.pin_caps = word_or(table, place, Key::PinCaps, 0)?;
    widget.amp_in = word_or(table, place, Key::AmpIn, 0)?;
    widget.amp_out = word_or(table, place, Key::AmpOut, 0)?;
    widget.power = word_or(table, place, Key::Power, 0)?;
    widget.default = word_or(table, place, Key::Default, 0)?;
    widget.long = flag_at(table, place, Key::Long)?;
    Ok(widget)
}

/// The greatest entry of a connection list in the long or in the short form.
fn most_entry(long: bool) -> u16
    ensures { result ≡ 2 ^ lists.entry_width long - 1 }
{
    if long { u16::MAX } else { u16::from(u8::MAX) }
}

/// The value as the entries of a widget with these words.
fn read_entries(
    alloc: Global,
    value: &Value,
    place: Place,
    words: &RawNode,
) -> Result<Items<u16>, FileFault>
    ensures value { IsMeant result (nodes.entries_of place words.now (Some (view value.now))) }
    ensures few { IfOk result (λ entries. length entries ≤ most_entries) }
    ensures fit { IfOk result (λ entries. All (λ entry. entry < 2 ^ lists.entry_width words.now.long) entries) }
{
    let most = most_entry(words.long);
    let entries = read_numbers(alloc, value, place, Key::List, MOST_ENTRIES, most)?;
    if !words.has_list() {
        return Err(FileFault::OutOfRange(place, Key::List));
    }
    Ok(entries)
}

/// The entries of the connection list of a widget with these words.
fn entries_at(
    alloc: Global,
    table: &Table,
    place: Place,
    words: &RawNode,
) -> Result<Items<u16>, FileFault>
    ensures value { IsMeant result
        (nodes.entries_of place words.now (values.value_at (table_view table.now) Key.List)) }
    ensures few { IfOk result (λ entries. length entries ≤ most_entries) }
    ensures fit { IfOk result (λ entries. All (λ entry. entry < 2 ^ lists.entry_width words.now.long) entries) }
{
    match value_at(table, Key::List) {
        Some(value) => read_entries(alloc, value, place, words),
        None => Ok(Items::new(alloc)),
    }
}

/// Whether one of the nodes has this node identifier.
fn is_taken(nodes: &[NodeTable], nid: u8) -> bool
    ensures { result ≡ list_any (λ node. node.nid == nid) nodes.now }
{
    nodes.iter().any(|node| node.nid == nid)
}

/// The node identifier of a table, which no earlier node of the codec has.
fn nid_at(table: &Table, place: Place, earlier: &[NodeTable]) -> Result<u8, FileFault>
    ensures value { result ≡ nodes.nid_of (table_view table.now) place earlier.now }
    ensures bound { IfOk result (λ nid. nid ≤ 127) }
{
    let nid = required_byte(table, place, Key::Nid, 1, 127)?;
    if is_taken(earlier, nid) {
        return Err(FileFault::Doubled(place, Key::Nid));
    }
    Ok(nid)
}

/// Reads what one table says of its widget, after the earlier ones of the codec at this place.
fn read_node(
    alloc: Global,
    table: &Table,
    codec: u8,
    earlier: &[NodeTable],
) -> Result<NodeTable, FileFault>
    requires { length earlier.now < 256 }
    ensures value { IsMeant result (nodes.node_of codec earlier.now (table_view table.now)) }
    ensures read { IfOk result IsReadNode }
{
    let place = Place::Node(codec, earlier.len() as u8);
    let nid = nid_at(table, place, earlier)?;
    let mut widget = read_words(alloc, table, place)?;
    widget.entries = entries_at(alloc, table, place, &widget)?;
    let opening = read_opening(alloc, table, place)?;
    let list_fault = widget.expand()?;
    Ok(NodeTable {
        nid,
        widget,
        list_fault,
        opening,
    })
}

/// Reads the widgets of an array of tables in order, each after the earlier ones of the codec at this place.
pub(crate) fn read_nodes(
    alloc: Global,
    array: &Array,
    codec: u8,
) -> Result<Vec<NodeTable>, FileFault>
    requires { vec_len array.now ≤ 126 }
    ensures value { IsMeant (read_items result) (nodes.nodes_after codec [] (tables_in array.now)) }
    ensures read { IfOk result (λ nodes. All IsReadNode nodes.items) }
{
    let mut nodes = Vec::new(alloc);
    for value in array {
        if let Some(table) = value.as_table() {
            let node = read_node(alloc, table, codec, nodes.as_slice())?;
            nodes.push(node)?;
        }
    }
    Ok(nodes)
}
