//! The steps of a walk inside one widget.
ghost use Rattle.std.specs.Prelude.{◌≡◌, ◌≤◌, ◌<◌, ◌^◌, ◌+◌, ◌-◌, ◌++◌, ℕ, length, take, All, IfOk, OnOk, OnErr};
ghost use Rattle.codec_graph.specs.declared.raw.RawNode.{RawNode};
ghost use Rattle.codec_graph.specs.Widget.{node_identifiers};
ghost use Rattle.verb_codes.specs.Lists.{entry_width, entries_per_word, entries_of_word};
ghost use Rattle.verb_codes.specs.Verbs.{IsInRange};
ghost use Rattle.codec_walk.specs.Dialogues.{Dialogue, question, answered};
ghost use Rattle.codec_walk.specs.Words.{command_to};
ghost use Rattle.codec_walk.specs.Steps as spec;

use crate::step::NodeStep;
use crate::words::{NodeWord, parameter_command};
use codec_graph::RawNode;
use hda_items::Items;
use std::alloc::AllocError;
use std::mem;
use verb_codes::{Command, Parameter, Verb, bits_of, has_bit, unpack_list};

impl NodeStep {
    /// The command that asks for it.
    pub(crate) fn command(self, address: u8, nid: u8) -> Command
        requires address { address ≤ 14 }
        requires nid { nid < node_identifiers }
        ensures in_range { IsInRange result }
        ensures value { (node : RawNode) (rest : RawNode → Dialogue)
            → question (spec.from_step self address nid node rest) ≡ Some result }
    {
        match self {
            NodeStep::Word(word) => Command {
                codec: address,
                nid,
                verb: word.verb(),
            },
            NodeStep::Length => parameter_command(address, nid, Parameter::ListLength),
            NodeStep::Entries { place, .. } => Command {
                codec: address,
                nid,
                verb: Verb::GetList(place),
            },
            NodeStep::Power => parameter_command(address, nid, Parameter::PowerStates),
        }
    }

    /// Keeps the answer in the widget, and gives the next step, if one is left.
    ///
    /// # Errors
    /// Want of memory; the widget is as it was.
    pub(crate) fn take(
        self,
        node: &mut RawNode,
        answer: u32,
    ) -> Result<Option<NodeStep>, AllocError>
        requires { spec.HasRoom (spec.room_at self) (spec.end_at self) node.old }
        ensures ok { IfOk result (λ next. (address nid : ℕ) (rest : RawNode → Dialogue)
            → spec.from_next next address nid node.new rest ≡ answered (spec.from_step self address nid node.old rest)
            answer) }
        ensures room { IfOk result (λ next. spec.HasRoom (spec.next_room next) (spec.next_end next) node.new) }
        ensures err { OnErr result (node.new ≡ node.old) }
    {
        match self {
            NodeStep::Word(word) => {
                word.put(node, answer);
                Ok(first_step(node, word.later()))
            }
            NodeStep::Length => {
                node.long = has_bit(answer, 7);
                Ok(entries_step(node, 0, bits_of(answer, 0, 7) as u8))
            }
            NodeStep::Entries { place, left } => {
                push_entries(node, left, answer)?;
                let read = per_word(node);
                Ok(entries_step(node, place + read, left.saturating_sub(read)))
            }
            NodeStep::Power => {
                node.power = answer;
                Ok(None)
            }
        }
    }
}

/// The first step for these words of the widget and all that comes after them.
pub(crate) fn first_step(node: &RawNode, words: &[NodeWord]) -> Option<NodeStep>
    ensures { result ≡ spec.first_step node.now words.now }
{
    for word in words {
        if word.applies(node) {
            return Some(NodeStep::Word(*word));
        }
    }
    list_step(node)
}

/// The step for the widget's connection list, or else the one after it.
fn list_step(node: &RawNode) -> Option<NodeStep>
    ensures { result ≡ spec.list_step node.now }
{
    if node.has_list() {
        Some(NodeStep::Length)
    } else {
        power_step(node)
    }
}

/// The step for the entries from a place on, if some are left, or else the one after them.
fn entries_step(node: &RawNode, place: u8, left: u8) -> Option<NodeStep>
    ensures { result ≡ spec.entries_step node.now place left }
{
    if left == 0 {
        power_step(node)
    } else {
        Some(NodeStep::Entries { place, left })
    }
}

/// The step for the widget's power states, if it has its own.
fn power_step(node: &RawNode) -> Option<NodeStep>
    ensures { result ≡ spec.power_step node.now }
{
    if node.has_power_control() {
        Some(NodeStep::Power)
    } else {
        None
    }
}

/// How many entries a word of the widget's connection list has.
fn per_word(node: &RawNode) -> u8
    ensures { result ≡ entries_per_word node.now.long }
{
    if node.long { 2 } else { 4 }
}

/// Puts the entries of a word of the connection list last, at most so many.
///
/// # Errors
/// Want of memory; the widget is as it was.
fn push_entries(node: &mut RawNode, left: u8, word: u32) -> Result<(), AllocError>
    ensures ok { OnOk result (node.new ≡ record node.old
        { entries = node.old.entries ++ take left (entries_of_word node.old.long word) }) }
    ensures err { OnErr result (node.new ≡ node.old) }
{
    let alloc = node.entries.allocator();
    let read = left.min(per_word(node));
    let new = unpack_list(alloc, read, node.long, &[word])?;
    let mut entries = mem::replace(&mut node.entries, Items::new(alloc)).into_vec();
    let pushed = entries.extend_from_slice(new.as_slice());
    node.entries = Items::from_vec(entries);
    pushed
}
