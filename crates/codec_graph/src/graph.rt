//! A checked graph, and the check that makes it.
ghost use Rattle.std.specs.Prelude.{All, ◌≡◌, ◌<◌, ◌+◌, IfOk, OnOk, IfErr, Some, false, length, nat_lt, not};
ghost use Rattle.std.specs.List.{list_all};
ghost use Rattle.codec_graph.specs.Listed.{HasReadableList};
ghost use Rattle.codec_graph.specs.Widths.{HasWords};
ghost use Rattle.codec_graph.specs.Widget as widget;
ghost use Rattle.codec_graph.specs.Faults as faults;
ghost use Rattle.codec_graph.specs.Checks.{fault_of};
ghost use Rattle.codec_graph.specs.Cycles.{IsWellFormed, IsFirstFault};
ghost use Rattle.codec_graph.specs.Candidates as candidates;

use crate::amplifiers::{amplifier_offset, amplifier_steps};
use crate::copies::copy_codec;
use crate::cycles::check_cycles;
use crate::fault::GraphFault;
use crate::limits::{MOST_AMPLIFIED, MOST_LISTED, NODE_IDENTIFIERS};
use crate::raw::{RawCodec, RawNode};
use hda_items::Items;
use std::alloc::AllocError;
use std::marker::Model;
use verb_codes::bits_of;

/// A codec's well-formed graph. Contracts see the normalised words that [`Graph::raw`] gives.
#[derive(Debug, Drop)]
pub struct Graph {
    raw: RawCodec,
}

impl Model for Graph {
    ghost use Rattle.codec_graph.specs.declared.raw.RawCodec.{RawCodec};
    ghost use Rattle.codec_graph.specs.Cycles.{IsWellFormed};

    ghost Value = { RawCodec };

    ghost view = { λ graph. graph.raw };

    ghost invariant = { λ graph. IsWellFormed graph.raw };
}

impl Graph {
    ghost use Rattle.codec_graph.specs.Cycles.{IsWellFormed, IsFirstFault};
    ghost use Rattle.codec_graph.specs.Listed.{HasReadableList};

    /// Checks a codec's words and makes the graph of those that apply: every other word is 0, and a node without a
    /// connection list has none. Each list is the expansion of its entries, as [`RawCodec::expand_lists`] leaves it
    /// where none has a fault, and has at most 127 entries.
    ///
    /// # Errors
    /// The first fault: the group's type, the count, then at the group and at each widget ascending its connections,
    /// their number and its amplifier words, and last the cycle with the least node.
    pub fn check(raw: RawCodec) -> Result<Graph, GraphFault>
        requires { All HasReadableList raw.nodes }
        ensures graph { IfOk result (λ graph. graph ≡ widget.normal raw) }
        ensures well_formed { IfOk result IsWellFormed }
        ensures fault { IfErr result (IsFirstFault (widget.normal raw)) }
    {
        let raw = normalised(raw);
        check_normal(&raw)?;
        Ok(Graph { raw })
    }

    /// The normalised words.
    pub fn raw(&self) -> &RawCodec
        ensures value { result.now ≡ self.now }
        ensures well_formed { IsWellFormed self.now }
    {
        &self.raw
    }

    /// An equal graph, in new memory.
    ///
    /// # Errors
    /// Want of memory.
    pub fn copy(&self) -> Result<Graph, AllocError>
        ensures { IfOk result (λ copy. copy ≡ self.now) }
    {
        let raw = copy_codec(&self.raw)?;
        Ok(Graph { raw })
    }

    /// Whether the node identifier is that of a candidate pin: a stereo analog output pin that is connected to
    /// something, is a line out, speaker or headphone and belongs to an association.
    pub fn is_candidate(&self, nid: u8) -> bool
        ensures { result ≡ candidates.is_candidate self.now nid }
    {
        match self.raw.node(nid) {
            Some(node) => node.is_candidate(),
            None => false,
        }
    }
}

/// The codec with each word that does not apply set to 0.
fn normalised(raw: RawCodec) -> RawCodec
    requires { All HasReadableList raw.nodes }
    ensures value { result ≡ widget.normal raw }
    ensures words { HasWords result }
{
    let mut raw = raw;
    let mut nodes = raw.nodes.into_vec();
    for node in nodes.iter_mut() {
        node.normalise();
    }
    raw.nodes = Items::from_vec(nodes);
    raw
}

/// Whether the codec, whose words are normal, has no fault, or its first.
fn check_normal(codec: &RawCodec) -> Result<(), GraphFault>
    requires is_normal { widget.normal codec.now ≡ codec.now }
    requires lists { All HasReadableList codec.now.nodes }
    requires words { HasWords codec.now }
    ensures well_formed { OnOk result (IsWellFormed codec.now) }
    ensures fault { IfErr result (IsFirstFault codec.now) }
{
    check_tables(codec)?;
    check_cycles(codec)
}

/// Whether the codec has no fault of its tables, or the first.
fn check_tables(codec: &RawCodec) -> Result<(), GraphFault>
    ensures { fault_of result ≡ faults.first_fault (faults.table_faults codec.now) }
{
    if bits_of(codec.group_type, 0, 8) != 1 {
        return Err(GraphFault::NoAudioGroup(codec.group));
    }
    if has_bad_count(codec) {
        return Err(GraphFault::BadCount(0));
    }
    if has_bad_offset(codec.group_words.amp_in) || has_bad_offset(codec.group_words.amp_out) {
        return Err(GraphFault::AmpOffset(codec.group));
    }
    check_nodes(codec)
}

/// Whether no widget has a fault, or the first fault of the first widget that has one.
fn check_nodes(codec: &RawCodec) -> Result<(), GraphFault>
    requires { faults.has_bad_count codec.now ≡ false }
    ensures { fault_of result ≡ faults.first_fault (faults.nodes_faults codec.now codec.now.first codec.now.nodes) }
{
    let mut nid = codec.first;
    for node in codec.nodes.as_slice() {
        check_node(codec, nid, node)?;
        nid += 1;
    }
    Ok(())
}

/// Whether the widget has no fault, or its first.
fn check_node(codec: &RawCodec, nid: u8, node: &RawNode) -> Result<(), GraphFault>
    ensures { fault_of result ≡ faults.first_fault (faults.node_faults codec.now nid node.now) }
{
    if lists_outside(codec, node) {
        return Err(GraphFault::ConnectionOutside(nid));
    }
    if lists_too_many(node) {
        return Err(GraphFault::ListTooLong(nid));
    }
    if has_bad_offset(node.amp_in) || has_bad_offset(node.amp_out) {
        return Err(GraphFault::AmpOffset(nid));
    }
    Ok(())
}

/// Whether the widget lists a node that is no widget.
fn lists_outside(codec: &RawCodec, node: &RawNode) -> bool
    ensures { result ≡ not (list_all (widget.is_widget codec.now) node.now.list) }
{
    !node.list.as_slice().iter().all(|to| codec.is_widget(*to))
}

/// Whether the widget lists more connections than its type may.
fn lists_too_many(node: &RawNode) -> bool
    ensures { result ≡ nat_lt (faults.most_connections node.now) (length node.now.list) }
{
    let most = if node.is_mixer() {
        usize::from(MOST_AMPLIFIED)
    } else {
        MOST_LISTED
    };
    node.list.len() > most
}

/// Whether the widgets are none or misplaced, the nodes are not as many as the count says, or the group has no
/// identifier of its own.
fn has_bad_count(codec: &RawCodec) -> bool
    ensures { result ≡ faults.has_bad_count codec.now }
{
    let end = usize::from(codec.first) + usize::from(codec.count);
    codec.count == 0
        || codec.first == 0
        || end > NODE_IDENTIFIERS
        || codec.nodes.len() != usize::from(codec.count)
        || codec.group == 0
        || usize::from(codec.group) >= NODE_IDENTIFIERS
        || codec.is_widget(codec.group)
}

/// Whether the amplifier's 0 dB step is above its steps.
fn has_bad_offset(word: u32) -> bool
    ensures { result ≡ faults.has_bad_offset word }
{
    amplifier_steps(word) < amplifier_offset(word)
}
