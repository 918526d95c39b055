//! The walk over a codec.
ghost use Rattle.std.specs.Prelude.{◌≡◌, ◌≤◌, ◌<◌, ◌++◌, ◌∷◌, []};
ghost use Rattle.std.specs.Vec.{vec_len, vec_capacity};
ghost use Rattle.codec_graph.specs.Widget.{plain_node};
ghost use Rattle.codec_walk.specs.Walks as walks;
ghost use Rattle.codec_walk.specs.Steps.{IsSound};

use crate::fault::WalkError;
use crate::node::first_step;
use crate::outcome::graph_of;
use crate::step::{NodeStep, Step};
use crate::words::{CodecWord, NODE_WORDS, parameter_command};
use codec_graph::{Graph, GroupWords, NODE_IDENTIFIERS, RawCodec, RawNode};
use hda_items::Items;
use std::alloc::{AllocError, Global};
use std::mem;
use std::mem::size_of;
use verb_codes::{Command, Parameter};

/// At most so many bytes a walk keeps: room for all widgets, and 127 entries of two bytes, in a memory of 256 bytes, at
/// each.
const KEPT_BYTES: usize = NODE_IDENTIFIERS * (size_of::<RawNode>() + 256) + size_of::<Walk>();

const _: () = prove!(KEPT_BYTES <= 64 * 1024);

/// A walk over a codec: it asks for all words that the codec has, one after the other, each as soon as the answers
/// before it say that it is there, and gives the graph that was told. It keeps less than 64 KB. This project's own,
/// over the nodes of HDA 1.0a, 7.1.2.
#[derive(Drop)]
pub struct Walk {
    /// The words of the root and the function group; the widgets stand in `nodes`.
    codec: RawCodec,
    /// The widgets that are read whole.
    nodes: Vec<RawNode>,
    /// The widget that is being read.
    node: RawNode,
    /// Its node identifier.
    nid: u8,
    /// How many widgets come after it.
    left: u8,
    /// What is asked for.
    step: Step,
    ghost sound: { IsSound step codec nodes.items (vec_capacity nodes) node nid left },
}

impl Walk {
    ghost use Rattle.std.specs.Prelude.{◌≡◌, ◌≤◌, IfOk, OnOk, OnErr, IfSome, IsSome, None};
    ghost use Rattle.verb_codes.specs.Verbs.{IsInRange};
    ghost use Rattle.codec_walk.specs.Dialogues.{question, answered};
    ghost use Rattle.codec_walk.specs.Words.{later_codec, with_codec_word, node_words};
    ghost use Rattle.codec_walk.specs.Walks as walks;
    ghost use Rattle.codec_walk.specs.Steps as steps;
    ghost use Rattle.codec_walk.specs.Outcomes.{IsOutcomeOf};
    ghost use Rattle.codec_walk.specs.Remaining.{so_far, remaining};
    ghost use Rattle.codec_walk.specs.declared.step.Step.TheVariants as step;

    /// The walk over the codec with this address, 0 to 14, at its begin. Room for all widgets is made.
    ///
    /// # Errors
    /// Want of memory.
    pub fn new(alloc: Global, address: u8) -> Result<Walk, AllocError>
        requires { address ≤ 14 }
        ensures { IfOk result (λ walk. remaining walk ≡ walks.walk address) }
    {
        Ok(Walk {
            codec: unknown_codec(alloc, address),
            nodes: Vec::with_capacity(alloc, NODE_IDENTIFIERS)?,
            node: RawNode::new(alloc, 0),
            nid: 0,
            left: 0,
            step: Step::Codec(CodecWord::Vendor),
        })
    }

    /// The command that is asked next, within the ranges of `verb_codes::encode`. `None` exactly where the walk has all
    /// words.
    #[tactic(auto, unfolding(crate::specs::Remaining::remaining))]
    pub fn next(&self) -> Option<Command>
        ensures value { result ≡ question (remaining self.now) }
        ensures in_range { IfSome result IsInRange }
    {
        let address = self.codec.address;
        match self.step {
            Step::Codec(word) => Some(word.command(&self.codec)),
            Step::Capabilities => Some(parameter_command(
                address,
                self.nid,
                Parameter::WidgetCapabilities,
            )),
            Step::Widget(step) => Some(step.command(address, self.nid)),
            Step::Done => None,
        }
    }

    /// Takes the answer to the command that [`Walk::next`] gives, which is not `None`.
    ///
    /// # Errors
    /// Want of memory; what the walk asks and gives is as it was.
    #[tactic(auto, unfolding(crate::specs::Remaining::remaining))]
    pub fn take(&mut self, answer: u32) -> Result<(), AllocError>
        requires { IsSome (question (remaining self.old)) }
        ensures ok { OnOk result (remaining self.new ≡ answered (remaining self.old) answer) }
        ensures err { OnErr result (remaining self.new ≡ remaining self.old) }
    {
        match self.step {
            Step::Codec(word) => {
                self.take_codec_word(word, answer);
                Ok(())
            }
            Step::Capabilities => {
                self.take_capabilities(answer);
                Ok(())
            }
            Step::Widget(step) => self.take_node_word(step, answer),
            // What asks nothing is not answered.
            Step::Done => unreachable!(),
        }
    }

    /// The graph that was told. [`Walk::next`] gives `None`.
    ///
    /// # Errors
    /// The faulty connection list of the least node identifier, or else the first fault of the graph; or want of
    /// memory.
    #[tactic(auto, unfolding(crate::specs::Remaining::remaining))]
    pub fn finish(self) -> Result<Graph, WalkError>
        requires { question (remaining self) ≡ None }
        ensures { IsOutcomeOf (remaining self) result }
    {
        let Walk {
            mut codec,
            nodes,
            ..
        } = self;
        codec.nodes = Items::from_vec(nodes);
        graph_of(codec)
    }
}

impl Walk {
    ghost use Rattle.std.specs.Prelude.{◌≡◌, ◌≤◌, ◌+◌, OnOk, OnErr, [], true};
    ghost use Rattle.codec_walk.specs.Dialogues.{answered};
    ghost use Rattle.codec_walk.specs.Words.{later_codec, with_codec_word};
    ghost use Rattle.codec_walk.specs.Walks as walks;
    ghost use Rattle.codec_walk.specs.Steps as steps;
    ghost use Rattle.codec_walk.specs.Remaining.{so_far, remaining};
    ghost use Rattle.codec_walk.specs.declared.step.Step.TheVariants as step;

    /// Takes a word of the root or the function group.
    #[tactic(auto, unfolding(crate::specs::Remaining::remaining))]
    fn take_codec_word(&mut self, word: CodecWord, answer: u32)
        requires { self.old.step ≡ step.Codec word }
        ensures { remaining self.new
            ≡ walks.from_codec (later_codec word) (with_codec_word (so_far self.old) word answer) walks.from_count }
    {
        word.put(&mut self.codec, answer);
        match word.next() {
            Some(next) => self.step = Step::Codec(next),
            None => self.begin_widgets(),
        }
    }

    /// Goes to the first widget, if the widgets that were told can be there.
    #[tactic(auto, unfolding(crate::specs::Remaining::remaining))]
    fn begin_widgets(&mut self)
        requires { steps.is_before_widgets self.old.step ≡ true }
        ensures { remaining self.new ≡ walks.from_count (so_far self.old) }
    {
        if has_widgets(&self.codec) {
            self.nid = self.codec.first;
            self.left = self.codec.count - 1;
            self.step = Step::Capabilities;
        } else {
            self.step = Step::Done;
        }
    }

    /// Takes the capabilities of a widget.
    #[tactic(auto, unfolding(crate::specs::Remaining::remaining))]
    fn take_capabilities(&mut self, answer: u32)
        requires { self.old.step ≡ step.Capabilities }
        ensures { remaining self.new ≡ answered (remaining self.old) answer }
    {
        self.node = RawNode::new(*self.nodes.allocator(), answer);
        let next = first_step(&self.node, &NODE_WORDS);
        self.go_on(next);
    }

    /// Takes something else of a widget.
    #[tactic(auto, unfolding(crate::specs::Remaining::remaining))]
    fn take_node_word(&mut self, asked: NodeStep, answer: u32) -> Result<(), AllocError>
        requires { self.old.step ≡ step.Widget asked }
        ensures ok { OnOk result (remaining self.new ≡ answered (remaining self.old) answer) }
        ensures err { OnErr result (remaining self.new ≡ remaining self.old) }
    {
        let next = asked.take(&mut self.node, answer)?;
        self.step = Step::Capabilities;
        self.go_on(next);
        Ok(())
    }

    /// Goes on to the next step of the widget, or else to the next widget.
    #[tactic(auto, unfolding(crate::specs::Remaining::remaining))]
    fn go_on(&mut self, next: Option<NodeStep>)
        requires among { self.old.step ≡ step.Capabilities }
        requires room { steps.HasRoom (steps.next_room next) (steps.next_end next) self.old.node }
        ensures { remaining self.new ≡ steps.from_next next self.old.codec.address self.old.nid self.old.node
            (steps.from_next_widget self.old.left self.old.nid (so_far self.old)) }
    {
        match next {
            Some(step) => self.step = Step::Widget(step),
            None => {
                append(&mut self.nodes, &mut self.node);
                if self.left == 0 {
                    self.step = Step::Done;
                } else {
                    self.nid += 1;
                    self.left -= 1;
                }
            }
        }
    }
}

/// The codec with this address of which nothing else is known yet.
fn unknown_codec(alloc: Global, address: u8) -> RawCodec
    ensures { result ≡ walks.unknown address }
{
    RawCodec {
        address,
        vendor: 0,
        revision: 0,
        group: 0,
        group_type: 0,
        group_words: GroupWords {
            pcm: 0,
            formats: 0,
            amp_in: 0,
            amp_out: 0,
            power: 0,
        },
        first: 0,
        count: 0,
        nodes: Items::new(alloc),
    }
}

/// Whether the first widget and the count that were told name nodes that can be there.
fn has_widgets(codec: &RawCodec) -> bool
    ensures { result ≡ walks.has_widgets codec.now }
{
    let end = usize::from(codec.first) + usize::from(codec.count);
    codec.count > 0 && codec.first > 0 && end <= NODE_IDENTIFIERS
}

/// Puts the widget last, for which there is room, and leaves a plain one in its place.
fn append(nodes: &mut Vec<RawNode>, node: &mut RawNode)
    requires { vec_len nodes.old < vec_capacity nodes.old }
    ensures items { nodes.new.items ≡ nodes.old.items ++ node.old ∷ [] }
    ensures capacity { vec_capacity nodes.old ≤ vec_capacity nodes.new }
    ensures plain { node.new ≡ plain_node 0 }
{
    let plain = RawNode::new(*nodes.allocator(), 0);
    let read = mem::replace(node, plain);
    match nodes.push(read) {
        Ok(()) => {}
        // There is room.
        Err(_) => unreachable!(),
    }
}
