//! A codec, as its commands and its pins change it.
ghost use Rattle.std.specs.Prelude.{◌≡◌, ◌≤◌, ◌&&◌, [], false, IfOk, slice_get, length};
ghost use Rattle.std.specs.List.{list_any};
ghost use Rattle.std.specs.Option.{option_map};
ghost use Rattle.codec_graph.specs.Cycles.{IsWellFormed};
ghost use Rattle.codec_graph.specs.Settings.{IsSettingsOf, detects_presence, sends_unsolicited};
ghost use Rattle.codec_graph.specs.CodecStates as codecs;
ghost use Rattle.codec_nodes.specs.Queues as queues;

use crate::queue::Queue;
use codec_graph::{Control, Graph, Presence, RawNode, Settings, Waiting, answer, has_bit};
use std::alloc::{AllocError, Global};
use std::marker::Model;
use verb_codes::decode;

/// The bit of the control of unsolicited responses that enables them (HDA 1.0a, 7.3.3.14).
const ENABLE: u32 = 7;

/// A codec: its graph, what its controls are set to, what is plugged in at its pins, and what waits for the controller.
#[derive(Drop)]
pub struct Codec {
    graph: Graph,
    settings: Settings,
    present: Presence,
    waiting: Queue,
}

impl Model for Codec {
    ghost use Rattle.codec_graph.specs.CodecStates.{CodecState, IsSound};

    ghost Value = { CodecState };

    ghost view = { λ codec. record {
      graph = codec.graph;
      settings = codec.settings;
      present = codec.present;
      waiting = codec.waiting;
    } };

    ghost invariant = { λ codec. IsSound
        (record { graph = codec.graph; settings = codec.settings; present = codec.present; waiting = codec.waiting }) };
}

impl Codec {
    ghost use Rattle.codec_graph.specs.CodecStates.{CodecState};

    /// A codec at which nothing waits. All the room that it needs is made. The settings are the graph's.
    ///
    /// # Errors
    /// Want of memory.
    pub fn new(
        alloc: Global,
        graph: Graph,
        settings: Settings,
        present: Presence,
    ) -> Result<Codec, AllocError>
        requires { IsSettingsOf graph settings }
        ensures value { IfOk result (λ codec. codec ≡ record {
          graph = graph;
          settings = settings;
          present = present;
          waiting = [];
        }) }
        ensures sound { IfOk result codecs.IsSound }
    {
        let waiting = Queue::new(alloc)?;
        // The graph is well-formed, and the presence has a place for each node identifier.
        let _ = graph.raw();
        let _ = present.has(0);
        Ok(Codec {
            graph,
            settings,
            present,
            waiting,
        })
    }

    /// Whether as many answers to commands wait as can: `MOST_ANSWERS`.
    pub fn full(&self) -> bool
        ensures { result ≡ codecs.is_full self.now }
    {
        self.waiting.is_full()
    }

    /// Takes a word, whichever codec it names: its verb acts, and its answer waits last and is given. A word without a
    /// reading is answered with 0 and changes nothing. The codec is not full.
    pub fn take(&mut self, word: u32) -> u32
        requires { codecs.is_full self.old ≡ false }
        ensures answer { result ≡ codecs.answer_to self.old word }
        ensures after { self.new ≡ codecs.taken self.old word }
    {
        let mut result = 0;
        if let Some(command) = decode(word) {
            result = answer(&self.graph, &self.settings, &self.present, &command);
            self.settings.apply(&self.graph, &command);
        }
        self.waiting.push_answer(result);
        result
    }

    /// Says whether something is plugged in at the pin; at a node that is no pin nothing happens. Where the pin can
    /// detect presence, its presence changed, it can send unsolicited responses and they are enabled, a response with
    /// their tag in bits 31:26 waits last, unless `MOST_UNSOLICITED` of them wait.
    pub fn plug(&mut self, nid: u8, present: bool)
        ensures { self.new ≡ codecs.plugged self.old nid present }
    {
        let Some(node) = self.graph.raw().node(nid) else {
            return;
        };
        if node.is_pin() {
            let control = self.settings.get(nid, Control::Unsol).unwrap_or(0);
            let told = is_told(node, self.present.has(nid), present, control);
            self.present.set(nid, present);
            if told && self.waiting.has_room() {
                self.waiting.push_unsolicited((control % 64) << 26);
            }
        }
    }

    /// Takes the first item out that waits; the truth value marks an unsolicited response. `None` exactly where nothing
    /// waits.
    pub fn next_answer(&mut self) -> Option<(u32, bool)>
        ensures value { result ≡ option_map queues.marked (slice_get self.old.waiting 0) }
        ensures after { self.new ≡ codecs.without_first self.old }
    {
        match self.waiting.pop() {
            Some(Waiting::Answer(word)) => Some((word, false)),
            Some(Waiting::Unsolicited(word)) => Some((word, true)),
            None => None,
        }
    }

    /// Drops the first answer to a command that waits. False exactly where there is none.
    pub fn lose(&mut self) -> bool
        ensures value { result ≡ list_any codecs.is_answer self.old.waiting }
        ensures after { self.new ≡ codecs.without_answer self.old }
    {
        self.waiting.drop_answer()
    }

    /// Drops all that waits.
    pub fn clear(&mut self)
        ensures { self.new ≡ codecs.cleared self.old }
    {
        self.waiting.clear();
    }

    /// The graph.
    pub fn graph(&self) -> &Graph
        ensures value { result.now ≡ self.now.graph }
        ensures sound { codecs.IsSound self.now }
    {
        &self.graph
    }

    /// What the controls are set to.
    pub fn settings(&self) -> &Settings
        ensures value { result.now ≡ self.now.settings }
        ensures sound { codecs.IsSound self.now }
    {
        &self.settings
    }

    /// What is plugged in.
    pub fn present(&self) -> &Presence
        ensures value { result.now ≡ self.now.present }
        ensures sound { codecs.IsSound self.now }
    {
        &self.present
    }
}

/// Whether a pin with this control of unsolicited responses tells that its presence became another.
fn is_told(node: &RawNode, was: bool, present: bool, control: u32) -> bool
    ensures { result
        ≡ (detects_presence node.now && codecs.changes was present
        && sends_unsolicited node.now && codecs.is_enabled control) }
{
    node.detects_presence()
        && was != present
        && node.sends_unsolicited()
        && has_bit(control, ENABLE)
}
