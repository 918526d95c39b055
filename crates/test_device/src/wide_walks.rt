//! Walks over codecs that tell as many widgets, each with as long a list, as answers can.
use codec_graph::Graph;
use codec_walk::{Walk, WalkError};
use std::alloc::{AllocError, Global};
use std::fmt::Write;
use test_cases::{number_of, push_hex};
use verb_codes::{Command, Verb};

/// The most commands of a walk here.
const MOST_COMMANDS: u32 = 10_000;

/// A codec all of whose widgets are alike: vendor defined, with a connection list. Its function group is the node 1.
#[derive(Clone, Copy)]
struct Alike {
    /// The word of the group's widgets: the first in bits 23:16, how many in 7:0.
    widgets: u32,
    /// The length of each list: bit 7 for the long form, the number of entries in 6:0.
    length: u32,
    /// Each word of each list.
    word: u32,
}

impl Alike {
    /// What the codec answers.
    fn answer(&self, command: &Command) -> u32 {
        match command.verb {
            Verb::GetParam(0x04) if command.nid == 0 => 0x0001_0001,
            Verb::GetParam(0x04) => self.widgets,
            Verb::GetParam(0x05) => 1,
            Verb::GetParam(0x09) => 0x00F0_0100,
            Verb::GetParam(0x0E) => self.length,
            Verb::GetList(_) => self.word,
            _ => 0,
        }
    }
}

/// Walks over the codec: how many commands are asked, and what comes of it.
fn walked(
    alloc: Global,
    codec: &Alike,
) -> Result<(u32, Option<Result<Graph, WalkError>>), AllocError> {
    let mut walk = Walk::new(alloc, 0)?;
    for asked in 0..MOST_COMMANDS {
        let Some(command) = walk.next() else {
            return Ok((asked, Some(walk.finish())));
        };
        walk.take(codec.answer(&command))?;
    }
    Ok((MOST_COMMANDS, None))
}

/// Puts the widgets of a graph, and the connection lists of the first one and of the last.
fn push_graph(text: &mut String, graph: &Graph) -> Result<(), AllocError> {
    let codec = graph.raw();
    write!(
        text,
        "group {:02x}, {} widgets from {:02x}",
        codec.group, codec.count, codec.first
    )?;
    for nid in [0x02, 0x7F] {
        if let Some(node) = codec.node(nid) {
            write!(text, "\n  {nid:02x} ")?;
            push_hex(text, node.list.as_slice())?;
        }
    }
    Ok(())
}

/// What comes of a walk over a codec with this word of its widgets, this length of each list, and this word of each
/// list.
pub fn tell(alloc: Global, words: &[Vec<u8>]) -> Result<String, AllocError> {
    let [widgets, length, word] = words else {
        return format!(in alloc; "no codec");
    };
    let codec = Alike {
        widgets: number_of(widgets),
        length: number_of(length),
        word: number_of(word),
    };
    let (asked, outcome) = walked(alloc, &codec)?;
    let mut text = format!(in alloc; "{asked} words, ")?;
    match outcome {
        Some(Ok(graph)) => push_graph(&mut text, &graph)?,
        Some(Err(fault)) => write!(text, "{fault:?}")?,
        None => text.push_str("and more")?,
    }
    Ok(text)
}
