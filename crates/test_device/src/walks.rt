//! Walks over a codec that answers as it should, and over such as lie.
ghost use Rattle.codec_graph.specs.Settings.{IsSettingsOf};

use codec_graph::{Graph, Presence, Settings, answer};
use codec_walk::{Walk, WalkError};
use std::alloc::{AllocError, Global};
use std::fmt::Write;
use test_cases::{number_of, push_hex};
use test_codecs::codec_of;
use verb_codes::encode;

/// The most commands of a walk here.
const MOST_COMMANDS: u32 = 10_000;

/// What is told in place of the answer to a word, of lies that each have a word and what is told.
fn told(lies: &[Vec<u8>], word: u32, honest: u32) -> u32 {
    for lie in lies.chunks(2) {
        if let [asked, answer] = lie {
            if number_of(asked) == word {
                return number_of(answer);
            }
        }
    }
    honest
}

/// The words that a walk asked, and what came of it.
#[derive(Drop)]
struct Walked {
    asked: Vec<u32>,
    outcome: Option<Result<Graph, WalkError>>,
}

/// Walks over codec 0, which is told these lies, or the same at each word.
fn walk_over(
    alloc: Global,
    graph: &Graph,
    settings: &Settings,
    present: &Presence,
    lie: (Option<u32>, &[Vec<u8>]),
) -> Result<Walked, AllocError>
    requires { IsSettingsOf graph.now settings.now }
{
    let (always, lies) = lie;
    let mut walk = Walk::new(alloc, 0)?;
    let mut asked = Vec::new(alloc);
    for _turn in 0..MOST_COMMANDS {
        let Some(command) = walk.next() else {
            let outcome = Some(walk.finish());
            return Ok(Walked { asked, outcome });
        };
        let honest = answer(graph, settings, present, &command);
        let word = encode(&command);
        asked.push(word)?;
        walk.take(always.unwrap_or(told(lies, word, honest)))?;
    }
    Ok(Walked {
        asked,
        outcome: None,
    })
}

/// How many words were asked, and the graph that was found, as beside the one that is there, or what is wrong.
fn walked_text(alloc: Global, walked: &Walked, graph: &Graph) -> Result<String, AllocError> {
    let asked = walked.asked.len();
    match &walked.outcome {
        Some(Ok(found)) => {
            let there = format!(in alloc; "{graph:?}")?;
            let found = format!(in alloc; "{found:?}")?;
            let which = if found.as_str() == there.as_str() {
                "the graph of the file"
            } else {
                "another graph"
            };
            format!(in alloc; "{asked} words, {which}")
        }
        Some(Err(fault)) => format!(in alloc; "{asked} words, {fault:?}"),
        None => format!(in alloc; "{asked} words and more"),
    }
}

/// What comes of a walk over the codec of a file, which lies where it is asked some words.
pub fn tell(alloc: Global, words: &[Vec<u8>]) -> Result<String, AllocError> {
    let [file, lies @ ..] = words else {
        return format!(in alloc; "no codec");
    };
    let Some(codec) = codec_of(alloc, file) else {
        return format!(in alloc; "refused");
    };
    let walked = walk_over(
        alloc,
        &codec.graph,
        &codec.settings,
        &codec.present,
        (None, lies),
    )?;
    walked_text(alloc, &walked, &codec.graph)
}

/// What comes of a walk over the codec of a file where each word is answered by the same.
pub fn tell_always(alloc: Global, words: &[Vec<u8>]) -> Result<String, AllocError> {
    let [file, answer] = words else {
        return format!(in alloc; "no answer");
    };
    let Some(codec) = codec_of(alloc, file) else {
        return format!(in alloc; "refused");
    };
    let walked = walk_over(
        alloc,
        &codec.graph,
        &codec.settings,
        &codec.present,
        (Some(number_of(answer)), &[]),
    )?;
    walked_text(alloc, &walked, &codec.graph)
}

/// Of the words of a walk over the codec of a file so many, from one on.
pub fn tell_asked(alloc: Global, words: &[Vec<u8>]) -> Result<String, AllocError> {
    let [file, first, count] = words else {
        return format!(in alloc; "no words");
    };
    let Some(codec) = codec_of(alloc, file) else {
        return format!(in alloc; "refused");
    };
    let walked = walk_over(
        alloc,
        &codec.graph,
        &codec.settings,
        &codec.present,
        (None, &[]),
    )?;
    let first = number_of(first) as usize;
    let end = first.saturating_add(number_of(count) as usize);
    let mut text = String::new(alloc);
    push_hex(&mut text, walked.asked.get(first..end).unwrap_or(&[]))?;
    Ok(text)
}

/// Puts words of a codec and of some of its nodes, and the connection list of each of these.
fn push_found(text: &mut String, graph: &Graph, nodes: &[Vec<u8>]) -> Result<(), AllocError> {
    let codec = graph.raw();
    write!(
        text,
        "vendor {:08x}, group {:02x}",
        codec.vendor, codec.group
    )?;
    write!(text, ", {} widgets from {:02x}", codec.count, codec.first)?;
    for node in nodes {
        let nid = u8::try_from(number_of(node)).unwrap_or(0);
        if let Some(node) = codec.node(nid) {
            write!(
                text,
                "\n  {nid:02x}: pcm {:x}, formats {:x}",
                node.pcm, node.formats
            )?;
            write!(text, ", amp_out {:x}, power {:x}", node.amp_out, node.power)?;
            write!(
                text,
                ", pin_caps {:x}, default {:x}, list ",
                node.pin_caps, node.default
            )?;
            push_hex(text, node.list.as_slice())?;
        }
    }
    Ok(())
}

/// Words of the graph that a walk over the codec of a file finds, and of some of its nodes.
pub fn tell_found(alloc: Global, words: &[Vec<u8>]) -> Result<String, AllocError> {
    let [file, nodes @ ..] = words else {
        return format!(in alloc; "no codec");
    };
    let Some(codec) = codec_of(alloc, file) else {
        return format!(in alloc; "refused");
    };
    let walked = walk_over(
        alloc,
        &codec.graph,
        &codec.settings,
        &codec.present,
        (None, &[]),
    )?;
    let mut text = String::new(alloc);
    match &walked.outcome {
        Some(Ok(graph)) => push_found(&mut text, graph, nodes)?,
        _ => text.push_str("no graph")?,
    }
    Ok(text)
}
