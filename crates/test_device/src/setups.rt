//! The verbs that set codecs up.
use crate::formats::format_of;
use analog_in::Input;
use codec_graph::Graph;
use route_planner::plan;
use route_setup::{Analog, Setter, verbs};
use std::alloc::{AllocError, Global};
use std::fmt::Write;
use stream_format::Format;
use test_cases::{number_of, push_hex};
use test_codecs::codec_of;
use verb_codes::{Command, encode};

/// The tag of the stream.
const TAG: u8 = 1;

/// The words that set the codec of a file up for a format, with the tag 1.
pub fn tell(alloc: Global, words: &[Vec<u8>]) -> Result<String, AllocError> {
    let [file, rate, channels, bits] = words else {
        return format!(in alloc; "no codec");
    };
    let Some(codec) = codec_of(alloc, file) else {
        return format!(in alloc; "refused");
    };
    let format = format_of(rate, channels, bits);
    let plan = plan(alloc, &codec.graph, format)?;
    let commands = verbs(alloc, &codec.graph, &plan, format, TAG)?;
    let mut asked = Vec::new(alloc);
    for command in &commands {
        asked.push(encode(command))?;
    }
    let mut text = String::new(alloc);
    push_hex(&mut text, asked.as_slice())?;
    Ok(text)
}

/// The verbs of any setter for a graph, with the tag 15.
fn commands_by<S: Setter>(
    alloc: Global,
    setter: &S,
    graph: &Graph,
    format: Format,
) -> Result<Vec<Command>, AllocError> {
    let plan = setter.plan(alloc, graph, format)?;
    setter.verbs(alloc, graph, &plan, format, 15)
}

/// The nodes and verbs that set the codec of a file up for a format, by the setter.
pub fn tell_setter(alloc: Global, words: &[Vec<u8>]) -> Result<String, AllocError> {
    let [file, rate, channels, bits] = words else {
        return format!(in alloc; "no codec");
    };
    let Some(codec) = codec_of(alloc, file) else {
        return format!(in alloc; "refused");
    };
    let format = format_of(rate, channels, bits);
    told(alloc, &commands_by(alloc, &Analog, &codec.graph, format)?)
}

/// The same for the input of the codec at an address.
pub fn tell_input(alloc: Global, words: &[Vec<u8>]) -> Result<String, AllocError> {
    let [file, address, rate, channels, bits] = words else {
        return format!(in alloc; "no codec");
    };
    let Some(codec) = codec_of(alloc, file) else {
        return format!(in alloc; "refused");
    };
    let format = format_of(rate, channels, bits);
    let input = Input::new(u8::try_from(number_of(address)).unwrap_or(0));
    told(alloc, &commands_by(alloc, &input, &codec.graph, format)?)
}

/// A line for each command: the node and the verb.
fn told(alloc: Global, commands: &[Command]) -> Result<String, AllocError> {
    let mut text = String::new(alloc);
    for command in commands {
        write!(text, "\n  {:02x} {:?}", command.nid, command.verb)?;
    }
    Ok(text)
}
