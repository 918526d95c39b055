//! The settings of codecs, and how they answer commands.
ghost use Rattle.codec_graph.specs.Settings.{IsSettingsOf};

use codec_graph::{Graph, Presence, Settings, answer};
use std::alloc::{AllocError, Global};
use std::fmt::Write;
use test_cases::number_of;
use test_codecs::{codec_of, push_controls};
use verb_codes::decode;

/// Puts the answer to a word, and what the controls of its node are set to then.
fn push_answer(
    text: &mut String,
    graph: &Graph,
    settings: &mut Settings,
    present: &Presence,
    word: u32,
) -> Result<(), AllocError>
    requires { IsSettingsOf graph.now settings.old }
    ensures { IsSettingsOf graph.now settings.new }
{
    let Some(command) = decode(word) else {
        return write!(text, "\n  {word:08x} no command");
    };
    let given = answer(graph, settings, present, &command);
    settings.apply(graph, &command);
    write!(text, "\n  {word:08x} {given:08x}")?;
    push_controls(text, settings, command.nid)
}

/// Puts the same of some words in turn.
fn push_answers(
    text: &mut String,
    graph: &Graph,
    settings: &mut Settings,
    present: &Presence,
    asked: &[Vec<u8>],
) -> Result<(), AllocError>
    requires { IsSettingsOf graph.now settings.old }
{
    for word in asked {
        push_answer(text, graph, settings, present, number_of(word))?;
    }
    Ok(())
}

/// The answers of a file's codec to words in turn, where something is plugged in at a node. The codec is as it is at
/// its opening.
pub fn tell(alloc: Global, words: &[Vec<u8>]) -> Result<String, AllocError> {
    let [file, plugged, asked @ ..] = words else {
        return format!(in alloc; "no codec");
    };
    let Some(codec) = codec_of(alloc, file) else {
        return format!(in alloc; "refused");
    };
    let graph = codec.graph.copy()?;
    let mut settings = Settings::opening(alloc, &graph)?.copy()?;
    let mut present = Presence::none();
    if let Ok(plugged) = u8::try_from(number_of(plugged)) {
        if plugged < 128 {
            present.set(plugged, true);
        }
    }
    let present = present.copy();
    let mut text = String::new(alloc);
    push_answers(&mut text, &graph, &mut settings, &present, asked)?;
    Ok(text)
}
