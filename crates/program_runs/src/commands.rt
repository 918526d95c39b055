//! How many commands a machine's codecs get.
ghost use Rattle.std.specs.Prelude.{◌≡◌, ◌≤◌, ◌+◌, IfOk, length, filter, if◌then◌else◌};
ghost use Rattle.codec_graph.specs.Listed.{HasReadableList};
ghost use Rattle.codec_graph.specs.Widget.{has_list};
ghost use Rattle.codec_walk.specs.Commands.{walk_commands, node_count};
ghost use Rattle.codec_walk.specs.Words.{applies, node_words, words_for};
ghost use Rattle.driver_bring_up.specs.Addresses.{most_codecs};
ghost use Rattle.route_planner.specs.Plans.{IsPlanAs};
ghost use Rattle.program_runs.specs.Outputs.{HavePlansOf, commands_as, verbs_by_as};
ghost use Rattle.program_runs.specs.WalkTotals.{walk_total};

use codec_graph::{Graph, RawNode};
use codec_walk::counts_the_commands;
use driver_bring_up::TAG;
use hda_files::CodecFile;
use route_planner::{PinKind, Plan};
use setup_verbs::verbs_as;
use std::alloc::{AllocError, Global};
use stream_format::Format;

/// How many commands are sent to these codecs, four at most, before sound of this format is played through their pins
/// of the kind: those of the walks over them, and then the set-up verbs of each by its plan. Takes memory for the verbs
/// of one codec at a time. This project's own.
///
/// # Errors
/// Want of memory.
pub fn command_count(
    alloc: Global,
    kind: PinKind,
    codecs: &[CodecFile],
    plans: &[Plan],
    format: Format,
) -> Result<u32, AllocError>
    requires few { length codecs.now ≤ most_codecs }
    requires plans { HavePlansOf kind format codecs.now plans.now }
    ensures { IfOk result (λ count. count ≡ length (commands_as kind format codecs.now plans.now)) }
{
    let mut count = 0;
    for index in 0..codecs.len() {
        count += codec_count(alloc, kind, &codecs[index].graph, &plans[index], format)?;
    }
    Ok(count)
}

/// How many commands the walks over these codecs have: those that ask what the codecs are, before any sets one up. This
/// project's own.
pub fn walk_total(codecs: &[CodecFile]) -> u128
    ensures { result ≡ walk_total codecs.now }
{
    let mut count = 0u128;
    for codec in codecs {
        count += u128::from(walk_count(&codec.graph));
    }
    count
}

/// How many commands of a walk go to the codec's root and its audio function group.
const FIRST_COMMANDS: u32 = 10;

/// How many of them go to one codec.
fn codec_count(
    alloc: Global,
    kind: PinKind,
    graph: &Graph,
    plan: &Plan,
    format: Format,
) -> Result<u32, AllocError>
    requires { IsPlanAs kind graph.now format plan.now }
    ensures value { IfOk result (λ count.
        count ≡ length (walk_commands graph.now) + length (verbs_by_as kind format graph.now plan.now)) }
    ensures few { IfOk result (λ count. count ≤ 50000) }
{
    let verbs = verb_count(alloc, kind, graph, plan, format)?;
    Ok(walk_count(graph) + verbs)
}

/// How many commands the walk over a codec has.
fn walk_count(graph: &Graph) -> u32
    ensures value { result ≡ length (walk_commands graph.now) }
    ensures few { result ≤ 10000 }
{
    counts_the_commands();
    let mut count = FIRST_COMMANDS;
    for node in graph.raw().nodes.as_slice() {
        count += node_count(node);
    }
    count
}

/// How many of them are a widget's.
fn node_count(node: &RawNode) -> u32
    requires { HasReadableList node.now }
    ensures value { result ≡ node_count node.now }
    ensures few { result ≤ 73 }
{
    1 + word_count(node) + connection_count(node) + u32::from(node.has_power_control())
}

/// How many words between its capabilities and its connection list the widget has.
fn word_count(node: &RawNode) -> u32
    ensures value { result ≡ length (filter (applies node.now) node_words) }
    ensures few { result ≤ 6 }
{
    let formats = node.is_converter() && node.overrides_formats();
    let input = node.overrides_amplifiers() && node.has_input_amplifier();
    let output = node.overrides_amplifiers() && node.has_output_amplifier();
    2 * u32::from(formats) + 2 * u32::from(node.is_pin()) + u32::from(input) + u32::from(output)
}

/// How many commands ask for the widget's connection list: one for its length, and one for each of its words.
fn connection_count(node: &RawNode) -> u32
    requires { HasReadableList node.now }
    ensures value { result ≡ (if has_list node.now then 1 + words_for node.now.long (length node.now.entries) else 0) }
    ensures few { result ≤ 65 }
{
    if node.has_list() {
        1 + list_word_count(node)
    } else {
        0
    }
}

/// How many words the widget's connection list has: of two entries each in the long form, and else of four (HDA 1.0a,
/// 7.3.3.3).
fn list_word_count(node: &RawNode) -> u32
    requires { HasReadableList node.now }
    ensures value { result ≡ words_for node.now.long (length node.now.entries) }
    ensures few { result ≤ 64 }
{
    let entries = node.entries.len() as u32;
    if node.long {
        entries.div_ceil(2)
    } else {
        entries.div_ceil(4)
    }
}

/// How many verbs set the codec up for its plan.
fn verb_count(
    alloc: Global,
    kind: PinKind,
    graph: &Graph,
    plan: &Plan,
    format: Format,
) -> Result<u32, AllocError>
    requires { IsPlanAs kind graph.now format plan.now }
    ensures value { IfOk result (λ count. count ≡ length (verbs_by_as kind format graph.now plan.now)) }
    ensures few { IfOk result (λ count. count ≤ 40000) }
{
    let _raw = graph.raw();
    let verbs = verbs_as(alloc, kind, graph, plan, format, TAG)?;
    Ok(verbs.len() as u32)
}
