//! How many commands it takes to walk over a machine's codecs and to set them up for a capture.
ghost use Rattle.std.specs.Prelude.{◌≡◌, ◌≤◌, ◌+◌, IfOk, length};
ghost use Rattle.codec_walk.specs.Commands.{walk_commands};
ghost use Rattle.driver_bring_up.specs.Addresses.{most_codecs};
ghost use Rattle.laws_start.specs.Tasks.{HavePlansBy};
ghost use Rattle.program_captures.specs.Inputs.{capture_means, capture_total};

use analog_in::Input;
use codec_graph::Graph;
use codec_walk::counts_the_commands;
use driver_bring_up::TAG;
use hda_files::CodecFile;
use program_runs::walk_total;
use route_planner::Plan;
use route_setup::Setter;
use std::alloc::{AllocError, Global};
use stream_format::Format;

/// How many commands are sent to these codecs, four at most, before the input is recorded in this format: those of the
/// walks over them, and then the verbs of each by its plan. Takes memory for the verbs of one codec at a time. This
/// project's own.
///
/// # Errors
/// Want of memory.
pub(crate) fn capture_count(
    alloc: Global,
    input: Input,
    codecs: &[CodecFile],
    plans: &[Plan],
    format: Format,
) -> Result<u32, AllocError>
    requires few { length codecs.now ≤ most_codecs }
    requires plans { HavePlansBy (capture_means input.codec format) codecs.now plans.now }
    ensures { IfOk result (λ count. count ≡ capture_total input.codec format codecs.now plans.now) }
{
    let mut count = 0;
    for index in 0..codecs.len() {
        count += codec_count(alloc, input, &codecs[index], &plans[index], format)?;
    }
    Ok(count)
}

/// How many of them go to one codec.
fn codec_count(
    alloc: Global,
    input: Input,
    codec: &CodecFile,
    plan: &Plan,
    format: Format,
) -> Result<u32, AllocError>
    requires { (capture_means input.codec format).IsPlanBy codec.now.graph plan.now }
    ensures value { IfOk result (λ count. count ≡ length (walk_commands codec.now.graph)
        + length ((capture_means input.codec format).verbs_by codec.now.graph plan.now)) }
    ensures few { IfOk result (λ count. count ≤ 50000) }
{
    let verbs = verb_count(alloc, input, &codec.graph, plan, format)?;
    Ok(walk_count(codec) + verbs)
}

/// How many commands the walk over a codec has.
fn walk_count(codec: &CodecFile) -> u32
    ensures value { result ≡ length (walk_commands codec.now.graph) }
    ensures few { result ≤ 10000 }
{
    counts_the_commands();
    let _raw = codec.graph.raw();
    walk_total(std::slice::from_ref(codec)) as u32
}

/// How many verbs set the codec up for its plan.
fn verb_count(
    alloc: Global,
    input: Input,
    graph: &Graph,
    plan: &Plan,
    format: Format,
) -> Result<u32, AllocError>
    requires { (capture_means input.codec format).IsPlanBy graph.now plan.now }
    ensures value { IfOk result (λ count.
        count ≡ length ((capture_means input.codec format).verbs_by graph.now plan.now)) }
    ensures few { IfOk result (λ count. count ≤ 40000) }
{
    let _raw = graph.raw();
    let verbs = input.verbs(alloc, graph, plan, format, TAG)?;
    Ok(verbs.len() as u32)
}
