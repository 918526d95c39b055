//! The line of the input. Each call here appends to a text.
ghost use Rattle.std.specs.Prelude.{◌≡◌, ◌++◌, OnOk, string_bytes};
ghost use Rattle.std.specs.List.{flat_map};
ghost use Rattle.sound_report.specs.PlanLines.{hop_text};
ghost use Rattle.capture_report.specs.CaptureLines as text;

use hda_files::CodecFile;
use route_planner::{Hop, Outcome, PinPlan, Plan};
use sound_report::push_nid;
use std::alloc::AllocError;

/// A hop of a way.
fn push_hop(out: &mut String, hop: &Hop) -> Result<(), AllocError>
    ensures { OnOk result (string_bytes out.new ≡ string_bytes out.old ++ hop_text hop.now) }
{
    push_nid(out, hop.nid)?;
    write!(out, ".{} ", hop.index)
}

/// The hops of a way.
fn push_hops(out: &mut String, hops: &[Hop]) -> Result<(), AllocError>
    ensures { OnOk result (string_bytes out.new ≡ string_bytes out.old ++ flat_map hop_text hops.now) }
{
    for hop in hops {
        push_hop(out, hop)?;
    }
    Ok(())
}

/// The line of an input, where there is a way to it.
fn push_input(out: &mut String, address: u8, entry: &PinPlan) -> Result<(), AllocError>
    ensures { OnOk result (string_bytes out.new ≡ string_bytes out.old ++ text.entry_line_of address entry.now) }
{
    let Outcome::Route(route) = &entry.outcome else {
        return Ok(());
    };
    write!(out, "input {address} via ")?;
    push_hops(out, route.hops.as_slice())?;
    push_nid(out, entry.pin)?;
    out.push_str("\n")
}

/// The lines of a codec's inputs.
fn push_plan(out: &mut String, address: u8, plan: &Plan) -> Result<(), AllocError>
    ensures { OnOk result (string_bytes out.new ≡ string_bytes out.old ++ text.codec_inputs address plan.now) }
{
    for entry in plan.pins.as_slice() {
        push_input(out, address, entry)?;
    }
    Ok(())
}

/// Appends the lines of inputs, codec by codec.
///
/// # Errors
/// Want of memory.
pub(crate) fn push_inputs(
    out: &mut String,
    codecs: &[CodecFile],
    plans: &[Plan],
) -> Result<(), AllocError>
    ensures { OnOk result (string_bytes out.new ≡ string_bytes out.old ++ text.input_lines codecs.now plans.now) }
{
    for (codec, plan) in codecs.iter().zip(plans) {
        push_plan(out, codec.graph.raw().address, plan)?;
    }
    Ok(())
}
