//! The lines of plans. Each call here appends to a text.
ghost use Rattle.std.specs.Prelude.{◌≡◌, ◌++◌, OnOk, codes, decimal, string_bytes};
ghost use Rattle.std.specs.List.{flat_map};
ghost use Rattle.sound_report.specs.PlanLines as text;

use hda_files::CodecFile;
use route_planner::{Hop, Outcome, PinPlan, Plan};
use std::alloc::AllocError;

/// Appends a node identifier: two lower hexadecimal digits.
///
/// # Errors
/// Want of memory.
#[tactic(auto, unfolding(crate::specs::PlanLines::nid_text))]
pub fn push_nid(out: &mut String, nid: u8) -> Result<(), AllocError>
    ensures { OnOk result (string_bytes out.new ≡ string_bytes out.old ++ text.nid_text nid) }
{
    out.push_str(hex::encode(*out.allocator(), [nid])?.as_str())
}

/// A number.
fn push_decimal(out: &mut String, n: u8) -> Result<(), AllocError>
    ensures { OnOk result (string_bytes out.new ≡ string_bytes out.old ++ decimal n) }
{
    write!(out, "{n}")
}

/// A hop of a route.
fn push_hop(out: &mut String, hop: &Hop) -> Result<(), AllocError>
    ensures { OnOk result (string_bytes out.new ≡ string_bytes out.old ++ text.hop_text hop.now) }
{
    push_nid(out, hop.nid)?;
    out.push_str(".")?;
    push_decimal(out, hop.index)?;
    out.push_str(" ")
}

/// The hops of a route.
fn push_hops(out: &mut String, hops: &[Hop]) -> Result<(), AllocError>
    ensures { OnOk result (string_bytes out.new ≡ string_bytes out.old ++ flat_map text.hop_text hops.now) }
{
    for hop in hops {
        push_hop(out, hop)?;
    }
    Ok(())
}

/// What was found for a pin, up to its pair.
fn push_entry_head(
    out: &mut String,
    word: &str,
    address: u8,
    entry: &PinPlan,
) -> Result<(), AllocError>
    ensures { OnOk result (string_bytes out.new ≡ string_bytes out.old ++ text.entry_head word.now address entry.now) }
{
    out.push_str(word)?;
    out.push_str(" ")?;
    push_decimal(out, address)?;
    out.push_str(" ")?;
    push_nid(out, entry.pin)?;
    out.push_str(" pair ")?;
    push_decimal(out, entry.pair)
}

/// The line of a pin.
fn push_entry(out: &mut String, address: u8, entry: &PinPlan) -> Result<(), AllocError>
    ensures { OnOk result (string_bytes out.new ≡ string_bytes out.old ++ text.entry_line address entry.now) }
{
    match &entry.outcome {
        Outcome::Route(route) => {
            push_entry_head(out, "route", address, entry)?;
            out.push_str(" via ")?;
            push_hops(out, route.hops.as_slice())?;
            push_nid(out, route.converter)?;
        }
        Outcome::Blocked => push_entry_head(out, "blocked", address, entry)?,
        Outcome::NoPath => push_entry_head(out, "nopath", address, entry)?,
    }
    out.push_str("\n")
}

/// The lines of a codec's plan.
fn push_plan(out: &mut String, address: u8, plan: &Plan) -> Result<(), AllocError>
    ensures { OnOk result (string_bytes out.new ≡ string_bytes out.old ++ text.plan_lines address plan.now) }
{
    for entry in plan.pins.as_slice() {
        push_entry(out, address, entry)?;
    }
    Ok(())
}

/// Appends the lines of plans, codec by codec: a line for each candidate pin.
///
/// # Errors
/// Want of memory.
pub fn push_plans(out: &mut String, codecs: &[CodecFile], plans: &[Plan]) -> Result<(), AllocError>
    ensures { OnOk result (string_bytes out.new ≡ string_bytes out.old ++ text.plans_lines codecs.now plans.now) }
{
    for (codec, plan) in codecs.iter().zip(plans) {
        push_plan(out, codec.graph.raw().address, plan)?;
    }
    Ok(())
}
