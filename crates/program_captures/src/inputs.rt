//! The codec from which is recorded, and the plans of all.
ghost use Rattle.std.specs.Prelude.{◌≡◌, None, Ok, IfOk, IfSome, []};
ghost use Rattle.program_captures.specs.Inputs.{Ascend, HasNoInput, IsInputOf};
ghost use Rattle.program_captures.specs.Finding.{IsNextPlan, address_with};

use codec_graph::Graph;
use hda_files::CodecFile;
use hda_items::Items;
use route_planner::{Plan, input_plan};
use std::alloc::{AllocError, Global};
use stream_format::Format;

/// The plan of the next codec: that of its graph for an input, or one without an entry where the codec from which is
/// recorded was found before it.
fn next_plan(
    alloc: Global,
    found: Option<u8>,
    graph: &Graph,
    format: Format,
) -> Result<Plan, AllocError>
    ensures { IfOk result (λ plan. IsNextPlan found graph.now format plan) }
{
    match found {
        Some(_) => Ok(Plan {
            pins: Items::new(alloc),
        }),
        None => input_plan(alloc, graph, format),
    }
}

/// The address of the codec from which is recorded, with the plan of the next codec.
fn address_with(found: Option<u8>, graph: &Graph, plan: &Plan) -> Option<u8>
    ensures { result ≡ address_with found graph.now plan.now }
{
    if found.is_some() || plan.pins.len() == 0 {
        return found;
    }
    Some(graph.raw().address)
}

/// The input of a machine in a format: the address of the first codec, ascending, of which some candidate pin has an
/// admissible path; and the plan of each codec, in order. That codec's plan has the first such pin with its least path,
/// and the plan of each other codec has no entry. `None` where no codec has such a pin. This project's own.
///
/// # Errors
/// Want of memory.
pub fn inputs_of(
    alloc: Global,
    codecs: &[CodecFile],
    format: Format,
) -> Result<Option<(u8, Vec<Plan>)>, AllocError>
    requires { Ascend codecs.now }
    ensures some { IfOk result (λ found. IfSome found (λ input. IsInputOf format codecs.now input.0 input.1.items)) }
    ensures none { result ≡ Ok None → HasNoInput format codecs.now }
{
    let mut plans = Vec::new(alloc);
    let mut found = None;
    for codec in codecs {
        let plan = next_plan(alloc, found, &codec.graph, format)?;
        found = address_with(found, &codec.graph, &plan);
        plans.push(plan)?;
    }
    match found {
        Some(address) => Ok(Some((address, plans))),
        None => Ok(None),
    }
}
