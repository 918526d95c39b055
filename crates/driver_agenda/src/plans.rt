//! The plans of graphs, and the verbs for them.
ghost use Rattle.std.specs.Prelude.{◌≡◌, ◌≤◌, All, IfOk, length};
ghost use Rattle.verb_codes.specs.Verbs.{IsInRange};
ghost use Rattle.driver_agenda.specs.Planned.{ArePlansBy, verbs_for, is_route, has_route, have_route};

use codec_graph::Graph;
use route_planner::{Outcome, Plan};
use route_setup::Setter;
use std::alloc::{AllocError, Global};
use stream_format::Format;
use verb_codes::Command;

/// The tag of the stream that is played. This project's own.
pub(crate) const TAG: u8 = 1;

/// The plan of each graph.
pub(crate) fn plans_of<T: Setter>(
    alloc: Global,
    setter: &T,
    graphs: &[Graph],
    format: Format,
) -> Result<Vec<Plan>, AllocError>
    ensures { IfOk result (λ plans. ArePlansBy (T.means setter.now format TAG).IsPlanBy graphs.now plans.items) }
{
    let mut plans = Vec::with_capacity(alloc, graphs.len())?;
    for graph in graphs {
        let plan = setter.plan(alloc, graph, format)?;
        plans.push(plan)?;
    }
    Ok(plans)
}

/// The verbs of a graph for its plan.
fn verbs_of_one<T: Setter>(
    alloc: Global,
    setter: &T,
    graph: &Graph,
    plan: &Plan,
    format: Format,
) -> Result<Vec<Command>, AllocError>
    requires plan { (T.means setter.now format TAG).IsPlanBy graph.now plan.now }
    requires of_it { graph.now.address ≤ 14 }
    ensures value { IfOk result (λ verbs. verbs.items ≡ (T.means setter.now format TAG).verbs_by graph.now plan.now) }
    ensures in_range { IfOk result (λ verbs. All IsInRange verbs.items) }
{
    let _raw = graph.raw();
    let verbs = setter.verbs(alloc, graph, plan, format, TAG)?;
    Ok(verbs)
}

/// The verbs of each graph for its plan, one graph's after the other's.
pub(crate) fn verbs_of<T: Setter>(
    alloc: Global,
    setter: &T,
    graphs: &[Graph],
    plans: &[Plan],
    format: Format,
) -> Result<Vec<Command>, AllocError>
    requires plans { ArePlansBy (T.means setter.now format TAG).IsPlanBy graphs.now plans.now }
    requires of_them { All (λ graph. graph.address ≤ 14) graphs.now }
    ensures in_range { IfOk result (λ verbs. All IsInRange verbs.items) }
    ensures value { IfOk result (λ verbs. verbs.items ≡ verbs_for (T.means setter.now format TAG).verbs_by graphs.now
        plans.now) }
{
    let mut all = Vec::new(alloc);
    for index in 0..graphs.len() {
        let verbs = verbs_of_one(alloc, setter, &graphs[index], &plans[index], format)?;
        all.extend_from_slice(&verbs)?;
    }
    Ok(all)
}

/// Whether some pin of some plan has a route. This project's own.
pub fn have_route(plans: &[Plan]) -> bool
    ensures { result ≡ have_route plans.now }
{
    plans.iter().any(has_route)
}

/// Whether some pin of the plan has a route.
fn has_route(plan: &Plan) -> bool
    ensures { result ≡ has_route plan.now }
{
    plan.pins
        .as_slice()
        .iter()
        .any(|entry| is_route(&entry.outcome))
}

/// Whether the pin has a route.
fn is_route(outcome: &Outcome) -> bool
    ensures { result ≡ is_route outcome.now }
{
    matches!(outcome, Outcome::Route(_))
}
