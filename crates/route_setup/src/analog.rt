//! The set-up of analog outputs.
ghost use Rattle.codec_graph.specs.declared.pin_kind.PinKind.TheVariants as kind;
ghost use Rattle.setup_verbs.proofs.Callers.{lead_to_set_up, all_commands_of, one_plan_of};
ghost use Rattle.route_setup.specs.Means.{analog};

use crate::setter::Setter;
use codec_graph::Graph;
use route_planner::Plan;
use std::alloc::{AllocError, Global};
use stream_format::Format;
use verb_codes::Command;

/// The set-up of analog stereo pins: each gets the least path to a converter that the pins before it leave open.
#[derive(Clone, Copy, Debug)]
pub struct Analog;

impl Setter for Analog {
    ghost means = { λ _. analog };

    ghost one_plan = { λ _ graph format tag. one_plan_of graph format };

    ghost opens = { λ _ graph plan format tag settings well is some few of. lead_to_set_up graph plan format tag well is
        some few settings of };

    ghost encodable = { λ _. all_commands_of kind.Analog };

    fn plan(&self, alloc: Global, graph: &Graph, format: Format) -> Result<Plan, AllocError> {
        route_planner::plan(alloc, graph, format)
    }

    fn verbs(
        &self,
        alloc: Global,
        graph: &Graph,
        plan: &Plan,
        format: Format,
        tag: u8,
    ) -> Result<Vec<Command>, AllocError> {
        setup_verbs::verbs(alloc, graph, plan, format, tag)
    }
}
