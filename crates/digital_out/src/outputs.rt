//! The set-up of the output pins of a kind.
ghost use Rattle.setup_verbs.proofs.Callers.{lead_to_set_up_for, all_commands_of, one_plan_as};
ghost use Rattle.digital_out.specs.Means.{outputs};

use codec_graph::Graph;
use route_planner::{PinKind, Plan};
use route_setup::Setter;
use std::alloc::{AllocError, Global};
use stream_format::Format;
use verb_codes::Command;

/// The set-up of the output pins of a kind, for callers that choose the kind while they run: of analog pins it is that
/// of [`route_setup::Analog`], and of digital ones that of [`crate::Digital`]. This project's own.
#[derive(Clone, Copy, Debug)]
pub struct Outputs {
    /// Which pins get routes.
    pub kind: PinKind,
}

impl Setter for Outputs {
    ghost means = { λ setter. outputs setter.kind };

    ghost one_plan = { λ setter graph format tag. one_plan_as setter.kind graph format };

    ghost opens = { λ setter graph plan format tag settings well is some few of. lead_to_set_up_for setter.kind graph
        plan format tag well is some few settings of };

    ghost encodable = { λ setter. all_commands_of setter.kind };

    fn plan(&self, alloc: Global, graph: &Graph, format: Format) -> Result<Plan, AllocError> {
        route_planner::plan_as(alloc, self.kind, graph, format)
    }

    fn verbs(
        &self,
        alloc: Global,
        graph: &Graph,
        plan: &Plan,
        format: Format,
        tag: u8,
    ) -> Result<Vec<Command>, AllocError> {
        setup_verbs::verbs_as(alloc, self.kind, graph, plan, format, tag)
    }
}
