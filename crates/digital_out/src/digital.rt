//! The set-up of digital outputs.
ghost use Rattle.codec_graph.specs.declared.pin_kind.PinKind.TheVariants as kind;
ghost use Rattle.setup_verbs.proofs.Callers.{lead_to_digital_set_up, all_commands_of, one_plan_as};
ghost use Rattle.digital_out.specs.Means.{digital};

use codec_graph::Graph;
use route_planner::{PinKind, Plan};
use route_setup::Setter;
use std::alloc::{AllocError, Global};
use stream_format::Format;
use verb_codes::Command;

/// The set-up of stereo S/PDIF pins: each gets the least path to a digital converter that the pins before it leave
/// open, and plays the first pair of channels. All other pins are silent, analog ones too.
#[derive(Clone, Copy, Debug)]
pub struct Digital;

impl Setter for Digital {
    ghost means = { λ _. digital };

    ghost one_plan = { λ _ graph format tag. one_plan_as kind.Digital graph format };

    ghost opens = { λ _ graph plan format tag settings well is some few of. lead_to_digital_set_up graph plan format tag
        well is some few settings of };

    ghost encodable = { λ _. all_commands_of kind.Digital };

    fn plan(&self, alloc: Global, graph: &Graph, format: Format) -> Result<Plan, AllocError> {
        route_planner::digital_plan(alloc, graph, format)
    }

    fn verbs(
        &self,
        alloc: Global,
        graph: &Graph,
        plan: &Plan,
        format: Format,
        tag: u8,
    ) -> Result<Vec<Command>, AllocError> {
        setup_verbs::verbs_as(alloc, PinKind::Digital, graph, plan, format, tag)
    }
}
