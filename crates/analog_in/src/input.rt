//! The set-up of one analog input.
ghost use Rattle.std.specs.Prelude.{◌≡◌};
ghost use Rattle.input_verbs.proofs.Callers.{input_commands_at, input_open_at, one_input_plan_at};
ghost use Rattle.analog_in.specs.Means.{analog_in};

use codec_graph::Graph;
use hda_items::Items;
use route_planner::Plan;
use route_setup::Setter;
use std::alloc::{AllocError, Global};
use stream_format::Format;
use verb_codes::Command;

/// The set-up of the input of one codec: there the first candidate pin that has an admissible path gets the least one.
/// In every other codec nothing is routed. All other pins are silent, and all other converters have no stream. This
/// project's own.
#[derive(Clone, Copy, Debug)]
pub struct Input {
    /// The address of the codec from which is recorded.
    pub codec: u8,
}

impl Input {
    /// The set-up of the input of the codec at this address.
    pub fn new(codec: u8) -> Input
        ensures { result.codec ≡ codec }
    {
        Input { codec }
    }
}

impl Setter for Input {
    ghost means = { λ setter. analog_in setter.codec };

    ghost one_plan = { λ setter graph format tag. one_input_plan_at setter.codec graph format };

    ghost opens = { λ setter graph plan format tag settings well is some few of. input_open_at setter.codec graph plan
        format tag well is some few settings of };

    ghost encodable = { λ setter. input_commands_at setter.codec };

    fn plan(&self, alloc: Global, graph: &Graph, format: Format) -> Result<Plan, AllocError> {
        if graph.raw().address == self.codec {
            return route_planner::input_plan(alloc, graph, format);
        }
        let pins = Items::new(alloc);
        Ok(Plan { pins })
    }

    fn verbs(
        &self,
        alloc: Global,
        graph: &Graph,
        plan: &Plan,
        format: Format,
        tag: u8,
    ) -> Result<Vec<Command>, AllocError> {
        input_verbs::verbs(alloc, graph, plan, format, tag)
    }
}
