//! Laws of the plan of an input, each the contract of a function that does nothing.
ghost use Rattle.std.specs.Prelude.{◌≡◌};
ghost use Rattle.codec_graph.specs.declared.raw.RawCodec.{RawCodec};
ghost use Rattle.route_planner.specs.declared.routes.Plan.{Plan};
ghost use Rattle.route_planner.specs.Inputs.{IsInputPlan};
ghost use Rattle.stream_format.specs.declared.format.Format.{Format};

/// A codec has one plan for an input in each stream format.
pub fn one_input_plan()
    ensures { (codec : RawCodec) (format : Format) (first second : Plan) → IsInputPlan codec format first
        → IsInputPlan codec format second → first ≡ second }
{}
