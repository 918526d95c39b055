//! Laws of the verbs of an input, each the contract of a function that does nothing.
ghost use Rattle.std.specs.Prelude.{◌≡◌, ◌≤◌, ℕ, [], ◌∷◌, All};
ghost use Rattle.codec_graph.specs.declared.raw.RawCodec.{RawCodec};
ghost use Rattle.codec_graph.specs.Cycles.{IsWellFormed};
ghost use Rattle.codec_graph.specs.Settings.{Entries};
ghost use Rattle.stream_format.specs.declared.format.Format.{Format};
ghost use Rattle.stream_format.specs.Words.{format_word};
ghost use Rattle.route_planner.specs.declared.routes.Route.{Route};
ghost use Rattle.route_planner.specs.declared.routes.Outcome.TheVariants as outcome;
ghost use Rattle.route_planner.specs.declared.routes.PinPlan.{PinPlan};
ghost use Rattle.route_planner.specs.declared.routes.Plan.{Plan};
ghost use Rattle.route_planner.specs.Inputs.{IsInputPlan};
ghost use Rattle.setup_verbs.specs.SetUp.{IsCommandOf};
ghost use Rattle.input_verbs.specs.InputVerbs.{input_verbs};
ghost use Rattle.input_verbs.specs.OpenInputs.{IsInputPlanOrNone, IsOpenIn, LeadToOpenIn, TakeAlone};

/// The verbs of a well-formed graph for its plan for an input, or for no entry, lead from any settings of the graph to
/// ones with which the input is open: the route's converter gives the stream and hears the route's pin, and no other
/// input converter has the stream's tag. Each goes to the graph's codec, and can be encoded where that is one of 0 to
/// 14.
pub fn input_verbs_open()
    ensures opens { (graph : RawCodec) (plan : Plan) (format : Format) (tag : ℕ) → IsWellFormed graph
        → IsInputPlanOrNone graph format plan
        → 1 ≤ tag → tag ≤ 15 → LeadToOpenIn graph plan format tag (input_verbs graph plan format tag) }
    ensures encodable { (graph : RawCodec) (plan : Plan) (format : Format) (tag : ℕ) → IsWellFormed graph
        → IsInputPlanOrNone graph format plan
        → tag ≤ 15 → All (IsCommandOf graph) (input_verbs graph plan format tag) }
{}

/// A graph has one list of verbs for an input in each stream format and with each tag.
pub fn one_input_verbs()
    ensures { (graph : RawCodec) (format : Format) (tag : ℕ) (first second : Plan) → IsInputPlan graph format first
        → IsInputPlan graph format second
        → input_verbs graph first format tag ≡ input_verbs graph second format tag }
{}

/// Where an input is open, just its route's converter takes the stream, of all nodes of the codec; and none does where
/// the plan has no entry.
pub fn an_open_input_takes_alone()
    ensures one { (graph : RawCodec) (plan : Plan) (format : Format) (tag : ℕ) (settings : Entries) (entry : PinPlan)
        (route : Route) → IsWellFormed graph → IsInputPlan graph format plan → 1 ≤ tag
        → IsOpenIn graph settings plan format tag
        → plan.pins ≡ entry ∷ [] → entry.outcome ≡ outcome.Route route
        → TakeAlone graph settings tag (format_word format) (route.converter ∷ []) }
    ensures none { (graph : RawCodec) (plan : Plan) (format : Format) (tag : ℕ) (settings : Entries)
        → IsOpenIn graph settings plan format tag
        → plan.pins ≡ [] → TakeAlone graph settings tag (format_word format) [] }
{}
