//! Laws of the set-up verbs, each the contract of a function that does nothing.
ghost use Rattle.std.specs.Prelude.{◌≤◌, ℕ, All};
ghost use Rattle.codec_graph.specs.declared.raw.RawCodec.{RawCodec};
ghost use Rattle.codec_graph.specs.Cycles.{IsWellFormed};
ghost use Rattle.stream_format.specs.declared.format.Format.{Format};
ghost use Rattle.route_planner.specs.declared.routes.Plan.{Plan};
ghost use Rattle.codec_graph.specs.Settings.{Entries, IsSettingsOf};
ghost use Rattle.codec_graph.specs.declared.pin_kind.PinKind.TheVariants.{Digital};
ghost use Rattle.route_planner.specs.Plans.{IsDigitalPlan, IsPlan};
ghost use Rattle.setup_verbs.specs.VerbList.{setup_verbs, setup_verbs_as};
ghost use Rattle.setup_verbs.specs.SetUp.{IsCommandOf, IsDigitallySetUp, LeadToSetUp, settings_after};

/// The set-up verbs of a well-formed graph's plan lead from any settings of the graph to settings that are set up:
/// every route of the plan is open, and every other pin widget is silent. Each goes to the graph's codec, and can be
/// encoded where that is one of 0 to 14.
pub fn setup_verbs_set_up()
    ensures set_up { (graph : RawCodec) (plan : Plan) (format : Format) (tag : ℕ) → IsWellFormed graph
        → IsPlan graph format plan
        → 1 ≤ tag → tag ≤ 15 → LeadToSetUp graph plan format tag (setup_verbs graph plan format tag) }
    ensures encodable { (graph : RawCodec) (plan : Plan) (format : Format) (tag : ℕ) → IsWellFormed graph
        → IsPlan graph format plan
        → tag ≤ 15 → All (IsCommandOf graph) (setup_verbs graph plan format tag) }
{}

/// The set-up verbs of a well-formed graph's digital plan lead from any settings of the graph to settings that are set
/// up for its digital pins: each route's pin hears the stream's first pair digitally, and every other pin widget hears
/// nothing, as an analog pin and as a digital one.
pub fn digital_verbs_set_up()
    ensures set_up { (graph : RawCodec) (plan : Plan) (format : Format) (tag : ℕ) → IsWellFormed graph
        → IsDigitalPlan graph format plan → 1 ≤ tag → tag ≤ 15 → (settings : Entries) → IsSettingsOf graph settings
        → IsDigitallySetUp graph (settings_after graph settings (setup_verbs_as Digital graph plan format tag)) plan
        format tag }
    ensures encodable { (graph : RawCodec) (plan : Plan) (format : Format) (tag : ℕ) → IsWellFormed graph
        → IsDigitalPlan graph format plan
        → tag ≤ 15 → All (IsCommandOf graph) (setup_verbs_as Digital graph plan format tag) }
{}
