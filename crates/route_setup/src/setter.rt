//! What a driver asks of a set-up.
ghost use Rattle.std.specs.Prelude.{◌≡◌, ◌≤◌, ℕ, All, IfOk};
ghost use Rattle.codec_graph.specs.declared.raw.RawCodec.{RawCodec};
ghost use Rattle.codec_graph.specs.Cycles.{IsWellFormed};
ghost use Rattle.codec_graph.specs.Settings.{Entries, IsSettingsOf};
ghost use Rattle.stream_format.specs.declared.format.Format.{Format};
ghost use Rattle.route_planner.specs.declared.routes.Plan.{Plan};
ghost use Rattle.setup_verbs.specs.SetUp.{IsCommandOf, settings_after};
ghost use Rattle.route_setup.specs.Means.{StreamMeaning};

use codec_graph::Graph;
use route_planner::Plan;
use std::alloc::{AllocError, Global};
use stream_format::Format;
use verb_codes::Command;

/// How a codec is set up: the plan of its graph, and the verbs that open the plan's routes. All of it may depend on the
/// setter, as where it is made for one codec of several. This project's own.
pub trait Setter {
    /// What it means for a stream format and the stream's tag: which plan is that of a graph, which verbs a graph has
    /// for its plan, and what these are for.
    ghost means: { Self → StreamMeaning };

    /// The plan of a graph for a stream format, whatever the stream's tag.
    ///
    /// # Errors
    /// Want of memory.
    fn plan(&self, alloc: Global, graph: &Graph, format: Format) -> Result<Plan, AllocError>
        ensures { IfOk result (λ plan. (tag : ℕ) → (means self.now format tag).IsPlanBy graph.now plan) };

    /// The verbs that set the graph's codec up for its plan, while the stream with this tag, 1 to 15, and format plays.
    ///
    /// # Errors
    /// Want of memory.
    fn verbs(
        &self,
        alloc: Global,
        graph: &Graph,
        plan: &Plan,
        format: Format,
        tag: u8,
    ) -> Result<Vec<Command>, AllocError>
        requires plan { (means self.now format tag).IsPlanBy graph.now plan.now }
        requires some { 1 ≤ tag }
        requires few { tag ≤ 15 }
        ensures { IfOk result (λ commands. commands.items ≡ (means self.now format tag).verbs_by graph.now plan.now) };

    /// A graph has one plan for a format and a tag.
    ghost one_plan: { (setter : Self) (graph : RawCodec) (format : Format) (tag : ℕ) (plan other : Plan)
        → (means setter format tag).IsPlanBy graph plan
        → (means setter format tag).IsPlanBy graph other → other ≡ plan };

    /// The verbs of a well-formed graph lead from any settings of the graph to settings for which its codec is set up.
    ghost opens: { (setter : Self) (graph : RawCodec) (plan : Plan) (format : Format) (tag : ℕ) (settings : Entries)
        → IsWellFormed graph
        → (means setter format tag).IsPlanBy graph plan → 1 ≤ tag → tag ≤ 15 → IsSettingsOf graph settings
        → (means setter format tag).IsOpenBy graph
        (settings_after graph settings ((means setter format tag).verbs_by graph plan)) plan };

    /// Each of them goes to the graph's codec, and can be encoded where that is one of 0 to 14.
    ghost encodable: { (setter : Self) (graph : RawCodec) (plan : Plan) (format : Format) (tag : ℕ) → IsWellFormed graph
        → (means setter format tag).IsPlanBy graph plan → tag ≤ 15
        → All (IsCommandOf graph) ((means setter format tag).verbs_by graph plan) };
}
