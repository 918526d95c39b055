//! How a bring-up begins and ends.
ghost use Rattle.std.specs.Prelude.{◌≡◌, [], List, All, IfOk, IfErr};
ghost use Rattle.driver_progress.specs.declared.phase.Phase.TheVariants as phases;
ghost use Rattle.command_engine.specs.declared.answers.Event.{Event};
ghost use Rattle.driver_bring_up.specs.Counted.{IsCount};
ghost use Rattle.driver_bring_up.specs.Jacks.{IsOfPin, Counts};

use super::BringUp;
use crate::jacks::Jacks;
use codec_graph::Graph;
use command_engine::Engine;
use driver_agenda::Agenda;
use driver_progress::{Jack, Phase};
use route_planner::Plan;
use std::alloc::Global;
use stream_format::Format;

/// What is left of a bring-up that is over.
pub struct BroughtUp {
    /// The driver's side of both rings.
    pub engine: Engine,
    /// The graphs of the codecs that were walked.
    pub graphs: Vec<Graph>,
    /// Their plans, once all were walked.
    pub plans: Vec<Plan>,
    /// How often codecs told of what was plugged in, ascending by codec and tag.
    pub jacks: Vec<Jack>,
}

impl BringUp {
    /// A bring-up for a stream of this format, by an engine without events. Nothing was done yet.
    ///
    /// # Errors
    /// Want of memory, with the engine.
    pub fn new(alloc: Global, format: Format, engine: Engine) -> Result<BringUp, Engine>
        requires quiet { engine.events ≡ [] }
        ensures given_back { IfErr result (λ given. given ≡ engine) }
        ensures phase { IfOk result (λ bring_up. bring_up.phase ≡ phases.Reset) }
        ensures engine { IfOk result (λ bring_up. bring_up.engine ≡ engine) }
        ensures format { IfOk result (λ bring_up. bring_up.format ≡ format) }
        ensures kept { IfOk result (λ bring_up. bring_up.kept ≡ 0) }
        ensures sent { IfOk result (λ bring_up. bring_up.sent ≡ 0) }
        ensures looks { IfOk result (λ bring_up. bring_up.looks ≡ 0) }
        ensures jacks { IfOk result (λ bring_up. IsCount [] bring_up.jacks) }
        ensures graphs { IfOk result (λ bring_up. bring_up.agenda.graphs.items ≡ []) }
        ensures plans { IfOk result (λ bring_up. bring_up.agenda.plans.items ≡ []) }
    {
        match Jacks::new(alloc) {
            Ok(jacks) => Ok(BringUp {
                alloc,
                format,
                engine,
                agenda: Agenda::empty(alloc, format),
                jacks,
                phase: Phase::Reset,
                kept: 0,
                sent: 0,
                looks: 0,
            }),
            Err(_) => Err(engine),
        }
    }

    /// How far it has come.
    pub fn phase(&self) -> Phase
        ensures { result ≡ self.now.phase }
    {
        self.phase
    }

    /// How many commands were submitted.
    pub fn sent(&self) -> u32
        ensures { result ≡ self.now.sent }
    {
        self.sent
    }

    /// What is left of it.
    pub fn parts(self) -> BroughtUp
        ensures engine { result.engine ≡ self.engine }
        ensures graphs { result.graphs ≡ self.agenda.graphs }
        ensures plans { result.plans ≡ self.agenda.plans }
        ensures jacks { (events : List Event) → IsCount events self.jacks → All IsOfPin events
            → Counts events result.jacks.items }
    {
        let BringUp {
            alloc: _,
            format: _,
            engine,
            agenda,
            jacks,
            phase: _,
            kept: _,
            sent: _,
            looks: _,
        } = self;
        let (graphs, plans) = agenda.parts();
        BroughtUp {
            engine,
            graphs,
            plans,
            jacks: jacks.into_list(),
        }
    }
}
