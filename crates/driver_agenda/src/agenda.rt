//! The agenda.
ghost use Rattle.std.specs.Prelude.{◌≡◌, ◌≤◌, [], All, length};
ghost use Rattle.std.specs.Option.{ForSome};
ghost use Rattle.std.proofs.Props.{props};
ghost use Rattle.verb_codes.specs.Verbs.{IsInRange};
ghost use Rattle.driver_agenda.specs.Sound.{WalkGoesOn};

mod taking;

use codec_graph::Graph;
use codec_walk::Walk;
use route_planner::Plan;
use std::alloc::Global;
use stream_format::Format;
use verb_codes::Command;

/// Which command comes next: the codecs are walked one after the other, and once all of them are told, each is set up
/// by the verbs of its plan. This project's own.
#[derive(Drop)]
pub struct Agenda {
    alloc: Global,
    format: Format,
    /// The addresses of the codecs.
    addresses: Vec<u8>,
    /// The walk that is under way.
    walk: Option<Walk>,
    /// The graphs of the codecs that were walked.
    graphs: Vec<Graph>,
    /// Their plans, once all were walked.
    plans: Vec<Plan>,
    /// The verbs of all codecs.
    verbs: Vec<Command>,
    /// How many of these were answered.
    answered: usize,
    pub ghost few: { All (λ address. address ≤ 14) addresses.items } by { Prim.hlevel props },
    pub ghost under_way: { ForSome walk (λ walk. WalkGoesOn addresses.items (length graphs.items) walk) },
    pub ghost fresh: { ForSome walk (λ _. answered ≡ 0) },
    pub ghost unplanned: { ForSome walk (λ _. plans.items ≡ []) },
    pub ghost verbless: { ForSome walk (λ _. verbs.items ≡ []) },
    pub ghost of_them: { All (λ graph. graph.address ≤ 14) graphs.items } by { Prim.hlevel props },
    pub ghost in_range: { All IsInRange verbs.items } by { Prim.hlevel props },
    pub ghost within: { answered ≤ length verbs.items },
}
