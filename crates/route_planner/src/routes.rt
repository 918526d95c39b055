//! Routes and plans.
use hda_items::Items;

/// One step of a route: the node that it leaves, by the connection at this index of the node's list.
#[derive(Clone, Copy, Debug, PartialEq, Eq)]
pub struct Hop {
    pub nid: u8,
    pub index: u8,
}

/// A path between a pin and a converter. Of an output the hops leave the pin and each mixer or selector on the way to
/// the converter; of an input they leave the converter and each on the way to the pin.
#[derive(Debug, Drop)]
pub struct Route {
    pub hops: Items<Hop>,
    /// The node identifier of the converter: where the hops of an output end, and those of an input begin.
    pub converter: u8,
}

/// What the planner found for a pin.
#[derive(Debug, Drop)]
pub enum Outcome {
    /// The least admissible path that the routes of earlier pins leave open.
    Route(Route),
    /// The pin has admissible paths, and routes of earlier pins block each.
    Blocked,
    /// The pin has no admissible path.
    NoPath,
}

/// The plan of one candidate pin.
#[derive(Debug, Drop)]
pub struct PinPlan {
    /// The node identifier of the pin.
    pub pin: u8,
    /// The pair of channels that the pin plays: 0 for a headphone and for a digital pin, and else the pin's rank, from
    /// 0, among the candidates of its association that are no headphones, round the pairs of the stream. Of an input it
    /// is 0 and tells nothing.
    pub pair: u8,
    pub outcome: Outcome,
}

/// The plan of a graph: its candidate pins in order; for an input the first that has a route, or none.
#[derive(Debug, Drop)]
pub struct Plan {
    pub pins: Items<PinPlan>,
}
