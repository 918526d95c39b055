//! By which connections earlier routes leave the mixers and selectors.
ghost use Rattle.std.specs.Prelude.{◌≡◌, ◌&&◌, ◌==◌, ◌<◌, ℕ};
ghost use Rattle.std.specs.List.{list_all};
ghost use Rattle.route_planner.specs.Search.{left_at, allows, is_alike, leaves_alike};

use crate::routes::{Hop, Outcome, PinPlan};

/// By which connections a node may be left.
#[derive(Clone, Copy, Debug, PartialEq, Eq)]
pub(crate) enum Left {
    Free,
    By(u8),
    Never,
}

impl Left {
    /// Whether the node may be left by the connection at this index.
    pub(crate) fn allows(self, index: usize) -> bool
        ensures { result ≡ allows self index }
    {
        match self {
            Left::Free => true,
            Left::By(kept) => index == usize::from(kept),
            Left::Never => false,
        }
    }

    /// What is left when a route leaves the node by the connection at this index.
    fn with(self, index: u8) -> Left
        ensures { (other : ℕ) → allows result other ≡ (allows self other && (other == index)) }
    {
        match self {
            Left::Free => Left::By(index),
            Left::By(kept) if kept == index => self,
            Left::By(_) | Left::Never => Left::Never,
        }
    }
}

/// By which connections each node may be left, beside the routes of earlier pins.
pub(crate) fn lefts_of(earlier: &[PinPlan]) -> [Left; 256]
    ensures { (nid index : ℕ) → nid < 256
        → allows (left_at result nid) index ≡ list_all (leaves_alike nid index) earlier.now }
{
    let mut lefts = [Left::Free; 256];
    for entry in earlier {
        if let Outcome::Route(route) = &entry.outcome {
            keep_indexes(&mut lefts, route.hops.as_slice());
        }
    }
    lefts
}

/// Keeps the index of each hop for the node that it leaves.
fn keep_indexes(lefts: &mut [Left; 256], hops: &[Hop])
    ensures { (nid index : ℕ) → nid < 256
        → allows (left_at lefts.new nid) index ≡ (allows (left_at lefts.old nid) index && list_all (is_alike nid index)
        hops.now) }
{
    for hop in hops {
        let nid = usize::from(hop.nid);
        lefts[nid] = lefts[nid].with(hop.index);
    }
}
