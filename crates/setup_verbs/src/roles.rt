//! What the routes of a plan make of each node.
ghost use Rattle.std.specs.Prelude.{◌≡◌, ◌<◌, ◌==◌, ℕ, if◌then◌else◌};
ghost use Rattle.setup_verbs.specs.Roles as spec;
ghost use Rattle.setup_verbs.specs.Roles.{role_in};

use route_planner::{Hop, Outcome, PinPlan};

/// What the routes make of a node.
#[derive(Clone, Copy, Debug, PartialEq, Eq)]
pub enum Role {
    /// No route has it.
    Unused,
    /// Routes leave it, all by the connection at this index.
    Passed(u8),
    /// Routes have their sound from it, all with this pair of channels.
    Source(u8),
}

impl Role {
    /// Whether some route has the node.
    pub fn is_used(self) -> bool
        ensures { result ≡ spec.is_used self }
    {
        match self {
            Role::Unused => false,
            Role::Passed(_) | Role::Source(_) => true,
        }
    }

    /// This role, or else the other.
    fn or(self, other: Role) -> Role
        ensures { result ≡ spec.first_role self other }
    {
        match self {
            Role::Unused => other,
            Role::Passed(_) | Role::Source(_) => self,
        }
    }
}

/// What all routes make of each node.
pub(crate) fn roles_of(pins: &[PinPlan]) -> [Role; 256]
    ensures { (nid : ℕ) → nid < 256 → role_in result nid ≡ spec.role_among (spec.uses_of pins.now) nid }
{
    let mut roles = [Role::Unused; 256];
    for entry in pins {
        add_entry(&mut roles, entry);
    }
    roles
}

/// Gives the nodes of the entry's route their roles.
fn add_entry(roles: &mut [Role; 256], entry: &PinPlan)
    ensures { (nid : ℕ) → nid < 256
        → role_in roles.new nid ≡ spec.first_role (role_in roles.old nid)
        (spec.role_among (spec.entry_uses entry.now) nid) }
{
    if let Outcome::Route(route) = &entry.outcome {
        add_route(roles, route.hops.as_slice(), route.converter, entry.pair);
    }
}

/// Gives the nodes of a route that have no role yet theirs: each hop leaves its node, and the route has its sound from
/// the node at its source, with the pair of channels. This project's own.
pub fn add_route(roles: &mut [Role; 256], hops: &[Hop], source: u8, pair: u8)
    ensures { (nid : ℕ) → nid < 256
        → role_in roles.new nid ≡ spec.first_role (role_in roles.old nid)
        (spec.role_among (spec.route_uses hops.now source pair) nid) }
{
    add_hops(roles, hops);
    add_role(roles, source, Role::Source(pair));
}

/// Gives the node that each hop leaves its role.
fn add_hops(roles: &mut [Role; 256], hops: &[Hop])
    ensures { (nid : ℕ) → nid < 256
        → role_in roles.new nid ≡ spec.first_role (role_in roles.old nid)
        (spec.role_among (spec.hop_uses hops.now) nid) }
{
    for hop in hops {
        add_role(roles, hop.nid, Role::Passed(hop.index));
    }
}

/// Gives the node a role, unless it has one.
fn add_role(roles: &mut [Role; 256], nid: u8, role: Role)
    ensures { (other : ℕ) → other < 256
        → role_in roles.new other ≡ spec.first_role (role_in roles.old other)
        (if nid == other then role else Role.Unused) }
{
    let place = usize::from(nid);
    roles[place] = roles[place].or(role);
}
