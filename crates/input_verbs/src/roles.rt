//! What the route of a plan for an input makes of each node.
ghost use Rattle.std.specs.Prelude.{◌≡◌, ◌<◌, ℕ};
ghost use Rattle.setup_verbs.specs.Roles.{first_role, role_among, role_in};
ghost use Rattle.input_verbs.specs.InputVerbs as spec;

use route_planner::{Outcome, PinPlan};
use setup_verbs::{Role, add_route};

/// What the routes of all entries make of each node.
pub(crate) fn roles_of(pins: &[PinPlan]) -> [Role; 256]
    ensures { (nid : ℕ) → nid < 256 → role_in result nid ≡ role_among (spec.input_uses_of pins.now) nid }
{
    let mut roles = [Role::Unused; 256];
    for entry in pins {
        add_entry(&mut roles, entry);
    }
    roles
}

/// Gives the nodes of the entry's route their roles.
fn add_entry(roles: &mut [Role; 256], entry: &PinPlan)
    ensures { (nid : ℕ) → nid < 256
        → role_in roles.new nid ≡ first_role (role_in roles.old nid)
        (role_among (spec.input_entry_uses entry.now) nid) }
{
    if let Outcome::Route(route) = &entry.outcome {
        add_route(roles, route.hops.as_slice(), entry.pin, entry.pair);
    }
}
