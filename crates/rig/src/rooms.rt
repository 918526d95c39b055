//! The room that a run of a driver asks.
ghost use Rattle.std.specs.Prelude.{◌≡◌, ◌+◌, IfSome};
ghost use Rattle.rig.specs.Recordings as recordings;
ghost use Rattle.rig.specs.Rooms.{step_count, item_count};

use hda_controller::most_items;
use hda_world::Step;
use schedule_reader::Group;

/// The room that steps of a run and its accesses and marks ask.
#[derive(Clone, Copy, Debug, PartialEq, Eq)]
pub(crate) struct Room {
    /// Entries of the journal.
    pub(crate) entries: usize,
    /// Items of each heard list.
    pub(crate) items: u64,
}

/// For how many items some steps ask room. `None` where their number has no 64 bits.
fn items_for_all(steps: &[Step]) -> Option<u64>
    ensures { IfSome result (λ items. items ≡ recordings.items_for steps.now) }
{
    let mut items: u64 = 0;
    for step in steps {
        items = items.checked_add(most_items(step))?;
    }
    Some(items)
}

/// The room that a run with these groups and so many accesses asks, its two marks among it. `None` where a number has
/// no 64 bits.
pub(crate) fn room_for(groups: &[Group], accesses: u32) -> Option<Room>
    ensures entries { IfSome result (λ room. room.entries ≡ accesses + 2 + step_count groups.now) }
    ensures items { IfSome result (λ room. room.items ≡ item_count groups.now) }
{
    let mut entries = accesses as usize + 2;
    let mut items: u64 = 0;
    for group in groups {
        entries = entries.checked_add(group.steps.len())?;
        items = items.checked_add(items_for_all(group.steps.as_slice())?)?;
    }
    Some(Room { entries, items })
}
