//! Room for what pins hear.
ghost use Rattle.std.specs.Prelude.{◌≡◌, ◌<◌, ◌≤◌, ◌+◌, OnOk, OnErr, map, vec_len, vec_capacity};
ghost use Rattle.heard_lists.specs.Listings.{HasRoom, HasMarkRoom, handed_out};

use heard_lists::HeardLists;
use std::alloc::AllocError;

/// Makes room for so many more items in each list and as many marks of blocks, and for so many marks of pins.
///
/// # Errors
/// Want of memory, where it is room for some. Lists and marks stay as they were.
pub(crate) fn make_room(
    lists: &mut HeardLists,
    marks: &mut Vec<bool>,
    items: u64,
    switches: u64,
) -> Result<(), AllocError>
    ensures room { OnOk result (HasRoom items lists.new) }
    ensures mark_room { OnOk result (HasMarkRoom switches lists.new) }
    ensures space { OnOk result (vec_len marks.new + items ≤ vec_capacity marks.new) }
    ensures lists { map handed_out lists.new ≡ map handed_out lists.old }
    ensures marks { marks.new.items ≡ marks.old.items }
    ensures some { OnErr result (0 < items + switches) }
{
    if items == 0 && switches == 0 {
        return Ok(());
    }
    marks.reserve(items as usize)?;
    lists.reserve(items, switches)
}
