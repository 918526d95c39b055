//! How counters are listed.
ghost use Rattle.std.specs.Prelude.{◌≡◌, ◌≤◌, ◌<◌, ◌+◌, ◌++◌, length, vec_len, vec_capacity};
ghost use Rattle.driver_bring_up.specs.Listed as spec;

use driver_progress::Jack;

/// Puts the jacks of a codec last, for which there is room.
pub(crate) fn list_row(listed: &mut Vec<Jack>, codec: u8, row: &[u32])
    requires few { length row.now ≤ 64 }
    requires room { vec_len listed.old + length row.now ≤ vec_capacity listed.old }
    ensures items { listed.new.items ≡ listed.old.items ++ spec.row_jacks codec row.now (length row.now) }
    ensures length { vec_len listed.new ≤ vec_len listed.old + length row.now }
    ensures capacity { vec_capacity listed.old ≤ vec_capacity listed.new }
{
    for (tag, times) in row.iter().enumerate() {
        list_jack(
            listed,
            Jack {
                codec,
                tag: tag as u8,
                times: *times,
            },
        );
    }
}

/// Puts a jack last that was told at all, for which there is room.
fn list_jack(listed: &mut Vec<Jack>, jack: Jack)
    requires { vec_len listed.old < vec_capacity listed.old }
    ensures items { listed.new.items ≡ listed.old.items ++ spec.told jack }
    ensures length { vec_len listed.new ≤ vec_len listed.old + 1 }
    ensures capacity { vec_capacity listed.old ≤ vec_capacity listed.new }
{
    if jack.times > 0 && listed.push(jack).is_err() {
        unreachable!();
    }
}
