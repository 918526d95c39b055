//! Marks of the blocks that come to the input stream.
ghost use Rattle.std.specs.Prelude.{◌≡◌, ◌≤◌, ◌+◌, ◌++◌, replicate, vec_len, vec_capacity};
ghost use Rattle.stream_descriptor.specs.Taking.{marks_in};

use hda_items::push_within_capacity;
use stream_descriptor::Arrived;

/// Puts a mark last for each block that came, whether it was taken: those that were come first. There is room for them.
pub(crate) fn note_arrived(marks: &mut Vec<bool>, arrived: Arrived)
    requires { vec_len marks.old + (arrived.taken + arrived.dropped) ≤ vec_capacity marks.old }
    ensures items { marks.new.items ≡ marks.old.items ++ marks_in arrived }
    ensures length { vec_len marks.new ≡ vec_len marks.old + (arrived.taken + arrived.dropped) }
    ensures capacity { vec_capacity marks.old ≤ vec_capacity marks.new }
{
    push_times(marks, true, arrived.taken);
    push_times(marks, false, arrived.dropped);
}

/// Puts a mark last so many times. There is room for them.
fn push_times(marks: &mut Vec<bool>, mark: bool, times: u32)
    requires { vec_len marks.old + times ≤ vec_capacity marks.old }
    ensures items { marks.new.items ≡ marks.old.items ++ replicate times mark }
    ensures length { vec_len marks.new ≡ vec_len marks.old + times }
    ensures capacity { vec_capacity marks.old ≤ vec_capacity marks.new }
{
    for _pushed in 0..times {
        push_within_capacity(marks, mark);
    }
}
