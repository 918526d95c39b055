//! Marks of the blocks that came to the input stream, as numbers.
ghost use Rattle.std.specs.Prelude.{◌≡◌, map, drop};
ghost use Rattle.hda_model.specs.Copies.{copied, mark_of};

use crate::heard_items::most_copied;

/// Copies the marks from a number on, counted from 0, as many as fit: 1 where the block was taken, 0 where it was
/// dropped.
pub fn copy_marks(marks: &[bool], from: u64, into: &mut [u8])
    ensures { into.new ≡ copied (map mark_of (drop from marks.now)) into.old }
{
    let most = most_copied(marks.len(), from, into.len());
    for number in 0..most {
        into[number] = u8::from(marks[from as usize + number]);
    }
}
