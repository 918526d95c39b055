//! The page: the text that the sink has not taken yet.
ghost use Rattle.std.specs.Prelude.{◌≡◌, ◌≤◌, max};
ghost use Rattle.hda_outside.specs.Counts.{Rose};
ghost use Rattle.sound_report.specs.Pages.{Writes};

use hda_outside::{Fault, Sink, write_all};

/// For how many bytes a page has room. This project's own.
pub const PAGE_LEN: usize = 65_536;

/// With how many bytes a page is full: it has room for a line more.
const FULL_LEN: usize = 61_440;

/// Writes the page where it is full, with 61,440 bytes or more, and begins a new one.
///
/// # Errors
/// The sink's fault.
pub fn turn<K: Sink>(out: &mut K, page: &mut Vec<u8>) -> Result<(), Fault>
    ensures text { Writes result (K.taken out.old) (K.taken out.new) page.old.items page.new.items }
    ensures pieces { K.longest out.new ≤ max (K.longest out.old) 4096 }
    ensures later { K.faults out.old ≤ K.faults out.new }
    ensures failed { result ≡ Err Fault.Failed → Rose (K.faults out.old) (K.faults out.new) }
{
    if page.len() < FULL_LEN {
        return Ok(());
    }
    write_all(*page.allocator(), out, page.as_slice())?;
    page.clear();
    Ok(())
}
