//! Where new files are written.
ghost use Rattle.std.specs.Prelude.{◌≡◌, ◌≤◌, List, ℕ, Option, OnOk, OnErr};
ghost use Rattle.hda_outside.specs.Counts.{Rose};
ghost use Rattle.hda_outside.specs.Shelf.{Files};
ghost use Rattle.codec_dump.specs.Outlets.{written_with};

use hda_outside::Fault;
use std::alloc::Global;

/// Where new files are written, by name. This project's own.
pub trait Outlet {
    /// The files that were written so far, in order, where the outlet tells them.
    ghost written: { Self → Option Files };

    /// The faults counted so far.
    ghost faults: { Self → ℕ };

    /// Writes a new file of these bytes. A file of that name that is there already stays as it is.
    ///
    /// # Errors
    ///
    /// `Failed` where there is a file of that name, or none can be written: then the count of faults rose.
    /// `OutOfMemory` where memory is short. What a fault leaves of the file is left open.
    fn write_new(&mut self, alloc: Global, name: &str, bytes: &[u8]) -> Result<(), Fault>
        ensures done { OnOk result (written self.new ≡ written_with (written self.old) name.now bytes.now) }
        ensures not_done { OnErr result (written self.new ≡ written self.old) }
        ensures later { faults self.old ≤ faults self.new }
        ensures failed { result ≡ Err Fault.Failed → Rose (faults self.old) (faults self.new) };
}
