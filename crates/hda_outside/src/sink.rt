ghost use Rattle.std.specs.Prelude.{◌≡◌, ℕ, ◌<◌, ◌≤◌, max, List, length, take, Option, IfOk, OnErr};
ghost use Rattle.hda_outside.specs.Counts.{Rose};
ghost use Rattle.hda_outside.specs.Sink.{taken_with};

use crate::fault::Fault;
use std::alloc::Global;

/// What takes bytes, as standard output does. This project's own.
pub trait Sink {
    /// The bytes taken so far, where the sink tells them.
    ghost taken: { Self → Option (List ℕ) };

    /// The faults counted so far.
    ghost faults: { Self → ℕ };

    /// The longest piece that it was given so far, where it keeps account of that. Else it may be 0.
    ghost longest: { Self → ℕ };

    /// Takes bytes from the front of `bytes`, at least one where there is one, and answers how many.
    ///
    /// # Errors
    ///
    /// `Failed` where it can't take any: then its count of faults rose. `OutOfMemory` where memory is
    /// short. A fault takes no bytes.
    fn write(&mut self, alloc: Global, bytes: &[u8]) -> Result<usize, Fault>
        ensures bound { IfOk result (λ n. n ≤ length bytes.now) }
        ensures some { 0 < length bytes.now → IfOk result (λ n. 0 < n) }
        ensures takes { IfOk result (λ n. taken self.new ≡ taken_with (taken self.old) (take n bytes.now)) }
        ensures not_taken { OnErr result (taken self.new ≡ taken self.old) }
        ensures piece { longest self.new ≤ max (longest self.old) (length bytes.now) }

        // The count of faults never falls, and a failure raises it.
        ensures later { faults self.old ≤ faults self.new }
        ensures failed { result ≡ Err Fault.Failed → Rose (faults self.old) (faults self.new) };
}
