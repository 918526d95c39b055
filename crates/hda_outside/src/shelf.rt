ghost use Rattle.std.specs.Prelude.{◌≡◌, ◌≢◌, ℕ, ◌<◌, ◌≤◌, List, Ok, length, Option, IfSome, IsSomeAnd, IfOk, OnErr};
ghost use Rattle.hda_outside.specs.Counts.{count_with, empty_with, Rose};
ghost use Rattle.hda_outside.specs.Shelf.{Files, file_of, IsPiece};

use crate::fault::Fault;
use std::alloc::Global;

/// A shelf of files, of which pieces are read by name. This project's own.
pub trait Shelf {
    /// The files, where the shelf tells them.
    ghost told: { Self → Option Files };

    /// The faults counted so far under a name's bytes.
    ghost faults: { Self → List ℕ → ℕ };

    /// How many bytes it has given so far, over all names.
    ghost given: { Self → ℕ };

    /// How often it was asked so far under a name's bytes, where it keeps account of that. Else it may be 0.
    ghost asked: { Self → List ℕ → ℕ };

    /// How often so far it answered no byte for a buffer that is not empty, under a name's bytes.
    ghost empties: { Self → List ℕ → ℕ };

    /// Puts bytes of the file `name` from place `from` on at the front of `buf`, and answers how many.
    /// It answers 0 only where `buf` is empty or `from` is at or past the file's end. What `buf` holds
    /// beyond them, or after a fault, is left open.
    ///
    /// # Errors
    ///
    /// `Failed` where the file is not there or can't be read: then the count of faults under `name`
    /// rose. `OutOfMemory` where memory is short. A fault gives no bytes.
    fn read_at(
        &mut self,
        alloc: Global,
        name: &str,
        from: u64,
        buf: &mut [u8],
    ) -> Result<usize, Fault>
        ensures told { told self.new ≡ told self.old }
        ensures bound { IfOk result (λ n. n ≤ length buf.new) }
        ensures piece { IfSome (told self.old) (λ files.
            IfOk result (λ n. IsSomeAnd (file_of files name.now) (λ file. IsPiece file from buf.new n))) }

        // What it gave is counted, up to the greatest count.
        ensures given { IfOk result (λ n. given self.new ≡ count_with (given self.old) n) }
        ensures not_given { OnErr result (given self.new ≡ given self.old) }
        ensures given_rises { given self.old ≤ given self.new }

        // An answer of no byte is counted under the name, where the buffer is not empty, and no other answer is.
        ensures empty { 0 < length buf.old → result ≡ Ok 0
            → Rose (empties self.old name.now) (empties self.new name.now) }
        ensures not_empty { (0 < length buf.old → result ≢ Ok 0)
            → empties self.new name.now ≡ empties self.old name.now }
        ensures empties_later { (other : List ℕ) → empties self.old other ≤ empties self.new other }

        // It is asked under this name alone.
        ensures asked { (other : List ℕ) → other ≢ name.now → asked self.new other ≡ asked self.old other }

        // No count of faults falls, and a failure raises that under the name.
        ensures later { (other : List ℕ) → faults self.old other ≤ faults self.new other }
        ensures failed { result ≡ Err Fault.Failed → Rose (faults self.old name.now) (faults self.new name.now) };
}

/// The count of empty answers after an answer of n bytes to a buffer of so many.
pub(crate) fn empties_after(empties: u64, asked: usize, n: usize) -> u64
    ensures { result ≡ empty_with empties asked n }
{
    if n == 0 && asked != 0 {
        empties.saturating_add(1)
    } else {
        empties
    }
}
