//! How a driver that switches reads its sound.
ghost use Rattle.std.specs.Prelude.{◌≡◌, ◌≤◌, ◌+◌, ℕ, List, length, None};
ghost use Rattle.wav_reader.specs.Fills.{FillsBy, IsBeside};
ghost use Rattle.wav_reader.specs.Shelves.{seen_as};
ghost use Rattle.jack_switch.specs.JackDrivers.{KeepsAllButSupply};

use super::JackDriver;
use hda_outside::{Cut, Shelf};
use std::alloc::Global;

impl JackDriver {
    /// Reads more of the sound, as [`Supply::fill`](wav_reader::Supply::fill) does: in pieces of at most 4,096 bytes,
    /// until as many bytes are held as the ring has or as are left. Memory is taken in the shelf's calls alone.
    ///
    /// # Errors
    /// `Failed` where the shelf failed, `Short` with the place in the file at which it answered that there was no byte
    /// more, and `OutOfMemory` where the shelf answered that. From then on nothing more is read: what is held is all
    /// that is left.
    pub fn fill<S: Shelf>(&mut self, alloc: Global, shelf: &mut S) -> Result<(), Cut>
        ensures fills { FillsBy self.old.supply.source self.old.supply self.new.supply
            (λ name. seen_as
            (S.told shelf.old) (S.faults shelf.old name) (S.empties shelf.old name) (S.given shelf.old))
            (λ name. seen_as
            (S.told shelf.new) (S.faults shelf.new name) (S.empties shelf.new name) (S.given shelf.new)) result }
        ensures whole { self.old.supply.source ≡ None → shelf.new ≡ shelf.old }
        ensures told { S.told shelf.new ≡ S.told shelf.old }
        ensures asked { (other : List ℕ) → IsBeside self.old.supply.source other
            → S.asked shelf.new other ≡ S.asked shelf.old other }
        ensures later { (other : List ℕ) → S.faults shelf.old other ≤ S.faults shelf.new other }
        ensures empties_later { (other : List ℕ) → S.empties shelf.old other ≤ S.empties shelf.new other }
        ensures keeps { KeepsAllButSupply self.old self.new }
    {
        self.supply.fill(alloc, shelf)
    }

    /// How many bytes of sound were read so far: those that were taken and those that are held.
    pub fn bytes_read(&self) -> u64
        ensures { result ≡ self.now.supply.taken + length self.now.supply.held }
    {
        self.supply.read()
    }
}
