//! What a driver drives: a controller's registers, and memory that the controller reaches.
ghost use Rattle.std.specs.Prelude.{◌≡◌, ◌≤◌, ◌<◌, ◌+◌, ◌-◌, ◌^◌, ℕ, Option, length, IfSome};
ghost use Rattle.hda_world.specs.declared.world.TheConstants.{REGION_BYTES};
ghost use Rattle.hda_world.specs.Tellings.{Telling, world_of, Accessed, Between};
ghost use Rattle.hda_world.specs.Events.{Read, Write, DmaRead, DmaWrite};

use dma_pool::{Lent, Window};
use hda_registers::Width;

/// The driver's side of a controller and its memory (HDA 1.0a, 3.3 and 4). Between any two accesses the device may act.
///
/// A platform that tells means a world and a journal. Each access then appends some steps of the device to the journal
/// and after them the entry of the access itself, and its answer is what the world holds at that moment. Of the answers
/// of a platform that tells nothing, nothing is known.
pub trait Platform {
    /// What it tells: a world at the start and the journal since, if it tells.
    ghost told: { Self → Option Telling };
    /// What no access changes.
    type Fixed;

    ghost fixed: { Self → Self.Fixed };
    /// How many accesses and how many bytes of pieces of memory it has room to note.
    ghost spare_accesses: { Self → ℕ };

    ghost spare_bytes: { Self → ℕ };

    /// Reads a register: 1, 2 or 4 bytes at a multiple of the width.
    fn read(&mut self, at: u16, width: Width) -> u32
        requires room { 1 ≤ spare_accesses self.old }
        ensures told { Between (λ old new. Accessed old new (Read at width result)) (told self.old) (told self.new) }
        ensures fixed { fixed self.new ≡ fixed self.old }
        ensures accesses { spare_accesses self.new + 1 ≡ spare_accesses self.old }
        ensures bytes { spare_bytes self.new ≡ spare_bytes self.old };

    /// Writes a register: 1, 2 or 4 bytes at a multiple of the width.
    fn write(&mut self, at: u16, width: Width, value: u32)
        requires room { 1 ≤ spare_accesses self.old }
        ensures told { Between (λ old new. Accessed old new (Write at width value)) (told self.old) (told self.new) }
        ensures fixed { fixed self.new ≡ fixed self.old }
        ensures accesses { spare_accesses self.new + 1 ≡ spare_accesses self.old }
        ensures bytes { spare_bytes self.new ≡ spare_bytes self.old };

    /// Reads a piece of a lent block, from a place that counts from the block's first byte.
    fn dma_read(&mut self, from: &Lent, at: u64, into: &mut [u8])
        requires room { 1 ≤ spare_accesses self.old }
        requires bytes_room { length into.old ≤ spare_bytes self.old }
        requires within { at + length into.old ≤ from.now.bytes }
        ensures told { Between (λ old new. Accessed old new (DmaRead (from.now.address + at) into.new)) (told self.old)
            (told self.new) }
        ensures fixed { fixed self.new ≡ fixed self.old }
        ensures accesses { spare_accesses self.new + 1 ≡ spare_accesses self.old }
        ensures bytes { spare_bytes self.new + length into.new ≡ spare_bytes self.old };

    /// Writes a piece of a lent block through a window, from a linear position on.
    fn dma_write(&mut self, to: &mut Window<'_>, at: u64, bytes: &[u8])
        requires room { 1 ≤ spare_accesses self.old }
        requires bytes_room { length bytes.now ≤ spare_bytes self.old }
        requires begins { to.old.from ≤ at }
        requires ends { at + length bytes.now ≤ to.old.to }
        ensures told { Between (λ old new. Accessed old new (DmaWrite (to.old.lent.now.address + (at - to.old.base))
            bytes.now)) (told self.old) (told self.new) }
        ensures fixed { fixed self.new ≡ fixed self.old }
        ensures accesses { spare_accesses self.new + 1 ≡ spare_accesses self.old }
        ensures bytes { spare_bytes self.new + length bytes.now ≡ spare_bytes self.old }
        ensures same_reference { to.new.lent.ghost_name ≡ to.old.lent.ghost_name }
        ensures same_block { to.new.lent.now ≡ to.old.lent.now }
        ensures same_base { to.new.base ≡ to.old.base }
        ensures same_from { to.new.from ≡ to.old.from }
        ensures same_to { to.new.to ≡ to.old.to };

    /// The region has as many bytes at every moment.
    ghost whole: { (p : Self) → IfSome (told p) (λ telling. length (world_of telling).memory ≡ REGION_BYTES) };
}
