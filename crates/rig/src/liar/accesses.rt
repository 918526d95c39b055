//! A liar as the platform of a driver.
ghost use Rattle.std.specs.Prelude.{◌≡◌, ◌≤◌, ◌+◌, ◌-◌, length};
ghost use Rattle.hda_world.specs.Events.{Read, Write, DmaRead, DmaWrite};
ghost use Rattle.hda_world.specs.Tellings.{Accessed, Between};
ghost use Rattle.rig.specs.Rigs.{telling_of, setting_of};
ghost use Rattle.rig.specs.Lies.{one_piece_more};
ghost use Rattle.rig.specs.Liars.{rig_of, lies_of, reads_of, told_nothing, spare_accesses_of, spare_bytes_of};
ghost use Rattle.rig.specs.Liars.{IsLied, KeepsLies};

use super::{Liar, tell_lie};
use crate::setting::Setting;
use dma_pool::{Lent, Window};
use hda_platform::Platform;
use hda_registers::Width;

impl Platform for Liar {
    ghost told = { told_nothing };

    type Fixed = Setting;

    ghost fixed = { λ liar. setting_of (rig_of liar) };

    ghost spare_accesses = { spare_accesses_of };

    ghost spare_bytes = { spare_bytes_of };

    fn read(&mut self, at: u16, width: Width) -> u32
        requires room { 1 ≤ spare_accesses_of self.old }
        ensures told { Between (λ old new. Accessed old new (Read at width result)) (told_nothing self.old)
            (told_nothing self.new) }
        ensures fixed { setting_of (rig_of self.new) ≡ setting_of (rig_of self.old) }
        ensures accesses { spare_accesses_of self.new + 1 ≡ spare_accesses_of self.old }
        ensures bytes { spare_bytes_of self.new ≡ spare_bytes_of self.old }

        // The rig's answer is handed on as it is.
        ensures rig { Accessed (telling_of (rig_of self.old)) (telling_of (rig_of self.new)) (Read at width result) }
        ensures lies { KeepsLies self.old self.new }
    {
        self.rig.read(at, width)
    }

    fn write(&mut self, at: u16, width: Width, value: u32)
        requires room { 1 ≤ spare_accesses_of self.old }
        ensures told { Between (λ old new. Accessed old new (Write at width value)) (told_nothing self.old)
            (told_nothing self.new) }
        ensures fixed { setting_of (rig_of self.new) ≡ setting_of (rig_of self.old) }
        ensures accesses { spare_accesses_of self.new + 1 ≡ spare_accesses_of self.old }
        ensures bytes { spare_bytes_of self.new ≡ spare_bytes_of self.old }

        // The rig's register is written.
        ensures rig { Accessed (telling_of (rig_of self.old)) (telling_of (rig_of self.new)) (Write at width value) }
        ensures lies { KeepsLies self.old self.new }
    {
        self.rig.write(at, width, value);
    }

    fn dma_read(&mut self, from: &Lent, at: u64, into: &mut [u8])
        requires room { 1 ≤ spare_accesses_of self.old }
        requires bytes_room { length into.old ≤ spare_bytes_of self.old }
        requires within { at + length into.old ≤ from.now.bytes }
        ensures told { Between (λ old new. Accessed old new (DmaRead (from.now.address + at) into.new))
            (told_nothing self.old) (told_nothing self.new) }
        ensures fixed { setting_of (rig_of self.new) ≡ setting_of (rig_of self.old) }
        ensures accesses { spare_accesses_of self.new + 1 ≡ spare_accesses_of self.old }
        ensures bytes { spare_bytes_of self.new + length into.new ≡ spare_bytes_of self.old }

        // The rig's memory is read, and told with the lie for a piece of this number.
        ensures rig { IsLied (lies_of self.old) (reads_of self.old) (from.now.address + at)
            (telling_of (rig_of self.old)) (telling_of (rig_of self.new)) into.new }
        ensures lies { lies_of self.new ≡ lies_of self.old }
        ensures reads { reads_of self.new ≡ one_piece_more (reads_of self.old) }
    {
        self.rig.dma_read(from, at, into);
        tell_lie(self.lies.as_slice(), self.reads, into);
        self.reads = self.reads.saturating_add(1);
    }

    fn dma_write(&mut self, to: &mut Window<'_>, at: u64, bytes: &[u8])
        requires room { 1 ≤ spare_accesses_of self.old }
        requires bytes_room { length bytes.now ≤ spare_bytes_of self.old }
        requires begins { to.old.from ≤ at }
        requires ends { at + length bytes.now ≤ to.old.to }
        ensures told { Between (λ old new. Accessed old new (DmaWrite (to.old.lent.now.address + (at - to.old.base))
            bytes.now)) (told_nothing self.old) (told_nothing self.new) }
        ensures fixed { setting_of (rig_of self.new) ≡ setting_of (rig_of self.old) }
        ensures accesses { spare_accesses_of self.new + 1 ≡ spare_accesses_of self.old }
        ensures bytes { spare_bytes_of self.new + length bytes.now ≡ spare_bytes_of self.old }
        ensures same_reference { to.new.lent.ghost_name ≡ to.old.lent.ghost_name }
        ensures same_block { to.new.lent.now ≡ to.old.lent.now }
        ensures same_base { to.new.base ≡ to.old.base }
        ensures same_from { to.new.from ≡ to.old.from }
        ensures same_to { to.new.to ≡ to.old.to }

        // The rig's memory is written.
        ensures rig { Accessed (telling_of (rig_of self.old)) (telling_of (rig_of self.new))
            (DmaWrite (to.old.lent.now.address + (at - to.old.base)) bytes.now) }
        ensures lies { KeepsLies self.old self.new }
    {
        self.rig.dma_write(to, at, bytes);
    }

    ghost whole = { λ _. tt };
}
