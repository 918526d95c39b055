//! The accesses of a driver, each noted.
ghost use Rattle.std.specs.Prelude.{◌≡◌, ◌≤◌, ◌+◌, [], ◌∷◌, ℕ, length, slice_range};
ghost use Rattle.hda_world.specs.declared.world.TheConstants.{REGION_BYTES};
ghost use Rattle.hda_world.specs.Events.{Read, Write, DmaRead, DmaWrite};
ghost use Rattle.hda_world.specs.Tellings.{Went};
ghost use Rattle.world_rings.specs.Memory.{stored};
ghost use Rattle.rig.specs.Recordings.{HasRoomFor};
ghost use Rattle.rig.specs.Rigs.{told_of, sound_given};

use crate::recording::Recording;
use hda_registers::Width;

impl Recording {
    /// Reads a register.
    pub(crate) fn read(&mut self, at: u16, width: Width) -> u32
        requires { HasRoomFor 1 0 0 self.old.journal self.old.heard self.old.came }
        ensures told { Went (told_of self.old) (told_of self.new) (Read at width result ∷ []) }
        ensures machine { self.new.machine ≡ self.old.machine }
        ensures kind { self.new.kind ≡ self.old.kind }
        ensures sound { sound_given self.new ≡ sound_given self.old }
        ensures room { (entries bytes items : ℕ) → HasRoomFor (1 + entries) bytes items self.old.journal self.old.heard
            self.old.came
            → HasRoomFor entries bytes items self.new.journal self.new.heard self.new.came }
    {
        let value = self.controller.read(at, width);
        self.journal.note_read(at, width, value);
        value
    }

    /// Writes a register.
    pub(crate) fn write(&mut self, at: u16, width: Width, value: u32)
        requires { HasRoomFor 1 0 0 self.old.journal self.old.heard self.old.came }
        ensures told { Went (told_of self.old) (told_of self.new) (Write at width value ∷ []) }
        ensures machine { self.new.machine ≡ self.old.machine }
        ensures kind { self.new.kind ≡ self.old.kind }
        ensures sound { sound_given self.new ≡ sound_given self.old }
        ensures room { (entries bytes items : ℕ) → HasRoomFor (1 + entries) bytes items self.old.journal self.old.heard
            self.old.came
            → HasRoomFor entries bytes items self.new.journal self.new.heard self.new.came }
    {
        self.controller.write(at, width, value);
        self.controller.keep_marks(&mut self.came);
        self.journal.note_write(at, width, value);
    }

    /// Reads the piece of memory from an address on.
    pub(crate) fn read_piece(&mut self, address: u32, into: &mut [u8])
        requires within { address + length into.old ≤ REGION_BYTES }
        requires room { HasRoomFor 1 (length into.old) 0 self.old.journal self.old.heard self.old.came }
        ensures told { Went (told_of self.old) (told_of self.new) (DmaRead address into.new ∷ []) }
        ensures machine { self.new.machine ≡ self.old.machine }
        ensures kind { self.new.kind ≡ self.old.kind }
        ensures sound { sound_given self.new ≡ sound_given self.old }
        ensures room { (entries bytes items : ℕ) → HasRoomFor (1 + entries) (length into.old + bytes) items
            self.old.journal self.old.heard self.old.came
            → HasRoomFor entries bytes items self.new.journal self.new.heard self.new.came }
    {
        copy_piece(&self.memory, address as usize, into);
        self.journal.note_dma_read(address, into);
    }

    /// Writes a piece of memory from an address on.
    pub(crate) fn write_piece(&mut self, address: u32, piece: &[u8])
        requires within { address + length piece.now ≤ REGION_BYTES }
        requires room { HasRoomFor 1 (length piece.now) 0 self.old.journal self.old.heard self.old.came }
        ensures told { Went (told_of self.old) (told_of self.new) (DmaWrite address piece.now ∷ []) }
        ensures machine { self.new.machine ≡ self.old.machine }
        ensures kind { self.new.kind ≡ self.old.kind }
        ensures sound { sound_given self.new ≡ sound_given self.old }
        ensures room { (entries bytes items : ℕ) → HasRoomFor (1 + entries) (length piece.now + bytes) items
            self.old.journal self.old.heard self.old.came
            → HasRoomFor entries bytes items self.new.journal self.new.heard self.new.came }
    {
        store_piece(&mut self.memory, address as usize, piece);
        self.journal.note_dma_write(address, piece);
    }
}

/// Copies the piece from a place on.
fn copy_piece(memory: &[u8], first: usize, into: &mut [u8])
    requires { first + length into.old ≤ length memory.now }
    ensures { into.new ≡ slice_range memory.now first (first + length into.old) }
{
    let len = into.len();
    into.copy_from_slice(&memory[first..first + len]);
}

/// Stores a piece from a place on.
fn store_piece(memory: &mut [u8], first: usize, piece: &[u8])
    requires { first + length piece.now ≤ length memory.old }
    ensures { memory.new ≡ stored memory.old first piece.now }
{
    memory[first..first + piece.len()].copy_from_slice(piece);
}
