//! A rig as the platform of a driver.
ghost use Rattle.rig.specs.Rigs.{told_by, told_whole, setting_of};

use crate::groups::pass;
use crate::rig::Rig;
use crate::setting::Setting;
use dma_pool::{Lent, Window};
use hda_platform::Platform;
use hda_registers::Width;

impl Platform for Rig {
    ghost told = { told_by };

    type Fixed = Setting;

    ghost fixed = { setting_of };

    ghost spare_accesses = { λ rig. rig.spare_accesses };

    ghost spare_bytes = { λ rig. rig.spare_bytes };

    fn read(&mut self, at: u16, width: Width) -> u32 {
        pass(
            &mut self.recording,
            self.groups.as_slice(),
            self.made as usize,
        );
        let value = self.recording.read(at, width);
        self.made += 1;
        self.spare_accesses -= 1;
        value
    }

    fn write(&mut self, at: u16, width: Width, value: u32) {
        pass(
            &mut self.recording,
            self.groups.as_slice(),
            self.made as usize,
        );
        self.recording.write(at, width, value);
        self.made += 1;
        self.spare_accesses -= 1;
    }

    fn dma_read(&mut self, from: &Lent, at: u64, into: &mut [u8]) {
        pass(
            &mut self.recording,
            self.groups.as_slice(),
            self.made as usize,
        );
        self.recording.read_piece(from.address() + at as u32, into);
        self.made += 1;
        self.spare_accesses -= 1;
        self.spare_bytes -= into.len() as u32;
    }

    fn dma_write(&mut self, to: &mut Window<'_>, at: u64, bytes: &[u8]) {
        pass(
            &mut self.recording,
            self.groups.as_slice(),
            self.made as usize,
        );
        self.recording.write_piece(to.place(at), bytes);
        self.made += 1;
        self.spare_accesses -= 1;
        self.spare_bytes -= bytes.len() as u32;
    }

    ghost whole = { told_whole };
}
