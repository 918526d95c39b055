//! A platform that tells nothing, for tests of drivers: it answers reads of registers from a list, and keeps memory.
ghost use Rattle.std.specs.Prelude.{◌≡◌, ◌≤◌, ◌+◌, None, true, length, IfOk};
ghost use Rattle.hda_world.specs.declared.world.TheConstants.{REGION_BYTES};

use dma_pool::{Lent, Window};
use hda_platform::{Platform, REGION_BYTES};
use hda_registers::Width;
use std::alloc::{AllocError, Global};

/// Register reads are answered with the numbers of a list, and with 0 where none is left; register writes are
/// forgotten.
#[derive(Drop)]
pub struct Scripted {
    answers: Vec<u32>,
    answered: usize,
    memory: Vec<u8>,
    accesses: usize,
    bytes: usize,
    ghost kept: { length memory.items ≡ REGION_BYTES },
}

impl Scripted {
    /// With these answers, and room for so many accesses and bytes.
    pub fn new(
        alloc: Global,
        answers: &[u32],
        accesses: usize,
        bytes: usize,
    ) -> Result<Scripted, AllocError>
        ensures accesses { IfOk result (λ p. ⟦<Scripted as Platform>⟧.spare_accesses p ≡ accesses) }
        ensures bytes { IfOk result (λ p. ⟦<Scripted as Platform>⟧.spare_bytes p ≡ bytes) }
    {
        Ok(Scripted {
            answers: Vec::from_slice(alloc, answers)?,
            answered: 0,
            memory: vec![in alloc; 0; REGION_BYTES]?,
            accesses,
            bytes,
        })
    }

    /// Stores a word, lowest byte first.
    pub fn set_word(&mut self, at: usize, word: u32)
        requires { at + 4 ≤ REGION_BYTES }
        ensures accesses { ⟦<Scripted as Platform>⟧.spare_accesses self.new ≡ ⟦<Scripted as Platform>⟧.spare_accesses
            self.old }
        ensures bytes { ⟦<Scripted as Platform>⟧.spare_bytes self.new ≡ ⟦<Scripted as Platform>⟧.spare_bytes self.old }
    {
        self.memory[at..at + 4].copy_from_slice(&word.to_le_bytes());
    }
}

impl Platform for Scripted {
    ghost told = { λ _. None };

    type Fixed = bool;

    ghost fixed = { λ _. true };

    ghost spare_accesses = { λ p. p.accesses };

    ghost spare_bytes = { λ p. p.bytes };

    fn read(&mut self, _at: u16, _width: Width) -> u32 {
        self.accesses -= 1;
        let Some(answer) = self.answers.get(self.answered).copied() else {
            return 0;
        };
        self.answered += 1;
        answer
    }

    fn write(&mut self, _at: u16, _width: Width, _value: u32) {
        self.accesses -= 1;
    }

    fn dma_read(&mut self, from: &Lent, at: u64, into: &mut [u8]) {
        self.accesses -= 1;
        self.bytes -= into.len();
        let first = from.address() as usize + at as usize;
        into.copy_from_slice(&self.memory[first..first + into.len()]);
    }

    fn dma_write(&mut self, to: &mut Window<'_>, at: u64, bytes: &[u8]) {
        self.accesses -= 1;
        self.bytes -= bytes.len();
        let first = to.place(at) as usize;
        self.memory[first..first + bytes.len()].copy_from_slice(bytes);
    }

    ghost whole = { λ _. tt };
}
