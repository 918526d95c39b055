//! A platform that tells nothing: it answers reads of registers from a list, keeps memory, and can list what a driver
//! does.
ghost use Rattle.std.specs.Prelude.{◌≡◌, ◌≤◌, ◌<◌, ◌+◌, None, true, length, IfOk};
ghost use Rattle.hda_world.specs.declared.world.TheConstants.{REGION_BYTES};

use dma_pool::{Lent, Window};
use hda_platform::{Platform, REGION_BYTES};
use hda_registers::Width;
use std::alloc::{AllocError, Global};

/// An access of a driver.
#[derive(Clone, Copy, Debug, PartialEq, Eq)]
pub enum Access {
    /// The register at an address was read.
    Read(u16, Width),
    /// The register at an address was written, with a value.
    Write(u16, Width, u32),
    /// So many bytes of memory were written from an address on.
    Memory(usize, usize),
    /// So many were read.
    MemoryRead(usize, usize),
}

/// What a register reads, once: its address and the value.
#[derive(Clone, Copy, Debug, PartialEq, Eq)]
pub struct Answer {
    pub at: u16,
    pub value: u32,
}

/// A read of the register that the next answer of the list names has that answer. Every other read has the same value.
#[derive(Drop)]
pub struct Scripted {
    answers: Vec<Answer>,
    answered: usize,
    otherwise: u32,
    memory: Vec<u8>,
    accesses: Vec<Access>,
    /// Whether the accesses are listed.
    lists: bool,
    spare_accesses: usize,
    spare_bytes: usize,
    ghost kept: { length memory.items ≡ REGION_BYTES },
}

impl Scripted {
    /// With these answers, and a value for all other reads. It has room for no access.
    pub fn new(
        alloc: Global,
        answers: Vec<Answer>,
        otherwise: u32,
        lists: bool,
    ) -> Result<Scripted, AllocError> {
        Ok(Scripted {
            answers,
            answered: 0,
            otherwise,
            memory: vec![in alloc; 0; REGION_BYTES]?,
            accesses: Vec::new(alloc),
            lists,
            spare_accesses: 0,
            spare_bytes: 0,
        })
    }

    /// Has room for so many accesses and bytes from now on, and no more.
    pub fn make_room(&mut self, accesses: usize, bytes: usize)
        ensures accesses { ⟦<Scripted as Platform>⟧.spare_accesses self.new ≡ accesses }
        ensures bytes { ⟦<Scripted as Platform>⟧.spare_bytes self.new ≡ bytes }
    {
        self.spare_accesses = accesses;
        self.spare_bytes = bytes;
    }

    /// For how many accesses and bytes there is room left.
    pub fn room(&self) -> (usize, usize) {
        (self.spare_accesses, self.spare_bytes)
    }

    /// What was done so far, in order.
    pub fn accesses(&self) -> &[Access] {
        self.accesses.as_slice()
    }

    /// How many answers were not asked for.
    pub fn answers_left(&self) -> usize {
        self.answers.len().saturating_sub(self.answered)
    }

    /// Appends the bytes of memory from an address on to a list.
    pub fn copy_memory(&self, at: usize, len: usize, into: &mut Vec<u8>) -> Result<(), AllocError>
        requires { at + len ≤ REGION_BYTES }
    {
        into.extend_from_slice(&self.memory[at..at + len])?;
        Ok(())
    }

    /// Puts a byte into memory, as a device does.
    pub fn put(&mut self, at: usize, byte: u8)
        requires { at < REGION_BYTES }
    {
        self.memory[at] = byte;
    }

    /// Lists an access. After want of memory none is listed.
    fn note(&mut self, access: Access)
        ensures accesses { self.new.spare_accesses ≡ self.old.spare_accesses }
        ensures bytes { self.new.spare_bytes ≡ self.old.spare_bytes }
    {
        if self.lists && self.accesses.push(access).is_err() {
            self.lists = false;
        }
    }
}

impl Platform for Scripted {
    ghost told = { λ _. None };

    type Fixed = bool;

    ghost fixed = { λ _. true };

    ghost spare_accesses = { λ p. p.spare_accesses };

    ghost spare_bytes = { λ p. p.spare_bytes };

    fn read(&mut self, at: u16, width: Width) -> u32 {
        self.spare_accesses -= 1;
        self.note(Access::Read(at, width));
        match self.answers.get(self.answered).copied() {
            Some(answer) if answer.at == at => {
                self.answered += 1;
                answer.value
            }
            _ => self.otherwise,
        }
    }

    fn write(&mut self, at: u16, width: Width, value: u32) {
        self.spare_accesses -= 1;
        self.note(Access::Write(at, width, value));
    }

    fn dma_read(&mut self, from: &Lent, at: u64, into: &mut [u8]) {
        self.spare_accesses -= 1;
        self.spare_bytes -= into.len();
        let first = from.address() as usize + at as usize;
        self.note(Access::MemoryRead(first, into.len()));
        into.copy_from_slice(&self.memory[first..first + into.len()]);
    }

    fn dma_write(&mut self, to: &mut Window<'_>, at: u64, bytes: &[u8]) {
        self.spare_accesses -= 1;
        self.spare_bytes -= bytes.len();
        let first = to.place(at) as usize;
        let len = bytes.len();
        self.note(Access::Memory(first, len));
        self.memory[first..first + len].copy_from_slice(bytes);
    }

    ghost whole = { λ _. tt };
}
