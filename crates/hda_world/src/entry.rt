//! What a journal notes.

use crate::step::Step;
use hda_registers::Width;

/// One thing that happened. This project's own.
#[derive(Clone, Copy, Debug, PartialEq, Eq)]
pub enum Entry {
    /// The device made a step.
    Step(Step),
    /// A run of the driver begins.
    Begin,
    /// The run of the driver that began last ends.
    End,
    /// The driver read a register.
    Read {
        /// Its place in the controller's registers.
        at: u16,
        /// How many bytes were read.
        width: Width,
        /// The value that was read.
        value: u32,
    },
    /// The driver wrote a register.
    Write {
        /// Its place in the controller's registers.
        at: u16,
        /// How many bytes were written.
        width: Width,
        /// The value that was written.
        value: u32,
    },
    /// The driver read a piece of memory: its number among the journal's pieces, counted from 0.
    DmaRead(u32),
    /// The driver wrote a piece of memory: its number among the journal's pieces, counted from 0.
    DmaWrite(u32),
}

/// A piece of memory that the driver read or wrote. This project's own.
#[derive(Clone, Copy, Debug, PartialEq, Eq)]
pub struct MemoryPiece {
    /// The address of its first byte.
    pub at: u32,
    /// How many bytes it has.
    pub len: u32,
    /// The place of its bytes in the journal's bytes.
    pub from: u64,
}
