//! Bits of the words of four bytes that more than one register's code names (HDA 1.0a, 3.3).

/// Bits 31:7 of a base address: CORBLBASE, RIRBLBASE and SDnBDPL.
pub(crate) const BASE: u32 = 0xFFFF_FF80;
/// CORBWP or RIRBWP in the word of a ring's pointers.
pub(crate) const WRITE_POINTER: u32 = 0xFF;
/// CORBRP in the word of CORB's pointers.
pub(crate) const READ_POINTER: u32 = 0xFF_0000;
/// CORBRPRST in the word of CORB's pointers.
pub(crate) const CORBRPRST: u32 = 0x8000_0000;
/// RIRBWPRST in the word of RIRB's pointers.
pub(crate) const RIRBWPRST: u32 = 0x8000;
/// RINTCNT in the word of RIRB's pointers.
pub(crate) const RESPONSE_COUNT: u32 = 0xFF_0000;
