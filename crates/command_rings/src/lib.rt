//! The device side of the rings of commands (CORB) and of responses (RIRB), over a slice of memory and the registers
//! (HDA 1.0a, 4.4).
#![tactic(auto)]

mod rings;

pub use rings::Rings;
