//! A register of the output stream's descriptor.

use hda_registers::places;

/// The status of the output stream: STS (HDA 1.0a, 3.3.36).
pub const STREAM_STATUS: u16 = places::OUTPUT_DESCRIPTOR + places::SDSTS;
