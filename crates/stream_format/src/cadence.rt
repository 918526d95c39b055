//! How many blocks are due in each link frame, and their bytes.
ghost use Rattle.std.specs.Prelude.{◌≡◌, if◌then◌else◌};
ghost use Rattle.stream_format.specs.Cadence as spec;

use crate::format::{Bits, Format, Rate};

/// The frames of 160 that have no block at 44.1 kHz.
const GAPS: [u64; 13] = [12, 24, 36, 49, 61, 73, 86, 98, 110, 123, 135, 147, 159];

/// The bytes of a sample's container.
fn container_bytes(bits: Bits) -> u32
    ensures { result ≡ spec.container_bytes bits }
{
    match bits {
        Bits::B16 => 2,
        Bits::B24 | Bits::B32 => 4,
    }
}

/// The most blocks of a frame.
fn most_blocks(rate: Rate) -> u32
    ensures { result ≡ spec.most_blocks rate }
{
    match rate {
        Rate::R8 | Rate::R16 | Rate::R44 | Rate::R48 => 1,
        Rate::R96 => 2,
        Rate::R192 => 4,
    }
}

/// One block where it is due.
fn one_if(due: bool) -> u32
    ensures { result ≡ (if due then 1 else 0) }
{
    u32::from(due)
}

impl Format {
    /// The bytes of a block: those of a container for each channel (HDA 1.0a, 4.5.1).
    pub fn block_bytes(&self) -> u32
        ensures { result ≡ spec.block_bytes self.now }
    {
        u32::from(self.channels) * container_bytes(self.bits)
    }

    /// The blocks due in a link frame, counted from 0 at the rise of RUN (HDA 1.0a, 5.4.2).
    pub fn blocks(&self, frame: u64) -> u32
        ensures { result ≡ spec.blocks_of self.now.rate frame }
    {
        match self.rate {
            Rate::R8 => one_if(frame % 6 == 0),
            Rate::R16 => one_if(frame % 3 == 0),
            Rate::R44 => one_if(!GAPS.contains(&(frame % 160))),
            Rate::R48 => 1,
            Rate::R96 => 2,
            Rate::R192 => 4,
        }
    }

    /// The most bytes of one link frame.
    pub fn most(&self) -> u32
        ensures { result ≡ spec.most_bytes self.now }
    {
        most_blocks(self.rate) * self.block_bytes()
    }
}
