//! The samples of a block.
ghost use Rattle.std.specs.Prelude.{◌≡◌, ◌≤◌, ◌<◌, length};
ghost use Rattle.stream_format.specs.Cadence.{block_bytes};
ghost use Rattle.stream_format.specs.Samples.{sample_of};

use crate::format::{Bits, Format};
use byteorder::{ByteOrder, LittleEndian};

impl Format {
    /// The number in a channel's container of a block: of 16 bits, or of 32. A sample of 24 bits stands in the upper
    /// three bytes of its container (HDA 1.0a, 4.5.1).
    pub fn sample(&self, block: &[u8], channel: u8) -> i32
        requires channel { channel < self.now.channels }
        requires whole { block_bytes self.now ≤ length block.now }
        ensures { result ≡ sample_of self.now block.now channel }
    {
        let place = usize::from(channel);
        match self.bits {
            Bits::B16 => i32::from(LittleEndian::read_i16(&block[2 * place..])),
            Bits::B24 | Bits::B32 => LittleEndian::read_i32(&block[4 * place..]),
        }
    }
}
