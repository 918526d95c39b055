//! Stream formats.
ghost use Rattle.std.specs.Prelude.{◌≡◌, ◌≤◌, ◌%◌};

/// A sample rate: 8, 16, 44.1, 48, 96 or 192 kHz (HDA 1.0a, 3.7.1).
#[derive(Clone, Copy, Debug, PartialEq, Eq)]
pub enum Rate {
    /// 8,000 blocks in a second.
    R8,
    /// 16,000 blocks in a second.
    R16,
    /// 44,100 blocks in a second.
    R44,
    /// 48,000 blocks in a second, one in each link frame.
    R48,
    /// 96,000 blocks in a second.
    R96,
    /// 192,000 blocks in a second.
    R192,
}

/// A sample size: 16, 24 or 32 bits (HDA 1.0a, 3.7.1).
#[derive(Clone, Copy, Debug, PartialEq, Eq)]
pub enum Bits {
    /// 16 bits, in a container of 16.
    B16,
    /// 24 bits, in the upper three bytes of a container of 32; the lowest byte is 0.
    B24,
    /// 32 bits, in a container of 32.
    B32,
}

/// The format of a stream: a rate, a sample size, and 2, 4, 6 or 8 channels.
#[derive(Clone, Copy, Debug, PartialEq, Eq)]
pub struct Format {
    /// How many blocks a second has.
    pub rate: Rate,
    /// How many bits a sample has.
    pub bits: Bits,
    /// How many channels each block has.
    pub channels: u8,
    ghost even: { channels % 2 ≡ 0 },
    ghost some: { 2 ≤ channels },
    ghost few: { channels ≤ 8 },
}
