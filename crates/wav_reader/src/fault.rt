//! Why a WAV file is refused.
ghost use Rattle.std.specs.Prelude.{◌≡◌};
ghost use Rattle.wav_reader.specs.declared.fault.WavFault.TheVariants.{OutOfMemory};

use std::alloc::AllocError;
use std::fmt;

/// The first fault of a WAV file, or want of memory.
#[derive(Clone, Copy, Debug, PartialEq, Eq)]
pub enum WavFault {
    /// The file does not begin with `RIFF`, a size and `WAVE`.
    NotRiff,
    /// A chunk `fmt ` with fewer than 16 bytes, or of the extensible form with fewer than 40, or a chunk `data` with no
    /// chunk `fmt ` before it.
    NoFormat,
    /// The file ends after a chunk, and none was a chunk `data`.
    NoData,
    /// A chunk's head or body goes past the end of the file, which has this many bytes.
    Truncated(u64),
    /// The tag of the format, which is neither 1 nor that of the extensible form, or is that, 65534, with a subformat
    /// whose samples are not whole numbers.
    Tag(u16),
    /// The number of channels, which is not 1, 2, 4, 6 or 8.
    Channels(u16),
    /// The frames a second, which are none of the six rates.
    Rate(u32),
    /// The bits of a sample, which are not 16, 24 or 32.
    Bits(u16),
    /// A block has not the bytes of a sample for each channel: 2, 3 or 4.
    BlockAlign,
    /// Memory was wanting, which says nothing of the file.
    OutOfMemory,
}

impl fmt::Display for WavFault {
    ghost use Rattle.std.specs.Prelude.{Some};
    ghost use Rattle.wav_reader.specs.FaultText.{wav_fault_text};

    ghost output = { λ fault. Some (wav_fault_text fault) };

    fn fmt<W: fmt::Write>(&self, f: &mut fmt::Formatter<W>) -> fmt::Result {
        match self {
            WavFault::NotRiff => f.write_str("NotRiff"),
            WavFault::NoFormat => f.write_str("NoFormat"),
            WavFault::NoData => f.write_str("NoData"),
            WavFault::Truncated(length) => write!(f, "Truncated {length}"),
            WavFault::Tag(tag) => write!(f, "Tag {tag}"),
            WavFault::Channels(channels) => write!(f, "Channels {channels}"),
            WavFault::Rate(rate) => write!(f, "Rate {rate}"),
            WavFault::Bits(bits) => write!(f, "Bits {bits}"),
            WavFault::BlockAlign => f.write_str("BlockAlign"),
            WavFault::OutOfMemory => f.write_str("out of memory"),
        }
    }
}

impl std::error::Error for WavFault {}

impl From<AllocError> for WavFault {
    ghost from_gives = { λ _ fault. fault ≡ OutOfMemory };

    fn from(_error: AllocError) -> WavFault {
        WavFault::OutOfMemory
    }
}
