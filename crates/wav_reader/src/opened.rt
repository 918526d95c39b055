//! What is known of a WAV file before its sound is read, or why it was not opened.
ghost use Rattle.std.specs.Prelude.{◌≡◌, true};
ghost use Rattle.wav_reader.specs.Readers.{open_of_length, open_of_cut, open_of_fault};

use crate::fault::WavFault;
use hda_outside::{Cut, ReadAll};
use stream_format::Format;

/// The most bytes of a WAV file.
pub const MOST_WAV_BYTES: u64 = 67_108_864;

/// What a WAV file says before its sound, and how long the file is.
#[derive(Clone, Copy, Debug)]
pub struct WavHead {
    /// The format of its ring bytes: the rate and the bits of the file, and its channels, but 2 for one channel.
    pub format: Format,
    /// Whether the file has one channel, whose samples are doubled to left and right.
    pub mono: bool,
    /// How many whole frames there are.
    pub frames: u64,
    /// The place of the first frame in the file, in bytes.
    pub from: u64,
    /// The bytes of the file, as they were measured.
    pub length: u64,
    pub ghost doubled: { mono ≡ true → format.channels ≡ 2 },
}

/// Why a WAV file was not opened.
#[derive(Debug, Drop)]
pub enum WavOpen {
    /// The shelf failed, and its count of faults under the file's name rose.
    Failed,
    /// The file has more than [`MOST_WAV_BYTES`].
    TooLong,
    /// The file's first fault, in the order of the crate's table.
    Wav(WavFault),
    /// Want of memory.
    OutOfMemory,
}

impl From<ReadAll> for WavOpen {
    ghost from_gives = { λ fault e. e ≡ open_of_length fault };

    fn from(fault: ReadAll) -> WavOpen {
        match fault {
            ReadAll::Failed => WavOpen::Failed,
            ReadAll::TooLong => WavOpen::TooLong,
            ReadAll::OutOfMemory => WavOpen::OutOfMemory,
        }
    }
}

impl From<Cut> for WavOpen {
    ghost from_gives = { λ cut e. e ≡ open_of_cut cut };

    fn from(cut: Cut) -> WavOpen {
        match cut {
            Cut::Failed => WavOpen::Failed,
            Cut::Short(place) => WavOpen::Wav(WavFault::Truncated(place)),
            Cut::OutOfMemory => WavOpen::OutOfMemory,
        }
    }
}

impl From<WavFault> for WavOpen {
    ghost from_gives = { λ fault e. e ≡ open_of_fault fault };

    fn from(fault: WavFault) -> WavOpen {
        match fault {
            WavFault::OutOfMemory => WavOpen::OutOfMemory,
            fault => WavOpen::Wav(fault),
        }
    }
}
