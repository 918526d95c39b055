//! What is to be recorded.
ghost use Rattle.std.specs.Prelude.{◌≡◌, ◌≤◌, ◌+◌, ◌*◌};
ghost use Rattle.stream_format.specs.Cadence.{block_bytes};
ghost use Rattle.wav_writer.specs.declared.file.TheConstants.{MOST_RING_BYTES};
ghost use Rattle.period_writer.specs.Rings.{ring_bytes};
ghost use Rattle.audio_driver.specs.declared.room.TheConstants.{ROOM_BYTES};

use analog_in::Input;
use audio_driver::ROOM_BYTES;
use period_writer::Geometry;

/// What is to be recorded, from which codec, and how.
#[derive(Clone, Copy)]
pub(crate) struct CaptureTerms {
    /// The codec from which is recorded.
    pub input: Input,
    /// The ring through which.
    pub geometry: Geometry,
    /// In how many calls of the driver.
    pub runs: u32,
    /// How many frames.
    pub frames: u64,
    pub ghost few: { runs ≤ 1000000 },
    pub ghost short: { frames * block_bytes geometry.format ≤ MOST_RING_BYTES },
}

impl CaptureTerms {
    /// For how many bytes of pieces of memory a call asks room.
    pub(crate) fn room(&self) -> u32
        ensures { result ≡ ring_bytes self.now.geometry.periods self.now.geometry.period + ROOM_BYTES }
    {
        self.geometry.ring() + ROOM_BYTES
    }
}
