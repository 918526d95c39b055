//! Writes the blocks of a stream's ring as a WAV file: `RIFF`, the size, `WAVE`, a chunk `fmt ` of 16 bytes with the
//! tag of whole numbers, and a chunk `data` with the samples. A sample of 16 or 32 bits stands in the file as in the
//! ring, and one of 24 bits without the lowest byte of its container (HDA 1.0a, 4.5.1).
#![tactic(auto)]

mod file;

pub use file::{MOST_RING_BYTES, WAV_HEAD_BYTES, wav_file, wav_head};
