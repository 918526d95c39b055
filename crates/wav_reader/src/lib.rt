//! Sound files: reads a WAV file and gives out its sound, in the bytes of a stream's ring.
//!
//! A WAV file is `RIFF`, a size, `WAVE` and then chunks, each of four bytes name, four bytes size, so many bytes of
//! body and, after an odd size, a pad byte. Numbers stand lowest byte first. The chunk `fmt ` says the format of the
//! sound, and the chunk `data` has it: a sample of each channel, frame by frame. Which of these are checked is this
//! project's own:
//!
//! | read | checked | fault |
//! |---|---|---|
//! | the first 12 bytes | `RIFF`, four bytes that are not looked at, `WAVE` | `NotRiff` |
//! | each chunk, in order | its head has 8 bytes and its body ends in the file | `Truncated` |
//! | the first chunk `fmt ` | its body has at least 16 bytes, and at least 40 where the tag is FFFEh | `NoFormat` |
//! | its place 0 | the tag is 1, or FFFEh with the subformat of whole numbers at place 24 | `Tag` |
//! | its place 2 | 1, 2, 4, 6 or 8 channels | `Channels` |
//! | its place 4 | 8,000, 16,000, 44,100, 48,000, 96,000 or 192,000 frames a second | `Rate` |
//! | its place 14 | 16, 24 or 32 bits a sample | `Bits` |
//! | its place 12 | a block has 2, 3 or 4 bytes for each channel, by the bits | `BlockAlign` |
//! | the first chunk `data` | a chunk `fmt ` stood before it | `NoFormat` |
//! | the end of the file | a chunk `data` was read before | `NoData` |
//!
//! The first fault counts. Nothing after the body of the chunk `data` is read. A size of FFFFFFFFh of the chunk `data`
//! means that its body goes to the file's end. Later chunks `fmt ` and other chunks are skipped, and so is the rest of
//! a body of the chunk `fmt `; the bytes a second are not checked, nor are the valid bits and the channel mask of the
//! extensible form, which is that of the tag FFFEh. Its subformat of whole numbers is the bytes 01 00 00 00 00 00 10 00
//! 80 00 00 AA 00 38 9B 71. Bytes at the end of the sound that make no whole frame are ignored.
//!
//! The ring gets a block for each frame, at the rate and with the bits of the file, and with its channels, but two for
//! one: the sample of a frame of one channel stands left and right. A sample of 16 or 32 bits stands in the ring as in
//! the file, and one of 24 bits behind a byte 0, in a container of four bytes (HDA 1.0a, 4.5.1).
#![tactic(auto)]

mod chunks;
mod fault;
mod formats;
mod heads;
mod laws;
mod opened;
mod opening;
mod ring_parts;
mod slots;
mod sound_files;
mod streams;
mod supply;
mod wav;

pub use fault::WavFault;
pub use laws::{
    all_chunks_are_found, written_blocks_are_read, written_chunks_are_read, written_sound_is_read,
};
pub use opened::{MOST_WAV_BYTES, WavHead, WavOpen};
pub use opening::open_wav;
pub use supply::Supply;
pub use wav::{Wav, read_wav};
