//! Stream formats of High Definition Audio: their words, how many sample blocks each link frame carries, and the
//! samples of a block.
//!
//! A block holds one sample of each channel, that of channel 0 first. A sample stands in a container of 16 bits, or of
//! 32 bits where it has 24 or 32 bits (HDA 1.0a, 4.5.1).
#![tactic(auto)]

mod cadence;
mod format;
mod laws;
mod samples;
mod words;

pub use format::{Bits, Format, Rate};
pub use laws::{
    blocks_in_160_frames, most_bounds_every_frame, one_format_for_a_word, words_are_read_back,
};
