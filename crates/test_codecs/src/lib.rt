//! Codec files that tests read, and the codecs that they describe.
#![tactic(auto)]

mod codec_files;
mod controls;

pub use codec_files::{LARGE, LEAST, codec_of, read_codec};
pub use controls::push_controls;
