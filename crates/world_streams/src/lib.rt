//! What a stream of High Definition Audio does to its state: of an output stream bytes come from a list of buffers into
//! its FIFO, and link frames take the blocks that are due; of an input stream link frames bring blocks into its FIFO,
//! and its bytes go to a list of buffers. The definitions that the device's world and its code share.
#![tactic(auto)]

mod buffers;
mod laws;

pub use buffers::{BUFFER_ALIGNMENT, BUFFER_ENTRY_BYTES, Buffer, ListPlace};
pub use laws::lists_are_the_standards;
