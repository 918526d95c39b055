//! The FIFO of a stream: that of an output stream is filled from the list of buffers that the driver wrote, that of an
//! input stream is emptied into it (HDA 1.0a, 3.6.2 and 4.5). No call but `new` takes memory.
#![tactic(auto)]

mod entries;
mod fetch;

pub use fetch::{Fetch, Fetched, ListAt, Stored};
