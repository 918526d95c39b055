//! The streams of the controller. An output stream's buffers are fetched into its FIFO, and each link frame takes the
//! blocks that are due out of it; an input stream's FIFO takes the blocks that a link frame brings, and its bytes are
//! stored in its buffers (HDA 1.0a, 3.3.35 to 3.3.42, 4.5 and 5.4). No call but `new` takes memory.
#![tactic(auto)]

mod arrived;
mod frame;
mod input;
mod laws;
mod stream;

pub use arrived::{Arrived, MOST_BLOCK_BYTES, SoundBlocks};
pub use frame::{Frame, MOST_FRAME_BYTES};
pub use input::InputStream;
pub use laws::{blocks_have_a_limit, frames_have_a_limit};
pub use stream::Stream;
