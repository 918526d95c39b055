//! Reads what a Linux kernel says of a codec in `/proc/asound/card0/codec#0`, a dump below: the facts of its codecs.
//! This project's own.
#![tactic(auto)]

mod codec_facts;
mod cuts;
mod facts;
mod fault;
mod labels;
mod node_facts;
mod node_lines;
mod numbers;
mod operands;
mod reading;
mod wait;

pub use cuts::begins_with;
pub use facts::{CodecFacts, Gain, NodeFacts, NodeLines};
pub use fault::ReadFault;
pub use labels::Label;
pub use reading::{MOST_DUMP_BYTES, read_dump};
