//! A codec on the link: it answers commands, tells what is plugged in, and keeps what waits for the controller in one
//! queue.
#![tactic(auto)]

mod codec;
mod queue;

pub use codec::Codec;
