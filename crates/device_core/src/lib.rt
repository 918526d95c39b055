//! A controller's registers, rings, codecs and streams as one device: each call leads to the world's move. High
//! Definition Audio 1.0a, 3.3, 4.3 to 4.5 and 5.5.1. No call but `Device::new` takes memory.
#![tactic(auto)]

mod capture;
mod codecs;
mod device;
mod listening;
mod sound;

pub use codecs::Handed;
pub use device::{Device, LinkFrame};
pub use sound::touches_sound;
