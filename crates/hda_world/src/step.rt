//! The steps by which the device acts.
pub use world_steps::Step;

/// How many link frames after CRST rose the codecs are discovered (HDA 1.0a, 4.3).
pub const FRAMES_TO_DISCOVERY: u32 = 25;
