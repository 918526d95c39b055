//! The platform that a driver drives, and what it tells of the world.
#![tactic(auto)]

mod open_fault;
mod platform;

pub use hda_world::{
    Entry, FRAMES_TO_DISCOVERY, Journal, REGION_BYTES, Step, accesses_compose, codecs_are_apart,
    discovery_comes_in_the_25th_frame, events_compose, memory_write_leaves, region_is_fixed,
    register_write_leaves, steps_compose, steps_keep_discovery, steps_keep_reading,
    steps_leave_other_codecs, steps_write_rirb_alone, write_beside_rings_leaves,
};
pub use open_fault::OpenFault;
pub use platform::Platform;
