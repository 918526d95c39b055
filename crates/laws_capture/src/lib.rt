//! Laws of a driver that captures: what its input hears, that there is room for the blocks of its recorder, and how it
//! is led on.
#![tactic(auto)]

mod capturing;
mod laws;

pub use capturing::drivers_that_capture_keep_to_progress;
pub use laws::{open_inputs_are_heard, recorders_have_room};
