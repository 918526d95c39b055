//! Recorders on platforms that tell: the bytes that a recorder keeps are the bytes that the input stream took since its
//! RUN rose, in order, each byte once, whatever the device does between two accesses, as long as no run is late.
#![tactic(auto)]

mod beside;
mod ended;
mod recording;
mod sound;

pub use beside::{recordings_leave_the_engine, recordings_lie_apart};
pub use ended::{a_stop_ends_a_recording, a_stopped_recording_is_over};
pub use recording::{
    a_first_recording_begins, events_beside_keep_recording, recordings_go_on, steps_keep_recording,
};
pub use sound::{given_sound_is_taken, what_was_recorded_is_given};
