//! Streams of a driver: they rest before the first run of sound, go on as each run leaves them, and at the end each pin
//! heard the line. Laws of the world, and over the calls of `audio_driver`.
#![tactic(auto)]

mod commands;
mod played;
mod rest;

pub use commands::{
    a_bare_stop_gives_the_stream_up, accesses_of_commands_leave_the_stream_alone,
    commands_tell_whether_the_stream_runs, the_last_run_is_heard_by_signals,
    the_stream_goes_on_beside_commands,
};
pub use played::{
    a_first_run_is_heard, a_stopped_stream_is_over, the_last_run_is_heard, the_stream_goes_on,
};
pub use rest::{a_first_run_can_begin, streams_rest_before_sound};
