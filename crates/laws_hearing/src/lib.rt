//! What pins hear of the line: that the sound which a writer plays is what each routed pin's list has.
#![tactic(auto)]

mod laws;
mod signals;

pub use laws::{
    a_started_stream_is_steady, accesses_beside_keep_it_steady, all_that_was_sent_is_heard,
    idle_codecs_keep_their_settings, longer_lines_are_heard, routed_pins_hear_what_was_sent,
    silent_pins_hear_nothing, steps_keep_it_steady, the_line_is_heard,
};
pub use signals::{
    idle_codecs_take_no_commands, one_signal_is_played, signals_are_heard, steady_signals,
    streams_go_on,
};
