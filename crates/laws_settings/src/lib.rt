//! What codecs took, and the settings that came of it, as laws of the world.
#![tactic(auto)]

mod laws;

pub use laws::{
    an_answer_is_a_reply, codecs_remember, each_codec_takes_its_own, frames_remember,
    readings_leave_settings, the_last_pin_control_stands, verbs_set_up, words_name_their_codecs,
};
