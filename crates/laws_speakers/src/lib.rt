//! Speakers that are switched off and on while a stream plays: what each of their pins hears, as laws of settings and
//! of the world.
#![tactic(auto)]

mod pins;
mod speakers;

pub use pins::{pin_controls_are_their_own, switched_settings};
pub use speakers::{marks_are_the_signals, others_have_no_marks, switched_codecs_are_set_up};
