//! The rules by which speakers fall silent while headphones are plugged in: which pins are jacks and speakers, and a
//! machine that is told what codecs sent, and says which command comes next. It makes no access, and takes memory only
//! where it begins.
#![tactic(auto)]

mod laws;
mod opening;
mod pins;
mod switching;

pub use laws::choices_are_commands;
pub use pins::{JackPin, JackState, SpeakerPin, SpeakerState};
pub use switching::Switching;
