//! How a whole driver, as it is told, keeps to progress, sets its codecs up and is heard, and what it leaves when it is
//! taken apart: laws over the calls of `audio_driver`.
#![tactic(auto)]

mod laws;

pub use laws::{drivers_keep_to_progress, parts_stand};
