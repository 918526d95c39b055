//! How the bring-up of the codecs, as it is told, keeps to progress: laws over the calls of `driver_bring_up`.
#![tactic(auto)]

mod laws;

pub use laws::{bring_ups_keep_to_progress, ready_codecs_are_set_up, stretches_are_progress};
