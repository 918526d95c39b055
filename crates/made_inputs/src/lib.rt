//! The inputs that are made of a number: a machine with one codec, a sound, and a schedule that plays it. This
//! project's own.
#![tactic(auto)]

mod laws;
mod machine;
mod schedule;
mod sound;

pub use laws::made_codec_is_well_formed;
pub use machine::made_machine;
pub use schedule::made_schedule;
pub use sound::{made_format, made_wav};
