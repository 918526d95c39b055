//! The rig: a machine of codec files in motion, a platform for drivers. It makes the steps of a schedule, between the
//! driver's accesses too, and keeps a journal of both. This project's own.
#![tactic(auto)]

mod groups;
mod laws;
mod liar;
mod recording;
mod rig;
mod rooms;
mod setting;

pub use laws::{pieces_follow, rigs_replay, runs_follow};
pub use liar::Liar;
pub use rig::Rig;
pub use setting::Setting;
