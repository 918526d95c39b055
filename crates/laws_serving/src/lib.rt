//! Which schedules serve a driver, and what follows of them: the device answers each command, the driver comes up and
//! plays, a driver that is fed as its sound wants plays all of it, and one that plays in turns plays just its sound.
//! Laws of the world and of progress over a journal that follows such a schedule.
#![tactic(auto)]

mod commands;
mod progress;
mod sound;
mod turns;

pub use commands::{
    a_submission_comes, looks_keep_serving, round_trips_answer, steps_keep_serving,
};
pub use progress::{served_drivers_come_up, served_drivers_play};
pub use sound::fed_drivers_play_all;
pub use turns::{turns_play_exactly, turns_serve};
