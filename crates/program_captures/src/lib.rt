//! Captures of a driver over a machine by a schedule: the codec from which is recorded, how many commands it takes, and
//! the capture from first to last. This project's own.
#![tactic(auto)]

mod calls;
mod capturer;
mod capturing;
mod closing;
mod commands;
mod faults;
mod inputs;
mod items;
mod opening;
mod terms;

pub use capturing::capture;
pub use inputs::inputs_of;
