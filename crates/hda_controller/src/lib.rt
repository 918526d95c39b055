//! The controller: the device, with the signals of its codecs' candidate pins as they are at each moment. This
//! project's own.
#![tactic(auto)]

mod commands;
mod controller;
mod marking;
mod marks;
mod opening;
mod places;
mod renewing;
mod room;

pub use commands::is_set_command;
pub use controller::Controller;
pub use room::{most_items, most_marks};
