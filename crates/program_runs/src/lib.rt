//! Runs of a driver over a machine by a schedule: the steps of the device and the calls of the driver in their order,
//! and then the last call; what comes of one whose schedule serves it, as laws; and the run of the inputs that are
//! made of a number. This project's own.
#![tactic(auto)]

mod calls;
mod commands;
mod driving;
mod feeding;
mod frame_counts;
mod items;
mod lines;
mod made_lines;
mod made_playing;
mod opening;
mod playing;
mod served_laws;
mod walking;

pub use commands::walk_total;
pub use lines::line_count;
pub use made_lines::made_line;
pub use made_playing::play_made;
pub use playing::play;
pub use served_laws::{plays_all_so, plays_by_turns_so, plays_end_so, walks_end_so};
pub use walking::{walk, walk_format};
