//! Plays of the writer of the ring, and recordings of a ring that is filled, over a platform that answers from a list, so
//! that its clocks and positions may be right or lie: for tests.
#![tactic(auto)]

mod last_runs;
mod play;
mod recordings;
mod scripted;

pub use last_runs::finish_over;
pub use play::{Played, RunRow, Script, Turn, format_at, free_in, play_over, small_ring, sound_at};
pub use recordings::{RecordPlayed, RecordScript, RecordTurn, record_over};
pub use scripted::Access;
