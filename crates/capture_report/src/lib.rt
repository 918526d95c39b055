//! The text that the program writes of a capture: the input, how the recording went, the file that was recorded, and
//! how it ended. It goes out page by page. This project's own.
#![tactic(auto)]

mod captured;
mod ends;
mod file;
mod inputs;
mod laws;
mod overruns;
mod runs;
mod whole;

pub use captured::Captured;
pub use laws::{overruns_are_maximal, wav_lines_are_the_file};
pub use overruns::Overrun;
pub use whole::{capture_report, write_capture};
