//! Reads a schedule, a text that says in which order the device's steps and the driver's runs come. The format is this
//! project's own.
//!
//! A file is a list of lines. Lines of spaces alone are skipped, and so are those whose first byte other than a space
//! is `#`.
//!
//! | line | what it says |
//! |---|---|
//! | `corb`, `rirb`, `answer C`, `lose C`, `fetch S N`, `link N`, `plug C NID`, `unplug C NID` | a step of the device: codec C 0 to 14, stream S 0 or 1, N 1 to 65,535 bytes or 1 to 1,000,000 frames, NID 01 to 7f |
//! | `run N`, `irq N`, each with groups | a line of the driver with a budget N of 0 to 4,294,967,295 |
//! | `repeat K`, lines, `end` | what is passed K times, 1 to 1,000,000 |
//!
//! A group is `|` and then `-` or steps with `,` between them: steps of the device between two accesses of the driver.
//! Numbers have one to ten decimal digits, node identifiers two hexadecimal ones.
#![tactic(auto)]

mod counts;
mod cuts;
mod fault;
mod heads;
mod keywords;
mod laws;
mod numbers;
mod parts;
mod read;
mod rows;
mod schedule;
mod steps;

pub use fault::SchedFault;
pub use laws::{one_schedule, schedules_have_a_limit};
pub use parts::MOST_SCHEDULE_BYTES;
pub use read::read_schedule;
pub use schedule::{DriverLine, Group, Item, Part, Schedule};
