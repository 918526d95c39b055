//! The text that the program writes of a run of the driver: what was planned, how the run went, what each pin heard,
//! and how it ended. It goes out page by page. This project's own.
#![tactic(auto)]

mod digits;
mod ends;
mod lines;
mod pages;
mod pieces;
mod pins;
mod plans;
mod played;
mod status;
mod switch;
mod whole;

pub use pages::{PAGE_LEN, turn};
pub use pieces::{push_hex, push_number, push_word};
pub use plans::{push_nid, push_plans};
pub use played::{CutLine, PlayFault, Played};
pub use status::Status;
pub use switch::Switch;
pub use whole::{report, report_switched, write_report, write_switched};
