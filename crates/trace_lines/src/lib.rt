//! The journal of a run as a text, an entry a line: what each register, bit, command and piece of memory is by the
//! standard, and the phase after each call of the driver; or as lines of JSON. It goes out page by page. This project's
//! own.
#![tactic(auto)]

mod bits;
mod entries;
mod memory;
mod names;
mod phases;
mod purposes;
mod raw;
mod registers;
mod situations;
mod steps;
mod verbs;
mod whole;
mod words;

pub use whole::{Form, write_trace};
