//! The words of the command line: which command they ask for, with its operands and options.
//!
//! The first word is the command. After it, up to a `--`, a word that begins with a hyphen is an option: `--x v` as two
//! words, or `--x=v` as one. All other words, and all after `--`, are operands.
#![tactic(auto)]

mod arguments;
mod line;
mod numbers;
mod request;
mod run_words;
mod table;

pub use request::{Request, WordsFault, read_words};
pub use run_words::read_run;
