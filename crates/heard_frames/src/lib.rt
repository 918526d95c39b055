//! The items of heard lists: what a pin heard of each block that link frames carried.
#![tactic(auto)]

mod heard;
mod laws;
mod mark;

pub use heard::Heard;
pub use laws::{
    bytes_are_items, frames_add_their_items, heard_lists_go_on, heard_lists_of_each_kind_go_on,
    heard_samples_are_the_formats, kept_signals_are_those_of_words,
    kept_signals_of_each_kind_are_those_of_words, marks_go_on,
};
pub use mark::Mark;
