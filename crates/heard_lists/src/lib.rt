//! The heard lists of a machine: what each candidate pin of its codecs hears of the stream, block by block, and at
//! which items it was switched off and on. This project's own.
#![tactic(auto)]

mod blocks;
mod heard_pins;
mod item_lists;
mod laws;
mod lists;
mod pieces;
mod pin_list;
mod pin_marks;
mod reader;
mod sounds;
mod stretches;

pub use heard_pins::HeardPins;
pub use laws::{
    frames_grow_lists, frames_grow_lists_of_each_kind, lists_grow_on, lists_of_each_kind_grow_on,
};
pub use lists::HeardLists;
pub use pin_list::PinHeard;
pub use reader::HeardReader;
pub use sounds::Sounds;
pub use stretches::{Kind, Stretch};
