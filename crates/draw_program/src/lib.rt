//! Pictures of codecs and of runs over any shelf and sink: the words, and the picture for which they ask. This
//! project's own.
#![tactic(auto)]

mod answer;
mod draw;
mod words;

pub use draw::draw_main;
