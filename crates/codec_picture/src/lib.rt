//! The picture of codecs: their widgets in columns, the connections between them, and what was planned for their pins.
//! This project's own.
#![tactic(auto)]

mod boxes;
mod columns;
mod laws;
mod marks;
mod names;
mod routes;
mod whole;

pub use laws::{boxes_are_apart, each_widget_has_one_box};
pub use whole::codec_picture;
