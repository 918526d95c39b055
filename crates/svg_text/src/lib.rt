//! Pictures of a few shapes, and their text in SVG: Scalable Vector Graphics (SVG) 1.1, in XML 1.0. It is the one
//! module that writes SVG. This project's own.
#![tactic(auto)]

mod laws;
mod lettering;
mod shapes;
mod style;
mod texts;
mod whole;

pub use laws::{pictures_are_short, pictures_are_well_formed};
pub use lettering::Lettering;
pub use shapes::{Anchor, Paint, Picture, Point, Shape};
pub use whole::write_picture;
