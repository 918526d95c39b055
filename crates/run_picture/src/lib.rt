//! The picture of a run of the driver over link time: what the link sent and the stream fetched, how far the line was
//! written, how long the runs waited for one another, and what each candidate pin heard. This project's own.
#![tactic(auto)]

mod bands;
mod charts;
mod columns;
mod ends;
mod laws;
mod lettering;
mod meter;
mod moments;
mod panels;
mod scales;
mod series;
mod whole;
mod windows;

pub use laws::pictures_are_small;
pub use meter::Meter;
pub use moments::meter_after;
pub use whole::run_picture;
