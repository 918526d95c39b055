//! The verbs that set a codec up for an input: they open the route from its converter to its pin, silence every other
//! pin, and release every other converter from its stream.
#![tactic(auto)]

mod laws;
mod openings;
mod roles;
mod setup;
mod steps;

pub use laws::{an_open_input_takes_alone, input_verbs_open, one_input_verbs};
pub use setup::verbs;
