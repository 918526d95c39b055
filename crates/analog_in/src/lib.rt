//! Set-up of an analog input: the plan of the one codec from which is recorded, and the verbs that open its route,
//! silence every other pin and release every other converter, in all codecs.
#![tactic(auto)]

mod input;

pub use input::Input;
pub use input_verbs::{input_verbs_open, one_input_verbs};
