//! Set-up of codecs: how a plan is made of a graph, by which verbs its routes are opened, and the set-up of analog
//! outputs.
#![tactic(auto)]

mod analog;
mod setter;

pub use analog::Analog;
pub use setter::Setter;
pub use setup_verbs::{setup_verbs_set_up, verbs};
