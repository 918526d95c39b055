//! The verbs that set a codec up for the plan of its graph, for analog pins or for digital ones: they open every
//! planned route and silence every other pin. Also the parts of such lists that set-up of an input has too.
#![tactic(auto)]

mod laws;
mod openings;
mod roles;
mod sending;
mod setup;
mod steps;

pub use laws::{digital_verbs_set_up, setup_verbs_set_up};
pub use openings::{open_mixer, open_output};
pub use roles::{Role, add_route};
pub use sending::{pass_input, send_if};
pub use setup::{verbs, verbs_as};
pub use steps::{Step, power_node, silence_pin};
