//! Set-up of digital outputs: the plan of a codec's S/PDIF pins, and the verbs that open its routes and silence every
//! other pin.
#![tactic(auto)]

mod digital;
mod outputs;

pub use codec_sound::digital_order;
pub use digital::Digital;
pub use outputs::Outputs;
pub use setup_verbs::digital_verbs_set_up;
