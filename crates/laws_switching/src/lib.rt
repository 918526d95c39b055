//! Laws of a driver that switches speakers while it plays, over every platform that tells: how it is led on from its
//! start to its last call.
#![tactic(auto)]

mod calling;
mod coming;
mod ending;
mod hearing;
mod senses;
mod switching;
mod turning;

pub use calling::switching_goes_on_over_calls;
pub use coming::drivers_wait_to_switch;
pub use ending::a_last_call_ends_switching;
pub use hearing::{set_up_codecs_can_turn, switched_pins_are_heard, turned_codecs_are_set_up};
pub use senses::{choices_are_decided, sense_answers_are_known};
pub use switching::{drivers_that_switch_keep_to_rules, switching_goes_on_over_steps};
pub use turning::a_turn_begins_to_switch;
