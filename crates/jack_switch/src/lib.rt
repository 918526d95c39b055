//! The rules of a driver that switches speakers off and on while it plays sound, as headphones are plugged in and
//! pulled out, and what each of its calls does, and the driver itself.
#![tactic(auto)]

mod driver;
mod laws;
mod looking;
mod room;

pub use driver::JackDriver;
pub use laws::{
    commands_are_words, nothing_follows_the_end, one_command_is_outstanding,
    switch_rules_take_runs_up,
};
pub use room::{
    SWITCH_ACCESSES, SWITCH_BYTES, SWITCH_END_ACCESSES, SWITCH_INTERRUPT_ACCESSES,
    switching_room_is_fixed,
};
