//! The bring-up of the codecs of a High Definition Audio controller: the reset, the walk over each codec, and the
//! set-up of all of them, a few accesses at each call, with a count of what pins tell unasked. It keeps nothing of a
//! platform between two calls.
#![tactic(auto)]

mod addresses;
mod answering;
mod answers;
mod bringing;
mod command_laws;
mod jack_laws;
mod jacks;
mod listing;
mod room;
mod submitting;

pub use addresses::addresses_in;
pub use answering::{Answer, look_for_answer};
pub use answers::TAG;
pub use bringing::{BringUp, BroughtUp};
pub use command_laws::{
    agendas_agree, bring_ups_are_answered, commands_are_expected, ends_are_exact,
};
pub use jack_laws::events_are_of_pins;
pub use jacks::{CODECS, Jacks, TAGS};
pub use room::{
    BRING_UP_ACCESSES, BRING_UP_BYTES, BRING_UP_END_ACCESSES, BRING_UP_INTERRUPT_ACCESSES,
    bring_up_room_is_fixed,
};
pub use submitting::submit_next;
