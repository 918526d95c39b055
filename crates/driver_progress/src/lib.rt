//! What a driver has to do and how far it has come: its phases, and from these the accesses that it makes at each of
//! its calls; how far a driver came is read off a journal alone. And the stretches of these accesses up to the set-up
//! of the codecs: the reset, the start of the rings, a command and its answer, a look for interrupts, and the end.
#![tactic(auto)]

mod commands;
mod interrupts;
mod jack;
mod laws;
mod phase;
mod registers;
mod resetting;
mod room;
mod settling;
mod shutting;
mod stretch_laws;

pub use commands::{Asked, ask};
pub use interrupts::has_interrupt;
pub use jack::Jack;
pub use laws::{
    closings_are_worked, commands_are_worked, interrupts_are_worked, resets_are_worked,
    rows_are_made, runs_are_worked, steps_leave_a_trail, trails_go_on,
};
pub use phase::Phase;
pub use registers::STREAM_STATUS;
pub use resetting::reset;
pub use room::{
    ASK_ACCESSES, INTERRUPT_ACCESSES, RESET_ACCESSES, SETTLE_ACCESSES, SHUT_ACCESSES,
    stretch_room_is_fixed,
};
pub use settling::{SETTLING_TICKS, Settled, settle};
pub use shutting::shut;
pub use stretch_laws::{a_reset_stays, answers_agree, polls_are_noted, stretches_are_expected};
