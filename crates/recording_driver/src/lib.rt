//! The driver of a controller that records: the rings of commands and responses, which a bring-up left, and a ring of
//! periods that the input stream fills. It is made of the parts of a driver whose codecs are set up, and keeps nothing
//! of a platform between two calls.
#![tactic(auto)]

mod driver;
mod events;
mod interrupts;
mod registers;
mod room;

pub use driver::{RecordingClosed, RecordingDriver};
pub use interrupts::has_input_interrupt;
pub use registers::{INPUT_CONTROL, INPUT_STATUS, input_registers_are_the_standards};
pub use room::{
    RECORD_CALL_ACCESSES, RECORD_CALL_BYTES, RECORD_END_ACCESSES, recording_room_is_fixed,
};
