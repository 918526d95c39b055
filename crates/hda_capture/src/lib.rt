//! Records sound through a ring of periods that the device and the driver own in turn (HDA 1.0a, 4.5).
//!
//! The ring is `periods` blocks of memory of `384 * period` bytes each, which the device fills round and round. At each
//! run the driver reads what certainly left the FIFO since the run before.
#![tactic(auto)]

mod course;
mod laws;
mod pieces;
mod recorder;
mod registers;
mod room;
mod starting;
mod turns;

pub use course::{RecordCourse, Recorded, RecordedRun};
pub use laws::{
    complete_records_can_be_written, registers_are_the_input_descriptors,
    runs_keep_the_record_course, whole_records_can_be_written,
};
pub use recorder::{Recorder, Recording};
pub use room::{
    FIRST_RECORD_ACCESSES, MOST_RECORD_ACCESSES, MOST_RECORD_BYTES, RECORD_ACCESSES,
    recorder_room_is_fixed,
};
