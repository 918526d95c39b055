//! The world that driver and device act on in turn, the device's steps and the driver's accesses, and the journal of
//! both.
#![tactic(auto)]

mod entry;
mod input_laws;
mod journal;
mod laws;
mod step;
mod stream_laws;
mod world;

pub use entry::{Entry, MemoryPiece};
pub use input_laws::{
    accesses_keep_taken, accesses_keep_taken_position, accesses_keep_taken_ready,
    inputs_begin_in_their_list, steps_keep_taken, steps_keep_taken_order,
    steps_keep_taken_position, steps_keep_taken_ready, steps_keep_taken_sound,
    steps_leave_stopped_inputs, steps_write_rirb_and_buffers, the_given_sound_stays,
    writes_begin_taken_order,
};
pub use journal::Journal;
pub use laws::{
    accesses_compose, codecs_are_apart, discovery_comes_in_the_25th_frame, events_compose,
    memory_write_leaves, region_is_fixed, register_write_leaves, steps_compose,
    steps_keep_discovery, steps_keep_reading, steps_leave_other_codecs, steps_write_rirb_alone,
    write_beside_rings_leaves,
};
pub use step::{FRAMES_TO_DISCOVERY, Step};
pub use stream_laws::{
    accesses_keep_fifo, accesses_keep_position, accesses_keep_ready, steps_keep_fifo,
    steps_keep_order, steps_keep_position, steps_keep_ready, steps_leave_stopped_streams,
    steps_leave_streams, write_beside_streams_leaves, writes_keep_order,
};
pub use world::REGION_BYTES;
