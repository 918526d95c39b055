//! The driver's side of the rings of commands (CORB) and of responses (RIRB): it submits a command and finds its answer
//! (HDA 1.0a, 4.4). Where none came within 500,000 ticks of the wall clock, 1,000 link frames, it tells so, and the
//! command stays outstanding.
#![tactic(auto)]

mod answers;
mod engine;
mod input_laws;
mod laws;
mod memory;
mod ring_places;
mod room;

pub use answers::{ANSWER_LIMIT, Event, Outstanding, Poll};
pub use engine::{CORB_BYTES, Engine, MOST_EVENTS, RIRB_BYTES};
pub use hda_platform::OpenFault;
pub use input_laws::{
    a_stopped_input_stays_apart, events_beside_input_keep_standing, stopped_inputs_leave_registers,
    stopped_inputs_stay_beside, writes_leave_inputs_apart,
};
pub use laws::{
    a_reset_leads_to_a_start, a_start_stays_possible, events_beside_keep_standing,
    few_responses_are_unread, settled_codecs_answer_whole, steps_keep_standing,
    the_world_stays_quiet,
};
pub use ring_places::RingPlaces;
pub use room::{
    MOST_RESPONSES, POLL_ACCESSES, POLL_BYTES, START_ACCESSES, SUBMIT_ACCESSES, SUBMIT_BYTES,
    engine_room_is_fixed,
};
