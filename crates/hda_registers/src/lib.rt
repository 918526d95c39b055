//! The registers of a High Definition Audio controller with one input and one output stream: what a read gives, what a
//! write changes, and which status bits make the interrupt line.
#![tactic(auto)]

mod accesses;
mod conditions;
mod controller;
mod flags;
mod laws;
mod masks;
pub mod places;
mod pointers;
mod registers;
mod shapes;
mod streams;

pub use laws::{
    events_leave_others, moves_leave_others, places_are_the_standards, reset_holds_values,
    reset_ignores_writes, reset_keeps_state_status, status_write_leaves_others, write_keeps_reset,
    write_leaves_others, write_leaves_rings, write_leaves_streams,
};
pub use registers::Registers;
pub use shapes::{Effects, Moved, Raise, RingSize, Shape, Width};
