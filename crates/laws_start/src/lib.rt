//! What a driver has to do for a machine that a codec file describes, and that a driver which was just opened can begin
//! it, as laws.
#![tactic(auto)]

mod laws;

pub use laws::{
    a_full_pool_has_room, machines_have_tasks, machines_rest, opened_blocks_lie_apart,
    opened_drivers_can_begin, opened_drivers_stand, read_machines_are_whole,
};
