//! The walk over a codec: the commands that ask for all its words, one after the other, and the graph that the answers
//! give.
#![tactic(auto)]

mod fault;
mod laws;
mod node;
mod outcome;
mod step;
mod walk;
mod words;

pub use fault::{WalkError, WalkFault};
pub use laws::{
    asks_what_is_told, asks_what_the_graph_has, counts_the_commands, outcomes_are_one,
    tells_what_the_graph_has,
};
pub use walk::Walk;
