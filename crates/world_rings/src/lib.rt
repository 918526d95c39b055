//! The entries of the rings of commands (CORB) and of responses (RIRB) in memory, and one move of the engine of each
//! (HDA 1.0a, 4.4).
#![tactic(auto)]

mod engines;
mod entries;
mod laws;
mod response;

pub use engines::{batch_of, can_respond, fetch, next_word, write_response};
pub use entries::{COMMAND_BYTES, RESPONSE_BYTES, next_place, store_response, word_from};
pub use laws::{responses_stand, sizes_are_fixed, sources_are_read_back, stored_pieces_stand};
pub use response::{MOST_WAITING, Response};
