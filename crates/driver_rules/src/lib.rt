//! Rules of a driver from the set-up of its codecs on, where it does not play as progress says: how far it came is read
//! off a journal by progress up to `Ready`, and from the next line on by rules that are given.
#![tactic(auto)]

mod laws;
mod note_laws;

pub use laws::{rules_wait_for_the_set_up, stretches_go_by_rules};
pub use note_laws::{answers_are_noted, tallies_agree};
