//! Which command comes next while codecs are walked and then set up: one walk after the other, and once all of them are
//! told the verbs that set each of them up. It knows no device; what is answered may be a lie.
#![tactic(auto)]

mod agenda;
mod fault;
mod laws;
mod plans;

pub use agenda::Agenda;
pub use fault::AgendaFault;
pub use laws::{
    agendas_are_answered, agendas_ask_in_order, agendas_follow, answers_come_to_one,
    words_come_to_one,
};
pub use plans::have_route;
