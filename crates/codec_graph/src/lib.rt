//! The graph of a codec's widgets: its words as read, the normalised and checked graph, and its candidate pins
//! in order.
#![tactic(auto)]

mod amplifiers;
mod answers;
mod controls;
mod copies;
mod cycles;
mod fault;
mod graph;
mod laws;
mod limits;
mod listed;
mod marks;
mod parameters;
mod pin_kind;
mod pin_laws;
mod pin_order;
mod presence;
mod raw;
mod readable;
mod safe_nodes;
mod settings;
mod waiting;

pub use amplifiers::{amplifier_offset, amplifier_steps, can_mute};
pub use answers::answer;
pub use controls::{Control, ControlKey};
pub use fault::GraphFault;
pub use graph::Graph;
pub use laws::{
    answers_fit, controls_ascend, expanded_lists_are_readable, limits_agree,
    list_words_have_entries,
};
pub use limits::{
    MOST_AMPLIFIED, MOST_ANSWERS, MOST_ENTRIES, MOST_LISTED, MOST_UNSOLICITED, NODE_IDENTIFIERS,
};
pub use listed::FaultyList;
pub use pin_kind::PinKind;
pub use pin_laws::{one_order, one_order_of_each_kind};
pub use pin_order::{UNCONNECTED, comes_before, digital_order, order, order_as};
pub use presence::Presence;
pub use raw::{GroupWords, RawCodec, RawNode};
pub use settings::Settings;
pub use verb_codes::{bits_of, has_bit};
pub use waiting::Waiting;
