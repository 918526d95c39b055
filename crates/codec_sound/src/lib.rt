//! What a codec's pins hear while a stream plays, analog ones and digital ones: the signal of a pin, and
//! signals that are kept. And on the way in what its input converters hear of the sound that pins take in.
#![tactic(auto)]

mod amplifiers;
mod in_heard;
mod inward;
mod kept;
mod laws;
mod pins;
mod signals;
mod sources;
mod streams;
mod table;
mod widgets;

pub use codec_graph::digital_order;
pub use in_heard::InHeard;
pub use inward::{in_signal, is_taking};
pub use kept::Kept;
pub use laws::{
    converters_hear_enabled_pins, digital_signals_need_digital_nodes, inward_signals_fit_the_step,
    pairs_are_among_the_channels, pairs_of_each_kind_are_among_the_channels,
    signals_alone_fit_the_step, signals_of_each_kind_fit_the_step,
};
pub use pins::{digital_signal, signal};
pub use signals::Signal;
