//! Jacks and speakers, as pins and with what is known of them.

/// A jack for headphones: a pin with a route that is a headphone by its configuration default, detects whether something
/// is plugged in, and tells of a change unasked (HDA 1.0a, 7.3.3.14, 7.3.3.31, 7.3.4.6, 7.3.4.9).
#[derive(Clone, Copy, Debug, PartialEq, Eq)]
pub struct JackPin {
    /// The codec's address.
    pub codec: u8,
    /// The node identifier.
    pub pin: u8,
    /// The tag of its events: its place among the pins of the plan, from 1.
    pub tag: usize,
    /// The association of its configuration default.
    pub association: u32,
}

/// A jack, and what is known of it.
#[derive(Clone, Copy, Debug, PartialEq, Eq)]
pub struct JackState {
    pub jack: JackPin,
    /// Whether it is to be asked for what is plugged in.
    pub to_ask: bool,
    /// Whether something was plugged in when it was asked last.
    pub present: bool,
}

/// A speaker of some jack: a pin with a route that is a speaker by its configuration default, of the jack's codec and
/// association (HDA 1.0a, 7.3.3.31).
#[derive(Clone, Copy, Debug, PartialEq, Eq)]
pub struct SpeakerPin {
    /// The codec's address.
    pub codec: u8,
    /// The node identifier.
    pub pin: u8,
    /// The association of its configuration default.
    pub association: u32,
}

/// A speaker, and what was sent to it.
#[derive(Clone, Copy, Debug, PartialEq, Eq)]
pub struct SpeakerState {
    pub speaker: SpeakerPin,
    /// Whether the control that was sent to it last enables its output.
    pub on: bool,
}
