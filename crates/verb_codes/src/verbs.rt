//! Commands and their verbs.

/// A verb with its argument (HDA 1.0a, 7.3.3). A get verb asks for what the set verb of its name changes; a set verb is
/// answered with 0.
#[derive(Clone, Copy, Debug, PartialEq, Eq)]
pub enum Verb {
    /// Get Parameter (7.3.3.1): asks for the parameter of this number (7.3.4). `Parameter` names those that a node can
    /// have.
    GetParam(u8),
    /// Connection Select Control (7.3.3.2): asks for the selected place of the connection list.
    GetSelect,
    /// Connection Select Control (7.3.3.2): selects a place of the connection list, from 0.
    SetSelect(u8),
    /// Connection List Entry Control (7.3.3.3): asks for a word of entries of the connection list, from this place on.
    GetList(u8),
    /// Power State (7.3.3.10): asks for it.
    GetPower,
    /// Power State (7.3.3.10): sets it, bits 1:0.
    SetPower(u8),
    /// Converter Stream, Channel (7.3.3.11): asks for the stream tag and the channel.
    GetStream,
    /// Converter Stream, Channel (7.3.3.11): sets the stream tag, bits 7:4, and the lowest channel, bits 3:0.
    SetStream(u8),
    /// Pin Widget Control (7.3.3.13): asks for it.
    GetPin,
    /// Pin Widget Control (7.3.3.13): sets it, bit 7 headphone, 6 out, 5 in.
    SetPin(u8),
    /// Unsolicited Response (7.3.3.14): asks for its control.
    GetUnsol,
    /// Unsolicited Response (7.3.3.14): sets its control, bit 7 enable, 5:0 tag.
    SetUnsol(u8),
    /// Pin Sense (7.3.3.15): asks whether something is plugged in, bit 31.
    GetSense,
    /// EAPD/BTL Enable (7.3.3.16): asks for the control of the external amplifier.
    GetEapd,
    /// EAPD/BTL Enable (7.3.3.16): sets the control of the external amplifier, which bit 1 turns on.
    SetEapd(u8),
    /// Digital Converter Control (7.3.3.9): asks for it.
    GetDigital,
    /// Digital Converter Control (7.3.3.9): sets its low byte, whose bit 0 enables the digital side.
    SetDigital(u8),
    /// Configuration Default (7.3.3.31): asks for it.
    GetDefault,
    /// Configuration Default (7.3.3.31): sets one byte of it, by its place, 0 to 3 from the lowest, and its value.
    SetDefault(u8, u8),
    /// Converter Format (7.3.3.8): asks for the stream format.
    GetFormat,
    /// Converter Format (7.3.3.8): sets the stream format.
    SetFormat(u16),
    /// Amplifier Gain/Mute (7.3.3.7): asks for one side of an amplifier, bit 15 output, else input; bit 13 left, else
    /// right; 3:0 the input's place.
    GetAmp(u16),
    /// Amplifier Gain/Mute (7.3.3.7): sets it, bit 15 output, 14 input, 13 left, 12 right, 11:8 the input's place, 7
    /// mute, 6:0 gain.
    SetAmp(u16),
}

/// A command to a node of a codec (HDA 1.0a, 7.3).
#[derive(Clone, Copy, Debug, PartialEq, Eq)]
pub struct Command {
    /// The address of the codec, 0 to 14.
    pub codec: u8,
    /// The node identifier, 0 to 127.
    pub nid: u8,
    /// What is asked or set.
    pub verb: Verb,
}
