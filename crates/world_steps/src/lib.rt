//! The steps by which the device acts, as a schedule names them. What each does to the world stands in `hda_world`.
#![tactic(auto)]

/// A step of the device. Which comes when is the schedule's choice; a step that names a codec, pin or stream that is
/// not there does nothing. All but the last two do nothing while CRST is 0. This project's own.
#[derive(Clone, Copy, Debug, PartialEq, Eq)]
pub enum Step {
    /// CORB's engine fetches the next command and hands it to its codec (HDA 1.0a, 4.4.1).
    Corb,
    /// The codec of this address sends its first waiting item to the controller (HDA 1.0a, 4.4.2).
    Answer(u8),
    /// The codec of this address loses its first waiting answer to a command.
    Lose(u8),
    /// RIRB's engine writes waiting responses and sets the response interrupt flag (HDA 1.0a, 4.4.2).
    Rirb,
    /// The stream of this descriptor fetches at most so many bytes of its buffers.
    Fetch(u8, u16),
    /// So many link frames pass, each of 500 ticks of the wall clock (HDA 1.0a, 5.3, 3.3.16).
    Link(u32),
    /// Something is plugged into a pin of a codec: its address, and the pin's node identifier (HDA 1.0a, 7.3.3.15).
    Plug(u8, u8),
    /// Something is unplugged: the codec's address, and the pin's node identifier.
    Unplug(u8, u8),
}
