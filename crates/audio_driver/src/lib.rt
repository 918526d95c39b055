//! The driver of a High Definition Audio controller: it brings the codecs up by the rings of commands and responses,
//! and owns the ring of periods from which sound is played. It keeps nothing of a platform between two calls.
#![tactic(auto)]

mod driver;
mod laws;
mod room;

pub use driver::{Closed, Driver, Parts};
pub use driver_progress::{Jack, Phase};
pub use hda_platform::OpenFault;
pub use laws::drivers_are_answered;
pub use room::{
    CALL_BYTES, PLAY_ACCESSES, PLAY_END_ACCESSES, PLAY_INTERRUPT_ACCESSES, ROOM_ACCESSES,
    ROOM_BYTES, driver_room_is_fixed,
};
