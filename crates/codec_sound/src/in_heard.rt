//! What input converters hear.
ghost use Rattle.std.specs.Prelude.{◌≡◌};

use crate::signals::Signal;

/// What an input converter hears of the sound that pins take in. This project's own.
#[derive(Clone, Copy, Debug, PartialEq, Eq)]
pub enum InHeard {
    /// Nothing.
    Silence,
    /// The sound of the pin with this node identifier, as the pin is given it.
    Pin(u8),
    /// Something that is not followed: a pin at another gain, on one side, mono or digital, or several together.
    Altered,
}

impl InHeard {
    ghost use Rattle.codec_sound.specs.Inward.{in_heard_of};

    /// A signal on the way in, as what is heard.
    pub(crate) fn of(signal: Signal) -> InHeard
        ensures { result ≡ in_heard_of signal }
    {
        match signal {
            Signal::Silence => InHeard::Silence,
            Signal::Pair(nid) => InHeard::Pin(nid),
            Signal::Altered => InHeard::Altered,
        }
    }
}
