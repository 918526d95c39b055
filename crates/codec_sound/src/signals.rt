//! Signals, and what changes them.
ghost use Rattle.std.specs.Prelude.{◌≡◌};
ghost use Rattle.codec_sound.specs.Amplifiers as amplifiers;
ghost use Rattle.codec_sound.specs.Signals as spec;

/// What a widget gives or a pin hears of a stream, and on the way in what a widget gives of the sound that pins take
/// in. This project's own.
#[derive(Clone, Copy, Debug, PartialEq, Eq)]
pub enum Signal {
    /// Nothing.
    Silence,
    /// The pair of channels with this number, from 0, as it stands in the stream. On the way in the sound of the pin
    /// with this node identifier, as the pin is given it.
    Pair(u8),
    /// Something that is not followed: a pair at another gain, on one side, as digital data, or several together.
    Altered,
}

/// How many node identifiers a connection list can name.
pub(crate) const NAMED: usize = 256;

/// The signal of each node that a connection list can name.
pub(crate) type Table = [Signal; NAMED];

impl Signal {
    /// The signal after something that changes it.
    pub(crate) fn changed(self) -> Signal
        ensures { result ≡ amplifiers.changed self }
    {
        match self {
            Signal::Silence => Signal::Silence,
            Signal::Pair(_) | Signal::Altered => Signal::Altered,
        }
    }

    /// The signal after something that may change it.
    pub(crate) fn changed_if(self, changes: bool) -> Signal
        ensures { result ≡ amplifiers.changed_if changes self }
    {
        if changes { self.changed() } else { self }
    }

    /// Both signals together.
    pub(crate) fn plus(self, other: Signal) -> Signal
        ensures { result ≡ spec.sum_of self other }
    {
        match (self, other) {
            (Signal::Silence, _) => other,
            (_, Signal::Silence) => self,
            _ => Signal::Altered,
        }
    }
}
