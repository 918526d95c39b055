//! Where signals begin: at output converters, and on the way in at pins.

use crate::streams::LinkStream;
use codec_graph::PinKind;

/// Where signals begin in a codec. This project's own.
#[derive(Clone, Copy, Debug, PartialEq, Eq)]
pub enum Sources {
    /// At the output converters, of this stream and for pins of this kind.
    Converters(PinKind, LinkStream),
    /// On the way in at the pins, of the sound that they take in.
    Pins,
}
