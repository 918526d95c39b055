//! Which paths a search looks for.

use codec_graph::PinKind;

/// A direction in which sound goes. A search follows connections, and these lead from where sound is taken to where it
/// comes from: so a search for an output begins at a pin, and one for an input at an input converter (HDA 1.0a, 7.1.3).
#[derive(Clone, Copy, Debug, PartialEq, Eq)]
pub(crate) enum Direction {
    /// Out of pins of a kind: from a pin to an output converter.
    Out(PinKind),
    /// Into a pin: from an input converter to the pin.
    In,
}
