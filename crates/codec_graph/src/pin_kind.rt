//! Which pins are planned for.

/// A kind of pins: which of a codec's pins are candidates, which nodes their routes pass, and what they hear. This
/// project's own, over the bit of the widget capabilities that says whether a widget is digital (HDA 1.0a, 7.3.4.6).
#[derive(Clone, Copy, Debug, PartialEq, Eq)]
pub enum PinKind {
    /// Analog outputs: lines, speakers and headphones.
    Analog,
    /// Digital outputs: S/PDIF.
    Digital,
}
