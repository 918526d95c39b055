//! The parameters that a codec's nodes can be asked for.

/// A parameter of a node (HDA 1.0a, 7.3.4). Every other number is 0 at every node.
#[derive(Clone, Copy, Debug, PartialEq, Eq)]
pub enum Parameter {
    /// Vendor ID (7.3.4.1), of the root.
    Vendor,
    /// Revision ID (7.3.4.2), of the root.
    Revision,
    /// Subordinate Node Count (7.3.4.3), of the root and a function group: the first node below in bits 23:16, how many
    /// in 7:0.
    Nodes,
    /// Function Group Type (7.3.4.4).
    GroupType,
    /// Audio Widget Capabilities (7.3.4.6).
    WidgetCapabilities,
    /// Supported PCM Size, Rates (7.3.4.7).
    PcmSizesAndRates,
    /// Supported Stream Formats (7.3.4.8).
    StreamFormats,
    /// Pin Capabilities (7.3.4.9).
    PinCapabilities,
    /// Amplifier Capabilities, of the input amplifier (7.3.4.10).
    InputAmplifier,
    /// Connection List Length (7.3.4.11): how many entries the list has in bits 6:0, and bit 7 where they are long.
    ListLength,
    /// Supported Power States (7.3.4.12).
    PowerStates,
    /// Amplifier Capabilities, of the output amplifier (7.3.4.10).
    OutputAmplifier,
}

impl Parameter {
    ghost use Rattle.std.specs.Prelude.{◌≡◌, ◌↔◌, Some};
    ghost use Rattle.verb_codes.specs.declared.parameters.Parameter.{Parameter};
    ghost use Rattle.verb_codes.specs.Parameters as spec;

    /// The number that `Verb::GetParam` takes.
    pub fn number(self) -> u8
        ensures { result ≡ spec.number_of self }
    {
        match self {
            Parameter::Vendor => 0x00,
            Parameter::Revision => 0x02,
            Parameter::Nodes => 0x04,
            Parameter::GroupType => 0x05,
            Parameter::WidgetCapabilities => 0x09,
            Parameter::PcmSizesAndRates => 0x0A,
            Parameter::StreamFormats => 0x0B,
            Parameter::PinCapabilities => 0x0C,
            Parameter::InputAmplifier => 0x0D,
            Parameter::ListLength => 0x0E,
            Parameter::PowerStates => 0x0F,
            Parameter::OutputAmplifier => 0x12,
        }
    }

    /// The parameter of this number, `None` where it is none of these.
    pub fn of_number(number: u8) -> Option<Parameter>
        ensures value { result ≡ spec.parameter_of number }
        ensures exact { (p : Parameter) → (result ≡ Some p) ↔ (number ≡ spec.number_of p) }
    {
        match number {
            0x00 => Some(Parameter::Vendor),
            0x02 => Some(Parameter::Revision),
            0x04 => Some(Parameter::Nodes),
            0x05 => Some(Parameter::GroupType),
            0x09 => Some(Parameter::WidgetCapabilities),
            0x0A => Some(Parameter::PcmSizesAndRates),
            0x0B => Some(Parameter::StreamFormats),
            0x0C => Some(Parameter::PinCapabilities),
            0x0D => Some(Parameter::InputAmplifier),
            0x0E => Some(Parameter::ListLength),
            0x0F => Some(Parameter::PowerStates),
            0x12 => Some(Parameter::OutputAmplifier),
            _ => None,
        }
    }
}
