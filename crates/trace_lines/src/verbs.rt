//! Commands of codecs in words (HDA 1.0a, 7.3.3 and 7.3.4).
ghost use Rattle.std.specs.Prelude.{◌≡◌, ◌++◌, OnOk, Some};
ghost use Rattle.trace_lines.specs.Verbs as text;

use crate::words::{push_byte, push_half, push_whole_word};
use sound_report::{push_number, push_word};
use std::alloc::AllocError;
use verb_codes::{Command, Parameter, Verb, decode};

/// The name of a parameter behind a space; one of another number has none.
fn parameter_word(parameter: Option<Parameter>) -> &'static str
    ensures { result.now ≡ text.parameter_word parameter }
{
    match parameter {
        None => "",
        Some(Parameter::Vendor) => " Vendor ID",
        Some(Parameter::Revision) => " Revision ID",
        Some(Parameter::Nodes) => " Subordinate Node Count",
        Some(Parameter::GroupType) => " Function Group Type",
        Some(Parameter::WidgetCapabilities) => " Audio Widget Capabilities",
        Some(Parameter::PcmSizesAndRates) => " Supported PCM Size, Rates",
        Some(Parameter::StreamFormats) => " Supported Stream Formats",
        Some(Parameter::PinCapabilities) => " Pin Capabilities",
        Some(Parameter::InputAmplifier) => " Input Amplifier Capabilities",
        Some(Parameter::ListLength) => " Connection List Length",
        Some(Parameter::PowerStates) => " Supported Power States",
        Some(Parameter::OutputAmplifier) => " Output Amplifier Capabilities",
    }
}

/// An argument of 8 bits behind a name.
fn push_with_byte(out: &mut Vec<u8>, name: &str, byte: u8) -> Result<(), AllocError>
    ensures { OnOk result (out.new.items ≡ out.old.items ++ text.with_byte name.now byte) }
{
    push_word(out, name)?;
    push_word(out, " ")?;
    push_byte(out, byte)
}

/// An argument of 16 bits behind a name.
fn push_with_half(out: &mut Vec<u8>, name: &str, half: u16) -> Result<(), AllocError>
    ensures { OnOk result (out.new.items ≡ out.old.items ++ text.with_half name.now half) }
{
    push_word(out, name)?;
    push_word(out, " ")?;
    push_half(out, half)
}

/// A question for a parameter.
fn push_parameter(out: &mut Vec<u8>, number: u8) -> Result<(), AllocError>
    ensures { OnOk result (out.new.items ≡ out.old.items ++ text.parameter_text number) }
{
    push_with_byte(out, "get Parameter", number)?;
    push_word(out, parameter_word(Parameter::of_number(number)))
}

/// A byte of the configuration default.
fn push_default(out: &mut Vec<u8>, place: u8, byte: u8) -> Result<(), AllocError>
    ensures { OnOk result (out.new.items ≡ out.old.items ++ text.default_text place byte) }
{
    push_with_byte(out, "set Configuration Default", place)?;
    push_word(out, " ")?;
    push_byte(out, byte)
}

/// A verb with its argument.
fn push_verb(out: &mut Vec<u8>, verb: Verb) -> Result<(), AllocError>
    ensures { OnOk result (out.new.items ≡ out.old.items ++ text.verb_text verb) }
{
    match verb {
        Verb::GetParam(number) => push_parameter(out, number),
        Verb::GetSelect => push_word(out, "get Connection Select Control"),
        Verb::SetSelect(place) => push_with_byte(out, "set Connection Select Control", place),
        Verb::GetList(place) => push_with_byte(out, "get Connection List Entry", place),
        Verb::GetPower => push_word(out, "get Power State"),
        Verb::SetPower(state) => push_with_byte(out, "set Power State", state),
        Verb::GetStream => push_word(out, "get Converter Stream, Channel"),
        Verb::SetStream(stream) => push_with_byte(out, "set Converter Stream, Channel", stream),
        Verb::GetPin => push_word(out, "get Pin Widget Control"),
        Verb::SetPin(control) => push_with_byte(out, "set Pin Widget Control", control),
        Verb::GetUnsol => push_word(out, "get Unsolicited Response"),
        Verb::SetUnsol(control) => push_with_byte(out, "set Unsolicited Response", control),
        Verb::GetSense => push_word(out, "get Pin Sense"),
        Verb::GetEapd => push_word(out, "get EAPD/BTL Enable"),
        Verb::SetEapd(control) => push_with_byte(out, "set EAPD/BTL Enable", control),
        Verb::GetDigital => push_word(out, "get Digital Converter Control"),
        Verb::SetDigital(control) => push_with_byte(out, "set Digital Converter Control", control),
        Verb::GetDefault => push_word(out, "get Configuration Default"),
        Verb::SetDefault(place, byte) => push_default(out, place, byte),
        Verb::GetFormat => push_word(out, "get Converter Format"),
        Verb::SetFormat(format) => push_with_half(out, "set Converter Format", format),
        Verb::GetAmp(side) => push_with_half(out, "get Amplifier Gain/Mute", side),
        Verb::SetAmp(setting) => push_with_half(out, "set Amplifier Gain/Mute", setting),
    }
}

/// A command: the codec, the node and the verb.
fn push_command(out: &mut Vec<u8>, command: &Command) -> Result<(), AllocError>
    ensures { OnOk result (out.new.items ≡ out.old.items ++ text.command_text (Some command.now)) }
{
    push_word(out, " codec ")?;
    push_number(out, command.codec.into())?;
    push_word(out, " node ")?;
    push_byte(out, command.nid)?;
    push_word(out, " ")?;
    push_verb(out, command.verb)
}

/// Appends the word of a command, and what it reads as.
///
/// # Errors
/// Want of memory.
pub(crate) fn push_order(out: &mut Vec<u8>, word: u32) -> Result<(), AllocError>
    ensures { OnOk result (out.new.items ≡ out.old.items ++ text.order_text word) }
{
    push_whole_word(out, word)?;
    match decode(word) {
        Some(command) => push_command(out, &command),
        None => push_word(out, " no command"),
    }
}
