//! What the controls of nodes are set to, as text.
use codec_graph::{Control, Settings};
use std::alloc::AllocError;
use std::fmt::Write;

/// The controls of a node but those of its input amplifier.
const CONTROLS: [Control; 11] = [
    Control::Select,
    Control::Power,
    Control::Stream,
    Control::Pin,
    Control::Unsol,
    Control::Eapd,
    Control::Digital,
    Control::Default,
    Control::Format,
    Control::OutLeft,
    Control::OutRight,
];

/// The places of an input amplifier that a command can name.
const PLACES: u8 = 16;

/// Puts what a control of a node is set to, where the node has it.
fn push_control(
    text: &mut String,
    settings: &Settings,
    nid: u8,
    control: Control,
) -> Result<(), AllocError> {
    match settings.get(nid, control) {
        Some(value) => write!(text, ", {control:?} {value:x}"),
        None => Ok(()),
    }
}

/// Puts what each control of a node is set to, in hexadecimal digits.
pub fn push_controls(text: &mut String, settings: &Settings, nid: u8) -> Result<(), AllocError> {
    for control in CONTROLS {
        push_control(text, settings, nid, control)?;
    }
    for place in 0..PLACES {
        push_control(text, settings, nid, Control::InLeft(place))?;
        push_control(text, settings, nid, Control::InRight(place))?;
    }
    Ok(())
}
