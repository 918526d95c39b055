//! The names of widgets and of what pins are.
ghost use Rattle.std.specs.Prelude.{◌≡◌, map};
ghost use Rattle.codec_picture.specs.Names as names;

use codec_graph::{RawNode, bits_of};

/// Widget types (HDA 1.0a, 7.3.4.6); those behind them are reserved.
const WIDGETS: [&str; 16] = [
    "Audio Output",
    "Audio Input",
    "Audio Mixer",
    "Audio Selector",
    "Pin Complex",
    "Power Widget",
    "Volume Knob",
    "Beep Generator",
    "Reserved",
    "Reserved",
    "Reserved",
    "Reserved",
    "Reserved",
    "Reserved",
    "Reserved",
    "Vendor Defined",
];

/// Default devices (HDA 1.0a, 7.3.3.31).
const DEVICES: [&str; 16] = [
    "Line Out",
    "Speaker",
    "HP Out",
    "CD",
    "SPDIF Out",
    "Digital Other Out",
    "Modem Line Side",
    "Modem Handset Side",
    "Line In",
    "AUX",
    "Mic In",
    "Telephony",
    "SPDIF In",
    "Digital Other In",
    "Reserved",
    "Other",
];

/// Gross locations (HDA 1.0a, 7.3.3.31): on the primary chassis outside, inside it, on another one, elsewhere.
const CHASSIS: [&str; 4] = ["External", "Internal", "Separate", "Other"];

/// Geometric locations (HDA 1.0a, 7.3.3.31).
const LOCATIONS: [&str; 16] = [
    "N/A", "Rear", "Front", "Left", "Right", "Top", "Bottom", "Special", "Special", "Special",
    "Reserved", "Reserved", "Reserved", "Reserved", "Reserved", "Reserved",
];

/// Colours of jacks (HDA 1.0a, 7.3.3.31).
const COLOURS: [&str; 16] = [
    "Unknown", "Black", "Grey", "Blue", "Green", "Red", "Orange", "Yellow", "Purple", "Pink",
    "Reserved", "Reserved", "Reserved", "Reserved", "White", "Other",
];

/// The word at a place of a table, which is no place behind its end.
fn word_at(words: &[&'static str], place: u32) -> &'static str
    ensures { result.now ≡ names.word_at (map (λ word. word.now) words.now) place }
{
    match words.get(place as usize) {
        Some(word) => word,
        None => "",
    }
}

/// The name of a widget's type.
pub(crate) fn widget_word(node: &RawNode) -> &'static str
    ensures { result.now ≡ names.widget_word node.now }
{
    word_at(WIDGETS.as_slice(), bits_of(node.caps, 20, 4))
}

/// What is at a pin.
pub(crate) fn device_word(node: &RawNode) -> &'static str
    ensures { result.now ≡ names.device_word node.now }
{
    word_at(DEVICES.as_slice(), bits_of(node.default, 20, 4))
}

/// On which chassis a pin's jack is.
pub(crate) fn chassis_word(node: &RawNode) -> &'static str
    ensures { result.now ≡ names.chassis_word node.now }
{
    word_at(CHASSIS.as_slice(), bits_of(node.default, 28, 2))
}

/// Where on it.
pub(crate) fn location_word(node: &RawNode) -> &'static str
    ensures { result.now ≡ names.location_word node.now }
{
    word_at(LOCATIONS.as_slice(), bits_of(node.default, 24, 4))
}

/// In which colour.
pub(crate) fn colour_word(node: &RawNode) -> &'static str
    ensures { result.now ≡ names.colour_word node.now }
{
    word_at(COLOURS.as_slice(), bits_of(node.default, 12, 4))
}
