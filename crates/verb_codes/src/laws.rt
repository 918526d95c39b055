//! Laws of commands, each the contract of a function that does nothing.
ghost use Rattle.std.specs.Prelude.{◌≡◌, ◌^◌};

use crate::flags::{PinCapabilities, PinControl, WidgetCapabilities};

/// The flags of the pin control have the bits of Pin Widget Control (HDA 1.0a, 7.3.3.13).
pub fn pin_control_has_its_bits()
    ensures input { PinControl.INPUT.0 ≡ 2 ^ 5 }
    ensures output { PinControl.OUTPUT.0 ≡ 2 ^ 6 }
    ensures headphone { PinControl.HEADPHONE.0 ≡ 2 ^ 7 }
{}

/// The flags of a pin's capabilities have the bits of Pin Capabilities (HDA 1.0a, 7.3.4.9).
pub fn pin_capabilities_have_their_bits()
    ensures presence { PinCapabilities.PRESENCE.0 ≡ 2 ^ 2 }
    ensures headphone_drive { PinCapabilities.HEADPHONE_DRIVE.0 ≡ 2 ^ 3 }
    ensures output { PinCapabilities.OUTPUT.0 ≡ 2 ^ 4 }
    ensures input { PinCapabilities.INPUT.0 ≡ 2 ^ 5 }
    ensures eapd { PinCapabilities.EAPD.0 ≡ 2 ^ 16 }
{}

/// The flags of a widget's capabilities have the bits of Audio Widget Capabilities (HDA 1.0a, 7.3.4.6).
pub fn widget_capabilities_have_their_bits()
    ensures stereo { WidgetCapabilities.STEREO.0 ≡ 2 ^ 0 }
    ensures input_amplifier { WidgetCapabilities.INPUT_AMPLIFIER.0 ≡ 2 ^ 1 }
    ensures output_amplifier { WidgetCapabilities.OUTPUT_AMPLIFIER.0 ≡ 2 ^ 2 }
    ensures own_amplifier_words { WidgetCapabilities.OWN_AMPLIFIER_WORDS.0 ≡ 2 ^ 3 }
    ensures own_formats { WidgetCapabilities.OWN_FORMATS.0 ≡ 2 ^ 4 }
    ensures unsolicited { WidgetCapabilities.UNSOLICITED.0 ≡ 2 ^ 7 }
    ensures connection_list { WidgetCapabilities.CONNECTION_LIST.0 ≡ 2 ^ 8 }
    ensures digital { WidgetCapabilities.DIGITAL.0 ≡ 2 ^ 9 }
    ensures power_control { WidgetCapabilities.POWER_CONTROL.0 ≡ 2 ^ 10 }
{}
