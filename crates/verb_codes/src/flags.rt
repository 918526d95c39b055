//! Words of a codec that are sets of bits. A bit without a name here stays as it is.

ghost use Rattle.std.specs.Prelude.{⊤, [], ◌∷◌, codes};

use bitflags::{Flag, Flags, bitflag_items};

/// The pin control (HDA 1.0a, 7.3.3.13): what `Verb::SetPin` sets and the answer to `Verb::GetPin`.
#[derive(Clone, Copy, Debug, PartialEq, Eq)]
pub struct PinControl(pub u8);

bitflag_items! {
    impl PinControl: u8 {
        const INPUT = 0x20;
        const OUTPUT = 0x40;
        const HEADPHONE = 0x80;
    }
}

impl Flags for PinControl {
    type Bits = u8;

    ghost exact = { ⊤ };

    ghost table = { (codes "INPUT", 0x20) ∷ (codes "OUTPUT", 0x40) ∷ (codes "HEADPHONE", 0x80) ∷ [] };

    ghost set_of = { λ control. control.0 };

    fn flags<'a>() -> &'a [Flag<PinControl>] {
        PinControl::FLAGS
    }

    fn bits(&self) -> u8 {
        self.0
    }

    fn from_bits_retain(bits: u8) -> PinControl {
        PinControl(bits)
    }
}

/// What a pin can do (HDA 1.0a, 7.3.4.9).
#[derive(Clone, Copy, Debug, PartialEq, Eq)]
pub struct PinCapabilities(pub u32);

bitflag_items! {
    impl PinCapabilities: u32 {
        const PRESENCE = 0x4;
        const HEADPHONE_DRIVE = 0x8;
        const OUTPUT = 0x10;
        const INPUT = 0x20;
        const EAPD = 0x1_0000;
    }
}

impl Flags for PinCapabilities {
    type Bits = u32;

    ghost exact = { ⊤ };

    ghost table = { (codes "PRESENCE", 0x4) ∷ (codes "HEADPHONE_DRIVE", 0x8) ∷ (codes "OUTPUT", 0x10)
        ∷ (codes "INPUT", 0x20) ∷ (codes "EAPD", 0x1_0000) ∷ [] };

    ghost set_of = { λ capabilities. capabilities.0 };

    fn flags<'a>() -> &'a [Flag<PinCapabilities>] {
        PinCapabilities::FLAGS
    }

    fn bits(&self) -> u32 {
        self.0
    }

    fn from_bits_retain(bits: u32) -> PinCapabilities {
        PinCapabilities(bits)
    }
}

/// What a widget has (HDA 1.0a, 7.3.4.6). Bits 23:20 are its type, which is no set of bits.
#[derive(Clone, Copy, Debug, PartialEq, Eq)]
pub struct WidgetCapabilities(pub u32);

bitflag_items! {
    impl WidgetCapabilities: u32 {
        const STEREO = 0x1;
        const INPUT_AMPLIFIER = 0x2;
        const OUTPUT_AMPLIFIER = 0x4;
        const OWN_AMPLIFIER_WORDS = 0x8;
        const OWN_FORMATS = 0x10;
        const UNSOLICITED = 0x80;
        const CONNECTION_LIST = 0x100;
        const DIGITAL = 0x200;
        const POWER_CONTROL = 0x400;
    }
}

impl Flags for WidgetCapabilities {
    type Bits = u32;

    ghost exact = { ⊤ };

    ghost table = { (codes "STEREO", 0x1) ∷ (codes "INPUT_AMPLIFIER", 0x2) ∷ (codes "OUTPUT_AMPLIFIER", 0x4)
        ∷ (codes "OWN_AMPLIFIER_WORDS", 0x8) ∷ (codes "OWN_FORMATS", 0x10) ∷ (codes "UNSOLICITED", 0x80)
        ∷ (codes "CONNECTION_LIST", 0x100) ∷ (codes "DIGITAL", 0x200) ∷ (codes "POWER_CONTROL", 0x400) ∷ [] };

    ghost set_of = { λ capabilities. capabilities.0 };

    fn flags<'a>() -> &'a [Flag<WidgetCapabilities>] {
        WidgetCapabilities::FLAGS
    }

    fn bits(&self) -> u32 {
        self.0
    }

    fn from_bits_retain(bits: u32) -> WidgetCapabilities {
        WidgetCapabilities(bits)
    }
}
