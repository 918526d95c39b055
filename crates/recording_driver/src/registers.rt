//! Registers of the input stream's descriptor.
ghost use Rattle.std.specs.Prelude.{◌≡◌};

use hda_registers::places;

/// The control of the input stream: CTL (HDA 1.0a, 3.3.35).
pub const INPUT_CONTROL: u16 = places::INPUT_DESCRIPTOR + places::SDCTL;
/// The status of the input stream: STS (HDA 1.0a, 3.3.36).
pub const INPUT_STATUS: u16 = places::INPUT_DESCRIPTOR + places::SDSTS;

/// These places in digits.
pub fn input_registers_are_the_standards()
    ensures control { INPUT_CONTROL ≡ 0x80 }
    ensures status { INPUT_STATUS ≡ 0x83 }
{}
