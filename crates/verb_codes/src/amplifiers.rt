//! The payloads of the amplifier verbs (HDA 1.0a, 7.3.3.7), by their fields.
ghost use Rattle.std.specs.Prelude.{◌≡◌, ◌<◌, ◌≤◌, ◌^◌};
ghost use Rattle.verb_codes.specs.Amplifiers as spec;

use crate::bits::{bits_of, has_bit};

/// What SetAmp sets.
#[derive(Clone, Copy, Debug, PartialEq, Eq)]
pub struct AmpSetting {
    /// Whether the output amplifier is set.
    pub output: bool,
    /// Whether an input amplifier is set.
    pub input: bool,
    /// Whether the left side is set.
    pub left: bool,
    /// Whether the right side is set.
    pub right: bool,
    /// The place of the input in the connection list, 0 to 15. The output amplifier ignores it.
    pub place: u8,
    /// Whether it is muted.
    pub mute: bool,
    /// The gain in steps, 0 to 127.
    pub gain: u8,
}

impl AmpSetting {
    ghost use Rattle.std.specs.Prelude.{◌≡◌};
    ghost use Rattle.verb_codes.specs.Amplifiers as spec;

    /// The payload of `Verb::SetAmp`.
    pub fn payload(&self) -> u16
        requires { spec.IsSettingInRange self.now }
        ensures value { result ≡ spec.setting_payload self.now }
        ensures read_back { spec.setting_of result ≡ self.now }
    {
        let sides = worth(self.output, 15)
            + worth(self.input, 14)
            + worth(self.left, 13)
            + worth(self.right, 12);
        sides + (u16::from(self.place) << 8) + worth(self.mute, 7) + u16::from(self.gain)
    }

    /// The fields of a payload of `Verb::SetAmp`.
    pub fn of_payload(payload: u16) -> AmpSetting
        ensures value { result ≡ spec.setting_of payload }
        ensures in_range { spec.IsSettingInRange result }
        ensures same { spec.setting_payload result ≡ payload }
    {
        let word = u32::from(payload);
        AmpSetting {
            output: has_bit(word, 15),
            input: has_bit(word, 14),
            left: has_bit(word, 13),
            right: has_bit(word, 12),
            place: bits_of(word, 8, 4) as u8,
            mute: has_bit(word, 7),
            gain: bits_of(word, 0, 7) as u8,
        }
    }
}

/// The side of an amplifier that GetAmp asks for.
#[derive(Clone, Copy, Debug, PartialEq, Eq)]
pub struct AmpSide {
    /// Whether it is the output amplifier, else an input amplifier.
    pub output: bool,
    /// Whether it is the left side, else the right.
    pub left: bool,
    /// The place of the input in the connection list, 0 to 15. The output amplifier ignores it.
    pub place: u8,
}

impl AmpSide {
    ghost use Rattle.std.specs.Prelude.{◌≡◌, ◌<◌, ◌^◌, bit_and};
    ghost use Rattle.verb_codes.specs.Amplifiers as spec;
    ghost use Rattle.verb_codes.specs.Verbs.{get_amp_zeros};

    /// The payload of `Verb::GetAmp`.
    pub fn payload(&self) -> u16
        requires { self.now.place < 2 ^ 4 }
        ensures value { result ≡ spec.side_payload self.now }
        ensures allowed { bit_and result get_amp_zeros ≡ 0 }
        ensures read_back { spec.side_of result ≡ self.now }
    {
        worth(self.output, 15) + worth(self.left, 13) + u16::from(self.place)
    }

    /// The fields of a payload of `Verb::GetAmp`.
    pub fn of_payload(payload: u16) -> AmpSide
        ensures value { result ≡ spec.side_of payload }
        ensures in_range { result.place < 2 ^ 4 }
        ensures same { bit_and payload get_amp_zeros ≡ 0 → spec.side_payload result ≡ payload }
    {
        let word = u32::from(payload);
        AmpSide {
            output: has_bit(word, 15),
            left: has_bit(word, 13),
            place: bits_of(word, 0, 4) as u8,
        }
    }
}

/// What a bit is worth in a payload.
fn worth(set: bool, at: u32) -> u16
    requires { at < 16 }
    ensures value { result ≡ spec.worth set at }
    ensures small { result ≤ 2 ^ at }
{
    if set { 1 << at } else { 0 }
}
