//! The format of a file's sound.
ghost use Rattle.std.specs.Prelude.{◌≡◌, ◌≤◌, length};
ghost use Rattle.wav_reader.specs.Formats as spec;

use crate::fault::WavFault;
use byteorder::{ByteOrder, LittleEndian};
use stream_format::{Bits, Rate};

/// The bytes of a chunk `fmt ` that each form of it has.
pub(crate) const FORMAT_BYTES: usize = 16;
/// The bytes of a chunk `fmt ` that are read: all that the extensible form has.
pub(crate) const EXTENSIBLE_BYTES: usize = 40;
/// The tag of samples that are whole numbers.
const PCM: u16 = 1;
/// The tag of the extensible form, in which the subformat says what the samples are.
const EXTENSIBLE: u16 = 0xFFFE;
/// The place of the subformat in the extensible form.
const SUBFORMAT: usize = 24;
/// The subformat of samples that are whole numbers.
const PCM_SUBFORMAT: [u8; 16] = [
    0x01, 0x00, 0x00, 0x00, 0x00, 0x00, 0x10, 0x00, 0x80, 0x00, 0x00, 0xAA, 0x00, 0x38, 0x9B, 0x71,
];

/// How many channels a file can have.
#[derive(Clone, Copy, Debug)]
pub(crate) enum ChannelCount {
    /// One, which the ring gets twice, left and right.
    One,
    /// Two.
    Two,
    /// Four.
    Four,
    /// Six.
    Six,
    /// Eight.
    Eight,
}

/// What a chunk `fmt ` says of the sound.
#[derive(Clone, Copy, Debug)]
pub(crate) struct Sound {
    /// The frames a second.
    pub rate: Rate,
    /// The bits of a sample.
    pub bits: Bits,
    /// How many samples a frame has.
    pub channels: ChannelCount,
}

/// The fields of a body that are looked at.
#[derive(Clone, Copy, Debug)]
pub(crate) struct Fields {
    /// The form of the samples.
    pub tag: u16,
    /// How many channels there are.
    pub channels: u16,
    /// The frames a second.
    pub hertz: u32,
    /// The bytes of a frame.
    pub block: u16,
    /// The bits of a sample.
    pub bits: u16,
    /// Whether the subformat of samples that are whole numbers stands in its place.
    pub has_pcm_subformat: bool,
}

impl ChannelCount {
    /// The number.
    pub(crate) fn number(self) -> u8
        ensures { result ≡ spec.channels_in self }
    {
        match self {
            ChannelCount::One => 1,
            ChannelCount::Two => 2,
            ChannelCount::Four => 4,
            ChannelCount::Six => 6,
            ChannelCount::Eight => 8,
        }
    }
}

/// The rate with so many frames a second.
fn rate_with(hertz: u32) -> Option<Rate>
    ensures { result ≡ spec.rate_with hertz }
{
    match hertz {
        8_000 => Some(Rate::R8),
        16_000 => Some(Rate::R16),
        44_100 => Some(Rate::R44),
        48_000 => Some(Rate::R48),
        96_000 => Some(Rate::R96),
        192_000 => Some(Rate::R192),
        _ => None,
    }
}

/// The channels that are so many.
fn channels_with(number: u16) -> Option<ChannelCount>
    ensures { result ≡ spec.channels_with number }
{
    match number {
        1 => Some(ChannelCount::One),
        2 => Some(ChannelCount::Two),
        4 => Some(ChannelCount::Four),
        6 => Some(ChannelCount::Six),
        8 => Some(ChannelCount::Eight),
        _ => None,
    }
}

/// The sample size with so many bits.
fn bits_with(number: u16) -> Option<Bits>
    ensures { result ≡ spec.bits_with number }
{
    match number {
        16 => Some(Bits::B16),
        24 => Some(Bits::B24),
        32 => Some(Bits::B32),
        _ => None,
    }
}

/// The bytes of a sample in the file.
pub(crate) fn sample_len(bits: Bits) -> usize
    ensures value { result ≡ spec.sample_length bits }
    ensures some { 2 ≤ result }
    ensures most { result ≤ 4 }
{
    match bits {
        Bits::B16 => 2,
        Bits::B24 => 3,
        Bits::B32 => 4,
    }
}

/// Whether the subformat of samples that are whole numbers stands in its place of a body.
fn has_pcm_subformat(body: &[u8]) -> bool
    ensures { result ≡ spec.has_pcm_subformat body.now }
{
    body.len() >= SUBFORMAT && body[SUBFORMAT..].starts_with(&PCM_SUBFORMAT)
}

/// The fields of a body.
fn fields_of(body: &[u8]) -> Fields
    requires { 16 ≤ length body.now }
    ensures { result ≡ spec.fields_of body.now }
{
    Fields {
        tag: LittleEndian::read_u16(body),
        channels: LittleEndian::read_u16(&body[2..]),
        hertz: LittleEndian::read_u32(&body[4..]),
        block: LittleEndian::read_u16(&body[12..]),
        bits: LittleEndian::read_u16(&body[14..]),
        has_pcm_subformat: has_pcm_subformat(body),
    }
}

impl Fields {
    /// Whether the samples are whole numbers.
    fn is_pcm(&self) -> bool
        ensures { result ≡ spec.is_pcm self.now }
    {
        self.tag == PCM || (self.tag == EXTENSIBLE && self.has_pcm_subformat)
    }
}

/// The sound that the fields describe.
fn sound_with(fields: Fields) -> Result<Sound, WavFault>
    ensures { result ≡ spec.sound_with fields }
{
    if !fields.is_pcm() {
        return Err(WavFault::Tag(fields.tag));
    }
    let Some(channels) = channels_with(fields.channels) else {
        return Err(WavFault::Channels(fields.channels));
    };
    let Some(rate) = rate_with(fields.hertz) else {
        return Err(WavFault::Rate(fields.hertz));
    };
    let Some(bits) = bits_with(fields.bits) else {
        return Err(WavFault::Bits(fields.bits));
    };
    if usize::from(fields.block) != usize::from(channels.number()) * sample_len(bits) {
        return Err(WavFault::BlockAlign);
    }
    Ok(Sound {
        rate,
        bits,
        channels,
    })
}

/// How many bytes a body with this tag has at least.
fn least_len(tag: u16) -> usize
    ensures { result ≡ spec.least_length tag }
{
    if tag == EXTENSIBLE {
        EXTENSIBLE_BYTES
    } else {
        FORMAT_BYTES
    }
}

/// Reads the body of a chunk `fmt `.
#[tactic(auto, unfolding(crate::specs::Formats::sound_of))]
pub(crate) fn sound_of(body: &[u8]) -> Result<Sound, WavFault>
    ensures { result ≡ spec.sound_of body.now }
{
    if body.len() < FORMAT_BYTES {
        return Err(WavFault::NoFormat);
    }
    let fields = fields_of(body);
    if body.len() < least_len(fields.tag) {
        return Err(WavFault::NoFormat);
    }
    sound_with(fields)
}
