//! What the ring gets for samples that do not stand in it as they stand in the file.
ghost use Rattle.std.specs.Prelude.{◌≡◌, ◌≤◌, ◌<◌, ◌*◌, ◌/◌, true, false, take, length};
ghost use Rattle.wav_reader.specs.Readers as spec;
ghost use Rattle.wav_reader.specs.Readers.{slots, ring_part, slot_length, group_length};
ghost use Rattle.wav_reader.specs.Formats.{sample_length};
ghost use Rattle.stream_format.specs.declared.format.Bits.TheVariants.{B16, B24, B32};

use crate::formats::sample_len;
use stream_format::Bits;

/// The bytes of the slots of a group of samples.
pub(crate) const GROUP_BYTES: usize = 16;
/// The most groups that are put into the ring at a time.
pub(crate) const MOST_GROUPS: usize = 64;
/// The bytes of their slots.
const PART_BYTES: usize = MOST_GROUPS * GROUP_BYTES;
/// The most bytes that the samples of a group have in the file.
const MOST_GROUP_LEN: usize = 12;

/// Whether samples do not stand in the ring as they stand in the file.
pub(crate) fn are_turned(mono: bool, bits: Bits) -> bool
    ensures { result ≡ spec.are_turned mono bits }
{
    match bits {
        Bits::B24 => true,
        Bits::B16 | Bits::B32 => mono,
    }
}

/// The bytes of a slot, which is what the ring gets for a sample.
pub(crate) fn slot_len(mono: bool, bits: Bits) -> usize
    ensures value { result ≡ slot_length mono bits }
    ensures some { 2 ≤ result }
    ensures most { result ≤ 8 }
{
    let container = match bits {
        Bits::B16 => 2,
        Bits::B24 | Bits::B32 => 4,
    };
    if mono { 2 * container } else { container }
}

/// The bytes in the file of as many samples as make a group.
pub(crate) fn group_len(mono: bool, bits: Bits) -> usize
    ensures value { result ≡ group_length mono bits }
    ensures some { 1 ≤ result }
    ensures most { result ≤ 16 }
{
    match bits {
        Bits::B16 if mono => 8,
        Bits::B16 => 16,
        Bits::B24 if mono => 6,
        Bits::B24 => 12,
        Bits::B32 if mono => 8,
        Bits::B32 => 16,
    }
}

/// The first four samples of two bytes, each twice.
fn four_doubled(samples: &[u8]) -> [u8; 16]
    requires { 8 ≤ length samples.now }
    ensures { result ≡ slots true B16 samples.now 4 }
{
    let s = samples;
    [
        s[0], s[1], s[0], s[1], s[2], s[3], s[2], s[3], s[4], s[5], s[4], s[5], s[6], s[7], s[6],
        s[7],
    ]
}

/// The first two samples of four bytes, each twice.
fn two_doubled(samples: &[u8]) -> [u8; 16]
    requires { 8 ≤ length samples.now }
    ensures { result ≡ slots true B32 samples.now 2 }
{
    let s = samples;
    [
        s[0], s[1], s[2], s[3], s[0], s[1], s[2], s[3], s[4], s[5], s[6], s[7], s[4], s[5], s[6],
        s[7],
    ]
}

/// The first four samples of three bytes, each behind a byte 0.
fn four_widened(samples: &[u8]) -> [u8; 16]
    requires { 12 ≤ length samples.now }
    ensures { result ≡ slots false B24 samples.now 4 }
{
    let s = samples;
    [
        0, s[0], s[1], s[2], 0, s[3], s[4], s[5], 0, s[6], s[7], s[8], 0, s[9], s[10], s[11],
    ]
}

/// The first two samples of three bytes, each behind a byte 0 and twice.
fn two_widened(samples: &[u8]) -> [u8; 16]
    requires { 6 ≤ length samples.now }
    ensures { result ≡ slots true B24 samples.now 2 }
{
    let s = samples;
    [
        0, s[0], s[1], s[2], 0, s[0], s[1], s[2], 0, s[3], s[4], s[5], 0, s[3], s[4], s[5],
    ]
}

/// The slots of the first samples, as many as make a group.
pub(crate) fn group_of(samples: &[u8], mono: bool, bits: Bits) -> [u8; GROUP_BYTES]
    requires turned { spec.are_turned mono bits ≡ true }
    requires enough { group_length mono bits ≤ length samples.now }
    ensures { result ≡ slots mono bits samples.now (16 / slot_length mono bits) }
{
    match bits {
        Bits::B16 => four_doubled(samples),
        Bits::B24 if mono => two_widened(samples),
        Bits::B24 => four_widened(samples),
        Bits::B32 => two_doubled(samples),
    }
}

/// The slots of the first samples, of so many groups, in the first bytes.
pub(crate) fn groups_of(samples: &[u8], mono: bool, bits: Bits, count: usize) -> [u8; PART_BYTES]
    requires turned { spec.are_turned mono bits ≡ true }
    requires few { count ≤ 64 }
    requires enough { count * group_length mono bits ≤ length samples.now }
    ensures { take (count * 16) result ≡ slots mono bits samples.now (count * (16 / slot_length mono bits)) }
{
    let size = group_len(mono, bits);
    let mut part = [0; PART_BYTES];
    for i in 0..count {
        let at = i * GROUP_BYTES;
        part[at..at + GROUP_BYTES].copy_from_slice(&group_of(&samples[i * size..], mono, bits));
    }
    part
}

/// The slots of samples that are fewer than make a group, in the first bytes.
pub(crate) fn few_of(samples: &[u8], mono: bool, bits: Bits) -> [u8; GROUP_BYTES]
    requires turned { spec.are_turned mono bits ≡ true }
    requires few { length samples.now < group_length mono bits }
    ensures { take (length samples.now / sample_length bits * slot_length mono bits) result
        ≡ ring_part mono bits samples.now }
{
    let mut group = [0; MOST_GROUP_LEN];
    group[..samples.len()].copy_from_slice(samples);
    group_of(&group, mono, bits)
}

/// How many bytes the slots of whole samples have, of which there are fewer than make a group.
pub(crate) fn few_len(samples: &[u8], mono: bool, bits: Bits) -> usize
    requires { length samples.now < group_length mono bits }
    ensures value { result ≡ length samples.now / sample_length bits * slot_length mono bits }
    ensures most { result ≤ 16 }
{
    samples.len() / sample_len(bits) * slot_len(mono, bits)
}
