//! The ring bytes of samples of a file, put into a ring that is held.
ghost use Rattle.std.specs.Prelude.{◌≡◌, ◌≤◌, ◌<◌, ◌+◌, ◌%◌, ◌++◌, true, length};
ghost use Rattle.circular_buffer.specs.Buffer.{buffer};
ghost use Rattle.wav_reader.specs.Formats.{sample_length};
ghost use Rattle.wav_reader.specs.Readers as spec;
ghost use Rattle.wav_reader.specs.Readers.{ring_part, group_length};

use crate::slots::{GROUP_BYTES, MOST_GROUPS, are_turned, few_len, few_of, group_len, groups_of};
use circular_buffer::HeapCircularBuffer;
use stream_format::Bits;

/// Puts bytes last.
pub(crate) fn put_last(held: &mut HeapCircularBuffer<u8>, bytes: &[u8])
    requires { length held.old.items + length bytes.now ≤ held.old.capacity }
    ensures { held.new ≡ buffer (held.old.items ++ bytes.now) held.old.capacity }
{
    held.fill_from_slice(bytes);
}

/// Puts the slots of samples last, some groups at a time, and gives those back that make no whole group.
fn put_groups<'a>(
    held: &mut HeapCircularBuffer<u8>,
    samples: &'a [u8],
    mono: bool,
    bits: Bits,
) -> &'a [u8]
    requires turned { spec.are_turned mono bits ≡ true }
    requires room { length held.old.items + length (ring_part mono bits samples.now) ≤ held.old.capacity }
    ensures put { held.new.items ++ ring_part mono bits result.now
        ≡ held.old.items ++ ring_part mono bits samples.now }
    ensures capacity { held.new.capacity ≡ held.old.capacity }
    ensures few { length result.now < group_length mono bits }
{
    let size = group_len(mono, bits);
    let mut rest = samples;
    while rest.len() >= size {
        let count = (rest.len() / size).min(MOST_GROUPS);
        let part = groups_of(rest, mono, bits, count);
        put_last(held, &part[..count * GROUP_BYTES]);
        rest = &rest[count * size..];
    }
    rest
}

/// Puts the slots of whole samples last that do not stand in the ring as they stand in the file.
fn put_turned(held: &mut HeapCircularBuffer<u8>, samples: &[u8], mono: bool, bits: Bits)
    requires turned { spec.are_turned mono bits ≡ true }
    requires room { length held.old.items + length (ring_part mono bits samples.now) ≤ held.old.capacity }
    ensures { held.new ≡ buffer (held.old.items ++ ring_part mono bits samples.now) held.old.capacity }
{
    let rest = put_groups(held, samples, mono, bits);
    let last = few_of(rest, mono, bits);
    put_last(held, &last[..few_len(rest, mono, bits)]);
}

/// Puts what the ring gets for whole samples last.
pub(crate) fn put_samples(held: &mut HeapCircularBuffer<u8>, samples: &[u8], mono: bool, bits: Bits)
    requires whole { length samples.now % sample_length bits ≡ 0 }
    requires room { length held.old.items + length (ring_part mono bits samples.now) ≤ held.old.capacity }
    ensures { held.new ≡ buffer (held.old.items ++ ring_part mono bits samples.now) held.old.capacity }
{
    if are_turned(mono, bits) {
        put_turned(held, samples, mono, bits);
    } else {
        put_last(held, samples);
    }
}
