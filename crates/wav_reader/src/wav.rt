//! Reads a whole WAV file.
ghost use Rattle.std.specs.Prelude.{◌≡◌, ◌<◌, ◌*◌, ◌++◌, true, length, IfOk};
ghost use Rattle.stream_format.specs.Cadence.{block_bytes};
ghost use Rattle.wav_reader.specs.Heads.{EndsWithin};
ghost use Rattle.wav_reader.specs.Readers as readers;
ghost use Rattle.wav_reader.specs.Readers.{head_seen, ring_part, group_length};
ghost use Rattle.wav_reader.specs.Wavs as spec;

use crate::fault::WavFault;
use crate::formats::sample_len;
use crate::heads::{Head, frame_len, read_head};
use crate::slots::{are_turned, few_len, few_of, group_len, group_of, slot_len};
use hda_items::Items;
use std::alloc::{AllocError, Global};
use stream_format::{Bits, Format};

/// The sound of a WAV file.
#[derive(Debug, Drop)]
pub struct Wav {
    /// The format of its ring bytes: the rate and the bits of the file, and its channels, but 2 for one channel.
    pub format: Format,
    /// Whether the file has one channel, whose samples were doubled to left and right.
    pub mono: bool,
    /// How many frames there are.
    pub frames: u64,
    /// Its ring bytes: for each frame a block of the format (HDA 1.0a, 4.5.1).
    pub pcm: Items<u8>,
}

/// Puts the slots of samples last, group by group, and gives those back that make no whole group.
fn push_groups<'a>(
    ring: &mut Vec<u8>,
    samples: &'a [u8],
    mono: bool,
    bits: Bits,
) -> Result<&'a [u8], AllocError>
    requires turned { readers.are_turned mono bits ≡ true }
    ensures pushed { IfOk result (λ rest. ring.new.items ++ ring_part mono bits rest.now
        ≡ ring.old.items ++ ring_part mono bits samples.now) }
    ensures few { IfOk result (λ rest. length rest.now < group_length mono bits) }
{
    let size = group_len(mono, bits);
    let mut rest = samples;
    while rest.len() >= size {
        ring.extend_from_slice(&group_of(rest, mono, bits))?;
        rest = &rest[size..];
    }
    Ok(rest)
}

/// What the ring gets for whole samples that do not stand in it as they stand in the file, in memory that is taken
/// once.
fn turned(alloc: Global, samples: &[u8], mono: bool, bits: Bits) -> Result<Vec<u8>, AllocError>
    requires turned { readers.are_turned mono bits ≡ true }
    ensures { IfOk result (λ ring. ring.items ≡ ring_part mono bits samples.now) }
{
    let count = samples.len() / sample_len(bits);
    let mut ring = Vec::with_capacity(alloc, count.saturating_mul(slot_len(mono, bits)))?;
    let rest = push_groups(&mut ring, samples, mono, bits)?;
    let last = few_of(rest, mono, bits);
    ring.extend_from_slice(&last[..few_len(rest, mono, bits)])?;
    Ok(ring)
}

/// The ring bytes of the frames of a file.
fn ring_bytes(alloc: Global, bytes: &[u8], head: &Head) -> Result<Vec<u8>, AllocError>
    requires within { EndsWithin bytes.now (head_seen head.now) }
    requires doubled { head.now.mono ≡ true → head.now.format.channels ≡ 2 }
    ensures { IfOk result (λ ring. ring.items ≡ spec.ring_bytes bytes.now (head_seen head.now)) }
{
    let sound = &bytes[head.from..head.from + head.frames * frame_len(head.mono, head.format)];
    if are_turned(head.mono, head.format.bits) {
        turned(alloc, sound, head.mono, head.format.bits)
    } else {
        Vec::from_slice(alloc, sound)
    }
}

/// Reads a WAV file: its bytes.
///
/// # Errors
/// The file's first fault, in the order of the crate's table. [`WavFault::OutOfMemory`] says nothing of the file.
pub fn read_wav(alloc: Global, bytes: &[u8]) -> Result<Wav, WavFault>
    ensures meaning { spec.Reads bytes.now result }
    ensures whole { IfOk result (λ wav. length wav.pcm ≡ wav.frames * block_bytes wav.format) }
{
    let head = read_head(bytes)?;
    let pcm = ring_bytes(alloc, bytes, &head)?;
    Ok(Wav {
        format: head.format,
        mono: head.mono,
        frames: head.frames as u64,
        pcm: Items::from_vec(pcm),
    })
}
