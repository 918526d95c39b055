//! WAV files of the blocks of a ring.
ghost use Rattle.std.specs.Prelude.{◌≡◌, ◌≤◌, ◌*◌, ◌%◌, ◌++◌, IfOk, OnOk, length};
ghost use Rattle.stream_format.specs.Cadence.{container_bytes, hertz};
ghost use Rattle.wav_reader.specs.Formats.{sample_length};
ghost use Rattle.wav_reader.specs.Laws.{CanBeWritten};
ghost use Rattle.wav_reader.specs.Written.{block_file, file_samples};
ghost use Rattle.wav_writer.specs.Heads as spec;

use std::alloc::{AllocError, Global};
use stream_format::{Bits, Format, Rate};

/// The bytes of a file before its samples.
pub const WAV_HEAD_BYTES: usize = 44;

/// The most bytes of a ring that a file can have: those for which the size after `RIFF` has four bytes.
pub const MOST_RING_BYTES: u32 = 4_294_967_259;

/// The frames of a second.
fn hertz_of(rate: Rate) -> u32
    ensures { result ≡ hertz rate }
{
    match rate {
        Rate::R8 => 8_000,
        Rate::R16 => 16_000,
        Rate::R44 => 44_100,
        Rate::R48 => 48_000,
        Rate::R96 => 96_000,
        Rate::R192 => 192_000,
    }
}

/// The bytes of a sample in the file.
fn sample_bytes(bits: Bits) -> u16
    ensures { result ≡ sample_length bits }
{
    match bits {
        Bits::B16 => 2,
        Bits::B24 => 3,
        Bits::B32 => 4,
    }
}

/// The bytes of a frame in the file.
fn frame_bytes(format: Format) -> u16
    ensures value { result ≡ format.channels * sample_length format.bits }
    ensures few { result ≤ 32 }
{
    u16::from(format.channels) * sample_bytes(format.bits)
}

/// What stands in a WAV file of the format before so many bytes of samples: its size, the chunk of the format and the
/// head of the chunk of the samples.
pub fn wav_head(format: Format, bytes: u32) -> [u8; WAV_HEAD_BYTES]
    requires { bytes ≤ MOST_RING_BYTES }
    ensures { result ≡ spec.block_head format bytes }
{
    let frame = frame_bytes(format);
    let hertz = hertz_of(format.rate);
    let size = (36 + bytes).to_le_bytes();
    let count = u16::from(format.channels).to_le_bytes();
    let rate = hertz.to_le_bytes();
    let second = (u32::from(frame) * hertz).to_le_bytes();
    let block = frame.to_le_bytes();
    let bits = (8 * sample_bytes(format.bits)).to_le_bytes();
    let length = bytes.to_le_bytes();
    [
        b'R', b'I', b'F', b'F', size[0], size[1], size[2], size[3], b'W', b'A', b'V', b'E', b'f',
        b'm', b't', b' ', 16, 0, 0, 0, 1, 0, count[0], count[1], rate[0], rate[1], rate[2],
        rate[3], second[0], second[1], second[2], second[3], block[0], block[1], bits[0], bits[1],
        b'd', b'a', b't', b'a', length[0], length[1], length[2], length[3],
    ]
}

/// The bytes of the samples of so many bytes of a ring.
fn samples_len(bits: Bits, ring: usize) -> usize
    requires { ring ≤ MOST_RING_BYTES }
    ensures { result ≡ spec.samples_length bits ring }
{
    match bits {
        Bits::B16 => ring / 2 * 2,
        Bits::B24 => ring / 4 * 3,
        Bits::B32 => ring / 4 * 4,
    }
}

/// Puts the samples of whole containers of 24 bits last.
fn push_24(file: &mut Vec<u8>, ring: &[u8]) -> Result<(), AllocError>
    ensures { OnOk result (file.new.items ≡ file.old.items ++ file_samples Bits.B24 ring.now) }
{
    for number in 0..ring.len() / 4 {
        file.extend_from_slice(&ring[4 * number + 1..4 * number + 4])?;
    }
    Ok(())
}

/// Puts the samples of whole containers last.
fn push_samples(file: &mut Vec<u8>, bits: Bits, ring: &[u8]) -> Result<(), AllocError>
    requires { length ring.now % container_bytes bits ≡ 0 }
    ensures { OnOk result (file.new.items ≡ file.old.items ++ file_samples bits ring.now) }
{
    match bits {
        Bits::B24 => push_24(file, ring),
        Bits::B16 | Bits::B32 => file.extend_from_slice(ring),
    }
}

/// The WAV file of whole blocks of the format, as a ring has them: a head of 44 bytes, and the samples.
///
/// # Errors
/// Want of memory.
pub fn wav_file(alloc: Global, format: Format, ring: &[u8]) -> Result<Vec<u8>, AllocError>
    requires { CanBeWritten format ring.now }
    ensures { IfOk result (λ file. file.items ≡ block_file format ring.now) }
{
    let bytes = samples_len(format.bits, ring.len());
    let mut file = Vec::with_capacity(alloc, WAV_HEAD_BYTES + bytes)?;
    file.extend_from_slice(&wav_head(format, bytes as u32))?;
    push_samples(&mut file, format.bits, ring)?;
    Ok(file)
}
