//! The sound that is made of a number.
ghost use Rattle.std.specs.Prelude.{◌≡◌, ◌≤◌, ◌<◌, ◌++◌, IfOk, OnOk};
ghost use Rattle.made_inputs.specs.MadeSound as spec;

use std::alloc::{AllocError, Global};
use stream_format::{Bits, Format, Rate};
use wav_writer::{WAV_HEAD_BYTES, wav_head};

/// The format of the sound: 48 kHz, 16 bits, 2 channels.
pub fn made_format() -> Format
    ensures { result ≡ spec.made_format }
{
    Format {
        rate: Rate::R48,
        bits: Bits::B16,
        channels: 2,
    }
}

/// How many frames the sound of a number has: 1,000 to 50,999.
pub(crate) fn frames_for(number: u16) -> u32
    ensures value { result ≡ spec.frames_for number }
    ensures most { result ≤ 50999 }
{
    1000 + u32::from(number) % 50000
}

/// The block of a frame, counted from 0: left and right, each with its lower byte first.
fn made_frame(number: u16, frame: u32) -> [u8; 4]
    requires { frame < 51000 }
    ensures { result ≡ spec.made_frame number frame }
{
    let left = (7 * frame + u32::from(number)) % 65536;
    let right = (13 * frame + u32::from(number)) % 65536;
    [
        (left % 256) as u8,
        (left / 256) as u8,
        (right % 256) as u8,
        (right / 256) as u8,
    ]
}

/// Puts the blocks of the first so many frames last.
fn push_frames(pcm: &mut Vec<u8>, number: u16, count: u32) -> Result<(), AllocError>
    requires { count ≤ 50999 }
    ensures { OnOk result (pcm.new.items ≡ pcm.old.items ++ spec.first_frames number count) }
{
    for frame in 0..count {
        pcm.extend_from_slice(&made_frame(number, frame))?;
    }
    Ok(())
}

/// The WAV file that is made of a number N: 1,000 + N mod 50,000 frames of 16 bits and 2 channels at 48 kHz. Frame i,
/// counted from 0, has left (7 i + N) mod 65,536 and right (13 i + N) mod 65,536.
///
/// # Errors
/// Want of memory.
pub fn made_wav(alloc: Global, number: u16) -> Result<Vec<u8>, AllocError>
    ensures { IfOk result (λ file. file.items ≡ spec.made_wav number) }
{
    let frames = frames_for(number);
    let bytes = 4 * frames;
    let mut file = Vec::with_capacity(alloc, WAV_HEAD_BYTES + bytes as usize)?;
    file.extend_from_slice(&wav_head(made_format(), bytes))?;
    push_frames(&mut file, number, frames)?;
    Ok(file)
}
