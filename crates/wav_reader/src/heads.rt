//! What stands before a file's sound.
ghost use Rattle.std.specs.Prelude.{◌≡◌, ◌≤◌, ◌+◌, true, length, IfOk};
ghost use Rattle.stream_format.specs.Layouts.{layout};
ghost use Rattle.wav_reader.specs.Fills.{end_of_sound};
ghost use Rattle.wav_reader.specs.Heads as spec;
ghost use Rattle.wav_reader.specs.Heads.{EndsWithin};
ghost use Rattle.wav_reader.specs.Readers.{seen, head_seen, known_after};

use crate::chunks::{Chunk, FIRST_CHUNK, Kind, chunk_at, is_riff};
use crate::fault::WavFault;
use crate::formats::{ChannelCount, Sound, sample_len, sound_of};
use stream_format::Format;

/// What a file says before its sound.
#[derive(Clone, Copy, Debug)]
pub(crate) struct Head {
    /// The format in which the ring gets it.
    pub format: Format,
    /// Whether a frame of the file has one sample, which is doubled.
    pub mono: bool,
    /// The place of the first frame in the file.
    pub from: usize,
    /// How many whole frames there are.
    pub frames: usize,
}

impl Sound {
    /// Whether it has one channel.
    fn is_mono(&self) -> bool
        ensures { result ≡ spec.is_mono self.now.channels }
    {
        self.channels.number() == 1
    }

    /// The format in which the ring gets it.
    fn ring_format(&self) -> Format
        ensures value { layout result ≡ spec.ring_format self.now }
        ensures doubled { spec.is_mono self.now.channels ≡ true → result.channels ≡ 2 }
    {
        Format {
            rate: self.rate,
            bits: self.bits,
            channels: match self.channels {
                ChannelCount::One | ChannelCount::Two => 2,
                ChannelCount::Four => 4,
                ChannelCount::Six => 6,
                ChannelCount::Eight => 8,
            },
        }
    }
}

/// The bytes of a frame in the file.
pub(crate) fn frame_len(mono: bool, format: Format) -> usize
    ensures value { result ≡ spec.frame_length mono (layout format) }
    ensures some { 1 ≤ result }
{
    let samples = if mono {
        1
    } else {
        usize::from(format.channels)
    };
    samples * sample_len(format.bits)
}

/// The sound that is known after a chunk: the first chunk `fmt ` says it.
fn known_after(bytes: &[u8], found: Option<Sound>, chunk: Chunk) -> Result<Option<Sound>, WavFault>
    requires { chunk.from + chunk.len ≤ length bytes.now }
    ensures { result ≡ known_after bytes.now found chunk }
{
    match (chunk.kind, found) {
        (Kind::Format, None) => {
            let sound = sound_of(&bytes[chunk.from..chunk.from + chunk.len])?;
            Ok(Some(sound))
        }
        _ => Ok(found),
    }
}

/// Whether a chunk has the sound.
pub(crate) fn is_data(kind: Kind) -> bool
    ensures { result ≡ spec.is_data_kind kind }
{
    match kind {
        Kind::Data => true,
        Kind::Format | Kind::Other => false,
    }
}

/// The sound in the body of a chunk `data`.
pub(crate) fn sound_in(found: Option<Sound>, chunk: Chunk) -> Result<Head, WavFault>
    ensures head { seen result ≡ spec.sound_in found chunk }
    ensures within { IfOk result (λ head. end_of_sound (head_seen head) ≤ chunk.from + chunk.len) }
    ensures from { IfOk result (λ head. head.from ≡ chunk.from) }
    ensures doubled { IfOk result (λ head. head.mono ≡ true → head.format.channels ≡ 2) }
{
    let Some(sound) = found else {
        return Err(WavFault::NoFormat);
    };
    let format = sound.ring_format();
    let mono = sound.is_mono();
    Ok(Head {
        format,
        mono,
        from: chunk.from,
        frames: chunk.len / frame_len(mono, format),
    })
}

/// Looks for the sound, chunk by chunk.
fn find_sound(bytes: &[u8]) -> Result<Head, WavFault>
    ensures head { seen result ≡ spec.head_in bytes.now }
    ensures within { IfOk result (λ head. EndsWithin bytes.now (head_seen head)) }
    ensures doubled { IfOk result (λ head. head.mono ≡ true → head.format.channels ≡ 2) }
{
    let mut found = None;
    let mut at = FIRST_CHUNK;
    while at < bytes.len() {
        let Some(chunk) = chunk_at(bytes, at) else {
            return Err(WavFault::Truncated(bytes.len() as u64));
        };
        if is_data(chunk.kind) {
            return sound_in(found, chunk);
        }
        found = known_after(bytes, found, chunk)?;
        at = chunk.end();
    }
    Err(WavFault::NoData)
}

/// Reads the file as far as the body of its chunk `data`.
pub(crate) fn read_head(bytes: &[u8]) -> Result<Head, WavFault>
    ensures head { seen result ≡ spec.head_of bytes.now }
    ensures within { IfOk result (λ head. EndsWithin bytes.now (head_seen head)) }
    ensures doubled { IfOk result (λ head. head.mono ≡ true → head.format.channels ≡ 2) }
{
    if !is_riff(bytes) {
        return Err(WavFault::NotRiff);
    }
    find_sound(bytes)
}
