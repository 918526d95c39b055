//! The chunks of a file.
ghost use Rattle.std.specs.Prelude.{◌≡◌, ◌≤◌, ◌<◌, ◌+◌, ◌^◌, length, IfSome};
ghost use Rattle.wav_reader.specs.Chunks as spec;
ghost use Rattle.wav_reader.specs.Chunks.{IsInside};
ghost use Rattle.wav_reader.specs.Readers.{chunk_with};

use byteorder::{ByteOrder, LittleEndian};

/// The bytes of a file before its first chunk: `RIFF`, a size, `WAVE`.
pub(crate) const FIRST_CHUNK: usize = 12;
/// The bytes of a chunk before its body: its name and its size.
pub(crate) const CHUNK_HEAD: usize = 8;
/// The size of a chunk `data` whose body goes to the file's end.
const TO_THE_END: u32 = 0xFFFF_FFFF;

/// What a chunk is by its name.
#[derive(Clone, Copy, Debug)]
pub(crate) enum Kind {
    /// `fmt `, the format of the sound.
    Format,
    /// `data`, the sound.
    Data,
    /// Every other name.
    Other,
}

/// A chunk that lies whole in the file.
#[derive(Clone, Copy, Debug)]
pub(crate) struct Chunk {
    /// What it is.
    pub kind: Kind,
    /// The place of its body in the file.
    pub from: usize,
    /// How many bytes its body has.
    pub len: usize,
}

/// Whether the file begins with `RIFF`, any size and `WAVE`.
pub(crate) fn is_riff(bytes: &[u8]) -> bool
    ensures { result ≡ spec.is_riff bytes.now }
{
    bytes.starts_with(b"RIFF") && bytes.len() >= 8 && bytes[8..].starts_with(b"WAVE")
}

/// What a chunk is by its head, which begins with its name.
fn kind_of(head: &[u8]) -> Kind
    ensures { result ≡ spec.kind_at head.now 0 }
{
    if head.starts_with(b"fmt ") {
        Kind::Format
    } else if head.starts_with(b"data") {
        Kind::Data
    } else {
        Kind::Other
    }
}

/// How many bytes the body of a chunk of this size has, where so many are left in the file.
fn body_len(kind: Kind, size: u32, left: usize) -> usize
    ensures { result ≡ spec.body_length kind size left }
{
    match kind {
        Kind::Data if size == TO_THE_END => left,
        _ => size as usize,
    }
}

/// The chunk whose head stands at a place of a file of so many bytes. `None` where its body goes past the file's end.
pub(crate) fn chunk_with(head: &[u8], at: usize, file_len: usize) -> Option<Chunk>
    requires head { length head.now ≡ 8 }
    requires inside { at + 8 ≤ file_len }
    ensures chunk { result ≡ chunk_with head.now at file_len }
    ensures inside { IfSome result (λ chunk. (chunk.from ≡ at + 8) × (chunk.from + chunk.len ≤ file_len)) }
{
    let from = at + CHUNK_HEAD;
    let left = file_len - from;
    let kind = kind_of(head);
    let size = LittleEndian::read_u32(&head[4..]);
    let len = body_len(kind, size, left);
    if len > left {
        return None;
    }
    Some(Chunk { kind, from, len })
}

/// The chunk at a place of the file. `None` where its head or its body goes past the file's end.
pub(crate) fn chunk_at(bytes: &[u8], at: usize) -> Option<Chunk>
    requires { at < length bytes.now }
    ensures chunk { result ≡ spec.chunk_at bytes.now at }
    ensures inside { IfSome result (IsInside bytes.now at) }
{
    if bytes.len() - at < CHUNK_HEAD {
        return None;
    }
    chunk_with(&bytes[at..at + CHUNK_HEAD], at, bytes.len())
}

impl Chunk {
    /// The place of the next chunk, after the pad byte of an odd size.
    pub(crate) fn end(&self) -> usize
        requires { self.now.from + self.now.len < 2 ^ 63 }
        ensures { result ≡ spec.end_of self.now }
    {
        self.from + self.len + self.len % 2
    }
}
