//! Opens a WAV file on a shelf: reads what stands before its sound.
ghost use Rattle.std.specs.Prelude.{◌≡◌, ◌≢◌, ◌≤◌, ◌<◌, ℕ, ◌+◌, ◌*◌, List, length, take, drop, Some, Ok, IfSome, IfOk};
ghost use Rattle.std.specs.Prelude.{OnOk, Err, true};
ghost use Rattle.hda_outside.specs.Counts.{Rose};
ghost use Rattle.hda_outside.specs.Shelf.{file_of};
ghost use Rattle.wav_reader.specs.Chunks.{is_riff as is_riff_file};
ghost use Rattle.wav_reader.specs.Fills.{end_of_sound};
ghost use Rattle.wav_reader.specs.Heads as spec;
ghost use Rattle.wav_reader.specs.Heads.{frame_length};
ghost use Rattle.stream_format.specs.Layouts.{layout};
ghost use Rattle.wav_reader.specs.Opening.{IsOpenedBy, IsOfFile};
ghost use Rattle.wav_reader.specs.Readers.{IsAnswer, chunk_or_cut, known_after, head_seen};
ghost use Rattle.wav_reader.specs.Shelves.{Tells};

use crate::chunks::{CHUNK_HEAD, Chunk, FIRST_CHUNK, Kind, chunk_with, is_riff};
use crate::fault::WavFault;
use crate::formats::{EXTENSIBLE_BYTES, FORMAT_BYTES, Sound, sound_of};
use crate::heads::{Head, is_data, sound_in};
use crate::opened::{MOST_WAV_BYTES, WavHead, WavOpen};
use hda_outside::{Shelf, file_length, read_piece};
use std::alloc::Global;

/// Reads bytes of the file from a place on, as many as `buf` has.
fn read_exactly<S: Shelf>(
    alloc: Global,
    shelf: &mut S,
    name: &str,
    from: usize,
    buf: &mut [u8],
) -> Result<(), WavOpen>
    requires small { from + length buf.old ≤ 67108864 }
    ensures told { S.told shelf.new ≡ S.told shelf.old }
    ensures exact { (file : List ℕ) → Tells (S.told shelf.old) name.now file → from + length buf.new ≤ length file
        → IsAnswer (λ u. u) (Ok tt) result }
    ensures bytes { OnOk result ((file : List ℕ) → Tells (S.told shelf.old) name.now file
        → buf.new ≡ take (length buf.new) (drop from file)) }
    ensures of_file { IsOfFile result }
    ensures given { S.given shelf.new ≤ S.given shelf.old + length buf.new }
    ensures given_rises { S.given shelf.old ≤ S.given shelf.new }
    ensures failed { result ≡ Err WavOpen.Failed → Rose (S.faults shelf.old name.now) (S.faults shelf.new name.now) }
    ensures asked { (other : List ℕ) → other ≢ name.now → S.asked shelf.new other ≡ S.asked shelf.old other }
    ensures later { (other : List ℕ) → S.faults shelf.old other ≤ S.faults shelf.new other }
    ensures empties_later { (other : List ℕ) → S.empties shelf.old other ≤ S.empties shelf.new other }
{
    match read_piece(alloc, shelf, name, from as u64, buf).cut {
        None => Ok(()),
        Some(cut) => Err(WavOpen::from(cut)),
    }
}

/// The chunk at a place of a file of so many bytes.
fn read_chunk<S: Shelf>(
    alloc: Global,
    shelf: &mut S,
    name: &str,
    at: usize,
    file_len: usize,
) -> Result<Chunk, WavOpen>
    requires at { at < file_len }
    requires small { file_len ≤ 67108864 }
    ensures told { S.told shelf.new ≡ S.told shelf.old }
    ensures exact { (file : List ℕ) → Tells (S.told shelf.old) name.now file → length file ≡ file_len
        → IsAnswer (λ chunk. chunk) (chunk_or_cut file at) result }
    ensures of_file { IsOfFile result }
    ensures inside { IfOk result (λ chunk. (chunk.from ≡ at + 8) × (chunk.from + chunk.len ≤ file_len)) }
    ensures given { S.given shelf.new ≤ S.given shelf.old + 8 }
    ensures given_rises { S.given shelf.old ≤ S.given shelf.new }
    ensures failed { result ≡ Err WavOpen.Failed → Rose (S.faults shelf.old name.now) (S.faults shelf.new name.now) }
    ensures asked { (other : List ℕ) → other ≢ name.now → S.asked shelf.new other ≡ S.asked shelf.old other }
    ensures later { (other : List ℕ) → S.faults shelf.old other ≤ S.faults shelf.new other }
    ensures empties_later { (other : List ℕ) → S.empties shelf.old other ≤ S.empties shelf.new other }
{
    let cut = WavFault::Truncated(file_len as u64);
    if file_len - at < CHUNK_HEAD {
        return Err(WavOpen::Wav(cut));
    }
    let mut head = [0; CHUNK_HEAD];
    read_exactly(alloc, shelf, name, at, &mut head)?;
    let Some(chunk) = chunk_with(&head, at, file_len) else {
        return Err(WavOpen::Wav(cut));
    };
    Ok(chunk)
}

/// The sound that is known after a chunk: the first chunk `fmt ` says it.
fn read_known<S: Shelf>(
    alloc: Global,
    shelf: &mut S,
    name: &str,
    found: Option<Sound>,
    chunk: Chunk,
) -> Result<Option<Sound>, WavOpen>
    requires small { chunk.from + chunk.len ≤ 67108864 }
    ensures told { S.told shelf.new ≡ S.told shelf.old }
    ensures exact { (file : List ℕ) → Tells (S.told shelf.old) name.now file → chunk.from + chunk.len ≤ length file
        → IsAnswer (λ known. known) (known_after file found chunk) result }
    ensures of_file { IsOfFile result }
    ensures given { S.given shelf.new ≤ S.given shelf.old + chunk.len }
    ensures given_rises { S.given shelf.old ≤ S.given shelf.new }
    ensures failed { result ≡ Err WavOpen.Failed → Rose (S.faults shelf.old name.now) (S.faults shelf.new name.now) }
    ensures asked { (other : List ℕ) → other ≢ name.now → S.asked shelf.new other ≡ S.asked shelf.old other }
    ensures later { (other : List ℕ) → S.faults shelf.old other ≤ S.faults shelf.new other }
    ensures empties_later { (other : List ℕ) → S.empties shelf.old other ≤ S.empties shelf.new other }
{
    match (chunk.kind, found) {
        (Kind::Format, None) => {
            if chunk.len < FORMAT_BYTES {
                return Err(WavOpen::Wav(WavFault::NoFormat));
            }
            let mut body = [0; EXTENSIBLE_BYTES];
            let body = &mut body[..chunk.len.min(EXTENSIBLE_BYTES)];
            read_exactly(alloc, shelf, name, chunk.from, body)?;
            let sound = sound_of(body)?;
            Ok(Some(sound))
        }
        _ => Ok(found),
    }
}

/// Looks for the sound of a file of so many bytes, chunk by chunk.
fn seek_sound<S: Shelf>(
    alloc: Global,
    shelf: &mut S,
    name: &str,
    file_len: usize,
) -> Result<Head, WavOpen>
    requires small { file_len ≤ 67108864 }
    ensures told { S.told shelf.new ≡ S.told shelf.old }
    ensures exact { (file : List ℕ) → Tells (S.told shelf.old) name.now file → length file ≡ file_len
        → IsAnswer head_seen (spec.head_in file) result }
    ensures of_file { IsOfFile result }
    ensures within { IfOk result (λ head. end_of_sound (head_seen head) ≤ file_len) }
    ensures doubled { IfOk result (λ head. head.mono ≡ true → head.format.channels ≡ 2) }
    ensures given { IfOk result (λ head. S.given shelf.new + 12 ≤ S.given shelf.old + head.from) }
    ensures given_rises { S.given shelf.old ≤ S.given shelf.new }
    ensures failed { result ≡ Err WavOpen.Failed → Rose (S.faults shelf.old name.now) (S.faults shelf.new name.now) }
    ensures asked { (other : List ℕ) → other ≢ name.now → S.asked shelf.new other ≡ S.asked shelf.old other }
    ensures later { (other : List ℕ) → S.faults shelf.old other ≤ S.faults shelf.new other }
    ensures empties_later { (other : List ℕ) → S.empties shelf.old other ≤ S.empties shelf.new other }
{
    let mut found = None;
    let mut at = FIRST_CHUNK;
    while at < file_len {
        let chunk = read_chunk(alloc, shelf, name, at, file_len)?;
        if is_data(chunk.kind) {
            let head = sound_in(found, chunk)?;
            return Ok(head);
        }
        found = read_known(alloc, shelf, name, found, chunk)?;
        at = chunk.end();
    }
    Err(WavOpen::Wav(WavFault::NoData))
}

/// Whether a file of so many bytes begins as a WAV file does.
fn begins_as_wav<S: Shelf>(
    alloc: Global,
    shelf: &mut S,
    name: &str,
    file_len: usize,
) -> Result<bool, WavOpen>
    requires small { file_len ≤ 67108864 }
    ensures told { S.told shelf.new ≡ S.told shelf.old }
    ensures exact { (file : List ℕ) → Tells (S.told shelf.old) name.now file → length file ≡ file_len
        → IsAnswer (λ is. is) (Ok (is_riff_file file)) result }
    ensures of_file { IsOfFile result }
    ensures given { S.given shelf.new ≤ S.given shelf.old + 12 }
    ensures given_rises { S.given shelf.old ≤ S.given shelf.new }
    ensures failed { result ≡ Err WavOpen.Failed → Rose (S.faults shelf.old name.now) (S.faults shelf.new name.now) }
    ensures asked { (other : List ℕ) → other ≢ name.now → S.asked shelf.new other ≡ S.asked shelf.old other }
    ensures later { (other : List ℕ) → S.faults shelf.old other ≤ S.faults shelf.new other }
    ensures empties_later { (other : List ℕ) → S.empties shelf.old other ≤ S.empties shelf.new other }
{
    let mut start = [0; FIRST_CHUNK];
    let start = &mut start[..file_len.min(FIRST_CHUNK)];
    read_exactly(alloc, shelf, name, 0, start)?;
    Ok(is_riff(start))
}

/// Opens the WAV file `name`: measures it and reads what stands before its sound, and no byte of that.
///
/// # Errors
/// `Failed` where the shelf failed, `TooLong` and `Wav` where the file is no good, and `OutOfMemory` where memory is
/// short. A file that got shorter since it was measured is `Truncated` with the place where its end was found.
pub fn open_wav<S: Shelf>(alloc: Global, shelf: &mut S, name: &str) -> Result<WavHead, WavOpen>
    ensures told { S.told shelf.new ≡ S.told shelf.old }

    // Where the shelf tells, the head and the fault are those of the file.
    ensures exact { IfSome (S.told shelf.old) (λ files. IsOpenedBy (file_of files name.now) result) }
    ensures of_file { IsOfFile result }
    ensures short { IfOk result (λ head. head.length ≤ 67108864) }
    ensures within { IfOk result (λ head. head.from + head.frames * frame_length head.mono
        (layout head.format) ≤ head.length) }

    // No byte of the sound is read.
    ensures given { IfOk result (λ head. S.given shelf.new ≤ S.given shelf.old + (head.from + 64)) }
    ensures given_rises { S.given shelf.old ≤ S.given shelf.new }

    ensures failed { result ≡ Err WavOpen.Failed → Rose (S.faults shelf.old name.now) (S.faults shelf.new name.now) }
    ensures asked { (other : List ℕ) → other ≢ name.now → S.asked shelf.new other ≡ S.asked shelf.old other }
    ensures later { (other : List ℕ) → S.faults shelf.old other ≤ S.faults shelf.new other }
    ensures empties_later { (other : List ℕ) → S.empties shelf.old other ≤ S.empties shelf.new other }
{
    let length = file_length(alloc, shelf, name, MOST_WAV_BYTES)?;
    if !begins_as_wav(alloc, shelf, name, length as usize)? {
        return Err(WavOpen::Wav(WavFault::NotRiff));
    }
    let head = seek_sound(alloc, shelf, name, length as usize)?;
    Ok(WavHead {
        format: head.format,
        mono: head.mono,
        frames: head.frames as u64,
        from: head.from as u64,
        length,
    })
}
