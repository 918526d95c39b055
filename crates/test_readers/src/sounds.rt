//! WAV files, read whole, opened on a shelf and written, and how long files are.
use crate::plans::format_named;
use hda_outside::{ReadAll, SureShelf, file_length};
use std::alloc::{AllocError, Global};
use std::fmt::Write;
use stream_format::Format;
use test_cases::number_of;
use wav_reader::{Wav, WavFault, WavHead, WavOpen, open_wav, read_wav};
use wav_writer::{MOST_RING_BYTES, wav_file};

/// The name of the one file on a shelf.
const NAME: &str = "file";

/// A shelf with one file.
fn shelf_of(alloc: Global, bytes: &[u8]) -> Result<SureShelf, AllocError> {
    let mut files = Vec::new(alloc);
    let name = String::from_str(alloc, NAME)?;
    files.push((name, Vec::from_slice(alloc, bytes)?))?;
    Ok(SureShelf::new(files))
}

/// Puts a format, whether its channels are of one that is doubled, and how many frames there are.
fn push_format(
    text: &mut String,
    format: &Format,
    mono: bool,
    frames: u64,
) -> Result<(), AllocError> {
    let source = if mono { " of one" } else { "" };
    write!(
        text,
        "{:?} {:?} {} channels{source}, {frames} frames",
        format.rate, format.bits, format.channels
    )
}

/// Puts bytes, in hexadecimal digits.
fn push_bytes(text: &mut String, bytes: &[u8]) -> Result<(), AllocError> {
    for byte in bytes {
        write!(text, "{byte:02x}")?;
    }
    Ok(())
}

/// Puts what was read of a file: its format, its frames, and the bytes for the ring.
fn push_read(text: &mut String, read: &Result<Wav, WavFault>) -> Result<(), AllocError> {
    match read {
        Ok(wav) => {
            push_format(text, &wav.format, wav.mono, wav.frames)?;
            text.push(' ')?;
            push_bytes(text, wav.pcm.as_slice())
        }
        Err(fault) => write!(text, "{fault:?}"),
    }
}

/// Puts what opening a file gave: its format, its frames, where they begin, and its length.
fn push_opened(text: &mut String, opened: &Result<WavHead, WavOpen>) -> Result<(), AllocError> {
    match opened {
        Ok(head) => {
            push_format(text, &head.format, head.mono, head.frames)?;
            write!(text, " from {} of {}", head.from, head.length)
        }
        Err(WavOpen::Wav(fault)) => write!(text, "{fault:?}"),
        Err(fault) => write!(text, "{fault:?}"),
    }
}

/// What a file means as it is read whole, and as it is opened.
fn file_text(alloc: Global, bytes: &[u8]) -> Result<String, AllocError> {
    let mut text = String::new(alloc);
    push_read(&mut text, &read_wav(alloc, bytes))?;
    text.push_str("; opened ")?;
    let mut shelf = shelf_of(alloc, bytes)?;
    push_opened(&mut text, &open_wav(alloc, &mut shelf, NAME))?;
    Ok(text)
}

/// A file of these parts.
pub fn tell(alloc: Global, words: &[Vec<u8>]) -> Result<String, AllocError> {
    let mut bytes = Vec::new(alloc);
    for part in words {
        bytes.extend_from_slice(part)?;
    }
    file_text(alloc, &bytes)
}

/// A file some of whose bytes are others, from a place on.
pub fn tell_changed(alloc: Global, words: &[Vec<u8>]) -> Result<String, AllocError> {
    let [file, place, change] = words else {
        return format!(in alloc; "no file");
    };
    let place = number_of(place) as usize;
    let mut bytes = file.clone()?;
    for (index, byte) in change.iter().enumerate() {
        if let Some(old) = bytes.get_mut(place.saturating_add(index)) {
            *old = *byte;
        }
    }
    file_text(alloc, &bytes)
}

/// The first so many bytes of a file.
pub fn tell_front(alloc: Global, words: &[Vec<u8>]) -> Result<String, AllocError> {
    let [file, len] = words else {
        return format!(in alloc; "no file");
    };
    match file.get(..number_of(len) as usize) {
        Some(front) => file_text(alloc, front),
        None => format!(in alloc; "no front"),
    }
}

/// The file of the blocks of a ring, for a format.
pub fn tell_written(alloc: Global, words: &[Vec<u8>]) -> Result<String, AllocError> {
    let [rate, channels, bits, ring] = words else {
        return format!(in alloc; "no blocks");
    };
    let format = format_named(rate, channels, bits);
    let size = format.block_bytes() as usize;
    if ring.len() % size != 0 || ring.len() > MOST_RING_BYTES as usize {
        return format!(in alloc; "no whole blocks");
    }
    let mut text = String::new(alloc);
    push_bytes(&mut text, &wav_file(alloc, format, ring)?)?;
    Ok(text)
}

/// The length of a file of so many bytes where at most so many are asked for, and of one that is not there.
pub fn tell_length(alloc: Global, words: &[Vec<u8>]) -> Result<String, AllocError> {
    let [len, most] = words else {
        return format!(in alloc; "no length");
    };
    let most = if most.as_slice() == b"any".as_slice() {
        u64::MAX
    } else {
        u64::from(number_of(most))
    };
    let bytes = vec![in alloc; 7; number_of(len) as usize]?;
    let mut shelf = shelf_of(alloc, &bytes)?;
    let there: Result<u64, ReadAll> = file_length(alloc, &mut shelf, NAME, most);
    let gone: Result<u64, ReadAll> = file_length(alloc, &mut shelf, "gone", most);
    format!(in alloc; "{there:?}, {gone:?}")
}
