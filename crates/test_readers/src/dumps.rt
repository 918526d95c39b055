//! Dumps of codecs as Linux prints them, and the codec files or the fault that come of each.
use codec_dump::import_dump;
use std::alloc::{AllocError, Global};

/// The most bytes of a dump.
const MOST_BYTES: usize = 262_144;

/// All parts of a dump, one after the other.
fn joined(alloc: Global, parts: &[Vec<u8>]) -> Result<Vec<u8>, AllocError> {
    let mut bytes = Vec::new(alloc);
    for part in parts {
        bytes.extend_from_slice(part)?;
    }
    Ok(bytes)
}

/// The codec files of a dump of these parts, or its fault.
pub fn tell(alloc: Global, parts: &[Vec<u8>], is_mended: bool) -> Result<String, AllocError> {
    let bytes = joined(alloc, parts)?;
    if bytes.len() > MOST_BYTES {
        return format!(in alloc; "too long");
    }
    match import_dump(alloc, &bytes, is_mended, "DUMP") {
        Ok(texts) => {
            let mut told = String::new(alloc);
            for text in texts.as_slice() {
                told.push_str("\n")?;
                told.push_str(text.as_str())?;
            }
            Ok(told)
        }
        Err(fault) => format!(in alloc; "{fault}"),
    }
}

/// What comes of a dump of these parts, cut behind each of its lines.
pub fn tell_cuts(alloc: Global, parts: &[Vec<u8>]) -> Result<String, AllocError> {
    let bytes = joined(alloc, parts)?;
    let mut told = String::new(alloc);
    for end in 0..bytes.len() {
        if bytes[end] == b'\n' && end < MOST_BYTES {
            match import_dump(alloc, &bytes[..end + 1], false, "DUMP") {
                Ok(_) => told.push_str("\n  written")?,
                Err(fault) => write!(&mut told, "\n  {fault}")?,
            }
        }
    }
    Ok(told)
}
