//! The cases of a file, one after the other.
use crate::names::Names;
use crate::words::words_of;
use hda_outside::{Fault, ReadAll, Shelf, Sink, read_all, write_all};
use std::alloc::{AllocError, Global};

/// The most bytes of a file of cases.
const MOST_BYTES: u64 = 1_048_576;

/// What is done with cases.
pub trait Cases {
    /// What comes of the case with these words.
    ///
    /// # Errors
    /// Want of memory.
    fn tell(&mut self, alloc: Global, words: &[Vec<u8>]) -> Result<String, AllocError>;
}

/// A fault of reading as one of writing.
fn fault_of(fault: ReadAll) -> Fault {
    match fault {
        ReadAll::Failed | ReadAll::TooLong => Fault::Failed,
        ReadAll::OutOfMemory => Fault::OutOfMemory,
    }
}

/// The words of a line, where it is a case. Of one that gives a name the name is noted.
///
/// # Errors
/// The shelf's fault.
fn case_of<S: Shelf>(
    alloc: Global,
    shelf: &mut S,
    names: &mut Names,
    line: &str,
) -> Result<Option<Vec<Vec<u8>>>, ReadAll> {
    if line.is_empty() || line.starts_with('#') {
        return Ok(None);
    }
    let words = words_of(alloc, line)?;
    if let [name, sign, rest @ ..] = words.as_slice() {
        if sign.bytes.as_slice() == b"=".as_slice() {
            let bytes = names.meant_by(alloc, shelf, rest)?;
            names.add(alloc, &name.bytes, &bytes)?;
            return Ok(None);
        }
    }
    Ok(Some(names.meant_by(alloc, shelf, &words)?))
}

/// Writes each case of some files, and behind it what comes of it. Names hold from their line on, also in later files.
///
/// # Errors
/// A fault of the shelf or of the sink, and want of memory.
pub fn run_cases<S: Shelf, K: Sink, C: Cases>(
    alloc: Global,
    shelf: &mut S,
    out: &mut K,
    files: &[&str],
    cases: &mut C,
) -> Result<(), Fault> {
    let mut names = Names::new(alloc);
    for file in files {
        let bytes = read_all(alloc, shelf, file, MOST_BYTES).map_err(fault_of)?;
        let text = String::from_utf8_lossy(alloc, &bytes)?;
        for line in text.lines() {
            if let Some(words) = case_of(alloc, shelf, &mut names, line).map_err(fault_of)? {
                let told = cases.tell(alloc, &words)?;
                let gap = if told.starts_with('\n') { "" } else { " " };
                let text = format!(in alloc; "{line} ->{gap}{told}\n")?;
                write_all(alloc, out, text.as_bytes())?;
            }
        }
    }
    Ok(())
}
