//! Pictures of codecs and of runs over the machine's files and its standard output.
#![tactic(auto)]

use draw_program::draw_main;
use hda_outside::{FileShelf, OutSink};
use hda_program::Status;
use std::alloc::Global;
use std::env;
use std::io::{self, ErrorKind};
use std::process::ExitCode;

fn main(rt: HostRuntime) -> ExitCode {
    let mut shelf = FileShelf::new(&rt);
    let mut out = OutSink::new(&rt);
    let ended = match words(&rt) {
        Ok(words) => draw_main(rt.alloc(), words.as_slice(), &mut shelf, &mut out).status,
        Err(error) if error.kind() == ErrorKind::OutOfMemory => Status::OutOfMemory.number(),
        Err(_) => draw_main(rt.alloc(), &[], &mut shelf, &mut out).status,
    };
    ExitCode::from(ended)
}

/// The program's name and the words after it.
///
/// # Errors
/// Want of memory, and words that are not Unicode.
fn words<R: std::rt::Env + AllocGlobal>(rt: &R) -> io::Result<Vec<String>> {
    let mut words = Vec::new(rt.alloc());
    for word in env::args(rt)? {
        words.push(word)?;
    }
    Ok(words)
}
