//! Cases of the writer of the ring and of the recorder, from the files in `data`, each with what comes of it: plays and
//! recordings over a platform that answers from a list, so that its clocks and positions may be right or lie. A case is
//! a line, whose first word says what is called.
#![tactic(auto)]

mod plays;
mod records;
mod rings;
mod scripts;

use hda_outside::{Fault, FileShelf, OutSink};
use std::alloc::{AllocError, Global};
use std::process::ExitCode;
use test_cases::{Cases, run_cases, text_of};

/// The files of cases.
const FILES: [&str; 5] = [
    "rings.txt",
    "plays.txt",
    "taken_back.txt",
    "accesses.txt",
    "records.txt",
];

/// The calls that cases name.
#[derive(Clone, Copy)]
struct Calls;

impl Cases for Calls {
    fn tell(&mut self, alloc: Global, words: &[Vec<u8>]) -> Result<String, AllocError> {
        let [call, rest @ ..] = words else {
            return format!(in alloc; "no call");
        };
        match text_of(call) {
            "shape" => rings::tell_shape(alloc, rest),
            "free" => rings::tell_free(alloc, rest),
            "play" => plays::tell(alloc, rest),
            "last" => plays::tell_last(alloc, rest),
            "accesses" => plays::tell_accesses(alloc, rest),
            "record" => records::tell(alloc, rest),
            _ => format!(in alloc; "no call"),
        }
    }
}

fn main(rt: HostRuntime) -> ExitCode {
    let mut shelf = FileShelf::new(&rt);
    let mut out = OutSink::new(&rt);
    match run_cases(rt.alloc(), &mut shelf, &mut out, &FILES, &mut Calls) {
        Ok(()) => ExitCode::from(0),
        Err(Fault::Failed) => ExitCode::from(4),
        Err(Fault::OutOfMemory) => ExitCode::from(12),
    }
}
