//! Cases of the program, from the files in `data`: words and files, each with the status and the text with which the
//! program ends. A case is a line, whose first word says how it is run.
#![tactic(auto)]

mod changing_shelf;
mod cuts;
mod runs;

use hda_outside::{Fault, FileShelf, OutSink};
use std::alloc::{AllocError, Global};
use std::process::ExitCode;
use test_cases::{Cases, run_cases, text_of};

/// The files of cases.
const FILES: [&str; 13] = [
    "parts.txt",
    "routes.txt",
    "keys.txt",
    "lists.txt",
    "walk_refusals.txt",
    "walks.txt",
    "play_refusals.txt",
    "plays.txt",
    "channels.txt",
    "cuts.txt",
    "makes.txt",
    "spdif.txt",
    "captures.txt",
];

/// The ways in which cases are run.
#[derive(Clone, Copy)]
struct Ways;

impl Cases for Ways {
    fn tell(&mut self, alloc: Global, words: &[Vec<u8>]) -> Result<String, AllocError> {
        let [way, rest @ ..] = words else {
            return format!(in alloc; "no way");
        };
        match text_of(way) {
            "run" => runs::tell(alloc, rest),
            "unread" => runs::tell_unread(alloc, rest),
            "unwritten" => runs::tell_unwritten(alloc, rest),
            "fronts" => runs::tell_fronts(alloc, rest),
            "prefixes" => runs::tell_prefixes(alloc, rest),
            "over" => cuts::tell(alloc, rest),
            "calls" => cuts::tell_calls(alloc, rest),
            "files" => runs::tell_files(alloc, rest),
            _ => format!(in alloc; "no way"),
        }
    }
}

fn main(rt: HostRuntime) -> ExitCode {
    let mut shelf = FileShelf::new(&rt);
    let mut out = OutSink::new(&rt);
    match run_cases(rt.alloc(), &mut shelf, &mut out, &FILES, &mut Ways) {
        Ok(()) => ExitCode::from(0),
        Err(Fault::Failed) => ExitCode::from(4),
        Err(Fault::OutOfMemory) => ExitCode::from(12),
    }
}
