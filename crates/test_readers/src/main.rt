//! Cases of the readers, also of dumps of Linux, of the planner and of what these stand on, from the files in `data`,
//! each with what comes of it. A case is a line, whose first word says what is called.
#![tactic(auto)]

mod codec_files;
mod command_words;
mod dumps;
mod graphs;
mod lists;
mod plans;
mod schedules;
mod sounds;
mod verbs;

use hda_outside::{Fault, FileShelf, OutSink};
use std::alloc::{AllocError, Global};
use std::process::ExitCode;
use test_cases::{Cases, run_cases, text_of};

/// The files of cases.
const FILES: [&str; 9] = [
    "words.txt",
    "schedules.txt",
    "sounds.txt",
    "codec_files.txt",
    "graphs.txt",
    "inputs.txt",
    "verbs.txt",
    "dumps.txt",
    "bad_dumps.txt",
];

/// The calls that cases name.
#[derive(Clone, Copy)]
struct Calls;

impl Cases for Calls {
    fn tell(&mut self, alloc: Global, words: &[Vec<u8>]) -> Result<String, AllocError> {
        let [call, rest @ ..] = words else {
            return format!(in alloc; "no call");
        };
        match text_of(call) {
            "words" => command_words::tell(alloc, rest),
            "schedule" => schedules::tell(alloc, rest),
            "wav" => sounds::tell(alloc, rest),
            "changed" => sounds::tell_changed(alloc, rest),
            "front" => sounds::tell_front(alloc, rest),
            "length" => sounds::tell_length(alloc, rest),
            "write" => sounds::tell_written(alloc, rest),
            "machine" => codec_files::tell(alloc, rest),
            "ask" => graphs::tell(alloc, rest),
            "plan" => plans::tell(alloc, rest),
            "input" => plans::tell_input(alloc, rest),
            "decode" => verbs::tell_decoded(alloc, rest),
            "setting" => verbs::tell_setting(alloc, rest),
            "side" => verbs::tell_side(alloc, rest),
            "parameter" => verbs::tell_parameter(alloc, rest),
            "flags" => verbs::tell_flags(alloc, rest),
            "expand" => lists::tell_expanded(alloc, rest),
            "import" => dumps::tell(alloc, rest, false),
            "mend" => dumps::tell(alloc, rest, true),
            "cuts" => dumps::tell_cuts(alloc, rest),
            _ => format!(in alloc; "no call"),
        }
    }
}

fn main(rt: HostRuntime) -> ExitCode {
    let mut shelf = FileShelf::new(&rt);
    let mut out = OutSink::new(&rt);
    match run_cases(rt.alloc(), &mut shelf, &mut out, &FILES, &mut Calls) {
        Ok(()) => ExitCode::from(0),
        Err(Fault::Failed) => ExitCode::from(4),
        Err(Fault::OutOfMemory) => ExitCode::from(12),
    }
}
