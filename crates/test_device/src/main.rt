//! Cases of the device and the driver, from the files in `data`, each with what comes of it. A case is a line, whose
//! first word says what is called.
#![tactic(auto)]

mod digital_pins;
mod drivers;
mod engine;
mod formats;
mod liars;
mod recorders;
mod scripted;
mod setups;
mod signals;
mod streams;
mod walks;
mod wide_walks;

use hda_outside::{Fault, FileShelf, OutSink};
use liars::Served;
use std::alloc::{AllocError, Global};
use std::process::ExitCode;
use test_cases::{Cases, run_cases, text_of};

/// The files of cases.
const FILES: [&str; 11] = [
    "codecs.txt",
    "formats.txt",
    "walks.txt",
    "setups.txt",
    "signals.txt",
    "digital.txt",
    "inputs.txt",
    "polls.txt",
    "streams.txt",
    "lies.txt",
    "recorders.txt",
];

/// The calls that cases name.
#[derive(Clone, Copy)]
struct Calls;

impl Cases for Calls {
    fn tell(&mut self, alloc: Global, words: &[Vec<u8>]) -> Result<String, AllocError> {
        let [call, rest @ ..] = words else {
            return format!(in alloc; "no call");
        };
        match text_of(call) {
            "format" => formats::tell(alloc, rest),
            "word" => formats::tell_word(alloc, rest),
            "blocks" => formats::tell_blocks(alloc, rest),
            "walk" => walks::tell(alloc, rest),
            "always" => walks::tell_always(alloc, rest),
            "asked" => walks::tell_asked(alloc, rest),
            "found" => walks::tell_found(alloc, rest),
            "alike" => wide_walks::tell(alloc, rest),
            "setup" => setups::tell(alloc, rest),
            "setter" => setups::tell_setter(alloc, rest),
            "input_setter" => setups::tell_input(alloc, rest),
            "hear" => signals::tell(alloc, rest),
            "kept" => signals::tell_kept(alloc, rest),
            "digital_plan" => digital_pins::tell_plan(alloc, rest),
            "digital_setup" => digital_pins::tell_setup(alloc, rest),
            "hear_digital" => digital_pins::tell_heard(alloc, rest),
            "hear_in" => signals::tell_inward(alloc, rest),
            "taking" => signals::tell_taking(alloc, rest),
            "loud" => signals::tell_loud(alloc, rest),
            "greatest" => signals::tell_greatest(alloc, rest),
            "controls" => signals::tell_controls(alloc, rest),
            "stream" => streams::tell(alloc, rest),
            "start" => engine::tell_start(alloc, rest),
            "open" => engine::tell_open(alloc, rest),
            "driver" => drivers::tell(alloc, rest),
            "lied" => liars::tell(alloc, rest, Served::ByRuns),
            "lied_at_interrupts" => liars::tell(alloc, rest, Served::ByInterrupts),
            "lied_at_the_end" => liars::tell(alloc, rest, Served::UpToTheEnd),
            "record" => recorders::tell(alloc, rest),
            "poll" => engine::tell_poll(alloc, rest),
            "standing" => engine::tell_standing(alloc, rest),
            _ => format!(in alloc; "no call"),
        }
    }
}

fn main(rt: HostRuntime) -> ExitCode {
    let mut shelf = FileShelf::new(&rt);
    let mut out = OutSink::new(&rt);
    match run_cases(rt.alloc(), &mut shelf, &mut out, &FILES, &mut Calls) {
        Ok(()) => ExitCode::from(0),
        Err(Fault::Failed) => ExitCode::from(4),
        Err(Fault::OutOfMemory) => ExitCode::from(12),
    }
}
