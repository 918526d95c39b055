//! The program over the machine's files and its standard output.
#![tactic(auto)]

ghost use Rattle.std.specs.Prelude.{◌≡◌, ◌≤◌, None};
ghost use Rattle.hda_outside.specs.Counts.{counted};

use codec_dump::{ImportStatus, Outlet, import_main};
use hda_outside::{Fault, FileShelf, OutSink};
use std::alloc::Global;
use std::env;
use std::fs::File;
use std::io::{self, ErrorKind, Write};
use std::marker::Model;
use std::process::ExitCode;
use std::rt::Files;

/// New files of the machine, by path. Nothing is told of them.
#[derive(Drop)]
struct FileOutlet<R> {
    files: R,
    faults: u64,
}

impl<R> Model for FileOutlet<R> {
    ghost use Rattle.std.specs.Prelude.{ℕ};

    ghost Value = { ℕ };

    ghost view = { λ s. s.faults };
}

/// Writes a new file.
///
/// # Errors
/// A file of that name is there already, or none can be written.
fn create_new<R: Files>(files: &R, name: &str, bytes: &[u8]) -> io::Result<()> {
    let mut file = File::create_new(files, name)?;
    file.write_all(bytes)
}

impl<R: Files> Outlet for FileOutlet<R> {
    ghost written = { λ _. None };

    ghost faults = { λ s. s };

    fn write_new(&mut self, _alloc: Global, name: &str, bytes: &[u8]) -> Result<(), Fault>
        ensures later { self.old ≤ self.new }
        ensures failed { result ≡ Err Fault.Failed → self.new ≡ counted self.old }
    {
        match create_new(&self.files, name, bytes) {
            Ok(()) => Ok(()),
            Err(error) if error.kind() == ErrorKind::OutOfMemory => Err(Fault::OutOfMemory),
            Err(_) => {
                self.faults = self.faults.saturating_add(1);
                Err(Fault::Failed)
            }
        }
    }
}

fn main(rt: HostRuntime) -> ExitCode {
    let mut shelf = FileShelf::new(&rt);
    let mut outlet = FileOutlet {
        files: &rt,
        faults: 0,
    };
    let mut out = OutSink::new(&rt);
    let alloc = rt.alloc();
    let ended = match words(&rt) {
        Ok(words) => import_main(alloc, words.as_slice(), &mut shelf, &mut outlet, &mut out),
        Err(error) if error.kind() == ErrorKind::OutOfMemory => ImportStatus::OutOfMemory.number(),
        Err(_) => import_main(alloc, &[], &mut shelf, &mut outlet, &mut out),
    };
    ExitCode::from(ended)
}

/// The words after the program's name.
///
/// # Errors
/// Want of memory, and words that are not Unicode.
fn words<R: std::rt::Env + AllocGlobal>(rt: &R) -> io::Result<Vec<String>> {
    let mut words = Vec::new(rt.alloc());
    for word in env::args(rt)?.skip(1) {
        words.push(word)?;
    }
    Ok(words)
}
