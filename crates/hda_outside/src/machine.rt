ghost use Rattle.std.specs.Prelude.{◌≡◌, ◌≢◌, ◌<◌, ◌≤◌, length, IfOk, None};
ghost use Rattle.hda_outside.specs.Counts.{counted};
ghost use Rattle.hda_outside.specs.Machine.{after_machine_read};

use crate::fault::Fault;
use crate::shelf::{Shelf, empties_after};
use crate::sink::Sink;
use std::alloc::Global;
use std::io;
use std::io::{ErrorKind, Read, Seek, SeekFrom};
use std::marker::Model;
use std::rt::Files;

/// The length of a page in bytes.
const PAGE_BYTES: usize = 65_536;

/// Bytes of the file `name` from a place on, as they were read last.
#[derive(Drop)]
struct Page {
    name: String,
    from: u64,
    bytes: Vec<u8>,
}

/// The machine's files, by path. This project's own.
///
/// Nothing is told of them. It has one count of faults for all names, and what is no file that can be
/// read fails. Nothing is proved of what a file holds.
///
/// Where fewer are asked for it reads a page of 65,536 bytes, keeps it until it reads another, and gives its bytes
/// as the file's. So a change of the file within the page is not noticed.
#[derive(Drop)]
pub struct FileShelf<R> {
    files: R,
    page: Option<Page>,
    faults: u64,
    given: u64,
    empties: u64,
}

impl<R> Model for FileShelf<R> {
    ghost use Rattle.hda_outside.specs.Machine.{MachineShelf};

    ghost Value = { MachineShelf };

    ghost view = { λ s. record { faults = s.faults; given = s.given; empties = s.empties } };
}

impl<R> FileShelf<R> {
    /// The files that `files` reaches, as those of a runtime or of a reference to one.
    pub fn new(files: R) -> Self
        ensures { result ≡ record { faults = 0; given = 0; empties = 0 } }
    {
        FileShelf {
            files,
            page: None,
            faults: 0,
            given: 0,
            empties: 0,
        }
    }
}

impl<R: Files> Shelf for FileShelf<R> {
    ghost told = { λ _. None };

    ghost faults = { λ s _. s.faults };

    ghost given = { λ s. s.given };

    ghost asked = { λ _ _. 0 };

    ghost empties = { λ s _. s.empties };

    fn read_at(
        &mut self,
        alloc: Global,
        name: &str,
        from: u64,
        buf: &mut [u8],
    ) -> Result<usize, Fault>
        ensures bound { IfOk result (λ n. n ≤ length buf.new) }

        // Exactly this is counted.
        ensures after { self.new ≡ after_machine_read self.old (length buf.old) result }
        ensures given_rises { self.old.given ≤ self.new.given }
        ensures empties_rise { self.old.empties ≤ self.new.empties }
        ensures later { self.old.faults ≤ self.new.faults }
    {
        match read_some(alloc, &self.files, &mut self.page, name, from, buf) {
            Ok(n) => {
                self.given = self.given.saturating_add(n as u64);
                self.empties = empties_after(self.empties, buf.len(), n);
                Ok(n)
            }
            Err(error) => Err(fault_of(&error, &mut self.faults)),
        }
    }
}

/// Standard output. This project's own.
///
/// Nothing is told of what it took. Each write goes out at once, so that a full disk is noticed by the
/// call that meets it.
#[derive(Drop)]
pub struct OutSink<R> {
    out: R,
    faults: u64,
}

impl<R> Model for OutSink<R> {
    ghost use Rattle.std.specs.Prelude.{ℕ};

    ghost Value = { ℕ };

    ghost view = { λ s. s.faults };
}

impl<R> OutSink<R> {
    /// The standard output of `out`, as of a runtime or of a reference to one.
    pub fn new(out: R) -> Self
        ensures { result ≡ 0 }
    {
        OutSink { out, faults: 0 }
    }
}

impl<R: Print> Sink for OutSink<R> {
    ghost taken = { λ _. None };

    ghost faults = { λ s. s };

    ghost longest = { λ _. 0 };

    fn write(&mut self, _alloc: Global, bytes: &[u8]) -> Result<usize, Fault>
        ensures bound { IfOk result (λ n. n ≤ length bytes.now) }
        ensures some { 0 < length bytes.now → IfOk result (λ n. 0 < n) }

        // Exactly its failures are counted.
        ensures failed { result ≡ Err Fault.Failed → self.new ≡ counted self.old }
        ensures not_failed { result ≢ Err Fault.Failed → self.new ≡ self.old }
        ensures later { self.old ≤ self.new }
    {
        match self.out.write_some(bytes) {
            Ok(0) if !bytes.is_empty() => {
                self.faults = self.faults.saturating_add(1);
                Err(Fault::Failed)
            }
            Ok(n) => Ok(n),
            Err(error) => Err(fault_of(&error, &mut self.faults)),
        }
    }
}

/// The next bytes of the file from a place on: those of the page, if it has some, and else the file's.
fn read_some<R: Files>(
    alloc: Global,
    files: &R,
    page: &mut Option<Page>,
    name: &str,
    from: u64,
    buf: &mut [u8],
) -> io::Result<usize>
    ensures { IfOk result (λ n. n ≤ length buf.new) }
{
    if let Some(last) = page.as_ref() {
        let n = copy_from(last, name, from, buf);
        if n > 0 {
            return Ok(n);
        }
    }
    if buf.len() >= PAGE_BYTES {
        return read_piece(files, name, from, buf);
    }
    let read = read_page(alloc, files, name, from)?;
    let n = copy_from(&read, name, from, buf);
    *page = Some(read);
    Ok(n)
}

/// Copies the bytes of a page that stand at a place of the file, as many as there are and `buf` takes.
fn copy_from(page: &Page, name: &str, from: u64, buf: &mut [u8]) -> usize
    ensures { result ≤ length buf.new }
{
    if page.name.as_str() != name || from < page.from {
        return 0;
    }
    let at = from - page.from;
    if at >= page.bytes.len() as u64 {
        return 0;
    }
    let rest = &page.bytes.as_slice()[at as usize..];
    let n = rest.len().min(buf.len());
    buf[..n].copy_from_slice(&rest[..n]);
    n
}

/// Reads a page of the file from a place on.
fn read_page<R: Files>(alloc: Global, files: &R, name: &str, from: u64) -> io::Result<Page> {
    let mut bytes = Vec::new(alloc);
    bytes.resize(PAGE_BYTES, 0)?;
    let n = read_piece(files, name, from, bytes.as_mut_slice())?;
    bytes.truncate(n);
    let mut owned = String::new(alloc);
    owned.push_str(name)?;
    Ok(Page {
        name: owned,
        from,
        bytes,
    })
}

/// Reads a piece of the file from a place on, in one call of the system.
fn read_piece<R: Files>(files: &R, name: &str, from: u64, buf: &mut [u8]) -> io::Result<usize>
    ensures { IfOk result (λ n. n ≤ length buf.new) }
{
    let mut file = std::fs::open(files, name)?;
    file.seek(SeekFrom::Start(from))?;
    file.read(buf)
}

fn fault_of(error: &io::Error, faults: &mut u64) -> Fault
    ensures failed { result ≡ Fault.Failed → faults.new ≡ counted faults.old }
    ensures not_failed { result ≢ Fault.Failed → faults.new ≡ faults.old }
    ensures later { faults.old ≤ faults.new }
{
    if error.kind() == ErrorKind::OutOfMemory {
        return Fault::OutOfMemory;
    }
    *faults = faults.saturating_add(1);
    Fault::Failed
}
