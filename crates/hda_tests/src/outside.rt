//! Shelves and sinks: those in memory, those of the machine, and two that keep account of what they are asked.
ghost use Rattle.std.specs.Prelude.{◌≡◌, ◌≢◌, ℕ, List, None, bytes_eq, if◌then◌else◌};

use hda_outside::{
    Fault, FileShelf, MemShelf, MemSink, ReadAll, Shelf, Sink, SureShelf, SureSink, read_all,
    write_all,
};
use std::alloc::{AllocError, Global};
use std::fs;
use std::test::Fail;

// The second file named `short` is never reached.
fn files(alloc: Global) -> Result<Vec<(String, Vec<u8>)>, AllocError> {
    let mut files = Vec::new(alloc);
    for (name, text) in [("empty", ""), ("short", "first"), ("short", "second")] {
        let bytes = text.as_bytes().to_vec(alloc)?;
        files.push((String::from_str(alloc, name)?, bytes))?;
    }
    let long = vec![in alloc; 7; 70_000]?;
    files.push((String::from_str(alloc, "long")?, long))?;
    Ok(files)
}

// The length of what was read, or why it wasn't.
fn outcome(answer: &Result<Vec<u8>, ReadAll>) -> Result<usize, ReadAll> {
    match answer {
        Ok(bytes) => Ok(bytes.len()),
        Err(error) => Err(*error),
    }
}

#[test]
fn reads_whole_files(rt: HostRuntime) -> Result<(), Fail> {
    let alloc = rt.alloc();
    let mut planned = MemShelf::new(files(alloc)?, Vec::new(alloc));
    let mut sure = SureShelf::new(files(alloc)?);
    let table = [
        ("empty", 0, Ok(0)),
        ("short", 5, Ok(5)),
        ("short", 4, Err(ReadAll::TooLong)),
        ("gone", 9, Err(ReadAll::Failed)),
        ("long", 70_000, Ok(70_000)),
        ("long", 69_999, Err(ReadAll::TooLong)),
        ("long", u64::MAX, Ok(70_000)),
    ];
    for (name, most, want) in table {
        let got = read_all(alloc, &mut planned, name, most);
        assert!(rt; outcome(&got) == want);
        let got = read_all(alloc, &mut sure, name, most);
        assert!(rt; outcome(&got) == want);
    }
    let got = read_all(alloc, &mut sure, "short", 9)?;
    assert!(rt; got.as_slice() == b"first".as_slice());
    Ok(())
}

#[test]
fn fails_planned_calls(rt: HostRuntime) -> Result<(), Fail> {
    let alloc = rt.alloc();
    let mut shelf = MemShelf::new(files(alloc)?, [1, 3].to_vec(alloc)?);
    let mut buf = [0u8; 4];
    let table = [
        ("short", 0, Ok(4)),
        ("short", 4, Err(Fault::Failed)),
        ("short", 4, Ok(1)),
        ("short", 4, Err(Fault::Failed)),
        ("gone", 0, Err(Fault::Failed)),
        ("short", 5, Ok(0)),
        ("short", u64::MAX, Ok(0)),
    ];
    for (name, from, want) in table {
        assert!(rt; shelf.read_at(alloc, name, from, &mut buf) == want);
    }
    Ok(())
}

#[test]
fn writes_all_bytes(rt: HostRuntime) -> Result<(), Fail> {
    let alloc = rt.alloc();
    let mut sure = SureSink::new(alloc);
    assert!(rt; write_all(alloc, &mut sure, b"whole") == Ok(()));
    assert!(rt; sure.write(alloc, b"!") == Ok(1));
    assert!(rt; sure.bytes() == b"whole!".as_slice());

    let mut planned = MemSink::new(alloc, 3, [2].to_vec(alloc)?);
    assert!(rt; write_all(alloc, &mut planned, b"12345678") == Err(Fault::Failed));
    assert!(rt; planned.bytes() == b"123456".as_slice());
    assert!(rt; write_all(alloc, &mut planned, b"78") == Ok(()));
    assert!(rt; planned.bytes() == b"12345678".as_slice());
    Ok(())
}

/// A sink that takes everything and keeps account of the pieces that it was given.
#[derive(Drop)]
struct PieceSink {
    longest: usize,
    pieces: u64,
}

impl Sink for PieceSink {
    ghost taken = { λ _. None };

    ghost faults = { λ _. 0 };

    ghost longest = { λ sink. sink.longest };

    fn write(&mut self, _alloc: Global, bytes: &[u8]) -> Result<usize, Fault> {
        self.longest = self.longest.max(bytes.len());
        self.pieces = self.pieces.saturating_add(1);
        Ok(bytes.len())
    }
}

#[test]
fn writes_pieces(rt: HostRuntime) -> Result<(), Fail> {
    let alloc = rt.alloc();
    let mut sink = PieceSink {
        longest: 0,
        pieces: 0,
    };
    let bytes = vec![in alloc; 3; 10_000]?;
    assert!(rt; write_all(alloc, &mut sink, &bytes) == Ok(()));
    assert!(rt; sink.longest == 4_096);
    assert!(rt; sink.pieces == 3);
    Ok(())
}

/// A shelf that has one file of so many zeroes under every name. It notes the names under which it is asked, and counts
/// how often that is its own.
#[derive(Drop)]
struct NameShelf {
    own: &'static str,
    times: u64,
    left: usize,
    given: u64,
    empties: u64,
    names: String,
}

/// How often a shelf was asked under its own name, once it is asked under this one.
#[tactic(auto, using(crate::proofs::NameLemmas::name_tells))]
fn times_with(own: &str, times: u64, name: &str) -> u64
    ensures asked { (other : List ℕ) → other ≢ name.now →
        (if bytes_eq own.now other then result else 0) ≡ (if bytes_eq own.now other then times else 0) }
{
    if own == name {
        return times.saturating_add(1);
    }
    times
}

impl Shelf for NameShelf {
    ghost told = { λ _. None };

    ghost faults = { λ _ _. 0 };

    ghost given = { λ shelf. shelf.given };

    ghost asked = { λ shelf name. if bytes_eq shelf.own.now name then shelf.times else 0 };

    ghost empties = { λ shelf _. shelf.empties };

    fn read_at(
        &mut self,
        _alloc: Global,
        name: &str,
        _from: u64,
        buf: &mut [u8],
    ) -> Result<usize, Fault> {
        self.times = times_with(self.own, self.times, name);
        self.names.push_str(name)?;
        self.names.push_str(";")?;
        let n = buf.len().min(self.left);
        self.left -= n;
        self.given = self.given.saturating_add(n as u64);
        if n == 0 && !buf.is_empty() {
            self.empties = self.empties.saturating_add(1);
        }
        Ok(n)
    }
}

#[test]
fn asks_under_one_name(rt: HostRuntime) -> Result<(), Fail> {
    let alloc = rt.alloc();
    let mut shelf = NameShelf {
        own: "asked",
        times: 0,
        left: 70_000,
        given: 0,
        empties: 0,
        names: String::new(alloc),
    };
    let got = read_all(alloc, &mut shelf, "asked", 100_000);
    assert!(rt; outcome(&got) == Ok(70_000));
    assert!(rt; shelf.given == 70_000);
    assert!(rt; shelf.times == 3);
    let got = read_all(alloc, &mut shelf, "other", 100_000);
    assert!(rt; outcome(&got) == Ok(0));
    assert!(rt; shelf.times == 3);
    assert!(rt; shelf.names.as_str() == "asked;asked;asked;other;");
    Ok(())
}

#[test]
fn reads_files_of_the_machine(rt: HostRuntime) -> Result<(), Fail> {
    let alloc = rt.alloc();
    let path = "reads_files_of_the_machine";
    fs::write(&rt, path, "written")?;
    let mut shelf = FileShelf::new(&rt);
    let table = [
        (path, 7, Ok(7)),
        (path, 6, Err(ReadAll::TooLong)),
        (".", 7, Err(ReadAll::Failed)),
        ("is_not_there", 7, Err(ReadAll::Failed)),
    ];
    for (name, most, want) in table {
        let got = read_all(alloc, &mut shelf, name, most);
        assert!(rt; outcome(&got) == want);
    }
    fs::remove_file(&rt, path)?;
    Ok(())
}

// Pieces from within a page, over its edge, at the file's end and past it, of two files in turns.
#[test]
fn reads_a_file_of_the_machine_in_pieces(rt: HostRuntime) -> Result<(), Fail> {
    let alloc = rt.alloc();
    let (path, other) = ("reads_a_file_in_pieces", "reads_another_in_pieces");
    let mut bytes = Vec::new(alloc);
    for at in 0..70_001u32 {
        bytes.push((at % 251) as u8)?;
    }
    fs::write(&rt, path, bytes.as_slice())?;
    fs::write(&rt, other, [0xAA].as_slice())?;
    let mut shelf = FileShelf::new(&rt);
    let mut buf = [0u8; 100];
    let table = [
        (path, 0, true),
        (path, 100, true),
        (other, 0, true),
        (path, 65_500, true),
        (path, 50, true),
        (path, 65_500, true),
        (path, 65_536, true),
        (path, 70_000, true),
        (path, 70_001, false),
        (path, 70_002, false),
        (other, 1, false),
        (path, 0, true),
    ];
    for (name, from, want) in table {
        let n = shelf.read_at(alloc, name, from, &mut buf)?;
        assert!(rt; (n > 0) == want);
        for (place, byte) in buf.iter().enumerate() {
            let at = from.saturating_add(place as u64);
            let written = if name == path { (at % 251) as u8 } else { 0xAA };
            assert!(rt; place >= n || *byte == written);
        }
    }
    fs::remove_file(&rt, path)?;
    fs::remove_file(&rt, other)?;
    Ok(())
}
