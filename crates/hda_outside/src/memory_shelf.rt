ghost use Rattle.std.specs.Prelude.{◌≡◌, ℕ, ◌≤◌, List, length, option_copied, Some, IfOk, IfSome, IsNone, IsSome, IsOk};
ghost use Rattle.std.specs.Prelude.{Contains};
ghost use Rattle.hda_outside.specs.Shelf.{file_of, IsPiece};
ghost use Rattle.hda_outside.specs.MemoryShelf.{plain_files, fault_count, after_planned_read, after_steady_read};

use crate::fault::Fault;
use crate::shelf::{Shelf, empties_after};
use std::alloc::Global;
use std::marker::Model;

/// A shelf in memory whose calls of some numbers fail, for tests. This project's own.
///
/// It tells its files. It has one count of faults for all names that are there and one for all that
/// aren't.
#[derive(Drop)]
pub struct MemShelf {
    files: Vec<(String, Vec<u8>)>,
    fail: Vec<u64>,
    calls: u64,
    faults: u64,
    missing: u64,
    given: u64,
    empties: u64,
}

impl Model for MemShelf {
    ghost use Rattle.hda_outside.specs.MemoryShelf.{plain_files, PlannedShelf};

    ghost Value = { PlannedShelf };

    ghost view = { λ s. record {
      files = plain_files s.files.items;
      fail = s.fail.items;
      calls = s.calls;
      faults = s.faults;
      missing = s.missing;
      given = s.given;
      empties = s.empties;
    } };
}

impl MemShelf {
    /// A shelf of these files by name, of which the first of a name counts. The calls whose numbers,
    /// from 0 on, stand in `fail` fail, and so does each call for a name that isn't there.
    pub fn new(files: Vec<(String, Vec<u8>)>, fail: Vec<u64>) -> Self
        ensures { result ≡ record {
          files = plain_files files.items;
          fail = fail.items;
          calls = 0;
          faults = 0;
          missing = 0;
          given = 0;
          empties = 0;
        } }
    {
        MemShelf {
            files,
            fail,
            calls: 0,
            faults: 0,
            missing: 0,
            given: 0,
            empties: 0,
        }
    }
}

impl Shelf for MemShelf {
    ghost told = { λ s. Some s.files };

    ghost faults = { λ s name. fault_count s.files s.faults s.missing name };

    ghost given = { λ s. s.given };

    ghost asked = { λ _ _. 0 };

    ghost empties = { λ s _. s.empties };

    fn read_at(
        &mut self,
        _alloc: Global,
        name: &str,
        from: u64,
        buf: &mut [u8],
    ) -> Result<usize, Fault>
        ensures bound { IfOk result (λ n. n ≤ length buf.new) }
        ensures piece { IfSome (file_of self.old.files name.now) (λ file.
            IfOk result (λ n. IsPiece file from buf.new n)) }

        // It fails where the name isn't there or the call's number is one of those that fail.
        ensures missing { IsNone (file_of self.old.files name.now) → result ≡ Err Fault.Failed }
        ensures planned { Contains self.old.fail self.old.calls → result ≡ Err Fault.Failed }
        ensures sure { IsSome (file_of self.old.files name.now) →
            ¬ Contains self.old.fail self.old.calls → IsOk result }

        // Exactly this is counted.
        ensures after { self.new ≡ after_planned_read self.old name.now (length buf.old) result }
        ensures given_rises { self.old.given ≤ self.new.given }
        ensures empties_rise { self.old.empties ≤ self.new.empties }
        ensures later { (other : List ℕ) →
            fault_count self.old.files self.old.faults self.old.missing other
            ≤ fault_count self.new.files self.new.faults self.new.missing other }
    {
        let call = self.calls;
        self.calls = self.calls.saturating_add(1);
        let Some(file) = find_file(&self.files, name) else {
            self.missing = self.missing.saturating_add(1);
            return Err(Fault::Failed);
        };
        if self.fail.contains(&call) {
            self.faults = self.faults.saturating_add(1);
            return Err(Fault::Failed);
        }
        let n = copy_piece(file, from, buf);
        self.given = self.given.saturating_add(n as u64);
        self.empties = empties_after(self.empties, buf.len(), n);
        Ok(n)
    }
}

/// A shelf in memory that fails only for names that aren't there. This project's own.
///
/// It tells its files, and its count of faults under a name that is there is always 0.
#[derive(Drop)]
pub struct SureShelf {
    files: Vec<(String, Vec<u8>)>,
    missing: u64,
    given: u64,
    empties: u64,
}

impl Model for SureShelf {
    ghost use Rattle.hda_outside.specs.MemoryShelf.{plain_files, SteadyShelf};

    ghost Value = { SteadyShelf };

    ghost view = { λ s. record {
      files = plain_files s.files.items;
      missing = s.missing;
      given = s.given;
      empties
          = s.empties;
    } };
}

impl SureShelf {
    /// A shelf of these files by name, of which the first of a name counts.
    pub fn new(files: Vec<(String, Vec<u8>)>) -> Self
        ensures { result ≡ record { files = plain_files files.items; missing = 0; given = 0; empties = 0 } }
    {
        SureShelf {
            files,
            missing: 0,
            given: 0,
            empties: 0,
        }
    }
}

impl Shelf for SureShelf {
    ghost told = { λ s. Some s.files };

    ghost faults = { λ s name. fault_count s.files 0 s.missing name };

    ghost given = { λ s. s.given };

    ghost asked = { λ _ _. 0 };

    ghost empties = { λ s _. s.empties };

    fn read_at(
        &mut self,
        _alloc: Global,
        name: &str,
        from: u64,
        buf: &mut [u8],
    ) -> Result<usize, Fault>
        ensures bound { IfOk result (λ n. n ≤ length buf.new) }
        ensures piece { IfSome (file_of self.old.files name.now) (λ file.
            IfOk result (λ n. IsPiece file from buf.new n)) }

        // It fails only where the name isn't there.
        ensures missing { IsNone (file_of self.old.files name.now) → result ≡ Err Fault.Failed }
        ensures sure { IsSome (file_of self.old.files name.now) → IsOk result }

        // Exactly this is counted.
        ensures after { self.new ≡ after_steady_read self.old (length buf.old) result }
        ensures given_rises { self.old.given ≤ self.new.given }
        ensures empties_rise { self.old.empties ≤ self.new.empties }
        ensures later { self.old.missing ≤ self.new.missing }
    {
        let Some(file) = find_file(&self.files, name) else {
            self.missing = self.missing.saturating_add(1);
            return Err(Fault::Failed);
        };
        let n = copy_piece(file, from, buf);
        self.given = self.given.saturating_add(n as u64);
        self.empties = empties_after(self.empties, buf.len(), n);
        Ok(n)
    }
}

fn find_file<'a>(files: &'a [(String, Vec<u8>)], name: &str) -> Option<&'a [u8]>
    ensures { option_copied result ≡ file_of (plain_files files.now) name.now }
{
    for (file_name, bytes) in files {
        if file_name.as_str() == name {
            return Some(bytes.as_slice());
        }
    }
    None
}

fn copy_piece(file: &[u8], from: u64, buf: &mut [u8]) -> usize
    ensures bound { result ≤ length buf.new }
    ensures piece { IsPiece file.now from buf.new result }
{
    let start = from.min(file.len() as u64) as usize;
    let rest = &file[start..];
    let n = rest.len().min(buf.len());
    buf[..n].copy_from_slice(&rest[..n]);
    n
}
