//! The entries of connection lists, and what can be wrong with one.
ghost use Rattle.std.specs.Prelude.{◌≡◌, ◌≤◌, ◌<◌, ◌+◌, None};
ghost use Rattle.verb_codes.specs.Lists as spec;

use std::alloc::AllocError;
use std::fmt;

/// What the first faulty entry of a connection list has wrong; of several the first of these. This project's own.
#[derive(Clone, Copy, Debug, PartialEq, Eq)]
pub enum ListFault {
    /// The node identifier is 0.
    Zero,
    /// The node identifier is above 7Fh.
    Beyond,
    /// The entry is a range and the first one, so that no entry begins it.
    FirstIsRange,
    /// The entry and the one before it are ranges.
    RangeAfterRange,
    /// The entry is a range whose node identifier is not above that of the entry before it.
    RangeBackward,
}

impl fmt::Display for ListFault {
    ghost use Rattle.std.specs.Prelude.{Some};
    ghost use Rattle.verb_codes.specs.FaultText.{list_fault_text};

    ghost output = { λ fault. Some (list_fault_text fault) };

    fn fmt<W: fmt::Write>(&self, f: &mut fmt::Formatter<W>) -> fmt::Result {
        f.write_str(match self {
            ListFault::Zero => "Zero",
            ListFault::Beyond => "Beyond",
            ListFault::FirstIsRange => "FirstIsRange",
            ListFault::RangeAfterRange => "RangeAfterRange",
            ListFault::RangeBackward => "RangeBackward",
        })
    }
}

impl std::error::Error for ListFault {}

/// Why a connection list has no expansion.
#[derive(Clone, Copy, Debug, PartialEq, Eq)]
pub enum ListError {
    /// An entry is faulty.
    Fault(ListFault),
    /// There is no memory for the expansion.
    OutOfMemory,
}

impl From<AllocError> for ListError {
    ghost use Rattle.std.specs.Prelude.{◌≡◌};
    ghost use Rattle.verb_codes.specs.declared.entries.ListError.TheVariants.{OutOfMemory};

    ghost from_gives = { λ _ error. error ≡ OutOfMemory };

    fn from(_: AllocError) -> Self {
        ListError::OutOfMemory
    }
}

/// One entry of a connection list (HDA 1.0a, 7.3.3.3).
#[derive(Clone, Copy)]
pub struct Entry {
    /// Whether it stands for all nodes from the one after the entry before it up to its own.
    pub is_range: bool,
    /// Its node identifier, in the long form of 15 bits.
    pub nid: u16,
}

impl Entry {
    ghost use Rattle.std.specs.Prelude.{◌≡◌, ◌≤◌, ◌<◌, ◌+◌, None};
    ghost use Rattle.verb_codes.specs.Lists as spec;

    /// The entry of these bits: 16 in the long form, else 8.
    pub fn read(long: bool, bits: u16) -> Entry
        ensures { result ≡ spec.entry_of long bits }
    {
        let range_bit = if long { 0x8000 } else { 0x80 };
        Entry {
            is_range: bits >= range_bit,
            nid: bits % range_bit,
        }
    }

    /// What is wrong with the entry after the one before it.
    pub fn fault_after(self, before: Option<Entry>) -> Option<ListFault>
        ensures { result ≡ spec.entry_fault before self }
    {
        if self.nid == 0 {
            Some(ListFault::Zero)
        } else if self.nid > 0x7F {
            Some(ListFault::Beyond)
        } else if self.is_range {
            range_fault(before, self.nid)
        } else {
            None
        }
    }

    /// The first node that the entry stands for after the one before it.
    pub fn first_after(self, before: Option<Entry>) -> u16
        requires { spec.entry_fault before self ≡ None }
        ensures value { result ≡ spec.first_nid before self }
        ensures ascending { result ≤ self.nid }
        ensures small { self.nid < 128 }
    {
        match before {
            Some(before) if self.is_range => before.nid + 1,
            _ => self.nid,
        }
    }
}

/// What is wrong with a range up to this node after the entry before it.
fn range_fault(before: Option<Entry>, nid: u16) -> Option<ListFault>
    ensures { result ≡ spec.range_fault before nid }
{
    match before {
        None => Some(ListFault::FirstIsRange),
        Some(before) if before.is_range => Some(ListFault::RangeAfterRange),
        Some(before) if nid <= before.nid => Some(ListFault::RangeBackward),
        Some(_) => None,
    }
}
