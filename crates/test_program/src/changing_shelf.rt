//! A shelf that fails, or whose files change, when it was told to.
ghost use Rattle.std.specs.Prelude.{None};

use hda_outside::{Fault, Shelf, SureShelf};
use std::alloc::Global;

/// What a shelf does beside giving its files.
#[derive(Clone, Copy)]
pub enum Plan {
    Nothing,
    /// It fails the call of this number, from 0 on.
    FailsCall(u64),
    /// It fails a call at this place of the WAV file for more than one byte.
    FailsAt(u64),
    /// From a call at this place of the WAV file for more than one byte on, a file has at most so many bytes.
    Resizes(u64, u64),
}

/// Files by name. It tells nothing.
#[derive(Drop)]
pub struct ChangingShelf {
    pub files: SureShelf,
    pub plan: Plan,
    /// The most bytes of a file that are there.
    pub most: u64,
    /// The most bytes that it gives in a call.
    pub piece: usize,
    pub calls: u64,
    pub faults: u64,
    pub given: u64,
    pub empties: u64,
}

/// Whether a call fails. A call for more than one byte of the WAV file has a place.
fn fails(plan: Plan, call: u64, place: Option<u64>) -> bool {
    match plan {
        Plan::FailsCall(number) => call == number,
        Plan::FailsAt(at) => place == Some(at),
        Plan::Nothing | Plan::Resizes(..) => false,
    }
}

/// The most bytes of a file that are there once it is called.
fn most_after(plan: Plan, most: u64, place: Option<u64>) -> u64 {
    match plan {
        Plan::Resizes(at, len) if place == Some(at) => len,
        _ => most,
    }
}

impl ChangingShelf {
    /// A shelf of these files that does this.
    pub fn new(files: Vec<(String, Vec<u8>)>, plan: Plan) -> ChangingShelf {
        ChangingShelf {
            files: SureShelf::new(files),
            plan,
            most: u64::MAX,
            piece: usize::MAX,
            calls: 0,
            faults: 0,
            given: 0,
            empties: 0,
        }
    }
}

impl Shelf for ChangingShelf {
    ghost told = { λ _. None };

    ghost faults = { λ shelf _. shelf.faults };

    ghost given = { λ shelf. shelf.given };

    ghost asked = { λ _ _. 0 };

    ghost empties = { λ shelf _. shelf.empties };

    fn read_at(
        &mut self,
        alloc: Global,
        name: &str,
        from: u64,
        buf: &mut [u8],
    ) -> Result<usize, Fault> {
        let wanted = buf.len();
        let place = (name == "W.wav" && wanted > 1).then_some(from);
        let failed = fails(self.plan, self.calls, place);
        self.calls = self.calls.saturating_add(1);
        self.most = most_after(self.plan, self.most, place);
        if failed {
            self.faults = self.faults.saturating_add(1);
            return Err(Fault::Failed);
        }
        let there = self.most.saturating_sub(from) as usize;
        let part = &mut buf[..wanted.min(there).min(self.piece)];
        match self.files.read_at(alloc, name, from, part) {
            Ok(n) => {
                self.given = self.given.saturating_add(n as u64);
                if n == 0 && wanted != 0 {
                    self.empties = self.empties.saturating_add(1);
                }
                Ok(n)
            }
            Err(fault) => {
                self.faults = self.faults.saturating_add(1);
                Err(fault)
            }
        }
    }
}
