ghost use Rattle.std.specs.Prelude.{◌≡◌, ◌<◌, ◌≤◌, min, Some, [], ◌++◌, length, Contains, IfOk, OnOk, OnErr};
ghost use Rattle.std.specs.Prelude.{IsOkUnless};
ghost use Rattle.hda_outside.specs.MemorySink.{after_planned_write};

use crate::fault::Fault;
use crate::sink::Sink;
use std::alloc::Global;
use std::marker::Model;

/// A sink in memory whose calls of some numbers fail, for tests. This project's own.
#[derive(Drop)]
pub struct MemSink {
    taken: Vec<u8>,
    most: usize,
    fail: Vec<u64>,
    calls: u64,
    faults: u64,
}

impl Model for MemSink {
    ghost use Rattle.std.specs.Prelude.{◌≤◌};
    ghost use Rattle.hda_outside.specs.MemorySink.{PlannedSink};

    ghost Value = { PlannedSink };

    ghost view = { λ s. record {
      taken = s.taken.items;
      most = s.most;
      fail = s.fail.items;
      calls = s.calls;
      faults = s.faults;
    } };

    ghost invariant = { λ s. 1 ≤ s.most };
}

impl MemSink {
    /// An empty sink that takes at most `most` bytes in a call. The calls whose numbers, from 0 on,
    /// stand in `fail` fail.
    pub fn new(alloc: Global, most: usize, fail: Vec<u64>) -> Self
        requires { 1 ≤ most }
        ensures { result ≡ record { taken = []; most = most; fail = fail.items; calls = 0; faults = 0 } }
    {
        MemSink {
            taken: Vec::new(alloc),
            most,
            fail,
            calls: 0,
            faults: 0,
        }
    }

    /// What was taken.
    pub fn bytes(&self) -> &[u8]
        ensures { result.now ≡ self.now.taken }
    {
        self.taken.as_slice()
    }
}

impl Sink for MemSink {
    ghost taken = { λ s. Some s.taken };

    ghost faults = { λ s. s.faults };

    ghost longest = { λ _. 0 };

    fn write(&mut self, _alloc: Global, bytes: &[u8]) -> Result<usize, Fault>
        ensures bound { IfOk result (λ n. n ≤ length bytes.now) }
        ensures some { 0 < length bytes.now → IfOk result (λ n. 0 < n) }

        // It takes all that it may, and fails where the call's number is one of those that fail.
        ensures most { IfOk result (λ n. n ≡ min (length bytes.now) self.old.most) }
        ensures planned { Contains self.old.fail self.old.calls → result ≡ Err Fault.Failed }
        ensures memory { ¬ Contains self.old.fail self.old.calls → IsOkUnless result Fault.OutOfMemory }

        // Exactly this is taken and counted.
        ensures after { self.new ≡ after_planned_write self.old bytes.now result }
        ensures later { self.old.faults ≤ self.new.faults }
    {
        let call = self.calls;
        self.calls = self.calls.saturating_add(1);
        if self.fail.contains(&call) {
            self.faults = self.faults.saturating_add(1);
            return Err(Fault::Failed);
        }
        let n = bytes.len().min(self.most);
        self.taken.extend_from_slice(&bytes[..n])?;
        Ok(n)
    }
}

/// A sink in memory that takes everything and never fails. This project's own.
#[derive(Drop)]
pub struct SureSink {
    taken: Vec<u8>,
}

impl Model for SureSink {
    ghost use Rattle.std.specs.Prelude.{List, ℕ};

    ghost Value = { List ℕ };

    ghost view = { λ s. s.taken.items };
}

impl SureSink {
    /// An empty sink.
    pub fn new(alloc: Global) -> Self
        ensures { result ≡ [] }
    {
        SureSink {
            taken: Vec::new(alloc),
        }
    }

    /// What was taken.
    pub fn bytes(&self) -> &[u8]
        ensures { result.now ≡ self.now }
    {
        self.taken.as_slice()
    }
}

impl Sink for SureSink {
    ghost taken = { λ s. Some s };

    ghost faults = { λ _. 0 };

    ghost longest = { λ _. 0 };

    fn write(&mut self, _alloc: Global, bytes: &[u8]) -> Result<usize, Fault>
        ensures all { IfOk result (λ n. n ≡ length bytes.now) }
        ensures memory { IsOkUnless result Fault.OutOfMemory }
        ensures taken { OnOk result (self.new ≡ self.old ++ bytes.now) }
        ensures not_taken { OnErr result (self.new ≡ self.old) }
    {
        self.taken.extend_from_slice(bytes)?;
        Ok(bytes.len())
    }
}
