//! How a driver records.
ghost use Rattle.std.specs.Prelude.{◌≡◌, ◌≤◌, ◌<◌, ◌+◌, nat_lt, true, false};
ghost use Rattle.hda_capture.specs.Recorders.{IsRecorder, ring_size};
ghost use Rattle.audio_driver.specs.declared.room.TheConstants.{ROOM_ACCESSES, ROOM_BYTES};
ghost use Rattle.recording_driver.specs.declared.room.TheConstants.{RECORD_CALL_ACCESSES, RECORD_CALL_BYTES};
ghost use Rattle.recording_driver.specs.RecordingDrivers.{IsRecordingDriver, KeepsRecording};
ghost use Rattle.recording_driver.specs.RecordingDrivers as spec;
ghost use Rattle.recording_driver.specs.RecordingCalls.{Records};

use super::RecordingDriver;
use super::turns::{phase_of, record, records_on};
use crate::interrupts::has_input_interrupt;
use driver_progress::Phase;
use hda_platform::Platform;

impl RecordingDriver {
    /// How far it has come: `Ready` before its first run, `Playing` while it records, `Drained` where all was read, and
    /// `Late` where a run was late.
    pub fn phase(&self) -> Phase
        ensures value { result ≡ spec.phase_of self.now }
        ensures driver { IsRecordingDriver self.now }
        ensures recorder { IsRecorder self.now.recorder }
    {
        phase_of(&self.recorder)
    }

    /// Whether there may be one call more.
    pub fn has_call_left(&self) -> bool
        ensures value { result ≡ nat_lt self.now.calls self.now.runs }
        ensures driver { IsRecordingDriver self.now }
    {
        self.calls < self.runs
    }

    /// One call: the first sets the stream going, and each later one reads what certainly was taken since the one
    /// before, until a run is late or all was read. Before a later one it drops what codecs told unasked. Once it is
    /// over no access is made. It takes no memory.
    pub fn run<P: Platform>(&mut self, platform: &mut P)
        requires few { self.old.calls < self.old.runs }
        requires room { ROOM_ACCESSES ≤ P.spare_accesses platform.old }
        requires bytes_room { ring_size self.old.recorder + ROOM_BYTES ≤ P.spare_bytes platform.old }
        ensures records { Records false self.old self.new (P.told platform.old) (P.told platform.new) }
        ensures keeps { KeepsRecording self.old self.new }
        ensures calls { self.new.calls ≡ self.old.calls + 1 }
        ensures fixed { P.fixed platform.new ≡ P.fixed platform.old }
        ensures accesses { P.spare_accesses platform.old ≤ P.spare_accesses platform.new + RECORD_CALL_ACCESSES }
        ensures bytes { P.spare_bytes platform.old ≤ P.spare_bytes
            platform.new + (ring_size self.old.recorder + RECORD_CALL_BYTES) }
    {
        self.calls += 1;
        if records_on(&self.recorder) {
            record(platform, &mut self.engine, &mut self.recorder);
        }
    }

    /// One call for an interrupt: where there is one, what [`RecordingDriver::run`] does; else nothing but the look for
    /// it. Once it is over interrupts are not looked for.
    pub fn irq<P: Platform>(&mut self, platform: &mut P)
        requires few { self.old.calls < self.old.runs }
        requires room { ROOM_ACCESSES ≤ P.spare_accesses platform.old }
        requires bytes_room { ring_size self.old.recorder + ROOM_BYTES ≤ P.spare_bytes platform.old }
        ensures records { Records true self.old self.new (P.told platform.old) (P.told platform.new) }
        ensures keeps { KeepsRecording self.old self.new }
        ensures calls { self.new.calls ≡ self.old.calls + 1 }
        ensures fixed { P.fixed platform.new ≡ P.fixed platform.old }
        ensures accesses { P.spare_accesses platform.old ≤ P.spare_accesses platform.new + RECORD_CALL_ACCESSES }
        ensures bytes { P.spare_bytes platform.old ≤ P.spare_bytes
            platform.new + (ring_size self.old.recorder + RECORD_CALL_BYTES) }
    {
        self.calls += 1;
        if !records_on(&self.recorder) {
            return;
        }
        if has_input_interrupt(platform) {
            record(platform, &mut self.engine, &mut self.recorder);
        }
    }
}
