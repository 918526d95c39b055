//! The runs of a driver that records.
ghost use Rattle.std.specs.Prelude.{◌≡◌, ◌≤◌, ◌<◌, ◌+◌, [], None, length, true};
ghost use Rattle.command_engine.specs.declared.room.TheConstants.{POLL_ACCESSES, POLL_BYTES};
ghost use Rattle.hda_capture.specs.declared.room.TheConstants.{MOST_RECORD_ACCESSES};
ghost use Rattle.hda_capture.specs.Recorders.{IsRecorder, KeepsRecorderRing, ring_size, measures_of, tally_of};
ghost use Rattle.recording_driver.specs.RecordRules as rules;
ghost use Rattle.recording_driver.specs.RecordingDrivers.{phase_recorded};
ghost use Rattle.hda_world.specs.Tellings.{Between, Makes};
ghost use Rattle.recording_driver.specs.RecordingCalls.{last_stop};
ghost use Rattle.recording_driver.specs.RecordingSteps as spec;

use crate::events::listen;
use crate::registers::INPUT_CONTROL;
use command_engine::Engine;
use driver_progress::Phase;
use hda_capture::{Recorded, Recorder};
use hda_platform::Platform;
use hda_registers::Width;

/// How far a recorder has come.
pub(super) fn phase_of(recorder: &Recorder) -> Phase
    ensures value { result ≡ phase_recorded (measures_of recorder.now).limit (tally_of recorder.now) }
    ensures recorder { IsRecorder recorder.now }
{
    let course = recorder.course();
    if !course.started {
        return Phase::Ready;
    }
    let limit = recorder.limit();
    match course.recorded {
        Recorded::Recording => Phase::Playing,
        Recorded::Complete => Phase::Drained,
        Recorded::Late { from, to } => Phase::Late { from, to, limit },
    }
}

/// Whether a run comes next: none was late, and not all was read.
pub(super) fn records_on(recorder: &Recorder) -> bool
    ensures { result ≡ rules.records_on recorder.now.course.recorded }
{
    matches!(recorder.course().recorded, Recorded::Recording)
}

/// The first run, or a look for what codecs told unasked and a later one.
pub(super) fn record<P: Platform>(platform: &mut P, engine: &mut Engine, recorder: &mut Recorder)
    requires quiet { engine.old.events ≡ [] }
    requires idle { engine.old.rings.outstanding ≡ None }
    requires more { rules.records_on recorder.old.course.recorded ≡ true }
    requires free { length recorder.old.runs < recorder.old.records }
    requires room { POLL_ACCESSES + MOST_RECORD_ACCESSES ≤ P.spare_accesses platform.old }
    requires bytes_room { ring_size recorder.old + POLL_BYTES ≤ P.spare_bytes platform.old }
    ensures records { spec.RecordsNow engine.old engine.new recorder.old recorder.new
        (P.told platform.old) (P.told platform.new) }
    ensures quiet { engine.new.events ≡ [] }
    ensures idle { engine.new.rings.outstanding ≡ None }
    ensures started { engine.new.rings.started ≡ engine.old.rings.started }
    ensures corb { engine.new.corb ≡ engine.old.corb }
    ensures rirb { engine.new.rirb ≡ engine.old.rirb }
    ensures few { length recorder.new.runs ≤ length recorder.old.runs + 1 }
    ensures keeps { KeepsRecorderRing recorder.old recorder.new }
    ensures fixed { P.fixed platform.new ≡ P.fixed platform.old }
    ensures accesses { P.spare_accesses platform.old ≤ P.spare_accesses
        platform.new + (POLL_ACCESSES + MOST_RECORD_ACCESSES) }
    ensures bytes { P.spare_bytes platform.old ≤ P.spare_bytes platform.new + (ring_size recorder.old + POLL_BYTES) }
{
    if !recorder.course().started {
        recorder.start(platform);
        return;
    }
    listen(platform, engine);
    let _recorded = recorder.run(platform);
}

/// Where the stream records, a look for what codecs told unasked, the last run, and the stop where that left it
/// recording.
pub(super) fn end_record<P: Platform>(
    platform: &mut P,
    engine: &mut Engine,
    recorder: &mut Recorder,
)
    requires quiet { engine.old.events ≡ [] }
    requires idle { engine.old.rings.outstanding ≡ None }
    requires free { length recorder.old.runs < recorder.old.records }
    requires room { POLL_ACCESSES + MOST_RECORD_ACCESSES + 1 ≤ P.spare_accesses platform.old }
    requires bytes_room { ring_size recorder.old + POLL_BYTES ≤ P.spare_bytes platform.old }
    ensures ends { spec.EndsNow engine.old engine.new recorder.old recorder.new
        (P.told platform.old) (P.told platform.new) }
    ensures corb { engine.new.corb ≡ engine.old.corb }
    ensures rirb { engine.new.rirb ≡ engine.old.rirb }
    ensures keeps { KeepsRecorderRing recorder.old recorder.new }
    ensures fixed { P.fixed platform.new ≡ P.fixed platform.old }
    ensures accesses { P.spare_accesses platform.old ≤ P.spare_accesses
        platform.new + (POLL_ACCESSES + MOST_RECORD_ACCESSES + 1) }
    ensures bytes { P.spare_bytes platform.old ≤ P.spare_bytes platform.new + (ring_size recorder.old + POLL_BYTES) }
{
    if !recorder.course().started || !records_on(recorder) {
        return;
    }
    listen(platform, engine);
    let recorded = recorder.run(platform);
    stop_after(platform, recorded);
}

/// Stops the stream, where a run left it recording (HDA 1.0a, 3.3.35).
#[tactic(auto, using(hda_world::proofs::Callers::rows))]
fn stop_after<P: Platform>(platform: &mut P, recorded: Recorded)
    requires { 1 ≤ P.spare_accesses platform.old }
    ensures made { Between (Makes (last_stop recorded)) (P.told platform.old) (P.told platform.new) }
    ensures fixed { P.fixed platform.new ≡ P.fixed platform.old }
    ensures accesses { P.spare_accesses platform.old ≤ P.spare_accesses platform.new + 1 }
    ensures bytes { P.spare_bytes platform.new ≡ P.spare_bytes platform.old }
{
    match recorded {
        Recorded::Recording => platform.write(INPUT_CONTROL, Width::One, 0),
        Recorded::Complete | Recorded::Late { .. } => {}
    }
}
