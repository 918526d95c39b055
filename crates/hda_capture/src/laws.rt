//! Laws of what is recorded, each the contract of a function that does nothing.
ghost use Rattle.std.specs.Prelude.{◌≡◌, ◌≤◌, ◌+◌, ◌*◌, ◌%◌, ℕ, All, length};
ghost use Rattle.stream_format.specs.Cadence.{block_bytes};
ghost use Rattle.wav_reader.specs.Laws.{CanBeWritten};
ghost use Rattle.hda_capture.specs.declared.course.Recorded.TheVariants.{Complete};
ghost use Rattle.hda_capture.specs.Recordings.{RecordMeasures, RecordFacts, RecordTally, course_opened, tally_after};
ghost use Rattle.hda_capture.specs.Recordings.{read_upto};
ghost use Rattle.hda_capture.specs.Recorders.{RecorderState, IsRecorder, IsRecordCourse, IsAtBlocks};

use crate::registers::{CONTROL, FORMAT, LAST_INDEX, LIST_ADDRESS, POSITION, RING_LENGTH};

/// What holds of the course of runs is kept by each run, late or not, and no run reads more than a ring.
pub fn runs_keep_the_record_course()
    ensures opened { (m : RecordMeasures) → IsRecordCourse m 0 course_opened }
    ensures kept { (m : RecordMeasures) (tally : RecordTally) (facts : RecordFacts)
        → 1 ≤ m.ring → IsRecordCourse m (length tally.runs) tally.course
        → let tally' = tally_after m tally facts in IsRecordCourse m (length tally'.runs) tally'.course }
    ensures within { (m : RecordMeasures) (tally : RecordTally) (lpib : ℕ)
        → 1 ≤ m.ring → IsRecordCourse m (length tally.runs) tally.course
        → read_upto m tally.course lpib ≤ tally.course.read + m.ring }
{}

/// All that is to be recorded can be written as a WAV file, whatever the platform.
pub fn complete_records_can_be_written()
    ensures { (recorder : RecorderState) → IsRecorder recorder
        → recorder.course.recorded ≡ Complete → CanBeWritten recorder.geometry.format recorder.bytes }
{}

/// So can what was recorded before, where each run found the link at whole blocks.
pub fn whole_records_can_be_written()
    ensures { (recorder : RecorderState) → IsRecorder recorder
        → All (IsAtBlocks (block_bytes recorder.geometry.format)) recorder.runs
        → CanBeWritten recorder.geometry.format recorder.bytes }
{}

/// Where the registers of the input stream's descriptor stand (HDA 1.0a, 3.3.35 to 3.3.42).
pub fn registers_are_the_input_descriptors()
    ensures control { CONTROL ≡ 0x80 }
    ensures position { POSITION ≡ 0x84 }
    ensures length { RING_LENGTH ≡ 0x88 }
    ensures last { LAST_INDEX ≡ 0x8C }
    ensures format { FORMAT ≡ 0x92 }
    ensures list { LIST_ADDRESS ≡ 0x98 }
{}
