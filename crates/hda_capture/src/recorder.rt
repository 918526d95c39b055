//! The recorder.
ghost use Rattle.std.specs.Prelude.{◌≡◌, length, nat_lt};
ghost use Rattle.hda_capture.specs.Recorders.{IsRecorder, measures_of};

mod opening;
mod running;

use crate::course::{RecordCourse, RecordedRun};
use dma_pool::Lent;
use period_writer::Geometry;
use std::marker::Model;

/// What a recorder recorded.
pub struct Recording {
    /// The bytes that it read, in order.
    pub bytes: Vec<u8>,
    /// Its runs, in order.
    pub runs: Vec<RecordedRun>,
}

/// The driver's side of a ring of periods that the input stream fills. It owns the list of buffers and a block for each
/// period, which it gives back when it is closed, and keeps nothing of a platform between its calls. Contracts see its
/// geometry, its blocks, and what it recorded.
pub struct Recorder {
    geometry: Geometry,
    list: Lent,
    periods: Vec<Lent>,
    /// The bytes of one read.
    buffer: Vec<u8>,
    /// How many bytes are to be recorded.
    total: u32,
    /// How many runs there is room to record.
    records: u32,
    runs: Vec<RecordedRun>,
    bytes: Vec<u8>,
    course: RecordCourse,
}

impl Model for Recorder {
    ghost use Rattle.hda_capture.specs.Recorders.{RecorderState};

    ghost Value = { RecorderState };

    ghost use Rattle.hda_capture.specs.Inside.{state_inside, IsRecorderInside};

    ghost view = { state_inside };

    ghost invariant = { IsRecorderInside };
}

impl Recorder {
    /// Where the last run stood: whether the recorder was started, how much was read, and how the last run ended.
    pub fn course(&self) -> RecordCourse
        ensures value { result ≡ self.now.course }
        ensures recorder { IsRecorder self.now }
    {
        self.course
    }

    /// How many link frames may pass from one run to the next.
    pub fn limit(&self) -> u32
        ensures { result ≡ (measures_of self.now).limit }
    {
        self.geometry.limit()
    }

    /// Whether there is room to record one run more.
    pub fn has_free_record(&self) -> bool
        ensures { result ≡ nat_lt (length self.now.runs) self.now.records }
    {
        self.runs.len() < self.records as usize
    }

    /// The recorded runs, in order.
    pub fn runs(&self) -> &[RecordedRun]
        ensures { result.now ≡ self.now.runs }
    {
        self.runs.as_slice()
    }

    /// The recorded bytes, in order.
    pub fn bytes(&self) -> &[u8]
        ensures { result.now ≡ self.now.bytes }
    {
        self.bytes.as_slice()
    }
}
