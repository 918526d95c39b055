//! How a recorder is opened and closed.
ghost use Rattle.std.specs.Prelude.{◌≡◌, ◌≤◌, ◌%◌, ◌*◌, [], None, IfOk, OnErr, length, replicate, max};
ghost use Rattle.std.specs.Prelude.{vec_capacity};
ghost use Rattle.stream_format.specs.Cadence.{block_bytes};
ghost use Rattle.wav_writer.specs.declared.file.TheConstants.{MOST_RING_BYTES};
ghost use Rattle.period_writer.specs.Rings.{period_bytes};
ghost use Rattle.period_writer.specs.Opening as spec;
ghost use Rattle.hda_capture.specs.Recordings.{course_opened};
ghost use Rattle.hda_capture.specs.Recorders.{IsRecorder, OwnsBlocks, periods_of};

use super::{Recorder, Recording};
use crate::course::{RecordCourse, Recorded, RecordedRun};
use dma_pool::{Block, Lent, Pool};
use hda_platform::OpenFault;
use period_writer::{Geometry, Writer, empty_places, end_places, give_all, take_periods};
use std::alloc::{AllocError, Global};
use world_streams::BUFFER_ENTRY_BYTES;

/// What a recorder needs memory for.
struct Room {
    places: Vec<Option<Block>>,
    periods: Vec<Lent>,
    buffer: Vec<u8>,
    runs: Vec<RecordedRun>,
    bytes: Vec<u8>,
}

/// Room for the blocks of a geometry, for so many runs, and for so many bytes.
fn make_room(
    alloc: Global,
    geometry: &Geometry,
    records: u32,
    total: u32,
) -> Result<Room, AllocError>
    ensures places { IfOk result (λ room. room.places.items ≡ replicate geometry.now.periods None) }
    ensures periods { IfOk result (λ room. room.periods.items ≡ []) }
    ensures periods_room { IfOk result (λ room. geometry.now.periods ≤ vec_capacity room.periods) }
    ensures buffer { IfOk result (λ room. length room.buffer.items ≡ period_bytes geometry.now.period) }
    ensures runs { IfOk result (λ room. room.runs.items ≡ []) }
    ensures runs_room { IfOk result (λ room. records ≤ vec_capacity room.runs) }
    ensures bytes { IfOk result (λ room. room.bytes.items ≡ []) }
    ensures bytes_room { IfOk result (λ room. total ≤ vec_capacity room.bytes) }
{
    let runs = Vec::with_capacity(alloc, records as usize)?;
    let bytes = Vec::with_capacity(alloc, total as usize)?;
    let buffer = vec![in alloc; 0; geometry.period_bytes() as usize]?;
    let places = empty_places(alloc, geometry.periods())?;
    let Ok(periods) = Vec::with_capacity(alloc, usize::from(geometry.periods())) else {
        end_places(places);
        return Err(AllocError);
    };
    Ok(Room {
        places,
        periods,
        buffer,
        runs,
        bytes,
    })
}

/// Before the first run.
fn course_opened() -> RecordCourse
    ensures { result ≡ course_opened }
{
    RecordCourse {
        started: false,
        at: 0,
        read: 0,
        from: 0,
        recorded: Recorded::Recording,
    }
}

/// The bytes of so many frames.
fn bytes_of(geometry: &Geometry, frames: u64) -> u32
    requires { frames * block_bytes geometry.now.format ≤ MOST_RING_BYTES }
    ensures { result ≡ frames * block_bytes geometry.now.format }
{
    (frames * u64::from(geometry.format().block_bytes())) as u32
}

impl Recorder {
    /// Takes 16 bytes for each period for the list of buffers, then a block for each period, one after another, and
    /// makes room for so many frames of sound, which are all that it is to record, and to record so many runs, and one
    /// where that is 0. A WAV file can hold the frames.
    ///
    /// # Errors
    /// `NoRun` exactly where one of these takes, in this order, meets no run; `OutOfMemory` where each of them meets
    /// one. After each error the pool is as it was.
    pub fn open(
        alloc: Global,
        pool: &mut Pool,
        geometry: Geometry,
        runs: u32,
        frames: u64,
    ) -> Result<Recorder, OpenFault>
        requires { frames * block_bytes geometry.format ≤ MOST_RING_BYTES }
        ensures opens { IfOk result (λ recorder.
            spec.OpensWriter geometry pool.old recorder.list.address (periods_of recorder) pool.new) }
        ensures owns { IfOk result (λ recorder. OwnsBlocks pool.new.taken recorder) }
        ensures geometry { IfOk result (λ recorder. recorder.geometry ≡ geometry) }
        ensures total { IfOk result (λ recorder. recorder.total ≡ frames * block_bytes geometry.format) }
        ensures records { IfOk result (λ recorder. recorder.records ≡ max runs 1) }
        ensures runs { IfOk result (λ recorder. recorder.runs ≡ []) }
        ensures bytes { IfOk result (λ recorder. recorder.bytes ≡ []) }
        ensures course { IfOk result (λ recorder. recorder.course ≡ course_opened) }
        ensures no_run { result ≡ Err OpenFault.NoRun → spec.HasNoRuns geometry pool.old }
        ensures no_memory { result ≡ Err OpenFault.OutOfMemory → spec.HasRuns geometry pool.old }
        ensures unchanged { OnErr result (pool.new ≡ pool.old) }
    {
        if Writer::meets_runs(pool, &geometry).is_err() {
            return Err(OpenFault::NoRun);
        }
        let total = bytes_of(&geometry, frames);
        Recorder::open_blocks(alloc, pool, geometry, runs, total)
    }

    /// Takes the blocks, and makes room.
    fn open_blocks(
        alloc: Global,
        pool: &mut Pool,
        geometry: Geometry,
        runs: u32,
        total: u32,
    ) -> Result<Recorder, OpenFault>
        requires few { total ≤ MOST_RING_BYTES }
        requires whole { total % block_bytes geometry.format ≡ 0 }
        ensures opens { IfOk result (λ recorder.
            spec.OpensWriter geometry pool.old recorder.list.address (periods_of recorder) pool.new) }
        ensures owns { IfOk result (λ recorder. OwnsBlocks pool.new.taken recorder) }
        ensures geometry { IfOk result (λ recorder. recorder.geometry ≡ geometry) }
        ensures total { IfOk result (λ recorder. recorder.total ≡ total) }
        ensures records { IfOk result (λ recorder. recorder.records ≡ max runs 1) }
        ensures runs { IfOk result (λ recorder. recorder.runs ≡ []) }
        ensures bytes { IfOk result (λ recorder. recorder.bytes ≡ []) }
        ensures course { IfOk result (λ recorder. recorder.course ≡ course_opened) }
        ensures no_run { result ≡ Err OpenFault.NoRun → spec.HasNoRuns geometry pool.old }
        ensures unchanged { OnErr result (pool.new ≡ pool.old) }
    {
        let records = runs.max(1);
        let Ok(room) = make_room(alloc, &geometry, records, total) else {
            return Err(OpenFault::OutOfMemory);
        };
        let Room {
            places,
            mut periods,
            buffer,
            runs,
            bytes,
        } = room;
        let Ok(list) = pool.take(BUFFER_ENTRY_BYTES * u32::from(geometry.periods())) else {
            end_places(places);
            periods.destroy_empty();
            return Err(OpenFault::NoRun);
        };
        if take_periods(pool, geometry.period_bytes(), places, &mut periods).is_err() {
            pool.give(list);
            periods.destroy_empty();
            return Err(OpenFault::NoRun);
        }
        Ok(Recorder {
            geometry,
            list: list.lend(),
            periods,
            buffer,
            total,
            records,
            runs,
            bytes,
            course: course_opened(),
        })
    }

    /// Gives all blocks back to the pool that they were taken from: their runs are among its taken runs. Returns what
    /// was recorded.
    pub fn close(self, pool: &mut Pool) -> Recording
        requires { OwnsBlocks pool.old.taken self }
        ensures recorder { IsRecorder self }
        ensures gives { spec.GivesBack self.geometry pool.old self.list.address (periods_of self) pool.new }
        ensures bytes { result.bytes.items ≡ self.bytes }
        ensures runs { result.runs.items ≡ self.runs }
    {
        let Recorder {
            geometry,
            list,
            mut periods,
            buffer: _,
            total: _,
            records: _,
            runs,
            bytes,
            course: _,
        } = self;
        give_all(pool, &mut periods, geometry.period_bytes());
        periods.destroy_empty();
        pool.give(list.back());
        Recording { bytes, runs }
    }
}
