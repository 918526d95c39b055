//! How a writer is opened and closed.
ghost use Rattle.std.specs.Prelude.{◌≡◌, ◌≤◌, [], None, IfOk, OnOk, OnErr, length, replicate, max, vec_capacity};
ghost use Rattle.period_writer.specs.Rings.{period_bytes};
ghost use Rattle.period_writer.specs.Runs.{course_opened};
ghost use Rattle.period_writer.specs.Writers.{OwnsBlocks, periods_of};
ghost use Rattle.period_writer.specs.Opening as spec;

use super::{Records, Writer};
use crate::blocks::{empty_places, end_places, give_all, meet_runs, take_periods};
use crate::course::{Course, Ran, Run, Span};
use crate::geometry::Geometry;
use dma_pool::{Block, Lent, NoRun, Pool};
use hda_platform::OpenFault;
use std::alloc::{AllocError, Global};
use world_streams::BUFFER_ENTRY_BYTES;

/// What a writer needs memory for.
struct Room {
    places: Vec<Option<Block>>,
    periods: Vec<Lent>,
    buffer: Vec<u8>,
    runs: Vec<Run>,
    silences: Vec<Span>,
}

/// Room for the blocks of a geometry, and for so many runs.
fn make_room(alloc: Global, geometry: &Geometry, records: u32) -> Result<Room, AllocError>
    ensures places { IfOk result (λ room. room.places.items ≡ replicate geometry.now.periods None) }
    ensures periods { IfOk result (λ room. room.periods.items ≡ []) }
    ensures periods_room { IfOk result (λ room. geometry.now.periods ≤ vec_capacity room.periods) }
    ensures buffer { IfOk result (λ room. length room.buffer.items ≡ period_bytes geometry.now.period) }
    ensures runs { IfOk result (λ room. room.runs.items ≡ []) }
    ensures runs_room { IfOk result (λ room. records ≤ vec_capacity room.runs) }
    ensures silences { IfOk result (λ room. room.silences.items ≡ []) }
    ensures silences_room { IfOk result (λ room. records ≤ vec_capacity room.silences) }
{
    let runs = Vec::with_capacity(alloc, records as usize)?;
    let silences = Vec::with_capacity(alloc, records as usize)?;
    let buffer = vec![in alloc; 0; geometry.period_bytes() as usize]?;
    let places = empty_places(alloc, geometry.periods())?;
    let Ok(periods) = Vec::with_capacity(alloc, usize::from(geometry.periods())) else {
        end_places(places);
        return Err(AllocError);
    };
    Ok(Room {
        places,
        periods,
        buffer,
        runs,
        silences,
    })
}

/// Before the first run.
fn course_opened() -> Course
    ensures { result ≡ course_opened }
{
    Course {
        started: false,
        at: 0,
        from: 0,
        reach: 0,
        sure: 0,
        used: 0,
        sound_end: 0,
        ran: Ran::Playing,
    }
}

impl Writer {
    /// Takes 16 bytes for each period for the list of buffers, then a block for each period, one after another, and
    /// makes room to record so many runs, and one where that is 0.
    ///
    /// # Errors
    /// `NoRun` exactly where one of these takes, in this order, meets no run; `OutOfMemory` where each of them meets
    /// one. After each error the pool is as it was.
    pub fn open(
        alloc: Global,
        pool: &mut Pool,
        geometry: Geometry,
        runs: u32,
    ) -> Result<Writer, OpenFault>
        ensures opens { IfOk result (λ writer.
            spec.OpensWriter geometry pool.old writer.list.address (periods_of writer) pool.new) }
        ensures owns { IfOk result (λ writer. OwnsBlocks pool.new.taken writer) }
        ensures geometry { IfOk result (λ writer. writer.geometry ≡ geometry) }
        ensures records { IfOk result (λ writer. writer.records ≡ max runs 1) }
        ensures runs { IfOk result (λ writer. writer.runs ≡ []) }
        ensures silences { IfOk result (λ writer. writer.silences ≡ []) }
        ensures course { IfOk result (λ writer. writer.course ≡ course_opened) }
        ensures no_run { result ≡ Err OpenFault.NoRun → spec.HasNoRuns geometry pool.old }
        ensures no_memory { result ≡ Err OpenFault.OutOfMemory → spec.HasRuns geometry pool.old }
        ensures unchanged { OnErr result (pool.new ≡ pool.old) }
    {
        if Writer::meets_runs(pool, &geometry).is_err() {
            return Err(OpenFault::NoRun);
        }
        Writer::open_blocks(alloc, pool, geometry, runs)
    }

    /// Whether the takes of [`Writer::open`] for a ring of this geometry meet a run each, in its order. Nothing is
    /// taken.
    ///
    /// # Errors
    /// `NoRun` exactly where one of them meets none.
    pub fn meets_runs(pool: &mut Pool, geometry: &Geometry) -> Result<(), NoRun>
        ensures runs { OnOk result (spec.HasRuns geometry.now pool.old) }
        ensures none { OnErr result (spec.HasNoRuns geometry.now pool.old) }
        ensures unchanged { pool.new ≡ pool.old }
    {
        let list = pool.take(BUFFER_ENTRY_BYTES * u32::from(geometry.periods()))?;
        let met = meet_runs(pool, geometry.period_bytes(), geometry.periods());
        pool.give(list);
        met
    }

    /// Takes the blocks, and makes room.
    fn open_blocks(
        alloc: Global,
        pool: &mut Pool,
        geometry: Geometry,
        runs: u32,
    ) -> Result<Writer, OpenFault>
        ensures opens { IfOk result (λ writer.
            spec.OpensWriter geometry pool.old writer.list.address (periods_of writer) pool.new) }
        ensures owns { IfOk result (λ writer. OwnsBlocks pool.new.taken writer) }
        ensures geometry { IfOk result (λ writer. writer.geometry ≡ geometry) }
        ensures records { IfOk result (λ writer. writer.records ≡ max runs 1) }
        ensures runs { IfOk result (λ writer. writer.runs ≡ []) }
        ensures silences { IfOk result (λ writer. writer.silences ≡ []) }
        ensures course { IfOk result (λ writer. writer.course ≡ course_opened) }
        ensures no_run { result ≡ Err OpenFault.NoRun → spec.HasNoRuns geometry pool.old }
        ensures unchanged { OnErr result (pool.new ≡ pool.old) }
    {
        let records = runs.max(1);
        let Ok(room) = make_room(alloc, &geometry, records) else {
            return Err(OpenFault::OutOfMemory);
        };
        let Room {
            places,
            mut periods,
            buffer,
            runs,
            silences,
        } = room;
        let Ok(list) = pool.take(BUFFER_ENTRY_BYTES * u32::from(geometry.periods())) else {
            end_places(places);
            periods.destroy_empty();
            return Err(OpenFault::NoRun);
        };
        if take_periods(pool, geometry.period_bytes(), places, &mut periods).is_err() {
            pool.give(list);
            periods.destroy_empty();
            return Err(OpenFault::NoRun);
        }
        Ok(Writer {
            geometry,
            list: list.lend(),
            periods,
            buffer,
            records,
            runs,
            silences,
            course: course_opened(),
        })
    }

    /// Gives all blocks back to the pool that they were taken from: their runs are among its taken runs.
    pub fn close(self, pool: &mut Pool)
        requires { OwnsBlocks pool.old.taken self }
        ensures { spec.GivesBack self.geometry pool.old self.list.address (periods_of self) pool.new }
    {
        let Records {
            runs: _,
            silences: _,
        } = self.end(pool);
    }

    /// What [`Writer::close`] does, and what was recorded.
    pub fn end(self, pool: &mut Pool) -> Records
        requires { OwnsBlocks pool.old.taken self }
        ensures gives { spec.GivesBack self.geometry pool.old self.list.address (periods_of self) pool.new }
        ensures runs { result.runs.items ≡ self.runs }
        ensures silences { result.silences.items ≡ self.silences }
    {
        let Writer {
            geometry,
            list,
            mut periods,
            buffer: _,
            records: _,
            runs,
            silences,
            course: _,
        } = self;
        give_all(pool, &mut periods, geometry.period_bytes());
        periods.destroy_empty();
        pool.give(list.back());
        Records { runs, silences }
    }
}
