//! How the stream is set going, and how it records on.
ghost use Rattle.std.specs.Prelude.{◌≡◌, ◌≤◌, ◌<◌, ◌+◌, ◌-◌, ◌^◌, true, false, length};
ghost use Rattle.hda_world.specs.Tellings.{Between, Makes};
ghost use Rattle.stream_format.specs.Cadence.{block_bytes};
ghost use Rattle.period_writer.specs.Rings.{blocks_up, list_bytes, period_bytes};
ghost use Rattle.period_writer.specs.Places.{touched};
ghost use Rattle.period_writer.specs.Starting.{entry_writes};
ghost use Rattle.hda_capture.specs.Recorders.{IsRecorder, KeepsRecorderRing};
ghost use Rattle.hda_capture.specs.Recorders.{measures_of, periods_of, ring_size, tally_of};
ghost use Rattle.hda_capture.specs.Recordings.{facts_of, tally_after};
ghost use Rattle.hda_capture.specs.Turns.{IsTurn, measures_by};
ghost use Rattle.hda_capture.specs.Starting as starting;
ghost use Rattle.hda_capture.specs.Calls as calls;
ghost use Rattle.hda_capture.specs.declared.room.TheConstants.{GOING_ACCESSES, FIRST_RECORD_ACCESSES, RECORD_ACCESSES};

use super::Recorder;
use crate::course::Recorded;
use crate::pieces::{Stretch, read_line};
use crate::registers::POSITION;
use crate::starting::{reset_stream, set_stream, stop_if};
use crate::turns::{Measures, Turn, keep_turn, turn_of};
use hda_platform::Platform;
use hda_registers::{Width, places};
use period_writer::{Geometry, write_list};

/// The bytes of a block, at least 1.
fn block_of(geometry: &Geometry) -> u32
    ensures value { result ≡ block_bytes geometry.now.format }
    ensures some { 1 ≤ result }
    ensures few { result < 2 ^ 16 }
{
    geometry.format().block_bytes()
}

/// As many bytes as the FIFO has, up to whole blocks.
fn behind_of(geometry: &Geometry) -> u32
    ensures { result ≡ blocks_up (block_bytes geometry.now.format) geometry.now.fifo }
{
    let block = block_of(geometry);
    let up = u32::from(geometry.fifo()) + (block - 1);
    up - up % block
}

impl Recorder {
    /// The numbers that its runs go by.
    fn measures(&self) -> Measures
        ensures value { measures_by result ≡ measures_of self.now }
        ensures some { 1 ≤ result.ring }
        ensures few { result.ring < 2 ^ 22 }
    {
        Measures {
            ring: self.geometry.ring(),
            behind: behind_of(&self.geometry),
            limit: self.geometry.limit(),
            total: u64::from(self.total),
        }
    }

    /// Where the next run stands that read this clock and this LPIB.
    fn next_turn(&self, from: u32, lpib: u32) -> Turn
        ensures from { result.from ≡ from }
        ensures lpib { result.lpib ≡ lpib }
        ensures turn { IsTurn (measures_of self.now) self.now.course result }
        ensures within { result.upto ≤ self.now.total }
        ensures ring { result.upto - self.now.course.read ≤ ring_size self.now }
        ensures recorder { IsRecorder self.now }
    {
        turn_of(self.measures(), self.course, from, lpib)
    }

    /// Writes the list of buffers.
    fn write_entries<P: Platform>(&mut self, platform: &mut P)
        requires room { self.old.geometry.periods ≤ P.spare_accesses platform.old }
        requires bytes_room { list_bytes self.old.geometry.periods ≤ P.spare_bytes platform.old }
        ensures made { Between (Makes (entry_writes
            self.old.list.address (periods_of self.old) (period_bytes self.old.geometry.period)))
            (P.told platform.old) (P.told platform.new) }
        ensures same { self.new ≡ self.old }
        ensures fixed { P.fixed platform.new ≡ P.fixed platform.old }
        ensures accesses { P.spare_accesses platform.new + self.old.geometry.periods ≡ P.spare_accesses platform.old }
        ensures bytes { P.spare_bytes platform.new + list_bytes self.old.geometry.periods
            ≡ P.spare_bytes platform.old }
    {
        let bytes = self.geometry.period_bytes();
        write_list(platform, &mut self.list, &self.periods, bytes);
    }

    /// Sets the stream going over the ring.
    fn set_going<P: Platform>(&self, platform: &mut P)
        requires { GOING_ACCESSES ≤ P.spare_accesses platform.old }
        ensures made { Between (Makes (starting.set_accesses self.now.list.address self.now.geometry))
            (P.told platform.old) (P.told platform.new) }
        ensures fixed { P.fixed platform.new ≡ P.fixed platform.old }
        ensures accesses { P.spare_accesses platform.new + GOING_ACCESSES ≡ P.spare_accesses platform.old }
        ensures bytes { P.spare_bytes platform.new ≡ P.spare_bytes platform.old }
    {
        set_stream(platform, self.list.address(), &self.geometry);
    }

    /// Records the first run, which reads nothing.
    fn note_start(&mut self, from: u32, to: u32)
        requires fresh { self.old.course.started ≡ false }
        ensures tally { tally_of self.new ≡ tally_after (measures_of self.old) (tally_of self.old)
            (facts_of from 0 to) }
        ensures bytes { self.new.bytes ≡ self.old.bytes }
        ensures keeps { KeepsRecorderRing self.old self.new }
    {
        let measures = self.measures();
        let turn = self.next_turn(from, 0);
        let _recorded = keep_turn(
            measures,
            &mut self.runs,
            &mut self.bytes,
            &mut self.course,
            turn,
            to,
        );
    }

    /// The first run: writes the list, and sets the stream going (HDA 1.0a, 4.5.3). It is recorded and reads nothing.
    pub fn start<P: Platform>(&mut self, platform: &mut P)
        requires fresh { self.old.course.started ≡ false }
        requires room { FIRST_RECORD_ACCESSES + self.old.geometry.periods ≤ P.spare_accesses platform.old }
        requires bytes_room { list_bytes self.old.geometry.periods ≤ P.spare_bytes platform.old }
        ensures starts { calls.StartsRecording self.old self.new (P.told platform.old) (P.told platform.new) }
        ensures on { self.new.course.started ≡ true }
        ensures recording { self.new.course.recorded ≡ Recorded.Recording }
        ensures few { length self.new.runs ≤ length self.old.runs + 1 }
        ensures keeps { KeepsRecorderRing self.old self.new }
        ensures fixed { P.fixed platform.new ≡ P.fixed platform.old }
        ensures accesses { P.spare_accesses platform.new + (FIRST_RECORD_ACCESSES + self.old.geometry.periods)
            ≡ P.spare_accesses platform.old }
        ensures bytes { P.spare_bytes platform.new + list_bytes self.old.geometry.periods
            ≡ P.spare_bytes platform.old }
    {
        let from = platform.read(places::WALCLK, Width::Four);
        reset_stream(platform);
        self.write_entries(platform);
        self.set_going(platform);
        let to = platform.read(places::WALCLK, Width::Four);
        self.note_start(from, to);
    }

    /// Reads what a run reads of the ring, and the clock, and records the run.
    fn read_turn<P: Platform>(&mut self, platform: &mut P, turn: Turn) -> Recorded
        requires free { length self.old.runs < self.old.records }
        requires turn { IsTurn (measures_of self.old) self.old.course turn }
        requires within { turn.upto ≤ self.old.total }
        requires room { touched (period_bytes self.old.geometry.period) self.old.course.read turn.upto + 1
            ≤ P.spare_accesses platform.old }
        requires bytes_room { turn.upto - self.old.course.read ≤ P.spare_bytes platform.old }
        ensures reads { calls.ReadsTurn self.old turn.from turn.lpib result self.new
            (P.told platform.old) (P.told platform.new) }
        ensures few { length self.new.runs ≤ length self.old.runs + 1 }
        ensures keeps { KeepsRecorderRing self.old self.new }
        ensures fixed { P.fixed platform.new ≡ P.fixed platform.old }
        ensures accesses { P.spare_accesses platform.new
            + (touched (period_bytes self.old.geometry.period) self.old.course.read turn.upto + 1)
            ≡ P.spare_accesses platform.old }
        ensures bytes { P.spare_bytes platform.new + (turn.upto - self.old.course.read)
            ≡ P.spare_bytes platform.old }
    {
        let measures = self.measures();
        let stretch = Stretch {
            from: self.course.read,
            to: turn.upto,
        };
        read_line(
            platform,
            &self.periods,
            &mut self.buffer,
            &mut self.bytes,
            stretch,
        );
        let to = platform.read(places::WALCLK, Width::Four);
        keep_turn(
            measures,
            &mut self.runs,
            &mut self.bytes,
            &mut self.course,
            turn,
            to,
        )
    }

    /// A later run: reads where the link is, and then what certainly left the FIFO since the run before, no further
    /// than what is to be recorded. This project's own.
    ///
    /// `Late` exactly where more than the geometry's limit of link frames passed between the clock that the run before
    /// read first and the one that this run reads last. The answer has these clocks, in ticks of 1/24,000,000 s. The
    /// run is not recorded then, nor are the bytes that it read. Else `Complete` exactly where all that is to be
    /// recorded was read. In both cases the stream is stopped.
    pub fn run<P: Platform>(&mut self, platform: &mut P) -> Recorded
        requires started { self.old.course.started ≡ true }
        requires recording { self.old.course.recorded ≡ Recorded.Recording }
        requires free { length self.old.runs < self.old.records }
        requires room { RECORD_ACCESSES + self.old.geometry.periods ≤ P.spare_accesses platform.old }
        requires bytes_room { ring_size self.old ≤ P.spare_bytes platform.old }
        ensures records { calls.RecordsRun self.old result self.new (P.told platform.old) (P.told platform.new) }
        ensures on { self.new.course.started ≡ true }
        ensures few { length self.new.runs ≤ length self.old.runs + 1 }
        ensures grows { self.old.course.read ≤ self.new.course.read }
        ensures keeps { KeepsRecorderRing self.old self.new }
        ensures fixed { P.fixed platform.new ≡ P.fixed platform.old }
        ensures accesses { P.spare_accesses platform.old
            ≤ P.spare_accesses platform.new + (RECORD_ACCESSES + self.old.geometry.periods) }
        ensures bytes { P.spare_bytes platform.old ≤ P.spare_bytes platform.new + ring_size self.old }
    {
        let from = platform.read(places::WALCLK, Width::Four);
        let lpib = platform.read(POSITION, Width::Four);
        let turn = self.next_turn(from, lpib);
        let recorded = self.read_turn(platform, turn);
        stop_if(platform, recorded);
        recorded
    }
}
