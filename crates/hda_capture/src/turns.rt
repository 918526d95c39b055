//! What a run does, by the numbers that it read.
ghost use Rattle.std.specs.Prelude.{◌≡◌, ◌≤◌, ◌<◌, ◌-◌, ◌^◌, ◌+◌, true, take, vec_len, vec_capacity, if◌then◌else◌};
ghost use Rattle.period_writer.specs.Runs as runs;
ghost use Rattle.hda_capture.specs.Recordings as spec;
ghost use Rattle.hda_capture.specs.Turns.{IsTurn, measures_by, tally_by};

use crate::course::{RecordCourse, Recorded, RecordedRun};
use hda_items::push_within_capacity;
use hda_registers::places::TICKS_PER_FRAME;

/// The numbers that runs go by: the bytes of the ring, how many of the FIFO's whole blocks, how many link frames may
/// pass from run to run, and the bytes to record.
#[derive(Clone, Copy)]
pub(crate) struct Measures {
    pub(crate) ring: u32,
    pub(crate) behind: u32,
    pub(crate) limit: u32,
    pub(crate) total: u64,
}

/// Where a run stands: the clock and the LPIB that it read first, the position of the link, and up to which position it
/// reads.
#[derive(Clone, Copy)]
pub(crate) struct Turn {
    pub(crate) from: u32,
    pub(crate) lpib: u32,
    pub(crate) at: u64,
    pub(crate) upto: u64,
}

/// The first position from an earlier one on that LPIB stands for.
fn position_from(ring: u64, earlier: u64, lpib: u32) -> u64
    requires some { 1 ≤ ring }
    requires few { ring < 2 ^ 22 }
    requires small { earlier < 2 ^ 60 }
    ensures value { result ≡ runs.position_from ring earlier lpib }
    ensures later { earlier ≤ result }
    ensures soon { result < earlier + ring }
{
    earlier + (u64::from(lpib) + (ring - earlier % ring)) % ring
}

/// Where a run finds the link.
fn record_at(measures: Measures, course: RecordCourse, lpib: u32) -> u64
    requires some { 1 ≤ measures.ring }
    requires few { measures.ring < 2 ^ 22 }
    requires small { course.at < 2 ^ 60 }
    ensures value { result ≡ spec.record_at (measures_by measures) course lpib }
    ensures later { course.started ≡ true → course.at ≤ result }
    ensures soon { result ≤ course.at + measures.ring }
{
    if course.started {
        position_from(u64::from(measures.ring), course.at, lpib)
    } else {
        0
    }
}

/// Up to where a run reads that finds the link here.
fn read_upto(measures: Measures, course: RecordCourse, at: u64) -> u64
    requires { course.read ≤ measures.total }
    ensures value { result ≡ spec.upto_by (measures_by measures) course at }
    ensures ascends { course.read ≤ result }
    ensures within { result ≤ measures.total }
{
    let behind = at.saturating_sub(u64::from(measures.behind));
    course.read.max(behind).min(measures.total)
}

/// Where a run stands that read this clock and this LPIB.
pub(crate) fn turn_of(measures: Measures, course: RecordCourse, from: u32, lpib: u32) -> Turn
    requires some { 1 ≤ measures.ring }
    requires few { measures.ring < 2 ^ 22 }
    requires small { course.at < 2 ^ 60 }
    requires within { course.read ≤ measures.total }
    ensures from { result.from ≡ from }
    ensures lpib { result.lpib ≡ lpib }
    ensures turn { IsTurn (measures_by measures) course result }
    ensures within { result.upto ≤ measures.total }
{
    let at = record_at(measures, course, lpib);
    let upto = read_upto(measures, course, at);
    Turn {
        from,
        lpib,
        at,
        upto,
    }
}

/// Whether more time passed than so many link frames take.
fn is_over(frames: u32, from: u32, to: u32) -> bool
    ensures { result ≡ runs.is_over frames from to }
{
    u64::from(TICKS_PER_FRAME) * u64::from(frames) < u64::from(to.saturating_sub(from))
}

/// Whether a run is late that read this clock last.
fn is_record_late(measures: Measures, course: RecordCourse, to: u32) -> bool
    ensures { result ≡ spec.is_record_late (measures_by measures) course to }
{
    course.started && is_over(measures.limit, course.from, to)
}

/// How a run ends that is not late and read up to a position.
fn ends_in_time(measures: Measures, course: RecordCourse, upto: u64) -> Recorded
    ensures { result ≡ spec.ends_in_time (measures_by measures) course upto }
{
    if course.started && upto == measures.total {
        Recorded::Complete
    } else {
        Recorded::Recording
    }
}

/// The course after a run that is not late.
fn course_after(measures: Measures, course: RecordCourse, turn: Turn) -> RecordCourse
    ensures { result ≡ record {
      started = true;
      at = turn.at;
      read = turn.upto;
      from = turn.from;
      recorded = spec.ends_in_time (measures_by measures) course turn.upto;
    } }
{
    RecordCourse {
        started: true,
        at: turn.at,
        read: turn.upto,
        from: turn.from,
        recorded: ends_in_time(measures, course, turn.upto),
    }
}

/// Records a run that read this clock last, and how it ends. A late one is not recorded, and the bytes are cut to those
/// that were read before.
pub(crate) fn keep_turn(
    measures: Measures,
    runs: &mut Vec<RecordedRun>,
    bytes: &mut Vec<u8>,
    course: &mut RecordCourse,
    turn: Turn,
    to: u32,
) -> Recorded
    requires free { vec_len runs.old < vec_capacity runs.old }
    requires turn { IsTurn (measures_by measures) course.old turn }
    ensures tally { tally_by runs.new.items course.new ≡ spec.tally_after (measures_by measures)
        (tally_by runs.old.items course.old) (spec.facts_of turn.from turn.lpib to) }
    ensures bytes { bytes.new.items ≡ (if spec.is_record_late (measures_by measures) course.old to
        then take course.old.read bytes.old.items else bytes.old.items) }
    ensures answer { result ≡ course.new.recorded }
    ensures few { vec_len runs.new ≤ vec_len runs.old + 1 }
    ensures runs_room { vec_capacity runs.old ≤ vec_capacity runs.new }
    ensures bytes_room { vec_capacity bytes.old ≤ vec_capacity bytes.new }
{
    if is_record_late(measures, *course, to) {
        bytes.truncate(course.read as usize);
        course.recorded = Recorded::Late {
            from: course.from,
            to,
        };
        return course.recorded;
    }
    let run = RecordedRun {
        from: turn.from,
        to,
        at: turn.at,
        read: turn.upto - course.read,
    };
    push_within_capacity(runs, run);
    *course = course_after(measures, *course, turn);
    course.recorded
}
