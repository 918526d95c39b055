//! What a run does, by the numbers that it read.
ghost use Rattle.std.specs.Prelude.{◌≡◌, ◌≤◌, ◌<◌, ◌-◌, ◌^◌, ◌+◌, ◌*◌, ◌==◌, ◌&&◌, true, nat_le, if◌then◌else◌};
ghost use Rattle.period_writer.specs.Rings.{ring_bytes};
ghost use Rattle.period_writer.specs.Courses.{IsCourse};
ghost use Rattle.period_writer.specs.Runs as spec;
ghost use Rattle.period_writer.specs.Turns.{facts_by};

use crate::course::{Course, Ran};
use crate::geometry::Geometry;
use hda_registers::places::TICKS_PER_FRAME;

/// What a run goes by: how many bytes of sound it may write, how many are left, the clock that it read first, and LPIB.
#[derive(Clone, Copy)]
pub(crate) struct Facts {
    pub(crate) budget: u32,
    pub(crate) left: u64,
    pub(crate) from: u32,
    pub(crate) lpib: u32,
}

/// Where a run stands: the position of the link, the new end of the line, where its sound begins and how many bytes
/// it has, below which position what was fetched stays the line, and whether it takes silence back.
#[derive(Clone, Copy)]
pub(crate) struct Turn {
    pub(crate) at: u64,
    pub(crate) reach: u64,
    pub(crate) start: u64,
    pub(crate) sound: u64,
    pub(crate) sure: u64,
    pub(crate) back: bool,
}

/// The first position from an earlier one on that LPIB stands for.
fn position_from(ring: u64, earlier: u64, lpib: u32) -> u64
    requires some { 1 ≤ ring }
    requires few { ring < 2 ^ 22 }
    requires small { earlier < 2 ^ 60 }
    ensures value { result ≡ spec.position_from ring earlier lpib }
    ensures later { earlier ≤ result }
    ensures soon { result < earlier + ring }
{
    earlier + (u64::from(lpib) + (ring - earlier % ring)) % ring
}

/// The position of the link.
fn position_of(ring: u64, course: Course, lpib: u32) -> u64
    requires some { 1 ≤ ring }
    requires few { ring < 2 ^ 22 }
    requires small { course.at < 2 ^ 60 }
    ensures value { result ≡ (if course.started then spec.position_from ring course.at lpib else 0) }
    ensures soon { result ≤ course.at + ring }
{
    if course.started {
        position_from(ring, course.at, lpib)
    } else {
        0
    }
}

/// As many bytes as whole blocks have.
fn whole_blocks(block: u32, bytes: u64) -> u64
    requires { 1 ≤ block }
    ensures value { result ≡ spec.whole_blocks block bytes }
    ensures most { result ≤ bytes }
{
    bytes - bytes % u64::from(block)
}

/// The bytes of a block, at least 1.
fn block_of(geometry: &Geometry) -> u32
    ensures value { result ≡ (spec.measures geometry.now).block }
    ensures some { 1 ≤ result }
{
    geometry.format().block_bytes()
}

/// Where silence may be taken back from.
fn cut_of(course: Course, turn: u64) -> u64
    ensures value { result ≡ spec.cut_by course turn }
    ensures within { result ≤ course.reach }
{
    course.reach.min(turn.max(course.sound_end))
}

/// Whether silence is taken back.
fn is_back(course: Course, cut: u64, sound: u64) -> bool
    ensures { result ≡ spec.is_back course cut sound }
{
    cut < course.reach && sound != 0
}

/// One place or another.
fn choose(back: bool, one: u64, other: u64) -> u64
    ensures { result ≡ (if back then one else other) }
{
    if back { one } else { other }
}

/// Where a run stands that goes by these facts.
pub(crate) fn turn_of(geometry: &Geometry, course: Course, facts: Facts) -> Turn
    requires some { 1 ≤ ring_bytes geometry.now.periods geometry.now.period }
    requires few { ring_bytes geometry.now.periods geometry.now.period < 2 ^ 22 }
    requires small { course.at < 2 ^ 60 }
    requires reach { course.reach
        ≡ (if course.started then course.at + ring_bytes geometry.now.periods geometry.now.period else 0) }
    requires sound_end { course.sound_end ≤ course.reach }
    ensures at { result.at ≡ spec.run_at (spec.measures geometry.now) course (facts_by facts 0) }
    ensures reach { result.reach ≡ spec.run_reach (spec.measures geometry.now) course (facts_by facts 0) }
    ensures start { result.start ≡ spec.run_start (spec.measures geometry.now) course (facts_by facts 0) }
    ensures sound { result.sound ≡ spec.run_sound (spec.measures geometry.now) course (facts_by facts 0) }
    ensures sure { result.sure ≡ spec.run_sure (spec.measures geometry.now) course (facts_by facts 0) }
    ensures back { result.back ≡ spec.takes_back (spec.measures geometry.now) course (facts_by facts 0) }
    ensures ascends { course.reach ≤ result.reach }
    ensures low { result.start ≤ course.reach }
    ensures high { course.sound_end ≤ result.start }
    ensures after { result.at ≤ result.start }
    ensures fits { result.start + result.sound ≤ result.reach }
    ensures within { result.reach - result.start ≤ ring_bytes geometry.now.periods geometry.now.period }
    ensures soon { result.at ≤ course.at + ring_bytes geometry.now.periods geometry.now.period }
    ensures enough { result.sound ≤ facts.left }
{
    let ring = u64::from(geometry.ring());
    let at = position_of(ring, course, facts.lpib);
    let reach = at + ring;
    let turn = at + u64::from(geometry.ahead());
    let cut = cut_of(course, turn);
    let room = reach - cut;
    let bytes = u64::from(facts.budget).min(room.min(facts.left));
    let sound = whole_blocks(block_of(geometry), bytes);
    let back = is_back(course, cut, sound);
    Turn {
        at,
        reach,
        start: choose(back, cut, course.reach),
        sound,
        sure: choose(back, course.reach.min(turn), course.reach),
        back,
    }
}

/// Whether more time passed than so many link frames take.
fn is_over(frames: u32, from: u32, to: u32) -> bool
    ensures { result ≡ spec.is_over frames from to }
{
    u64::from(TICKS_PER_FRAME) * u64::from(frames) < u64::from(to.saturating_sub(from))
}

/// How a run is late that read this clock last, if it is.
pub(crate) fn late_by(
    geometry: &Geometry,
    course: Course,
    from: u32,
    back: bool,
    to: u32,
) -> Option<Ran>
    ensures { result ≡ spec.late_by (spec.measures geometry.now) course from back to }
{
    if course.started && is_over(geometry.limit(), course.from, to) {
        return Some(Ran::Late {
            from: course.from,
            to,
            limit: geometry.limit(),
        });
    }
    if back && is_over(geometry.slack(), from, to) {
        return Some(Ran::Late {
            from,
            to,
            limit: geometry.slack(),
        });
    }
    None
}

/// Where the last byte of sound ends after a run.
fn sound_end(course: Course, turn: Turn) -> u64
    requires { turn.start + turn.sound < 2 ^ 64 }
    ensures { result ≡ (if turn.sound == 0 then course.sound_end else turn.start + turn.sound) }
{
    if turn.sound == 0 {
        course.sound_end
    } else {
        turn.start + turn.sound
    }
}

/// How a run ends that is not late.
fn ending(course: Course, turn: Turn, left: u64, sound_end: u64) -> Ran
    ensures { result
        ≡ (if course.started && left == turn.sound && nat_le sound_end turn.at then Ran.Drained else Ran.Playing) }
{
    if course.started && left == turn.sound && sound_end <= turn.at {
        Ran::Drained
    } else {
        Ran::Playing
    }
}

/// The course after a run that is not late.
pub(crate) fn course_after(course: Course, turn: Turn, facts: Facts) -> Course
    requires sound { turn.start + turn.sound < 2 ^ 64 }
    requires used { course.used + turn.sound < 2 ^ 64 }
    ensures { let end = (if turn.sound == 0 then course.sound_end else turn.start + turn.sound) in
        result ≡ record {
          started = true;
          at = turn.at;
          from = facts.from;
          reach = turn.reach;
          sure = turn.reach;
          used = course.used + turn.sound;
          sound_end = end;
          ran = if course.started && facts.left == turn.sound && nat_le end turn.at then Ran.Drained else Ran.Playing;
        } }
{
    let end = sound_end(course, turn);
    Course {
        started: true,
        at: turn.at,
        from: facts.from,
        reach: turn.reach,
        sure: turn.reach,
        used: course.used + turn.sound,
        sound_end: end,
        ran: ending(course, turn, facts.left, end),
    }
}
