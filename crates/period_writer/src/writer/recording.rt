//! What a run writes and records.
ghost use Rattle.std.specs.Prelude.{◌≡◌, ◌≤◌, ◌<◌, ◌+◌, ◌-◌, ◌^◌, ◌==◌, if◌then◌else◌, length, vec_len, vec_capacity};
ghost use Rattle.hda_world.specs.Tellings.{Between, Makes};
ghost use Rattle.period_writer.specs.Runs as runs;
ghost use Rattle.period_writer.specs.Turns.{facts_by};
ghost use Rattle.period_writer.specs.Writers as writers;
ghost use Rattle.period_writer.specs.Writers.{IsWriter, KeepsRing, tally_of, measures_of, ring_size};
ghost use Rattle.wav_reader.specs.Supplies.{without};

use super::Writer;
use crate::course::{Ran, Run, Span};
use crate::pieces::{Part, write_parts};
use crate::records::{cut_silences, note_silence};
use crate::turns::{Facts, Turn, course_after, late_by, turn_of};
use hda_items::push_within_capacity;
use hda_platform::Platform;
use wav_reader::Supply;

impl Writer {
    /// Where the next run stands that goes by these facts.
    pub(super) fn next_turn(&self, facts: Facts) -> Turn
        ensures at { result.at ≡ runs.run_at (measures_of self.now) self.now.course (facts_by facts 0) }
        ensures reach { result.reach ≡ runs.run_reach (measures_of self.now) self.now.course (facts_by facts 0) }
        ensures start { result.start ≡ runs.run_start (measures_of self.now) self.now.course (facts_by facts 0) }
        ensures sound { result.sound ≡ runs.run_sound (measures_of self.now) self.now.course (facts_by facts 0) }
        ensures sure { result.sure ≡ runs.run_sure (measures_of self.now) self.now.course (facts_by facts 0) }
        ensures back { result.back ≡ runs.takes_back (measures_of self.now) self.now.course (facts_by facts 0) }
        ensures ascends { self.now.course.reach ≤ result.reach }
        ensures low { result.start ≤ self.now.course.reach }
        ensures high { self.now.course.sound_end ≤ result.start }
        ensures fits { result.start + result.sound ≤ result.reach }
        ensures within { result.reach - result.start ≤ ring_size self.now }
        ensures soon { result.at ≤ self.now.course.at + ring_size self.now }
        ensures enough { result.sound ≤ facts.left }
        ensures writer { IsWriter self.now }
    {
        turn_of(&self.geometry, self.course, facts)
    }

    /// Writes what a run leaves of the line: its sound over silence that it takes back, and sound and silence after the
    /// line's end.
    pub(super) fn write_turn<P: Platform>(
        &mut self,
        platform: &mut P,
        supply: &mut Supply,
        turn: Turn,
    )
        requires ascends { self.old.course.reach ≤ turn.reach }
        requires low { turn.start ≤ self.old.course.reach }
        requires within { turn.reach - turn.start ≤ ring_size self.old }
        requires small { turn.reach < 2 ^ 61 }
        requires sound { turn.start + turn.sound ≤ turn.reach }
        requires left { turn.sound ≤ length supply.old.held }
        requires room { writers.touched_by self.old turn.start turn.sound turn.reach ≤ P.spare_accesses platform.old }
        requires bytes_room { turn.reach - turn.start ≤ P.spare_bytes platform.old }
        ensures made { Between (Makes (writers.writes_of self.old turn.start turn.sound turn.reach supply.old.held))
            (P.told platform.old) (P.told platform.new) }
        ensures supply { supply.new ≡ without turn.sound supply.old }
        ensures same { self.new ≡ self.old }
        ensures fixed { P.fixed platform.new ≡ P.fixed platform.old }
        ensures accesses { P.spare_accesses platform.new
            + writers.touched_by self.old turn.start turn.sound turn.reach ≡ P.spare_accesses platform.old }
        ensures bytes { P.spare_bytes platform.new
            + writers.bytes_by self.old turn.start turn.sound turn.reach ≡ P.spare_bytes platform.old }
        ensures few_bytes { P.spare_bytes platform.old ≤ P.spare_bytes platform.new + (turn.reach - turn.start) }
    {
        let reach = self.course.reach;
        let to = reach.min(turn.start + turn.sound);
        let over = Part {
            from: turn.start,
            to,
            sound: to - turn.start,
        };
        let after = Part {
            from: reach,
            to: turn.reach,
            sound: turn.sound - over.sound,
        };
        write_parts(
            platform,
            &mut self.periods,
            &mut self.buffer,
            supply,
            over,
            after,
        );
    }

    /// Records a run, and how it ends; a late one is not recorded.
    pub(super) fn conclude(&mut self, turn: Turn, facts: Facts, to: u32) -> Ran
        requires room { length self.old.runs < self.old.records }
        requires at { turn.at ≡ runs.run_at (measures_of self.old) self.old.course (facts_by facts 0) }
        requires reach { turn.reach ≡ runs.run_reach (measures_of self.old) self.old.course (facts_by facts 0) }
        requires start { turn.start ≡ runs.run_start (measures_of self.old) self.old.course (facts_by facts 0) }
        requires sound { turn.sound ≡ runs.run_sound (measures_of self.old) self.old.course (facts_by facts 0) }
        requires sure { turn.sure ≡ runs.run_sure (measures_of self.old) self.old.course (facts_by facts 0) }
        requires back { turn.back ≡ runs.takes_back (measures_of self.old) self.old.course (facts_by facts 0) }
        requires ascends { self.old.course.reach ≤ turn.reach }
        requires low { turn.start ≤ self.old.course.reach }
        requires high { self.old.course.sound_end ≤ turn.start }
        requires fits { turn.start + turn.sound ≤ turn.reach }
        requires soon { turn.at ≤ self.old.course.at + ring_size self.old }
        ensures tally { tally_of self.new
            ≡ runs.tally_after (measures_of self.old) (tally_of self.old) (facts_by facts to) }
        ensures answer { result ≡ self.new.course.ran }
        ensures keeps { KeepsRing self.old self.new }
    {
        let before = self.course;
        if let Some(ran) = late_by(&self.geometry, before, facts.from, turn.back, to) {
            self.course.sure = turn.sure;
            self.course.ran = ran;
            return ran;
        }
        let run = Run {
            at: turn.at,
            from: facts.from,
            to,
            budget: facts.budget,
            written: turn.sound,
        };
        push_within_capacity(&mut self.runs, run);
        cut_silences(&mut self.silences, turn.start);
        note_rest(&mut self.silences, turn);
        self.course = course_after(before, turn, facts);
        self.course.ran
    }
}

/// Records the silence after the sound of a run, if there is some.
fn note_rest(silences: &mut Vec<Span>, turn: Turn)
    requires room { vec_len silences.old < vec_capacity silences.old }
    requires small { turn.start + turn.sound < 2 ^ 64 }
    ensures items { let start = turn.start + turn.sound in
        silences.new.items ≡ (if start == turn.reach then silences.old.items
        else runs.silent_too silences.old.items (record { start = start; end = turn.reach })) }
    ensures len { vec_len silences.new ≤ vec_len silences.old + 1 }
    ensures capacity { vec_capacity silences.old ≤ vec_capacity silences.new }
{
    let start = turn.start + turn.sound;
    if start != turn.reach {
        note_silence(
            silences,
            Span {
                start,
                end: turn.reach,
            },
        );
    }
}
