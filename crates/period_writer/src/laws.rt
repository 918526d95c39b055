//! Laws of the line, each the contract of a function that does nothing.
ghost use Rattle.std.specs.Prelude.{◌≡◌, ◌≤◌, ◌+◌, ◌++◌, ℕ, List, length, take, drop, min, true, false};
ghost use Rattle.period_writer.specs.Courses.{IsCourse};
ghost use Rattle.period_writer.specs.Lines.{IsLine, line_of, line_after};
ghost use Rattle.period_writer.specs.Owning.{IsWritten};
ghost use Rattle.period_writer.specs.Playing.{run_bytes};
ghost use Rattle.period_writer.specs.Runs.{Measures, RunFacts, Stretch, Tally, facts_of, tally_if, tally_after};
ghost use Rattle.period_writer.specs.Runs.{tally_opened};
ghost use Rattle.period_writer.specs.Runs.{run_cut, run_reach, run_start, run_sound, takes_back, tally_on, HasRingLeft};

use crate::registers::{CONTROL, FORMAT, LAST_INDEX, LIST_ADDRESS, POSITION, RING_LENGTH};

/// A run that is not late appends its sound and the silence after it to the line, whose silences stay maximal, and all
/// else of which is the sound in order. Where it takes silence back, the line is cut before. The same said of the line
/// as a list of bytes: it is cut or not, gets so many bytes of the sound, and then zeros up to the reach.
pub fn runs_append_to_the_line()
    ensures opened { IsLine tally_opened }
    ensures kept { (m : Measures) (runs : ℕ) (tally : Tally) (facts : RunFacts)
        → IsCourse m.ring runs tally.course → IsLine tally → IsLine (tally_if false m tally facts) }
    ensures grows { (m : Measures) (runs : ℕ) (tally : Tally) (facts : RunFacts) (pcm : List ℕ)
        → IsCourse m.ring runs tally.course → IsLine tally → takes_back m tally.course facts ≡ false
        → line_of (tally_if false m tally facts) pcm
        ≡ line_of tally pcm ++ run_bytes m tally.course facts (drop tally.course.used pcm) }
    ensures cut { (m : Measures) (runs : ℕ) (tally : Tally) (facts : RunFacts) (pcm : List ℕ)
        → IsCourse m.ring runs tally.course → IsWritten pcm tally
        → line_of (tally_if false m tally facts) pcm
        ≡ take (run_start m tally.course facts) (line_of tally pcm)
        ++ run_bytes m tally.course facts (drop tally.course.used pcm) }
    ensures letter { (m : Measures) (runs : ℕ) (tally : Tally) (facts : RunFacts) (pcm : List ℕ)
        → IsCourse m.ring runs tally.course → IsWritten pcm tally
        → run_sound m tally.course facts ≤ length (drop tally.course.used pcm)
        → line_of (tally_if false m tally facts) pcm
        ≡ line_after (takes_back m tally.course facts) (run_cut m tally.course facts)
        (run_sound m tally.course facts) (run_reach m tally.course facts) (line_of tally pcm)
        (drop tally.course.used pcm) }
{}

/// What was written stays whole: the line is as long as the reach of its last run, it is silent from the end of its
/// sound on, and what is sure of it is no more. So it is before the first run, after each run that writes no more sound
/// than there is, and after a late one, which leaves the line as it was.
pub fn runs_write_the_line()
    ensures opened { (pcm : List ℕ) → IsWritten pcm tally_opened }
    ensures kept { (m : Measures) (runs : ℕ) (tally : Tally) (facts : RunFacts) (pcm : List ℕ)
        → IsCourse m.ring runs tally.course → IsWritten pcm tally
        → run_sound m tally.course facts ≤ length (drop tally.course.used pcm)
        → IsWritten pcm (tally_if false m tally facts) }
    ensures late { (m : Measures) (runs : ℕ) (tally : Tally) (facts : RunFacts) (pcm : List ℕ)
        → IsCourse m.ring runs tally.course → IsWritten pcm tally → IsWritten pcm (tally_if true m tally facts) }
{}

/// Sound that a run could not take yet changes nothing of it: a run over a part of the sound that is left, which has as
/// much as the budget and the ring take, is recorded as one over all of it. So runs before which a whole ring of a
/// sound's front was left each time are those over the whole sound: where the reading of a sound is cut, the runs
/// before the cut are those that would have been made had it been read to its end.
pub fn later_sound_changes_no_run()
    ensures run { (m : Measures) (runs : ℕ) (tally : Tally) (budget left part from lpib to : ℕ)
        → 1 ≤ m.ring → IsCourse m.ring runs tally.course → part ≤ left → min budget (min m.ring left) ≤ part
        → (tally.course.started ≡ true → part ≡ 0 → left ≡ 0)
        → tally_after m tally (facts_of budget left from lpib to)
        ≡ tally_after m tally (facts_of budget part from lpib to) }
    ensures runs { (m : Measures) (runs total more : ℕ) (tally : Tally) (stretches : List Stretch)
        → 1 ≤ m.ring → IsCourse m.ring runs tally.course → HasRingLeft m total tally stretches
        → tally_on m (total + more) tally stretches ≡ tally_on m total tally stretches }
{}

/// Where a run stands is kept by runs: the line ends one ring ahead of the last one, and neither the sound nor its end
/// is past that.
pub fn runs_keep_the_course()
    ensures opened { (ring : ℕ) → IsCourse ring 0 tally_opened.course }
    ensures kept { (m : Measures) (runs : ℕ) (tally : Tally) (facts : RunFacts)
        → 1 ≤ m.ring → IsCourse m.ring runs tally.course
        → IsCourse m.ring (runs + 1) (tally_if false m tally facts).course }
    ensures late { (m : Measures) (runs : ℕ) (tally : Tally) (facts : RunFacts) → IsCourse m.ring runs tally.course
        → IsCourse m.ring runs (tally_if true m tally facts).course }
{}

/// Where the registers of the output stream's descriptor stand (HDA 1.0a, 3.3.35 to 3.3.42).
pub fn registers_are_the_descriptors()
    ensures control { CONTROL ≡ 0xA0 }
    ensures position { POSITION ≡ 0xA4 }
    ensures length { RING_LENGTH ≡ 0xA8 }
    ensures last { LAST_INDEX ≡ 0xAC }
    ensures format { FORMAT ≡ 0xB2 }
    ensures list { LIST_ADDRESS ≡ 0xB8 }
{}
