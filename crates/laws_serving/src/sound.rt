//! Laws of schedules that feed a sound, each the contract of a function that does nothing.
ghost use Rattle.std.specs.Prelude.{◌≡◌, ◌≤◌, ◌+◌, ◌*◌, ℕ, true, List, All, length};
ghost use Rattle.stream_format.specs.Cadence.{block_bytes};
ghost use Rattle.schedule_reader.specs.declared.schedule.Item.{Item};
ghost use Rattle.hda_world.specs.Tellings.{Telling};
ghost use Rattle.laws_stream.specs.Lives.{HasStopped};
ghost use Rattle.period_writer.specs.Runs.{measures};
ghost use Rattle.driver_progress.specs.declared.phase.Phase.TheVariants.{Drained};
ghost use Rattle.driver_progress.specs.Tasks.{Task};
ghost use Rattle.driver_progress.specs.Progress.{state_of};
ghost use Rattle.laws_serving.specs.Rounds.{rounds_of};
ghost use Rattle.laws_serving.specs.ServingSchedules.{IsCalmRound, ServesCommands, ServesSound, MayFillTheRing};
ghost use Rattle.laws_serving.specs.Runs.{IsTaskTo, IsStartFor, IsRunOf, calls_of};
ghost use Rattle.laws_serving.specs.Feeding.{HasSentBefore, IsUnbroken};

use crate::commands::{
    a_submission_comes, looks_keep_serving, round_trips_answer, steps_keep_serving,
};
use driver_progress::answers_agree;
use hda_world::{accesses_keep_position, steps_keep_position, writes_keep_order};
use laws_hearing::{accesses_beside_keep_it_steady, idle_codecs_keep_their_settings};

/// A driver plays all of a sound of whole blocks by a schedule that serves its commands and the sound, where each call
/// that plays may write a whole ring, and as many bytes as the sound has were sent when one that is not the first of
/// them begins. Its last call finds the line drained, and no silence begins before the sound's end. And where a call
/// begins behind so many others, the schedule has as many driver lines.
pub fn fed_drivers_play_all()
    ensures all { (task : Task) (codecs : List ℕ) (items : List Item) (telling : Telling) (frames : ℕ)
        → task.plays ≡ true
        → IsTaskTo codecs task → IsStartFor codecs task telling.start → IsRunOf task items telling
        → ServesCommands codecs (length task.orders) (rounds_of items)
        → ServesSound (length task.orders) (measures task.geometry).limit (measures task.geometry).slack
        (rounds_of items).rounds
        → MayFillTheRing (length task.orders) (measures task.geometry).ring (rounds_of items).rounds
        → HasStopped telling → length task.pcm ≡ frames * block_bytes task.geometry.format
        → HasSentBefore (4 + length task.orders) (length task.pcm) telling.start telling.journal
        → ((state_of task (calls_of items) telling).phase ≡ Drained)
        × IsUnbroken (length task.pcm) (state_of task (calls_of items) telling).tally.silences }
    ensures lines { (task : Task) (items : List Item) (telling : Telling) (calls bytes : ℕ)
        → IsRunOf task items telling → All IsCalmRound (rounds_of items).rounds
        → HasSentBefore calls bytes telling.start telling.journal → calls ≤ length (rounds_of items).rounds }
{
    looks_keep_serving();
    a_submission_comes();
    steps_keep_serving();
    round_trips_answer();
    answers_agree();
    accesses_beside_keep_it_steady();
    idle_codecs_keep_their_settings();
    steps_keep_position();
    accesses_keep_position();
    writes_keep_order();
}
