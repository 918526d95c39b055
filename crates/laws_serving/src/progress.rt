//! Laws of schedules that serve, each the contract of a function that does nothing.
ghost use Rattle.std.specs.Prelude.{◌≡◌, ℕ, true, false, List, length};
ghost use Rattle.schedule_reader.specs.declared.schedule.Item.{Item};
ghost use Rattle.hda_world.specs.Tellings.{Telling};
ghost use Rattle.period_writer.specs.Runs.{measures};
ghost use Rattle.driver_progress.specs.Tasks.{Task};
ghost use Rattle.driver_progress.specs.Progress.{state_of};
ghost use Rattle.laws_serving.specs.Rounds.{rounds_of};
ghost use Rattle.laws_serving.specs.ServingSchedules.{ServesCommands, ServesSound};
ghost use Rattle.laws_serving.specs.Coming.{HasComeTo};
ghost use Rattle.laws_serving.specs.Runs.{IsTaskTo, IsStartFor, IsRunOf, calls_of};

use crate::commands::{
    a_submission_comes, looks_keep_serving, round_trips_answer, steps_keep_serving,
};
use driver_progress::answers_agree;

/// A driver that plays nothing comes up by a schedule that serves its commands: each call from the third on sends the
/// next command and finds the answer to the one before, until all are sent; the next call, or the last one, finds the
/// last answer. No command is ever given up.
pub fn served_drivers_come_up()
    ensures { (task : Task) (codecs : List ℕ) (items : List Item) (telling : Telling) → task.plays ≡ false
        → IsTaskTo codecs task → IsStartFor codecs task telling.start → IsRunOf task items telling
        → ServesCommands codecs (length task.orders) (rounds_of items)
        → HasComeTo (length task.orders) (length (rounds_of items).rounds) task.plays
        (state_of task (calls_of items) telling) }
{
    looks_keep_serving();
    a_submission_comes();
    steps_keep_serving();
    round_trips_answer();
    answers_agree();
}

/// A driver that plays a sound comes to play it by a schedule that serves its commands and the sound. The call after
/// the one that finds the last answer begins it. It is never late: at the end it plays still, or the line has drained.
pub fn served_drivers_play()
    ensures { (task : Task) (codecs : List ℕ) (items : List Item) (telling : Telling) → task.plays ≡ true
        → IsTaskTo codecs task → IsStartFor codecs task telling.start → IsRunOf task items telling
        → ServesCommands codecs (length task.orders) (rounds_of items)
        → ServesSound (length task.orders) (measures task.geometry).limit (measures task.geometry).slack
        (rounds_of items).rounds
        → HasComeTo (length task.orders) (length (rounds_of items).rounds) task.plays
        (state_of task (calls_of items) telling) }
{
    looks_keep_serving();
    a_submission_comes();
    steps_keep_serving();
    round_trips_answer();
    answers_agree();
}
