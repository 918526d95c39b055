//! Laws of schedules that play in turns, each the contract of a function that does nothing.
ghost use Rattle.std.specs.Prelude.{◌≡◌, ◌≤◌, ◌+◌, ◌*◌, ℕ, true, List, All, length};
ghost use Rattle.stream_format.specs.Cadence.{block_bytes};
ghost use Rattle.stream_format.specs.declared.format.Rate.TheVariants.{R48};
ghost use Rattle.heard_frames.specs.HeardLists.{heard};
ghost use Rattle.schedule_reader.specs.declared.schedule.Item.{Item};
ghost use Rattle.hda_world.specs.Worlds.{CarriedFrame};
ghost use Rattle.hda_world.specs.Tellings.{Telling, world_of};
ghost use Rattle.laws_stream.specs.Lives.{HasStopped};
ghost use Rattle.period_writer.specs.Runs.{measures};
ghost use Rattle.driver_progress.specs.Tasks.{Task};
ghost use Rattle.driver_progress.specs.Progress.{state_of};
ghost use Rattle.laws_serving.specs.Rounds.{Round, rounds_of};
ghost use Rattle.laws_serving.specs.ServingSchedules.{ServesCommands, ServesSound};
ghost use Rattle.laws_serving.specs.Runs.{IsTaskTo, IsStartFor, IsRunOf, calls_of};
ghost use Rattle.laws_serving.specs.Turns.{PlaysInTurns, EndsInTheLast, CarriedBytes, HasPlayedInTurns, IsNoHole};

use crate::commands::{
    a_submission_comes, looks_keep_serving, round_trips_answer, steps_keep_serving,
};
use driver_progress::answers_agree;
use hda_registers::reset_keeps_state_status;
use hda_world::{accesses_keep_position, steps_keep_position, writes_keep_order};
use laws_hearing::{accesses_beside_keep_it_steady, idle_codecs_keep_their_settings};

/// What comes of a sound of 48 kHz by a schedule that serves its commands and the sound, and plays in turns, so that
/// the sound ends in the last of them. The driver has drained after as many runs as there are turns and one more, the
/// line is the sound and then one silence, up to a ring past the last link frame, and each link frame of the stream
/// carried a block. Where each did, no pin's list has a hole.
pub fn turns_play_exactly()
    ensures turns { (task : Task) (codecs : List ℕ) (items : List Item) (telling : Telling) (frames : ℕ)
        (lengths : List ℕ) → task.plays ≡ true
        → IsTaskTo codecs task → IsStartFor codecs task telling.start → IsRunOf task items telling
        → ServesCommands codecs (length task.orders) (rounds_of items)
        → ServesSound (length task.orders) (measures task.geometry).limit (measures task.geometry).slack
        (rounds_of items).rounds
        → PlaysInTurns (length task.orders) (measures task.geometry).ring (measures task.geometry).block
        telling.start.registers.shape.fifo lengths (rounds_of items).rounds
        → HasStopped telling → task.geometry.format.rate ≡ R48
        → length task.pcm ≡ frames * block_bytes task.geometry.format → EndsInTheLast frames lengths
        → HasPlayedInTurns (measures task.geometry).ring (measures task.geometry).block frames lengths
        (state_of task (calls_of items) telling) (world_of telling) }
    ensures no_holes { (block address pin : ℕ) (carried : List CarriedFrame) → All (CarriedBytes block) carried
        → All IsNoHole (heard address pin carried) }
{
    looks_keep_serving();
    a_submission_comes();
    steps_keep_serving();
    round_trips_answer();
    answers_agree();
    accesses_beside_keep_it_steady();
    idle_codecs_keep_their_settings();
    steps_keep_position();
    accesses_keep_position();
    writes_keep_order();
    reset_keeps_state_status();
}

/// Turns serve the sound where each has no more link frames than may pass from run to run, and a schedule that plays in
/// turns has a driver line for each of them, one behind them, and those before the sound.
pub fn turns_serve()
    ensures sound { (commands ring block fifo limit slack : ℕ) (lengths : List ℕ) (rounds : List Round)
        → PlaysInTurns commands ring block fifo lengths rounds → All (λ (frames : ℕ). frames ≤ limit) lengths
        → ServesSound commands limit slack rounds }
    ensures lines { (commands ring block fifo : ℕ) (lengths : List ℕ) (rounds : List Round)
        → PlaysInTurns commands ring block fifo lengths rounds → length rounds ≡ 4 + commands + length lengths }
{}
