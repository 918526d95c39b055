//! A law of made runs, the contract of a function that does nothing.
ghost use Rattle.std.specs.Prelude.{ℕ};
ghost use Rattle.sound_report.specs.declared.played.Played.{Played};
ghost use Rattle.program_runs.specs.MadeRuns.{IsMadeRun};
ghost use Rattle.hda_program.specs.MadeEnds.{MadeRunEnds};

use codec_graph::one_order;
use laws_serving::turns_serve;
use made_inputs::made_codec_is_well_formed;
use program_runs::plays_by_turns_so;

/// A made run plays all of its sound: by one run for each turn of its schedule and one more, without a hole, and behind
/// the sound the line is silent for the link frames of the turns that it does not reach, and for a ring.
pub(crate) fn made_runs_end_so()
    ensures { (number : ℕ) (played : Played) → IsMadeRun number played → MadeRunEnds number played }
{
    made_codec_is_well_formed();
    one_order();
    plays_by_turns_so();
    turns_serve();
}
