//! Laws of runs by schedules that serve, each the contract of a function that does nothing.
ghost use Rattle.std.specs.Prelude.{◌≡◌, ◌*◌, ℕ, List, length, true};
ghost use Rattle.stream_format.specs.declared.format.Rate.TheVariants.{R48};
ghost use Rattle.stream_format.specs.Cadence.{block_bytes};
ghost use Rattle.codec_graph.specs.declared.pin_kind.PinKind.{PinKind};
ghost use Rattle.codec_graph.specs.declared.pin_kind.PinKind.TheVariants.{Analog};
ghost use Rattle.route_planner.specs.declared.routes.Plan.{Plan};
ghost use Rattle.hda_files.specs.declared.machine.Machine.{Machine};
ghost use Rattle.hda_files.specs.Machines.{IsSound};
ghost use Rattle.schedule_reader.specs.declared.schedule.Schedule.{Schedule};
ghost use Rattle.schedule_reader.specs.Schedules.{IsLimited};
ghost use Rattle.driver_agenda.specs.Planned.{have_route};
ghost use Rattle.wav_reader.specs.declared.wav.Wav.{Wav};
ghost use Rattle.period_writer.specs.declared.geometry.Geometry.{Geometry};
ghost use Rattle.period_writer.specs.Runs.{measures};
ghost use Rattle.laws_start.specs.Reading.{IsWhole};
ghost use Rattle.laws_start.specs.Tasks.{HavePlans};
ghost use Rattle.sound_report.specs.declared.played.Played.{Played};
ghost use Rattle.program_runs.specs.Outputs.{HavePlansOf};
ghost use Rattle.program_runs.specs.Histories.{command_total, journal_of, telling_of_run};
ghost use Rattle.program_runs.specs.Walks.{walk_format, IsWalked};
ghost use Rattle.program_runs.specs.Plays.{IsPlayed};
ghost use Rattle.program_runs.specs.Served.{all_rounds, line_count, ServesBringUp, ServesPlay};
ghost use Rattle.program_runs.specs.Served.{ServedWalkEnds, ServedPlayEnds};
ghost use Rattle.program_runs.specs.Served.{IsFedWhole, PlaysAll, PlaysTurns, PlaysByTurns};
ghost use Rattle.laws_serving.specs.Turns.{EndsInTheLast};

use laws_serving::{
    fed_drivers_play_all, served_drivers_come_up, served_drivers_play, turns_play_exactly,
    turns_serve,
};

/// A walk by a schedule that serves its commands sets all codecs up where the schedule has two driver lines more than
/// the walk has commands. Where it has fewer, it ends with commands left: each line from the third on sent one. No
/// command is given up.
pub fn walks_end_so()
    ensures { (machine : Machine) (plans : List Plan) (schedule : Schedule) (played : Played)
        → IsSound machine → IsWhole machine → HavePlans walk_format machine.codecs plans → IsLimited schedule
        → ServesBringUp Analog walk_format machine plans schedule → IsWalked machine plans schedule played
        → ServedWalkEnds (command_total Analog walk_format machine plans) (line_count schedule) played.fault }
{
    served_drivers_come_up();
}

/// A sound that is played through pins of a kind by a schedule that serves its commands and the sound: where the
/// schedule has fewer driver lines than four more than the commands, it ends with commands left. Else a call plays,
/// none comes too late, and it ends with all played or with frames left.
pub fn plays_end_so()
    ensures { (kind : PinKind) (machine : Machine) (plans : List Plan) (wav : Wav) (geometry : Geometry)
        (schedule : Schedule) (played : Played)
        → IsSound machine → IsWhole machine → HavePlansOf kind wav.format machine.codecs plans → IsLimited schedule
        → ServesPlay kind wav.format machine plans geometry schedule
        → IsPlayed kind machine plans wav geometry schedule played
        → ServedPlayEnds (command_total kind wav.format machine plans) (line_count schedule) (block_bytes wav.format)
        played.total played.runs played.silences played.fault }
{
    served_drivers_play();
}

/// And where each call that plays may write a whole ring, and as many bytes as the sound has were sent when one that is
/// not the first of them begins, all is played, and the line is the whole sound before it is silence.
pub fn plays_all_so()
    ensures { (kind : PinKind) (machine : Machine) (plans : List Plan) (wav : Wav) (geometry : Geometry)
        (schedule : Schedule) (played : Played) (frames : ℕ)
        → IsSound machine → IsWhole machine → HavePlansOf kind wav.format machine.codecs plans → IsLimited schedule
        → ServesPlay kind wav.format machine plans geometry schedule
        → IsPlayed kind machine plans wav geometry schedule played
        → length wav.pcm ≡ frames * block_bytes geometry.format
        → IsFedWhole (command_total kind wav.format machine plans) (measures geometry).ring (length wav.pcm)
        (all_rounds schedule) (telling_of_run machine played).start (journal_of played)
        → PlaysAll (length wav.pcm) played.silences played.fault }
{
    served_drivers_play();
    fed_drivers_play_all();
}

/// And where such a schedule plays a sound of 48 kHz in turns through analog pins, and the sound ends in the last of
/// them, it is said exactly what comes of it: how many runs, which silence, and that no link frame missed its block.
pub fn plays_by_turns_so()
    ensures { (machine : Machine) (plans : List Plan) (wav : Wav) (geometry : Geometry) (schedule : Schedule)
        (played : Played) (frames : ℕ) (lengths : List ℕ)
        → IsSound machine → IsWhole machine → HavePlans wav.format machine.codecs plans → IsLimited schedule
        → ServesPlay Analog wav.format machine plans geometry schedule
        → IsPlayed Analog machine plans wav geometry schedule played
        → geometry.format.rate ≡ R48 → length wav.pcm ≡ frames * block_bytes geometry.format
        → PlaysTurns wav.format machine plans geometry lengths schedule → EndsInTheLast frames lengths
        → PlaysByTurns (measures geometry).ring (measures geometry).block frames lengths played }
{
    served_drivers_play();
    turns_play_exactly();
    turns_serve();
}
