//! Laws of what is heard and how codecs are set up once speakers are switched, each the contract of a function that
//! does nothing.
ghost use Rattle.std.specs.Prelude.{◌≡◌, ℕ, Bool, false, List, [], All};
ghost use Rattle.codec_graph.specs.declared.raw.RawCodec.{RawCodec};
ghost use Rattle.codec_graph.specs.Cycles.{IsWellFormed};
ghost use Rattle.codec_graph.specs.CodecStates.{CodecState};
ghost use Rattle.codec_graph.specs.Settings.{IsSettingsOf};
ghost use Rattle.stream_format.specs.declared.format.Format.{Format};
ghost use Rattle.stream_format.specs.Words.{format_word};
ghost use Rattle.stream_format.specs.Layouts.{layout};
ghost use Rattle.route_planner.specs.declared.routes.Plan.{Plan};
ghost use Rattle.heard_frames.specs.HeardLists.{block_size};
ghost use Rattle.hda_world.specs.Worlds.{World, TakenCommand};
ghost use Rattle.period_writer.specs.Runs.{Tally};
ghost use Rattle.laws_settings.specs.Histories.{Remembers};
ghost use Rattle.laws_bring_up.specs.SettingUp.{AreSetUp};
ghost use Rattle.laws_hearing.specs.Streams.{Streams};
ghost use Rattle.laws_stream.specs.Signalled.{HearBySignals};
ghost use Rattle.command_engine.specs.Fetchings.{AscendFrom, graphs_in};
ghost use Rattle.driver_agenda.specs.Planned.{ArePlansBy};
ghost use Rattle.laws_switching.specs.Speakers.{is_switched};
ghost use Rattle.laws_switching.specs.Hearing.{HearSwitched};
ghost use Rattle.laws_switching.specs.SettingUp.{AreSetUpBut};
ghost use Rattle.laws_switching.specs.Turned.{outputs, HasTurned};

use laws_hearing::one_signal_is_played;
use laws_settings::{codecs_remember, frames_remember};
use laws_speakers::{marks_are_the_signals, others_have_no_marks, switched_codecs_are_set_up};

/// Codecs that are set up can be those of the turn, where no link frame carried anything and no command was taken while
/// the output stream ran: the words that they took left the pins of all routes on.
pub fn set_up_codecs_can_turn()
    ensures { (format : Format) (graphs : List RawCodec) (plans : List Plan) (start : List CodecState)
        (world : World) → Remembers start 0 world → graphs_in world.codecs ≡ graphs
        → All (λ (codec : CodecState). IsSettingsOf codec.graph codec.settings) start
        → AreSetUp (outputs format) graphs world → world.carried ≡ []
        → All (λ (one : TakenCommand). one.running ≡ false) world.commands → All IsWellFormed graphs
        → ArePlansBy (outputs format).IsPlanBy graphs plans → HasTurned format graphs plans world }
{
    codecs_remember();
    frames_remember();
    switched_codecs_are_set_up();
}

/// Where each pin hears the line by its signals, each pin to which a pair came at the turn heard the line where it was
/// on by its marks, and nothing where it was off. A pin that is no speaker has no marks, and heard nothing where
/// nothing came to it.
pub fn switched_pins_are_heard()
    ensures { (format : Format) (graphs : List RawCodec) (plans : List Plan) (pcm : List ℕ) (given_up : Bool)
        (tally : Tally) (world : World) (turned : HasTurned format graphs plans world) → All IsWellFormed graphs
        → Streams 1 (format_word format) (block_size (layout format)) 0 world
        → HearBySignals given_up format pcm tally world.carried
        → HearSwitched (is_switched graphs plans) turned.start format pcm given_up tally world.commands
        world.carried }
{
    marks_are_the_signals();
    others_have_no_marks();
    one_signal_is_played();
}

/// Codecs that were set up at the turn stay so, whatever speakers are switched: each route of their plans is open, or
/// its pin silent where the last SetPin that the codec took has out enable clear.
pub fn turned_codecs_are_set_up()
    ensures { (format : Format) (graphs : List RawCodec) (plans : List Plan) (world : World)
        → HasTurned format graphs plans world → All IsWellFormed graphs → AscendFrom 0 graphs
        → ArePlansBy (outputs format).IsPlanBy graphs plans → AreSetUpBut format 1 graphs plans world }
{
    codecs_remember();
    switched_codecs_are_set_up();
}
