//! Laws of switched speakers, each the contract of a function that does nothing.
ghost use Rattle.std.specs.Prelude.{◌≡◌, ◌++◌, ℕ, Bool, false, List, [], All, Some, drop};
ghost use Rattle.codec_graph.specs.Cycles.{IsWellFormed};
ghost use Rattle.codec_graph.specs.declared.raw.RawCodec.{RawCodec};
ghost use Rattle.codec_graph.specs.Settings.{Entries, IsSettingsOf};
ghost use Rattle.codec_graph.specs.CodecStates.{CodecState};
ghost use Rattle.codec_graph.specs.declared.pin_kind.PinKind.{PinKind};
ghost use Rattle.codec_sound.specs.declared.signals.Signal.{Signal};
ghost use Rattle.codec_sound.specs.declared.signals.Signal.TheVariants.{Pair};
ghost use Rattle.stream_format.specs.declared.format.Format.{Format};
ghost use Rattle.stream_format.specs.Layouts.{Layout, layout_of};
ghost use Rattle.route_planner.specs.declared.routes.Plan.{Plan};
ghost use Rattle.setup_verbs.specs.SetUp.{IsSetUp, HasNoRoute};
ghost use Rattle.hda_world.specs.Worlds.{World, codec_at};
ghost use Rattle.heard_frames.specs.HeardLists.{signal_with_as};
ghost use Rattle.heard_frames.specs.Marks.{marks_of_as, switched_signals};
ghost use Rattle.laws_settings.specs.Histories.{Remembers, settings_by, words_to};
ghost use Rattle.laws_settings.specs.Frames.{RemembersFrames};
ghost use Rattle.laws_settings.specs.PinControls.{last_control};
ghost use Rattle.laws_hearing.specs.BySignals.{IsSignalAlong};
ghost use Rattle.laws_hearing.specs.Streams.{Streams};
ghost use Rattle.laws_speakers.specs.SwitchWords.{IsSwitchWord, AreSwitching};
ghost use Rattle.laws_speakers.specs.SetUpBut.{IsSetUpBut, AreRoutesOn};

/// Along all link frames of a stream the signal of a pin that heard a pair at first is the pair where the pin is on by
/// its marks, and silence where it is off. A pin that is no speaker keeps its signal.
pub fn marks_are_the_signals()
    ensures pair { (is_speaker : ℕ → ℕ → Bool) (kind : PinKind) (start : List CodecState) (from : ℕ)
        (world : World) (first : CodecState) (tag word block : ℕ) (layout : Layout) (pin pair : ℕ)
        → Remembers start from world → RemembersFrames start from 0 world → AreSwitching is_speaker from world
        → Streams tag word block 0 world → layout_of word ≡ Some layout
        → codec_at first.graph.address start ≡ Some first
        → IsWellFormed first.graph → IsSettingsOf first.graph first.settings
        → signal_with_as kind (Some first) tag word (Some layout) pin ≡ Pair pair
        → IsSignalAlong kind first.graph.address pin
        (switched_signals (Pair pair) (marks_of_as kind first.graph.address pin world.commands world.carried))
        world.carried }
    ensures others { (is_speaker : ℕ → ℕ → Bool) (kind : PinKind) (start : List CodecState) (from : ℕ)
        (world : World) (tag word block : ℕ) (layout : Layout) (address pin : ℕ) (signal : Signal)
        → Remembers start from world → RemembersFrames start from 0 world → AreSwitching is_speaker from world
        → Streams tag word block 0 world → layout_of word ≡ Some layout
        → is_speaker address pin ≡ false
        → signal_with_as kind (codec_at address start) tag word (Some layout) pin ≡ signal
        → IsSignalAlong kind address pin (λ place. signal) world.carried }
{}

/// A pin that is no speaker has no marks.
pub fn others_have_no_marks()
    ensures { (is_speaker : ℕ → ℕ → Bool) (kind : PinKind) (start : List CodecState) (from : ℕ) (world : World)
        (address pin : ℕ) → Remembers start from world → AreSwitching is_speaker from world
        → is_speaker address pin ≡ false
        → marks_of_as kind address pin world.commands world.carried ≡ [] }
{}

/// A codec that is set up stays so, over words that switch speakers, which are pins of its routes, but for the pins that
/// are off by the last word that set their control. Words that set a codec up left the pins of its routes on: so it is
/// set up so by these at once, and then by these words and later ones together.
pub fn switched_codecs_are_set_up()
    ensures routes { (graph : RawCodec) (settings : Entries) (words : List ℕ) (plan : Plan) (format : Format)
        (tag : ℕ)
        → IsWellFormed graph → IsSettingsOf graph settings
        → IsSetUp graph (settings_by graph settings words) plan format tag
        → AreRoutesOn (λ pin. last_control pin words) plan }
    ensures at_once { (words : List ℕ) (codec : CodecState) (plan : Plan) (format : Format) (tag : ℕ)
        → IsSetUp codec.graph codec.settings plan format tag → AreRoutesOn (λ pin. last_control pin words) plan
        → IsSetUpBut (λ pin. last_control pin words) codec.graph codec.settings plan format tag }
    ensures later { (is_speaker : ℕ → ℕ → Bool) (start : List CodecState) (from : ℕ) (world : World)
        (first now : CodecState) (earlier : List ℕ) (plan : Plan) (format : Format) (tag : ℕ)
        → Remembers start from world → All (IsSwitchWord is_speaker) (words_to first.graph.address
        (drop from world.commands))
        → codec_at first.graph.address start ≡ Some first → codec_at first.graph.address world.codecs ≡ Some now
        → IsWellFormed first.graph → IsSettingsOf first.graph first.settings
        → IsSetUp first.graph first.settings plan format tag
        → AreRoutesOn (λ pin. last_control pin earlier) plan
        → ((pin : ℕ) → HasNoRoute plan pin → is_speaker first.graph.address pin ≡ false)
        → IsSetUpBut (λ pin. last_control pin (earlier ++ words_to first.graph.address (drop from world.commands)))
        now.graph now.settings plan format tag }
{}
