//! Laws of what codecs took, each the contract of a function that does nothing.
ghost use Rattle.std.specs.Prelude.{◌≡◌, ◌≤◌, true, ℕ, List, [], ◌∷◌, ◌++◌, Some, All, drop, take, length, map, slice_get};
ghost use Rattle.std.specs.List.{flat_map};
ghost use Rattle.verb_codes.specs.declared.verbs.Command.{Command};
ghost use Rattle.verb_codes.specs.Verbs.{IsInRange, word_of, reading_of};
ghost use Rattle.codec_graph.specs.declared.raw.RawCodec.{RawCodec};
ghost use Rattle.codec_graph.specs.declared.controls.Control.TheVariants.{Pin};
ghost use Rattle.codec_graph.specs.Settings.{Entries, IsSettingsOf, has_control, setting_of};
ghost use Rattle.codec_graph.specs.Cycles.{IsWellFormed};
ghost use Rattle.codec_graph.specs.CodecStates.{CodecState, answer_to};
ghost use Rattle.codec_walk.specs.Commands.{walk_commands};
ghost use Rattle.codec_walk.specs.Replies.{CanAnswer};
ghost use Rattle.stream_format.specs.declared.format.Format.{Format};
ghost use Rattle.route_planner.specs.declared.routes.Plan.{Plan};
ghost use Rattle.route_planner.specs.Plans.{IsPlan};
ghost use Rattle.setup_verbs.specs.VerbList.{setup_verbs};
ghost use Rattle.setup_verbs.specs.SetUp.{IsSetUp, settings_after};
ghost use Rattle.world_steps.specs.declared.Step.{Step};
ghost use Rattle.hda_world.specs.Worlds.{World, TakenCommand, codec_at};
ghost use Rattle.hda_world.specs.Steps.{address_of, after_steps};
ghost use Rattle.hda_world.specs.Events.{Event, after};
ghost use Rattle.laws_settings.specs.Histories.{Remembers, FoundTaken, settings_by, words_of, words_to};
ghost use Rattle.laws_settings.specs.Addressed.{words_naming, commands_to, graphs_at, GoToTheirCodecs, CanBeSent};
ghost use Rattle.laws_settings.specs.Addressed.{IsSetBy};
ghost use Rattle.laws_settings.specs.Readings.{IsReading, KeepsDefaults, then_set_up};
ghost use Rattle.laws_settings.specs.Frames.{RemembersFrames};
ghost use Rattle.laws_settings.specs.PinControls.{control_with, last_control};

/// A world remembers its own codecs, and goes on remembering over steps of the device and over all other events: each
/// codec has its graph still and the settings that came of the words that it took since, and each command since was
/// taken by the codec that its word names, as that was by then. So too of the codec that is found at an address.
pub fn codecs_remember()
    ensures begins { (world : World) → Remembers world.codecs (length world.commands) world }
    ensures steps { (start : List CodecState) (from : ℕ) (steps : List Step) (world : World)
        → Remembers start from world
        → Remembers start from (after_steps steps world) }
    ensures events { (start : List CodecState) (from : ℕ) (events : List Event) (world : World)
        → Remembers start from world
        → Remembers start from (after events world) }
    ensures found { (start : List CodecState) (from : ℕ) (world : World) (address : ℕ) → Remembers start from world
        → FoundTaken (drop from world.commands) (codec_at address start) (codec_at address world.codecs) }
{}

/// Words that only ask leave all settings as they are, of one graph and of all codecs of a world that remembers. The
/// commands of a walk over a well-formed graph at an address of 0 to 14 can be encoded, and their words only ask.
pub fn readings_leave_settings()
    ensures words { (graph : RawCodec) (settings : Entries) (words : List ℕ) → All IsReading words
        → settings_by graph settings words ≡ settings }
    ensures codecs { (start : List CodecState) (from : ℕ) (world : World) → Remembers start from world
        → All IsReading (words_of (drop from world.commands))
        → map (λ (codec : CodecState). codec.settings) world.codecs ≡ map (λ (codec : CodecState). codec.settings)
        start }
    ensures in_range { (graph : RawCodec) → IsWellFormed graph → graph.address ≤ 14
        → All IsInRange (walk_commands graph) }
    ensures walk { (graph : RawCodec) → IsWellFormed graph → graph.address ≤ 14
        → All IsReading (map word_of (walk_commands graph)) }
    ensures walks { (graphs : List RawCodec) → All IsWellFormed graphs
        → All (λ (graph : RawCodec). graph.address ≤ 14) graphs
        → All IsReading (map word_of (flat_map walk_commands graphs)) }
{}

/// The word of a command in range names the command's codec. So of the words of commands those of the commands to a
/// codec name it; where each graph's commands go to its codec, those are the commands of the graphs at that address;
/// and in a world that remembers the words that went to a codec are those that name it.
pub fn words_name_their_codecs()
    ensures word { (command : Command) → IsInRange command → address_of (word_of command) ≡ command.codec }
    ensures words { (address : ℕ) (commands : List Command) → All IsInRange commands
        → words_naming address (map word_of commands) ≡ map word_of (commands_to address commands) }
    ensures graphs { (address : ℕ) (commands : RawCodec → List Command) (graphs : List RawCodec)
        → GoToTheirCodecs commands graphs
        → commands_to address (flat_map commands graphs) ≡ flat_map commands (graphs_at address graphs) }
    ensures world { (start : List CodecState) (from : ℕ) (world : World) (address : ℕ) → Remembers start from world
        → words_to address (drop from world.commands) ≡ words_naming address (words_of (drop from world.commands)) }
{}

/// The words of commands in range do what the commands do, also after words that only ask, and so in a world that
/// remembers with the codec that took such words since. Where they are those of the set-up verbs of a well-formed
/// graph's plan, and the graph's address is one of 0 to 14, its codec is set up then: every route of the plan is open,
/// and every other pin widget is silent.
pub fn verbs_set_up()
    ensures commands { (graph : RawCodec) (settings : Entries) (commands : List Command) → All IsInRange commands
        → settings_by graph settings (map word_of commands) ≡ settings_after graph settings commands }
    ensures readings { (graph : RawCodec) (settings : Entries) (readings : List ℕ) (commands : List Command)
        → All IsReading readings
        → All IsInRange commands
        → settings_by graph settings (readings ++ map word_of commands) ≡ settings_after graph settings commands }
    ensures set { (start : List CodecState) (from : ℕ) (world : World) (first now : CodecState) (readings : List ℕ)
        (commands : List Command) → Remembers start from world → codec_at first.graph.address start ≡ Some first
        → codec_at first.graph.address world.codecs ≡ Some now → All IsReading readings → All IsInRange commands
        → words_to first.graph.address (drop from world.commands) ≡ readings ++ map word_of commands
        → IsSetBy commands first now }
    ensures words { (graph : RawCodec) (plan : Plan) (format : Format) (tag : ℕ) (settings : Entries)
        (readings : List ℕ)
        → IsWellFormed graph → IsPlan graph format plan → graph.address ≤ 14 → 1 ≤ tag → tag ≤ 15
        → IsSettingsOf graph settings
        → All IsReading readings
        → IsSetUp graph (settings_by graph settings (then_set_up readings graph plan format tag)) plan format tag }
    ensures codec { (start : List CodecState) (from : ℕ) (world : World) (first now : CodecState) (plan : Plan)
        (format : Format)
        (tag : ℕ) (readings : List ℕ) → Remembers start from world → codec_at first.graph.address start ≡ Some first
        → codec_at first.graph.address world.codecs ≡ Some now → IsWellFormed first.graph
        → IsSettingsOf first.graph first.settings
        → IsPlan first.graph format plan → first.graph.address ≤ 14 → 1 ≤ tag → tag ≤ 15 → All IsReading readings
        → words_to first.graph.address (drop from world.commands) ≡ then_set_up readings first.graph plan format tag
        → IsSetUp now.graph now.settings plan format tag }
{}

/// Where codecs took the commands of the walks over some graphs, one after the other, and then commands of each graph's
/// own, a codec whose graph alone has its address has the settings that its own commands make. Where these are its
/// set-up verbs, it is set up.
pub fn each_codec_takes_its_own()
    ensures settings { (start : List CodecState) (from : ℕ) (world : World) (first now : CodecState)
        (verbs : RawCodec → List Command) (graphs : List RawCodec) → Remembers start from world
        → codec_at first.graph.address start ≡ Some first → codec_at first.graph.address world.codecs ≡ Some now
        → CanBeSent verbs graphs → graphs_at first.graph.address graphs ≡ first.graph ∷ []
        → words_of (drop from world.commands) ≡ map word_of (flat_map walk_commands graphs ++ flat_map verbs graphs)
        → IsSetBy (verbs first.graph) first now }
    ensures set_up { (first now : CodecState) (plan : Plan) (format : Format) (tag : ℕ) → IsWellFormed first.graph
        → IsPlan first.graph format plan → 1 ≤ tag → tag ≤ 15 → IsSettingsOf first.graph first.settings
        → IsSetBy (setup_verbs first.graph plan format tag) first now → IsSetUp now.graph now.settings plan format tag }
{}

/// In a world that remembers codecs with their pins' defaults, what a codec answered to a command is what its graph can
/// answer, where the words that this codec took since then and before that command only asked, and so where all words
/// before it did.
pub fn an_answer_is_a_reply()
    ensures to_it { (start : List CodecState) (from : ℕ) (world : World) (place : ℕ) (one : TakenCommand)
        (command : Command)
        → Remembers start from world → All KeepsDefaults start → slice_get (drop from world.commands) place ≡ Some one
        → All IsReading (words_to one.codec.graph.address (take place (drop from world.commands)))
        → reading_of one.word ≡ Some command → CanAnswer one.codec.graph command (answer_to one.codec one.word) }
    ensures to_all { (start : List CodecState) (from : ℕ) (world : World) (place : ℕ) (one : TakenCommand)
        (command : Command)
        → Remembers start from world → All KeepsDefaults start → slice_get (drop from world.commands) place ≡ Some one
        → All IsReading (words_of (take place (drop from world.commands)))
        → reading_of one.word ≡ Some command → CanAnswer one.codec.graph command (answer_to one.codec one.word) }
{}

/// A world that remembers codecs goes on remembering what link frames found of them, over steps of the device and over
/// all other events: each later link frame found them as the commands made them that were taken before it. It begins
/// with the world's own codecs.
pub fn frames_remember()
    ensures begins { (world : World)
        → RemembersFrames world.codecs (length world.commands) (length world.carried) world }
    ensures steps { (start : List CodecState) (from frames : ℕ) (steps : List Step) (world : World)
        → Remembers start from world → RemembersFrames start from frames world
        → RemembersFrames start from frames (after_steps steps world) }
    ensures events { (start : List CodecState) (from frames : ℕ) (events : List Event) (world : World)
        → Remembers start from world → RemembersFrames start from frames world
        → RemembersFrames start from frames (after events world) }
{}

/// After some words the control of a pin is what the last of them put that set it, with the bits that a pin keeps, or
/// as it was where none did.
pub fn the_last_pin_control_stands()
    ensures { (graph : RawCodec) (settings : Entries) (pin : ℕ) (words : List ℕ) → IsWellFormed graph
        → IsSettingsOf graph settings → has_control graph pin Pin ≡ true
        → setting_of (settings_by graph settings words) pin Pin
        ≡ control_with (last_control pin words) (setting_of settings pin Pin) }
{}
