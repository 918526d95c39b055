//! Laws of heard lists, each the contract of a function that does nothing.
ghost use Rattle.std.specs.Prelude.{◌≡◌, ◌≤◌, ◌<◌, ◌/◌, ◌++◌, All, get_or, pos, negsuc, ℕ};
ghost use Rattle.std.specs.Prelude.{List, [], ◌∷◌, length, Option};
ghost use Rattle.std.specs.Prelude.{Some, MatchOption, option_map};
ghost use Rattle.codec_graph.specs.CodecStates.{CodecState};
ghost use Rattle.stream_format.specs.declared.format.Format.{Format};
ghost use Rattle.stream_format.specs.Layouts.{Layout, layout, layout_of};
ghost use Rattle.stream_format.specs.Samples.{sample_of};
ghost use Rattle.stream_format.specs.Words.{format_word, HasNoFormat};
ghost use Rattle.world_streams.specs.Output.{Sent, Missed};
ghost use Rattle.hda_world.specs.Worlds.{CarriedFrame, TakenCommand};
ghost use Rattle.heard_frames.specs.Marks.{marks_of_as};
ghost use Rattle.codec_graph.specs.declared.pin_kind.PinKind.{PinKind};
ghost use Rattle.codec_sound.specs.declared.signals.Signal.{Signal};
ghost use Rattle.codec_sound.specs.declared.signals.Signal.TheVariants.{Silence, Pair};
ghost use Rattle.heard_frames.specs.declared.heard.Heard.TheVariants.{Sound, Quiet, Hole};
ghost use Rattle.stream_format.specs.declared.format.Rate.TheVariants.{R48};
ghost use Rattle.stream_format.specs.declared.format.Bits.TheVariants.{B16};
ghost use Rattle.codec_sound.specs.Keeping.{signal_by, signal_by_as};
ghost use Rattle.heard_frames.specs.HeardLists.{block_at, block_size, sample_in, item_of, heard_in, signal_with};
ghost use Rattle.heard_frames.specs.HeardLists.{frame_items, frame_items_as, heard, heard_as, signal_with_as};

/// The signals that are kept by the format of a word are those by which the lists of that word's frames grow.
pub fn kept_signals_are_those_of_words()
    ensures { (codec : CodecState) (tag word pin : ℕ) (format : Option Format)
        → option_map layout format ≡ layout_of word
        → MatchOption format (HasNoFormat word) (λ f. format_word f ≡ word)
        → signal_by codec.graph codec.settings tag format pin ≡ signal_with (Some codec) tag word (layout_of word) pin }
{}

/// The samples of items are those of the format.
pub fn heard_samples_are_the_formats()
    ensures { (format : Format) (block : List ℕ) (channel : ℕ)
        → sample_in (layout format) block channel ≡ sample_of format block channel }
{}

/// The list of a history that goes on is the list before, and then the items of what was added.
pub fn heard_lists_go_on()
    ensures history { (address pin : ℕ) (before added : List CarriedFrame)
        → heard address pin (before ++ added) ≡ heard address pin before ++ heard address pin added }
    ensures frame { (address pin : ℕ) (before : List CarriedFrame) (frame : CarriedFrame)
        → heard address pin (before ++ frame ∷ []) ≡ heard address pin before ++ frame_items address pin frame }
{}

/// A link frame that missed its blocks adds one hole to each list, one without bytes adds nothing, and any other adds
/// one item for each whole block.
pub fn frames_add_their_items()
    ensures missed { (address pin : ℕ) (frame : CarriedFrame) → frame.carriage ≡ Missed
        → frame_items address pin frame ≡ Hole ∷ [] }
    ensures empty { (address pin : ℕ) (frame : CarriedFrame) → frame.carriage ≡ Sent []
        → frame_items address pin frame ≡ [] }
    ensures each { (layout : Layout) (signal : Signal) (bytes : List ℕ)
        → length (heard_in (Some layout) signal (Sent bytes)) ≡ length bytes / block_size layout }
    ensures item { (layout : Layout) (signal : Signal) (bytes : List ℕ) (place : ℕ)
        → place < length bytes / block_size layout
        → get_or (heard_in (Some layout) signal (Sent bytes)) place Hole ≡ item_of layout signal
        (block_at (block_size layout) bytes place) }
{}

/// Bytes as items: of two blocks of two channels of 16 bits, and of one of four. The left sample of a pair comes first,
/// and so does a sample's lower byte.
pub fn bytes_are_items()
    ensures sound { heard_in (Some (record { rate = R48; bits = B16; channels = 2 })) (Pair 0)
        (Sent (1 ∷ 0 ∷ 2 ∷ 0 ∷ 3 ∷ 0 ∷ 255 ∷ 255 ∷ []))
        ≡ Sound (pos 1) (pos 2) ∷ Sound (pos 3) (negsuc 0) ∷ [] }
    ensures other_pair { heard_in (Some (record { rate = R48; bits = B16; channels = 4 })) (Pair 1)
        (Sent (1 ∷ 0 ∷ 2 ∷ 0 ∷ 3 ∷ 0 ∷ 255 ∷ 255 ∷ []))
        ≡ Sound (pos 3) (negsuc 0) ∷ [] }
    ensures quiet { heard_in (Some (record { rate = R48; bits = B16; channels = 2 })) Silence
        (Sent (1 ∷ 0 ∷ 2 ∷ 0 ∷ 3 ∷ 0 ∷ 255 ∷ 255 ∷ []))
        ≡ Quiet ∷ Quiet ∷ [] }
{}

/// The signals of each kind that are kept by the format of a word are those by which the lists of that word's frames
/// grow.
pub fn kept_signals_of_each_kind_are_those_of_words()
    ensures { (kind : PinKind) (codec : CodecState) (tag word pin : ℕ) (format : Option Format)
        → option_map layout format ≡ layout_of word
        → MatchOption format (HasNoFormat word) (λ f. format_word f ≡ word)
        → signal_by_as kind codec.graph codec.settings tag format pin ≡ signal_with_as kind (Some codec) tag word
        (layout_of word) pin }
{}

/// The list of each kind, of a history that goes on, is the list before, and then the items of what was added.
pub fn heard_lists_of_each_kind_go_on()
    ensures history { (kind : PinKind) (address pin : ℕ) (before added : List CarriedFrame)
        → heard_as kind address pin (before ++ added) ≡ heard_as kind address pin before ++ heard_as kind address pin
        added }
    ensures frame { (kind : PinKind) (address pin : ℕ) (before : List CarriedFrame) (frame : CarriedFrame)
        → heard_as kind address pin (before ++ frame ∷ []) ≡ heard_as kind address pin before ++ frame_items_as kind
        address pin frame }
{}

/// The marks of a pin are those of the first commands, which codecs took while no more than the first link frames had
/// passed, and then those of the later ones. Link frames more change none.
pub fn marks_go_on()
    ensures commands { (kind : PinKind) (address pin : ℕ) (before later : List TakenCommand)
        (frames added : List CarriedFrame)
        → All (λ command. command.carried ≤ length frames) before
        → marks_of_as kind address pin (before ++ later) (frames ++ added)
        ≡ marks_of_as kind address pin before frames ++ marks_of_as kind address pin later (frames ++ added) }
    ensures frames { (kind : PinKind) (address pin : ℕ) (commands : List TakenCommand)
        (frames added : List CarriedFrame)
        → All (λ command. command.carried ≤ length frames) commands
        → marks_of_as kind address pin commands (frames ++ added) ≡ marks_of_as kind address pin commands frames }
{}
