//! Laws of pin controls, each the contract of a function that does nothing.
ghost use Rattle.std.specs.Prelude.{◌≡◌, ◌≢◌, ℕ, Bool, true, false, List, All, None, if◌then◌else◌};
ghost use Rattle.verb_codes.specs.declared.verbs.Command.{Command};
ghost use Rattle.verb_codes.specs.declared.verbs.Verb.TheVariants.{SetPin};
ghost use Rattle.verb_codes.specs.Words.{has_bit};
ghost use Rattle.codec_graph.specs.declared.raw.RawCodec.{RawCodec};
ghost use Rattle.codec_graph.specs.Cycles.{IsWellFormed};
ghost use Rattle.codec_graph.specs.Settings.{Entries, IsSettingsOf};
ghost use Rattle.codec_graph.specs.VerbMeaning.{after};
ghost use Rattle.codec_graph.specs.declared.pin_kind.PinKind.{PinKind};
ghost use Rattle.codec_sound.specs.declared.streams.LinkStream.{LinkStream};
ghost use Rattle.codec_sound.specs.declared.signals.Signal.TheVariants.{Silence, Pair};
ghost use Rattle.codec_sound.specs.Signals.{signal_as};
ghost use Rattle.laws_settings.specs.Histories.{settings_by};
ghost use Rattle.laws_settings.specs.PinControls.{last_control};
ghost use Rattle.laws_speakers.specs.Pins.{AgreeBesidePins, is_enabled, is_on};
ghost use Rattle.laws_speakers.specs.SwitchWords.{IsSwitchWord};

/// SetPin (HDA 1.0a, 7.3.3.13) at one pin changes the signal of no other pin, of each kind. With out enable clear that
/// pin is silent, and with it set again it hears what it heard with it set.
pub fn pin_controls_are_their_own()
    ensures others { (kind : PinKind) (graph : RawCodec) (settings : Entries) (stream : LinkStream)
        (command : Command) (control pin : ℕ) → command.verb ≡ SetPin control → pin ≢ command.nid
        → signal_as kind graph (after graph settings command) stream pin ≡ signal_as kind graph settings stream pin }
    ensures off { (kind : PinKind) (graph : RawCodec) (settings : Entries) (stream : LinkStream)
        (command : Command) (control : ℕ) → IsWellFormed graph → IsSettingsOf graph settings
        → command.verb ≡ SetPin control → has_bit control 6 ≡ false
        → signal_as kind graph (after graph settings command) stream command.nid ≡ Silence }
    ensures again { (kind : PinKind) (graph : RawCodec) (settings : Entries) (stream : LinkStream)
        (first second : Command) (low high : ℕ) → IsWellFormed graph → IsSettingsOf graph settings
        → first.verb ≡ SetPin low → second.verb ≡ SetPin high → second.nid ≡ first.nid
        → is_enabled settings first.nid ≡ true → has_bit high 6 ≡ true
        → signal_as kind graph (after graph (after graph settings first) second) stream first.nid
        ≡ signal_as kind graph settings stream first.nid }
    ensures settings { (kind : PinKind) (graph : RawCodec) (old new : Entries) (stream : LinkStream) (pin : ℕ)
        → AgreeBesidePins old new → is_enabled new pin ≡ is_enabled old pin
        → signal_as kind graph new stream pin ≡ signal_as kind graph old stream pin }
{}

/// After words that switch speakers a pin that heard a pair hears it, or nothing where the last of them that set its
/// control cleared out enable. A pin whose control none of them set hears what it heard.
pub fn switched_settings()
    ensures pair { (is_speaker : ℕ → ℕ → Bool) (kind : PinKind) (graph : RawCodec) (settings : Entries)
        (stream : LinkStream) (words : List ℕ) (pin pair : ℕ) → IsWellFormed graph → IsSettingsOf graph settings
        → All (IsSwitchWord is_speaker) words → signal_as kind graph settings stream pin ≡ Pair pair
        → signal_as kind graph (settings_by graph settings words) stream pin
        ≡ (if is_on (last_control pin words) then Pair pair else Silence) }
    ensures others { (is_speaker : ℕ → ℕ → Bool) (kind : PinKind) (graph : RawCodec) (settings : Entries)
        (stream : LinkStream) (words : List ℕ) (pin : ℕ) → All (IsSwitchWord is_speaker) words
        → last_control pin words ≡ None
        → signal_as kind graph (settings_by graph settings words) stream pin
        ≡ signal_as kind graph settings stream pin }
{}
