//! Laws of signals, each the contract of a function that does nothing.
ghost use Rattle.std.specs.Prelude.{◌≡◌, ◌⊎◌, ◌||◌, ◌%◌, not, true, false, ℕ};
ghost use Rattle.codec_graph.specs.declared.raw.RawCodec.{RawCodec};
ghost use Rattle.codec_graph.specs.Cycles.{IsWellFormed};
ghost use Rattle.codec_graph.specs.Settings.{Entries};
ghost use Rattle.codec_graph.specs.declared.pin_kind.PinKind.{PinKind};
ghost use Rattle.codec_graph.specs.declared.pin_kind.PinKind.TheVariants.{Digital};
ghost use Rattle.codec_graph.specs.declared.raw.RawNode.{RawNode};
ghost use Rattle.codec_graph.specs.Widget.{is_mixer, is_stereo};
ghost use Rattle.codec_sound.specs.declared.signals.Signal.{Signal};
ghost use Rattle.codec_sound.specs.declared.streams.LinkStream.{LinkStream};
ghost use Rattle.codec_sound.specs.declared.signals.Signal.TheVariants.{Silence, Altered};
ghost use Rattle.codec_sound.specs.Signals.{IsAmong, gives, gives_as, out, out_as, signal_as, signal_of, is_enabled};
ghost use Rattle.codec_sound.specs.Signals.{is_foreign, converted, made, pin_hears};
ghost use Rattle.codec_sound.specs.declared.in_heard.InHeard.TheVariants.{Pin};
ghost use Rattle.codec_sound.specs.Inward.{in_gives, in_out, in_signal_of, IsListening, IsHearing};

/// What the nodes of a well-formed graph give fits the step at every node, and nothing else does.
pub fn signals_alone_fit_the_step()
    ensures fits { (codec : RawCodec) (settings : Entries) (stream : LinkStream) → IsWellFormed codec
        → (nid : ℕ) → out codec settings stream nid ≡ gives codec settings stream (out codec settings stream) nid }
    ensures only { (codec : RawCodec) (settings : Entries) (stream : LinkStream) (other : ℕ → Signal)
        → IsWellFormed codec
        → ((nid : ℕ) → other nid ≡ gives codec settings stream other nid) → (nid : ℕ)
        → other nid ≡ out codec settings stream nid }
{}

/// Both channels of a pair that a pin hears are among the stream's, which has an even number.
pub fn pairs_are_among_the_channels()
    ensures { (codec : RawCodec) (settings : Entries) (stream : LinkStream) (pin : ℕ) → stream.channels % 2 ≡ 0
        → IsAmong stream.channels (signal_of codec settings stream pin) }
{}

/// What the nodes of a well-formed graph give for pins of each kind fits the step at every node, and nothing else does.
pub fn signals_of_each_kind_fit_the_step()
    ensures fits { (kind : PinKind) (codec : RawCodec) (settings : Entries) (stream : LinkStream)
        → IsWellFormed codec → (nid : ℕ)
        → out_as kind codec settings stream nid ≡ gives_as kind codec settings stream (out_as kind codec settings
        stream) nid }
    ensures only { (kind : PinKind) (codec : RawCodec) (settings : Entries) (stream : LinkStream) (other : ℕ → Signal)
        → IsWellFormed codec
        → ((nid : ℕ) → other nid ≡ gives_as kind codec settings stream other nid) → (nid : ℕ)
        → other nid ≡ out_as kind codec settings stream nid }
{}

/// Both channels of a pair that a pin of each kind hears are among the stream's, which has an even number.
pub fn pairs_of_each_kind_are_among_the_channels()
    ensures { (kind : PinKind) (codec : RawCodec) (settings : Entries) (stream : LinkStream) (pin : ℕ)
        → stream.channels % 2 ≡ 0 → IsAmong stream.channels (signal_as kind codec settings stream pin) }
{}

/// For digital pins a converter whose digital output is not enabled gives nothing, and so does a mixer; and a pin that
/// is mono or no digital one hears nothing, or what is not followed.
pub fn digital_signals_need_digital_nodes()
    ensures disabled { (settings : Entries) (stream : LinkStream) (nid : ℕ) (node : RawNode)
        → is_enabled settings nid ≡ false → converted Digital settings stream nid node ≡ Silence }
    ensures mixers { (codec : RawCodec) (settings : Entries) (stream : LinkStream) (given : ℕ → Signal) (nid : ℕ)
        (node : RawNode) → is_mixer node ≡ true → made Digital codec settings stream given nid node ≡ Silence }
    ensures pins { (codec : RawCodec) (settings : Entries) (given : ℕ → Signal) (nid : ℕ) (node : RawNode)
        → (not (is_stereo node) || is_foreign Digital node) ≡ true
        → (pin_hears Digital codec settings given nid node ≡ Silence)
        ⊎ (pin_hears Digital codec settings given nid node ≡ Altered) }
{}

/// What the nodes of a well-formed graph give on the way in fits the step at every node, and nothing else does.
pub fn inward_signals_fit_the_step()
    ensures fits { (codec : RawCodec) (settings : Entries) → IsWellFormed codec → (nid : ℕ)
        → in_out codec settings nid ≡ in_gives codec settings (in_out codec settings) nid }
    ensures only { (codec : RawCodec) (settings : Entries) (other : ℕ → Signal) → IsWellFormed codec
        → ((nid : ℕ) → other nid ≡ in_gives codec settings other nid) → (nid : ℕ)
        → other nid ≡ in_out codec settings nid }
{}

/// A converter that hears a pin is an input converter, and it and the pin are on. The pin is an analog one of two
/// channels, which has an input that is enabled.
pub fn converters_hear_enabled_pins()
    ensures pin { (codec : RawCodec) (settings : Entries) (converter nid : ℕ)
        → in_signal_of codec settings converter ≡ Pin nid → IsListening codec settings nid }
    ensures converter { (codec : RawCodec) (settings : Entries) (converter nid : ℕ)
        → in_signal_of codec settings converter ≡ Pin nid → IsHearing codec settings converter }
{}
