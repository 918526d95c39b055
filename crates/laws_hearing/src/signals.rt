//! Laws of what pins hear whose signals change, each the contract of a function that does nothing.
ghost use Rattle.std.specs.Prelude.{◌≡◌, ◌≤◌, ◌+◌, ◌*◌, ◌/◌, ◌++◌, false, ℕ, List, Some, All, length, drop};
ghost use Rattle.codec_graph.specs.CodecStates.{CodecState};
ghost use Rattle.codec_graph.specs.declared.pin_kind.PinKind.{PinKind};
ghost use Rattle.world_steps.specs.declared.Step.{Step};
ghost use Rattle.hda_world.specs.Worlds.{World, codec_at};
ghost use Rattle.hda_world.specs.Steps.{after_steps};
ghost use Rattle.hda_world.specs.Events.{Event, after};
ghost use Rattle.hda_world.specs.Streaming.{HasSent};
ghost use Rattle.stream_format.specs.Layouts.{Layout, layout, layout_of};
ghost use Rattle.stream_format.specs.Words.{format_word};
ghost use Rattle.codec_sound.specs.declared.signals.Signal.{Signal};
ghost use Rattle.codec_sound.specs.declared.signals.Signal.TheVariants.{Pair, Silence};
ghost use Rattle.heard_frames.specs.declared.heard.Heard.{Heard};
ghost use Rattle.heard_frames.specs.HeardLists.{block_size, signal_with_as, heard_as};
ghost use Rattle.heard_frames.specs.Marks.{without_holes};
ghost use Rattle.period_writer.specs.declared.course.Ran.{Ran};
ghost use Rattle.period_writer.specs.declared.course.Ran.TheVariants as ran;
ghost use Rattle.period_writer.specs.Runs.{Tally};
ghost use Rattle.period_writer.specs.Lines.{line_of};
ghost use Rattle.period_writer.specs.Standing.{Ring, limit_in};
ghost use Rattle.period_writer.specs.Owning.{IsPlaying};
ghost use Rattle.period_writer.specs.Outcomes.{HasDrained, WasStopped};
ghost use Rattle.laws_hearing.specs.BySignals.{PlaysFrontBy, PlaysBelow, PlaysBy, AreBySignals};
ghost use Rattle.laws_hearing.specs.BySignals.{IsSignalAlong};
ghost use Rattle.laws_hearing.specs.Plays.{Plays, WasSent, IsSilent};
ghost use Rattle.laws_hearing.specs.Steady.{Steady, AreIdle, LeavesCommands};
ghost use Rattle.laws_hearing.specs.Streams.{Streams, LeavesStream};

/// Link frames go on to carry whole blocks of a stream, and what they carry stays what is fetched: over steps of the
/// device, and over accesses that may write registers of CORB, but neither GCTL nor anything of the descriptors but a
/// status or the stop. It begins with a stream that was set going.
pub fn streams_go_on()
    ensures begins { (ring : Ring) (pcm : List ℕ) (tally : Tally) (world : World) → IsPlaying ring pcm tally world
        → Streams 1 (format_word ring.geometry.format) (block_size (layout ring.geometry.format))
        (length world.carried) world }
    ensures steps { (tag word : ℕ) (layout : Layout) (from : ℕ) (steps : List Step) (world : World)
        → layout_of word ≡ Some layout → Streams tag word (block_size layout) from world
        → Streams tag word (block_size layout) from (after_steps steps world) }
    ensures events { (tag word : ℕ) (layout : Layout) (from : ℕ) (events : List Event) (world : World)
        → layout_of word ≡ Some layout → All LeavesStream events → Streams tag word (block_size layout) from world
        → Streams tag word (block_size layout) from (after events world) }
    ensures sent { (from : ℕ) (events : List Event) (world : World) → All LeavesStream events → HasSent from world
        → HasSent from (after events world) }
{}

/// A pin whose signal in each link frame is that of the items that the frame adds to its list heard, but for its holes,
/// what these signals make of the line that a writer plays, from its first block on, each block once and in order,
/// while no more link frames passed than the limit says. After the line drained zeros may follow it; after a stop
/// before that the list is heard of the line below the last recorded reach. It heard as many blocks as were sent, and
/// each as its signal makes it. What plays of a line plays of a longer one that begins with it.
pub fn signals_are_heard()
    ensures playing { (kind : PinKind) (tag word : ℕ) (layout : Layout) (from : ℕ) (world : World)
        (address pin : ℕ) (signals : ℕ → Signal) (ring : Ring) (pcm : List ℕ) (tally : Tally)
        → layout_of word ≡ Some layout → Streams tag word (block_size layout) from world → HasSent from world
        → IsSignalAlong kind address pin signals (drop from world.carried) → IsPlaying ring pcm tally world
        → 500 * world.frames ≤ tally.course.from + 500 * limit_in ring
        → PlaysBy false ran.Playing layout signals (line_of tally pcm) tally.course.sure
        (heard_as kind address pin (drop from world.carried)) }
    ensures drained { (kind : PinKind) (tag word : ℕ) (layout : Layout) (from : ℕ) (world : World)
        (address pin : ℕ) (signals : ℕ → Signal) (ring : Ring) (pcm : List ℕ) (tally : Tally)
        → layout_of word ≡ Some layout → Streams tag word (block_size layout) from world → HasSent from world
        → IsSignalAlong kind address pin signals (drop from world.carried) → HasDrained ring pcm tally world
        → PlaysBy false ran.Drained layout signals (line_of tally pcm) tally.course.sure
        (heard_as kind address pin (drop from world.carried)) }
    ensures stopped { (kind : PinKind) (tag word : ℕ) (layout : Layout) (from : ℕ) (world : World)
        (address pin : ℕ) (signals : ℕ → Signal) (ring : Ring) (pcm : List ℕ) (tally : Tally)
        → layout_of word ≡ Some layout → Streams tag word (block_size layout) from world → HasSent from world
        → IsSignalAlong kind address pin signals (drop from world.carried) → WasStopped ring pcm tally world
        → PlaysBelow layout signals (line_of tally pcm) tally.course.sure
        (heard_as kind address pin (drop from world.carried)) }
    ensures all_sent { (kind : PinKind) (tag word : ℕ) (layout : Layout) (from : ℕ) (world : World)
        (address pin : ℕ) (signals : ℕ → Signal)
        → layout_of word ≡ Some layout → Streams tag word (block_size layout) from world → HasSent from world
        → IsSignalAlong kind address pin signals (drop from world.carried)
        → length (without_holes (heard_as kind address pin (drop from world.carried)))
        ≡ world.output.left / block_size layout }
    ensures alone { (kind : PinKind) (tag word : ℕ) (layout : Layout) (from : ℕ) (world : World)
        (address pin : ℕ) (signals : ℕ → Signal)
        → layout_of word ≡ Some layout → Streams tag word (block_size layout) from world
        → IsSignalAlong kind address pin signals (drop from world.carried)
        → AreBySignals signals (heard_as kind address pin (drop from world.carried)) }
    ensures longer { (layout : Layout) (signals : ℕ → Signal) (line more : List ℕ) (list : List Heard)
        → PlaysFrontBy layout signals line list → PlaysFrontBy layout signals (line ++ more) list }
{}

/// Link frames of a steady stream carry whole blocks of it, and along them each pin has one signal, that of the codecs.
pub fn steady_signals()
    ensures streams { (codecs : List CodecState) (tag word block from : ℕ) (world : World)
        → Steady codecs tag word block from world → Streams tag word block from world }
    ensures along { (kind : PinKind) (codecs : List CodecState) (tag word : ℕ) (layout : Layout) (from : ℕ)
        (world : World) (address pin : ℕ) (signal : Signal)
        → layout_of word ≡ Some layout → Steady codecs tag word (block_size layout) from world
        → signal_with_as kind (codec_at address codecs) tag word (Some layout) pin ≡ signal
        → IsSignalAlong kind address pin (λ place. signal) (drop from world.carried) }
{}

/// Where a pin has one signal all along, what it heard is what the line by one pair says: of a pair the line by it, and
/// nothing but blocks as they were sent and holes; of silence nothing but quiet blocks and holes.
pub fn one_signal_is_played()
    ensures plays { (ended : Ran) (layout : Layout) (pair : ℕ) (line : List ℕ) (reach : ℕ) (list : List Heard)
        → PlaysBy false ended layout (λ place. Pair pair) line reach list
        → Plays ended layout pair line reach list }
    ensures sent { (pair : ℕ) (list : List Heard) → AreBySignals (λ place. Pair pair) list → All WasSent list }
    ensures silent { (list : List Heard) → AreBySignals (λ place. Silence) list → All IsSilent list }
{}

/// While CORB has no command that was not fetched, no codec takes one, over the events that keep the settings.
pub fn idle_codecs_take_no_commands()
    ensures { (codecs : List CodecState) (events : List Event) (world : World) → All LeavesCommands events
        → AreIdle codecs world → (after events world).commands ≡ world.commands }
{}
