//! Laws of what is heard, each the contract of a function that does nothing.
ghost use Rattle.std.specs.Prelude.{◌≡◌, ◌≤◌, ◌+◌, ◌*◌, ◌/◌, ◌++◌, ℕ, List, Some, All, length, drop};
ghost use Rattle.codec_graph.specs.CodecStates.{CodecState};
ghost use Rattle.codec_graph.specs.declared.pin_kind.PinKind.{PinKind};
ghost use Rattle.world_steps.specs.declared.Step.{Step};
ghost use Rattle.hda_world.specs.Worlds.{World, codec_at};
ghost use Rattle.hda_world.specs.Steps.{after_steps};
ghost use Rattle.hda_world.specs.Events.{Event, after};
ghost use Rattle.hda_world.specs.Streaming.{HasSent};
ghost use Rattle.stream_format.specs.Layouts.{Layout, layout, layout_of};
ghost use Rattle.stream_format.specs.Words.{format_word};
ghost use Rattle.world_streams.specs.Streams.{begun};
ghost use Rattle.codec_sound.specs.declared.signals.Signal.TheVariants.{Pair, Silence};
ghost use Rattle.heard_frames.specs.declared.heard.Heard.{Heard};
ghost use Rattle.heard_frames.specs.HeardLists.{block_size, signal_with_as, heard_as};
ghost use Rattle.period_writer.specs.declared.course.Ran.TheVariants as ran;
ghost use Rattle.period_writer.specs.Runs.{Tally};
ghost use Rattle.period_writer.specs.Lines.{line_of};
ghost use Rattle.period_writer.specs.Standing.{Ring, limit_in};
ghost use Rattle.period_writer.specs.Owning.{IsPlaying};
ghost use Rattle.period_writer.specs.Outcomes.{HasDrained, WasStopped};
ghost use Rattle.laws_hearing.specs.Plays.{Plays, PlaysFront, WasSent, IsSilent, without_holes};
ghost use Rattle.laws_hearing.specs.Steady.{Steady, LeavesSteady, AreIdle, LeavesCommands};

/// While CORB has no command that was not fetched, no step of the device changes a setting.
pub fn steps_keep_it_steady()
    ensures { (codecs : List CodecState) (tag word : ℕ) (layout : Layout) (from : ℕ) (steps : List Step) (world : World)
        → layout_of word ≡ Some layout → Steady codecs tag word (block_size layout) from world
        → Steady codecs tag word (block_size layout) from (after_steps steps world) }
{}

/// Nor does a read, a mark, a write of memory, or a write beside GCTL, the registers of CORB and the descriptors; a
/// write of a descriptor's status and the one that stops the stream leave its tag and its format too. What link frames
/// carry stays what is fetched.
pub fn accesses_beside_keep_it_steady()
    ensures steady { (codecs : List CodecState) (tag word : ℕ) (layout : Layout) (from : ℕ) (events : List Event)
        (world : World) → layout_of word ≡ Some layout → All LeavesSteady events
        → Steady codecs tag word (block_size layout) from world
        → Steady codecs tag word (block_size layout) from (after events world) }
    ensures sent { (from : ℕ) (events : List Event) (world : World) → All LeavesSteady events → HasSent from world
        → HasSent from (after events world) }
{}

/// While CORB has no command that was not fetched, codecs keep their graphs and settings, whether a stream runs or not:
/// over steps of the device, and over accesses that write neither GCTL nor a register of CORB.
pub fn idle_codecs_keep_their_settings()
    ensures { (codecs : List CodecState) (events : List Event) (world : World) → All LeavesCommands events
        → AreIdle codecs world → AreIdle codecs (after events world) }
{}

/// A stream is steady where a first run has just set it going and CORB has no command that was not fetched, and what
/// link frames carry of it from there on is what is fetched.
pub fn a_started_stream_is_steady()
    ensures steady { (ring : Ring) (pcm : List ℕ) (tally : Tally) (world : World) → IsPlaying ring pcm tally world
        → world.registers.global.corb_read_pointer ≡ world.registers.global.corb_write_pointer
        → Steady world.codecs 1 (format_word ring.geometry.format) (block_size (layout ring.geometry.format))
        (length world.carried) world }
    ensures sent { (world : World) → world.output ≡ begun → HasSent (length world.carried) world }
{}

/// A pin that hears, as one of a kind, a pair of a steady stream heard, but for its holes, the pair's samples of the
/// line that a writer plays, from its first block on, each once and in order, while no more link frames passed than the
/// limit says. After the line drained zeros may follow it; after a stop before that, by a late run or by the last one,
/// the list has the line below the last recorded reach.
pub fn the_line_is_heard()
    ensures playing { (kind : PinKind) (codecs : List CodecState) (tag word : ℕ) (layout : Layout) (from : ℕ)
        (world : World) (address pin pair : ℕ) (ring : Ring) (pcm : List ℕ) (tally : Tally)
        → layout_of word ≡ Some layout
        → Steady codecs tag word (block_size layout) from world → HasSent from world
        → signal_with_as kind (codec_at address codecs) tag word (Some layout) pin ≡ Pair pair
        → IsPlaying ring pcm tally world
        → 500 * world.frames ≤ tally.course.from + 500 * limit_in ring
        → Plays ran.Playing layout pair (line_of tally pcm) tally.course.sure
        (heard_as kind address pin (drop from world.carried)) }
    ensures drained { (kind : PinKind) (codecs : List CodecState) (tag word : ℕ) (layout : Layout) (from : ℕ)
        (world : World) (address pin pair : ℕ) (ring : Ring) (pcm : List ℕ) (tally : Tally)
        → layout_of word ≡ Some layout
        → Steady codecs tag word (block_size layout) from world → HasSent from world
        → signal_with_as kind (codec_at address codecs) tag word (Some layout) pin ≡ Pair pair
        → HasDrained ring pcm tally world
        → Plays ran.Drained layout pair (line_of tally pcm) tally.course.sure
        (heard_as kind address pin (drop from world.carried)) }
    ensures stopped { (kind : PinKind) (codecs : List CodecState) (tag word : ℕ) (layout : Layout) (from : ℕ)
        (world : World) (address pin pair : ℕ) (ring : Ring) (pcm : List ℕ) (tally : Tally) (since to limit : ℕ)
        → layout_of word ≡ Some layout
        → Steady codecs tag word (block_size layout) from world → HasSent from world
        → signal_with_as kind (codec_at address codecs) tag word (Some layout) pin ≡ Pair pair
        → WasStopped ring pcm tally world
        → Plays (ran.Late since to limit) layout pair (line_of tally pcm) tally.course.sure
        (heard_as kind address pin (drop from world.carried)) }
{}

/// A pin that hears, as one of a kind, a pair of a steady stream heard as many blocks as were sent.
pub fn all_that_was_sent_is_heard()
    ensures { (kind : PinKind) (codecs : List CodecState) (tag word : ℕ) (layout : Layout) (from : ℕ) (world : World)
        (address pin pair : ℕ) → layout_of word ≡ Some layout → Steady codecs tag word (block_size layout) from world
        → HasSent from world → signal_with_as kind (codec_at address codecs) tag word (Some layout) pin ≡ Pair pair
        → length (without_holes (heard_as kind address pin (drop from world.carried)))
        ≡ world.output.left / block_size layout }
{}

/// A pin that hears, as one of a kind, silence of a steady stream heard nothing but quiet blocks and holes.
pub fn silent_pins_hear_nothing()
    ensures { (kind : PinKind) (codecs : List CodecState) (tag word : ℕ) (layout : Layout) (from : ℕ) (world : World)
        (address pin : ℕ)
        → layout_of word ≡ Some layout → Steady codecs tag word (block_size layout) from world
        → signal_with_as kind (codec_at address codecs) tag word (Some layout) pin ≡ Silence
        → All IsSilent (heard_as kind address pin (drop from world.carried)) }
{}

/// A pin that hears, as one of a kind, a pair of a steady stream heard nothing but blocks as they were sent and holes.
pub fn routed_pins_hear_what_was_sent()
    ensures { (kind : PinKind) (codecs : List CodecState) (tag word : ℕ) (layout : Layout) (from : ℕ) (world : World)
        (address pin pair : ℕ) → layout_of word ≡ Some layout → Steady codecs tag word (block_size layout) from world
        → signal_with_as kind (codec_at address codecs) tag word (Some layout) pin ≡ Pair pair
        → All WasSent (heard_as kind address pin (drop from world.carried)) }
{}

/// What plays of a line plays of a longer one that begins with it.
pub fn longer_lines_are_heard()
    ensures { (layout : Layout) (pair : ℕ) (line more : List ℕ) (list : List Heard) → PlaysFront layout pair line list
        → PlaysFront layout pair (line ++ more) list }
{}
