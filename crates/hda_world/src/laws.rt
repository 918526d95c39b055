//! Laws of the world, each the contract of a function that does nothing.
ghost use Rattle.std.specs.Prelude.{◌≡◌, ◌≢◌, ◌<◌, ◌≤◌, ◌+◌, ℕ, true, false, List, [], ◌++◌, map, length};
ghost use Rattle.hda_registers.specs.declared.shapes.Width.{Width};
ghost use Rattle.codec_graph.specs.CodecStates.{CodecState, cleared};
ghost use Rattle.world_steps.specs.declared.Step.{Step};
ghost use Rattle.world_steps.specs.declared.Step.TheVariants as step;
ghost use Rattle.hda_world.specs.Worlds.{World, codec_at, with_codec};
ghost use Rattle.hda_world.specs.Steps.{after_step, after_steps};
ghost use Rattle.hda_world.specs.Events.{Event, DmaWrite, after, AreHonest, streams_settled, registers_written};
ghost use Rattle.hda_world.specs.Events.{after_write, happens};
ghost use Rattle.world_rings.specs.Memory.{PieceStored};
ghost use Rattle.hda_registers.specs.Access.{written, effects_of};
ghost use Rattle.hda_registers.specs.Fields.{is_out_of_reset};
ghost use Rattle.hda_registers.specs.Laws.{IsBesideRings, LeavesRings};
ghost use Rattle.hda_world.specs.Tellings.{Telling, Makes};
ghost use Rattle.hda_world.specs.Unread.{HasReadTo};
ghost use Rattle.hda_world.specs.Discovery.{IsDiscovered, AreSet, addresses_of};
ghost use Rattle.hda_world.specs.Leaving.{StepsLeave, AccessLeaves, NamesOthers, NameOthers};

use crate::world::REGION_BYTES;

/// Steps in a row are those of the front and then those of the back.
pub fn steps_compose()
    ensures { (front back : List Step) (world : World)
        → after_steps (front ++ back) world ≡ after_steps back (after_steps front world) }
{}

/// Events in a row are those of the front and then those of the back.
pub fn events_compose()
    ensures world { (front back : List Event) (world : World)
        → after (front ++ back) world ≡ after back (after front world) }
    ensures honest { (front back : List Event) (world : World) → AreHonest front world
        → AreHonest back (after front world)
        → AreHonest (front ++ back) world }
{}

/// While the input stream does not run, steps of the device write RIRB alone in memory. Among the registers they move
/// the ring pointers, the response flag, the codecs' bits of the state change status and the wall clock alone, and a
/// stream's descriptor only while that stream runs. Graphs stay, and the histories go on.
pub fn steps_write_rirb_alone()
    ensures { (steps : List Step) (world : World) → StepsLeave world (after_steps steps world) }
{}

/// A step leaves each codec alone that it does not name, and so do steps in turn. The engine of CORB names the codec of
/// the command that it fetches, if it fetches one.
pub fn steps_leave_other_codecs()
    ensures one { (step : Step) (world : World) (address : ℕ) → NamesOthers step world address
        → codec_at address (after_step step world).codecs ≡ codec_at address world.codecs }
    ensures all { (steps : List Step) (world : World) (address : ℕ) → NameOthers steps world address
        → codec_at address (after_steps steps world).codecs ≡ codec_at address world.codecs }
{}

/// How far the driver has read RIRB's responses is kept by steps of the device: while RINTFL is 0 nothing is unread,
/// and always fewer responses than RIRB has entries.
pub fn steps_keep_reading()
    ensures { (read : ℕ) (steps : List Step) (world : World) → HasReadTo read world
        → HasReadTo read (after_steps steps world) }
{}

/// From the frame of the discovery on each codec's bit of the state change status is 1, over any steps of the device.
pub fn steps_keep_discovery()
    ensures { (steps : List Step) (world : World) → IsDiscovered world → IsDiscovered (after_steps steps world) }
{}

/// After 25 link frames since CRST rose each codec's bit of the state change status is 1, and in the 24 before none
/// changed (HDA 1.0a, 4.3; that it is in the 25th is this project's own).
pub fn discovery_comes_in_the_25th_frame()
    ensures set { (world : World) → is_out_of_reset world.registers.global ≡ true → world.frames ≡ 0
        → AreSet (after_step (step.Link 25) world).registers.global.state_status (addresses_of world.codecs) }
    ensures before { (world : World) → is_out_of_reset world.registers.global ≡ true → world.frames ≡ 0
        → (after_step (step.Link 24) world).registers.global.state_status ≡ world.registers.global.state_status }
{}

/// The region has 4,194,304 bytes on every platform.
pub fn region_is_fixed()
    ensures { REGION_BYTES ≡ 4194304 }
{}

/// Accesses in a row, and then others, are all of them in a row.
pub fn accesses_compose()
    ensures { (first second : List Event) (old middle new : Telling) → Makes first old middle → Makes second middle new
        → Makes (first ++ second) old new }
{}

/// A write of a register changes no memory and no codec's graph, settings or presence, and appends to no history. Where
/// CRST was neither written 0 nor rises it changes the registers and the streams whose RUN rose or fell alone; where
/// CRST rises the link frames are counted from 0 too. Where it is written 0 all that waits at the codecs and in the
/// controller is dropped (HDA 1.0a, 5.5.1).
pub fn register_write_leaves()
    ensures memory { (world : World) (at value : ℕ) (width : Width)
        → (after_write at width value world).memory ≡ world.memory }
    ensures codecs { (world : World) (at value : ℕ) (width : Width)
        → AccessLeaves world (after_write at width value world) }
    ensures registers { (world : World) (at value : ℕ) (width : Width)
        → (after_write at width value world).registers ≡ streams_settled world.registers
        (written world.registers at width value) }
    ensures resetting { (world : World) (at value : ℕ) (width : Width)
        → (effects_of world.registers at width value).reset ≡ true
        → after_write at width value world ≡ record (registers_written (written world.registers at width value) world) {
          codecs = map cleared world.codecs;
          waiting = [];
          frames = 0;
        } }
    ensures plain { (world : World) (at value : ℕ) (width : Width)
        → (effects_of world.registers at width value).reset ≡ false
        → (effects_of world.registers at width value).left_reset ≡ false
        → after_write at width value world ≡ registers_written (written world.registers at width value) world }
    ensures rising { (world : World) (at value : ℕ) (width : Width)
        → (effects_of world.registers at width value).reset ≡ false
        → (effects_of world.registers at width value).left_reset ≡ true
        → after_write at width value world ≡ record (registers_written (written world.registers at width value) world)
        { frames = 0 } }
{}

/// A write that is neither at GCTL nor at a register of CORB or RIRB changes the registers, but none of these, and the
/// streams whose RUN rose or fell alone.
pub fn write_beside_rings_leaves()
    ensures world { (world : World) (at value : ℕ) (width : Width) → IsBesideRings at
        → after_write at width value world ≡ registers_written (written world.registers at width value) world }
    ensures rings { (world : World) (at value : ℕ) (width : Width) → IsBesideRings at
        → LeavesRings world.registers.global (after_write at width value world).registers.global }
{}

/// A write of a piece changes memory alone, and where the piece lies in the region, that piece of it.
pub fn memory_write_leaves()
    ensures rest { (world : World) (at : ℕ) (piece : List ℕ)
        → happens world (DmaWrite at piece) ≡ record world { memory = (happens world (DmaWrite at piece)).memory } }
    ensures piece { (world : World) (at : ℕ) (piece : List ℕ) → at + length piece ≤ length world.memory
        → PieceStored at piece world.memory (happens world (DmaWrite at piece)).memory }
{}

/// A change of one codec that keeps its address leaves the others alone.
pub fn codecs_are_apart()
    ensures { (address other : ℕ) (change : CodecState → CodecState) (codecs : List CodecState)
        → ((codec : CodecState) → (change codec).graph ≡ codec.graph) → other ≢ address
        → codec_at other (with_codec address change codecs) ≡ codec_at other codecs }
{}
