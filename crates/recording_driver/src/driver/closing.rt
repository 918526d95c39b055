//! How a driver that records is closed.
ghost use Rattle.std.specs.Prelude.{◌≡◌, ◌≤◌, ◌+◌, Contains};
ghost use Rattle.dma_pool.specs.Blocks.{run_at};
ghost use Rattle.command_engine.specs.Blocks.{corb_bytes, rirb_bytes};
ghost use Rattle.hda_capture.specs.Recorders.{OwnsBlocks, periods_of, ring_size};
ghost use Rattle.audio_driver.specs.declared.room.TheConstants.{ROOM_ACCESSES, ROOM_BYTES};
ghost use Rattle.audio_driver.specs.Closing.{GivesBack};
ghost use Rattle.recording_driver.specs.declared.room.TheConstants.{RECORD_END_ACCESSES, RECORD_CALL_BYTES};
ghost use Rattle.recording_driver.specs.RecordingClosing as spec;

use super::RecordingDriver;
use super::turns::{end_record, phase_of};
use codec_graph::Graph;
use command_engine::Engine;
use dma_pool::Pool;
use driver_progress::{Phase, shut};
use hda_capture::{RecordedRun, Recorder, Recording};
use hda_platform::Platform;
use route_planner::Plan;

/// What is left of a driver that recorded and was closed.
pub struct RecordingClosed {
    /// How far it came.
    pub phase: Phase,
    /// The graphs of the codecs.
    pub graphs: Vec<Graph>,
    /// Their plans.
    pub plans: Vec<Plan>,
    /// How many commands were submitted.
    pub sent: u32,
    /// The recorded runs, in order.
    pub runs: Vec<RecordedRun>,
    /// The bytes that were read, in order.
    pub bytes: Vec<u8>,
    /// The pool, with all its blocks.
    pub pool: Pool,
}

/// Gives the blocks of both back to the pool that they were taken from: their runs are among its taken runs.
fn give_back(pool: &mut Pool, engine: Engine, recorder: Recorder) -> Recording
    requires corb { Contains pool.old.taken (run_at engine.corb.address corb_bytes) }
    requires rirb { Contains pool.old.taken (run_at engine.rirb.address rirb_bytes) }
    requires ring { OwnsBlocks pool.old.taken recorder }
    ensures gives { GivesBack recorder.geometry pool.old engine.corb.address engine.rirb.address
        recorder.list.address (periods_of recorder) pool.new }
    ensures runs { result.runs.items ≡ recorder.runs }
    ensures bytes { result.bytes.items ≡ recorder.bytes }
{
    engine.close(pool);
    recorder.close(pool)
}

impl RecordingDriver {
    /// The last call: while the stream records it drops what codecs told unasked, makes one more run and stops the
    /// stream. Then both rings are stopped, and the controller is left in reset. All blocks go back to the pool. It
    /// takes no memory.
    pub fn close<P: Platform>(self, platform: &mut P) -> RecordingClosed
        requires room { ROOM_ACCESSES ≤ P.spare_accesses platform.old }
        requires bytes_room { ring_size self.recorder + ROOM_BYTES ≤ P.spare_bytes platform.old }
        ensures closes { spec.ClosesRecording self result (P.told platform.old) (P.told platform.new) }
        ensures gives { spec.GivesRecordingBack self result.pool }
        ensures fixed { P.fixed platform.new ≡ P.fixed platform.old }
        ensures accesses { P.spare_accesses platform.old ≤ P.spare_accesses platform.new + RECORD_END_ACCESSES }
        ensures bytes { P.spare_bytes platform.old ≤ P.spare_bytes
            platform.new + (ring_size self.recorder + RECORD_CALL_BYTES) }
    {
        let RecordingDriver {
            mut engine,
            mut recorder,
            mut pool,
            graphs,
            plans,
            sent,
            runs: _,
            calls: _,
        } = self;
        end_record(platform, &mut engine, &mut recorder);
        shut(platform);
        let phase = phase_of(&recorder);
        let Recording { bytes, runs } = give_back(&mut pool, engine, recorder);
        RecordingClosed {
            phase,
            graphs,
            plans,
            sent,
            runs,
            bytes,
            pool,
        }
    }

    /// Lets it go without a call more, and all blocks go back to the pool. The controller stays as it is: it may go on
    /// to read and write these blocks, so the pool is of use again only once the controller was reset or its engines
    /// were stopped by other means (HDA 1.0a, 3.3.7). It is for where no call can be made any more.
    pub fn abandon(self) -> Pool
        ensures gives { spec.GivesRecordingBack self result }
    {
        let RecordingDriver {
            engine,
            recorder,
            mut pool,
            graphs: _,
            plans: _,
            sent: _,
            runs: _,
            calls: _,
        } = self;
        let Recording { bytes: _, runs: _ } = give_back(&mut pool, engine, recorder);
        pool
    }
}
