//! How a driver is closed.
ghost use Rattle.std.specs.Prelude.{◌≡◌, ◌≤◌, ◌+◌, ℕ, List, Contains, IfOk, OnErr, true};
ghost use Rattle.wav_reader.specs.Supplies.{MayGive, EndsWith};
ghost use Rattle.dma_pool.specs.Blocks.{run_at};
ghost use Rattle.dma_pool.specs.Pools.{PoolState};
ghost use Rattle.command_engine.specs.Blocks.{corb_bytes, rirb_bytes};
ghost use Rattle.period_writer.specs.Writers.{OwnsBlocks, periods_of, ring_size};
ghost use Rattle.driver_progress.specs.Phases.{is_asking};
ghost use Rattle.driver_bring_up.specs.Told.{IsShut};
ghost use Rattle.command_engine.specs.declared.room.TheConstants.{POLL_BYTES};
ghost use Rattle.audio_driver.specs.declared.room.TheConstants.{PLAY_END_ACCESSES, ROOM_ACCESSES, ROOM_BYTES};
ghost use Rattle.audio_driver.specs.States as states;
ghost use Rattle.audio_driver.specs.Closing as spec;
ghost use Rattle.audio_driver.specs.Drivers.{TakesBlocks, GivesBlocks};
ghost use Rattle.audio_driver.specs.Calls.{ClosesBy, FailsWithBy};

use super::Driver;
use super::ending::end_call;
use super::sounding::phase_of;
use codec_graph::Graph;
use command_engine::Engine;
use dma_pool::Pool;
use driver_bring_up::BroughtUp;
use driver_progress::{Jack, Phase};
use hda_platform::Platform;
use period_writer::{Records, Run, Span, Writer};
use route_planner::Plan;
use route_setup::Setter;
use std::alloc::AllocError;

/// What is left of a driver that was closed.
#[derive(Drop)]
pub struct Closed {
    /// How far it came.
    pub phase: Phase,
    /// The graphs of the codecs that were walked.
    pub graphs: Vec<Graph>,
    /// Their plans, once all were walked.
    pub plans: Vec<Plan>,
    /// The runs of the ring of periods, in order.
    pub runs: Vec<Run>,
    /// The stretches of the line that are silence, ascending.
    pub silences: Vec<Span>,
    /// How often codecs told of what was plugged in, ascending by codec and tag.
    pub jacks: Vec<Jack>,
    /// How many commands were submitted.
    pub sent: u32,
    /// The pool, as it was before the driver was opened.
    pub pool: Pool,
}

/// Gives the blocks of both back to the pool that they were taken from: their runs are among its taken runs.
pub(super) fn give_back(pool: &mut Pool, engine: Engine, writer: Writer) -> Records
    requires corb { Contains pool.old.taken (run_at engine.corb.address corb_bytes) }
    requires rirb { Contains pool.old.taken (run_at engine.rirb.address rirb_bytes) }
    requires ring { OwnsBlocks pool.old.taken writer }
    ensures gives { spec.GivesBack writer.geometry pool.old engine.corb.address engine.rirb.address
        writer.list.address (periods_of writer) pool.new }
    ensures runs { result.runs.items ≡ writer.runs }
    ensures silences { result.silences.items ≡ writer.silences }
{
    engine.close(pool);
    writer.end(pool)
}

impl<T: Setter + Drop> Driver<T> {
    /// The last call: while commands are sent it looks once more for an answer; while the stream plays it makes one
    /// more run, which writes no sound, and stops the stream. Where the controller was reset before, it stops both
    /// rings and leaves the controller in reset. All blocks go back to the pool.
    ///
    /// # Errors
    /// Want of memory, while commands are sent, and so in no phase from `Ready` on. The controller is left in reset
    /// also then, and the pool is let go.
    pub fn close<P: Platform>(self, platform: &mut P) -> Result<Closed, AllocError>
        requires room { ROOM_ACCESSES ≤ P.spare_accesses platform.old }
        requires bytes_room { ring_size self.writer + ROOM_BYTES ≤ P.spare_bytes platform.old }
        ensures closes { (sound : List ℕ) → MayGive self.supply sound → EndsWith self.supply sound
            → IfOk result (λ closed. ClosesBy T.means self sound closed
            (P.told platform.old) (P.told platform.new)) }
        ensures gives { IfOk result (λ closed. GivesBlocks self closed.pool) }
        ensures pool { IfOk result (λ closed. (before : PoolState)
            → TakesBlocks self.writer.geometry before self → closed.pool ≡ before) }
        ensures cause { OnErr result (is_asking (states.phase_of self.bring_up self.writer) ≡ true) }
        ensures shut { OnErr result (IsShut (P.told platform.new)) }
        ensures wanting { OnErr result (FailsWithBy T.means self (P.told platform.old) (P.told platform.new)) }
        ensures fixed { P.fixed platform.new ≡ P.fixed platform.old }
        ensures accesses { P.spare_accesses platform.old ≤ P.spare_accesses platform.new + PLAY_END_ACCESSES }
        ensures bytes { P.spare_bytes platform.old ≤ P.spare_bytes platform.new + (ring_size self.writer + POLL_BYTES) }
    {
        let Driver {
            mut bring_up,
            mut writer,
            mut supply,
            mut pool,
            setter,
            play,
            runs: _,
            calls: _,
        } = self;
        let ended = end_call(
            platform,
            &mut bring_up,
            &mut writer,
            &mut supply,
            &setter,
            play,
        );
        let phase = phase_of(&bring_up, &writer);
        let sent = bring_up.sent();
        let BroughtUp {
            engine,
            graphs,
            plans,
            jacks,
        } = bring_up.parts();
        let Records { runs, silences } = give_back(&mut pool, engine, writer);
        match ended {
            Ok(()) => Ok(Closed {
                phase,
                graphs,
                plans,
                runs,
                silences,
                jacks,
                sent,
                pool,
            }),
            Err(failed) => Err(failed),
        }
    }

    /// Lets a driver go without a call more, and all blocks go back to the pool. The controller stays as it is: where
    /// it was reset by this driver and not since, it may go on to read and write these blocks, so the pool is of use
    /// again only once the controller was reset or its engines were stopped by other means (HDA 1.0a, 3.3.7). It is for
    /// where no call can be made any more.
    pub fn abandon(self) -> Pool
        ensures gives { GivesBlocks self result }
        ensures pool { (before : PoolState) → TakesBlocks self.writer.geometry before self → result ≡ before }
    {
        let Driver {
            bring_up,
            writer,
            supply: _,
            mut pool,
            setter: _,
            play: _,
            runs: _,
            calls: _,
        } = self;
        let BroughtUp {
            engine,
            graphs: _,
            plans: _,
            jacks: _,
        } = bring_up.parts();
        let Records {
            runs: _,
            silences: _,
        } = give_back(&mut pool, engine, writer);
        pool
    }
}
