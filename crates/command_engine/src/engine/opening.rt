//! How an engine is opened and closed.
ghost use Rattle.std.specs.Prelude.{◌≡◌, [], Contains, IfOk, OnErr};
ghost use Rattle.dma_pool.specs.Blocks.{run_at};
ghost use Rattle.command_engine.specs.Blocks.{corb_bytes, rirb_bytes};
ghost use Rattle.command_engine.specs.Fetchings.{HasBlocks};
ghost use Rattle.hda_world.specs.declared.world.TheConstants.{REGION_BYTES};
ghost use Rattle.command_engine.specs.Opening as spec;

use super::{CORB_BYTES, Engine, MOST_EVENTS, RIRB_BYTES};
use crate::ring_places::RingPlaces;
use circular_buffer::HeapCircularBuffer;
use dma_pool::Pool;
use hda_platform::OpenFault;
use hda_registers::RingSize;
use std::alloc::Global;

impl Engine {
    /// Takes 1,024 bytes for CORB, then 2,048 bytes for RIRB, and makes room for 256 events.
    ///
    /// # Errors
    /// `NoRun` exactly where one of these takes, in this order, meets no run. After each error the pool is as it was.
    pub fn open(alloc: Global, pool: &mut Pool) -> Result<Engine, OpenFault>
        ensures opens { IfOk result (λ engine.
            spec.OpensEngine pool.old engine.corb.address engine.rirb.address pool.new) }
        ensures owns_corb { IfOk result (λ engine. Contains pool.new.taken (run_at engine.corb.address corb_bytes)) }
        ensures owns_rirb { IfOk result (λ engine. Contains pool.new.taken (run_at engine.rirb.address rirb_bytes)) }
        ensures blocks { IfOk result (λ engine. HasBlocks engine.corb.address engine.rirb.address REGION_BYTES) }
        ensures rings { IfOk result (λ engine. engine.rings ≡ spec.rings_opened) }
        ensures events { IfOk result (λ engine. engine.events ≡ []) }
        ensures no_run { result ≡ Err OpenFault.NoRun → spec.HasNoRuns pool.old }
        ensures no_memory { result ≡ Err OpenFault.OutOfMemory → spec.HasRuns pool.old }
        ensures unchanged { OnErr result (pool.new ≡ pool.old) }
    {
        let Ok(corb) = pool.take(CORB_BYTES) else {
            return Err(OpenFault::NoRun);
        };
        let Ok(rirb) = pool.take(RIRB_BYTES) else {
            pool.give(corb);
            return Err(OpenFault::NoRun);
        };
        let Ok(events) = HeapCircularBuffer::with_capacity(alloc, MOST_EVENTS) else {
            pool.give(rirb);
            pool.give(corb);
            return Err(OpenFault::OutOfMemory);
        };
        let rings = RingPlaces {
            corb: RingSize::Full,
            rirb: RingSize::Full,
            submitted: 0,
            read: 0,
            started: false,
            outstanding: None,
        };
        Ok(Engine {
            corb: corb.lend(),
            rirb: rirb.lend(),
            rings,
            events,
        })
    }

    /// Gives both blocks back to the pool that they were taken from: their runs are among its taken runs.
    pub fn close(self, pool: &mut Pool)
        requires corb { Contains pool.old.taken (run_at self.corb.address corb_bytes) }
        requires rirb { Contains pool.old.taken (run_at self.rirb.address rirb_bytes) }
        ensures { spec.GivesBack pool.old self.corb.address self.rirb.address pool.new }
    {
        let Engine {
            corb,
            rirb,
            rings: _,
            events: _,
        } = self;
        pool.give(corb.back());
        pool.give(rirb.back());
    }
}
