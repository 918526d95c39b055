//! How a driver is opened.
ghost use Rattle.std.specs.Prelude.{◌≡◌, ◌≤◌, IfOk, OnOk, OnErr};
ghost use Rattle.audio_driver.specs.Drivers.{TakesBlocks};
ghost use Rattle.audio_driver.specs.Opening as spec;

use super::Driver;
use super::closing::give_back;
use command_engine::{CORB_BYTES, Engine, RIRB_BYTES};
use dma_pool::{NoRun, Pool};
use driver_bring_up::BringUp;
use hda_platform::OpenFault;
use period_writer::{Geometry, Records, Writer};
use route_setup::{Analog, Setter};
use std::alloc::Global;
use wav_reader::Supply;

/// Whether the takes of [`Driver::open_with`] for a ring of this geometry meet a run each, in its order. Nothing is
/// taken.
///
/// # Errors
/// `NoRun` exactly where one of them meets none.
fn meets_runs(pool: &mut Pool, geometry: &Geometry) -> Result<(), NoRun>
    ensures runs { OnOk result (spec.HasRuns geometry.now pool.old) }
    ensures none { OnErr result (spec.HasNoRuns geometry.now pool.old) }
    ensures unchanged { pool.new ≡ pool.old }
{
    let corb = pool.take(CORB_BYTES)?;
    let Ok(rirb) = pool.take(RIRB_BYTES) else {
        pool.give(corb);
        return Err(NoRun);
    };
    let met = Writer::meets_runs(pool, geometry);
    pool.give(rirb);
    pool.give(corb);
    met
}

impl<T: Setter + Drop> Driver<T> {
    /// A driver that sets codecs up by a setter, for a ring of this geometry, with the sound to play, and for so many
    /// calls, 1,000,000 at most. From the pool it takes the blocks of both rings of commands and responses, and then
    /// those of a writer with room to record a run for each call, and one more. Nothing is played yet.
    ///
    /// # Errors
    /// `NoRun` exactly where one of these takes, in this order, meets no run. `OutOfMemory`: each of them meets one,
    /// and memory is wanting.
    pub fn open_with(
        alloc: Global,
        setter: T,
        mut pool: Pool,
        geometry: Geometry,
        supply: Supply,
        runs: u32,
        play: bool,
    ) -> Result<Driver<T>, OpenFault>
        requires few { runs ≤ 1000000 }
        ensures takes { IfOk result (λ driver. TakesBlocks geometry pool driver) }
        ensures opened { IfOk result (λ driver. spec.IsOpened geometry runs driver.bring_up driver.writer) }
        ensures supply { IfOk result (λ driver. driver.supply ≡ supply) }
        ensures setter { IfOk result (λ driver. driver.setter ≡ setter) }
        ensures play { IfOk result (λ driver. driver.play ≡ play) }
        ensures runs { IfOk result (λ driver. driver.runs ≡ runs) }
        ensures calls { IfOk result (λ driver. driver.calls ≡ 0) }
        ensures no_run { result ≡ Err OpenFault.NoRun → spec.HasNoRuns geometry pool }
        ensures no_memory { result ≡ Err OpenFault.OutOfMemory → spec.HasRuns geometry pool }
    {
        if meets_runs(&mut pool, &geometry).is_err() {
            return Err(OpenFault::NoRun);
        }
        Driver::open_blocks(alloc, setter, pool, geometry, supply, runs, play)
    }

    /// Takes the blocks, and makes room.
    fn open_blocks(
        alloc: Global,
        setter: T,
        mut pool: Pool,
        geometry: Geometry,
        supply: Supply,
        runs: u32,
        play: bool,
    ) -> Result<Driver<T>, OpenFault>
        requires few { runs ≤ 1000000 }
        ensures takes { IfOk result (λ driver. TakesBlocks geometry pool driver) }
        ensures opened { IfOk result (λ driver. spec.IsOpened geometry runs driver.bring_up driver.writer) }
        ensures supply { IfOk result (λ driver. driver.supply ≡ supply) }
        ensures setter { IfOk result (λ driver. driver.setter ≡ setter) }
        ensures play { IfOk result (λ driver. driver.play ≡ play) }
        ensures runs { IfOk result (λ driver. driver.runs ≡ runs) }
        ensures calls { IfOk result (λ driver. driver.calls ≡ 0) }
        ensures no_run { result ≡ Err OpenFault.NoRun → spec.HasNoRuns geometry pool }
    {
        let engine = match Engine::open(alloc, &mut pool) {
            Ok(engine) => engine,
            Err(fault) => return Err(fault),
        };
        let writer = match Writer::open(alloc, &mut pool, geometry, runs + 1) {
            Ok(writer) => writer,
            Err(fault) => {
                engine.close(&mut pool);
                return Err(fault);
            }
        };
        match BringUp::new(alloc, geometry.format(), engine) {
            Ok(bring_up) => Ok(Driver {
                bring_up,
                writer,
                supply,
                pool,
                setter,
                play,
                runs,
                calls: 0,
            }),
            Err(engine) => {
                let Records {
                    runs: _,
                    silences: _,
                } = give_back(&mut pool, engine, writer);
                Err(OpenFault::OutOfMemory)
            }
        }
    }
}

impl Driver<Analog> {
    /// A driver that sets analog outputs up, as [`Driver::open_with`] opens it.
    ///
    /// # Errors
    /// `NoRun` exactly where one of the takes meets no run. `OutOfMemory`: each of them meets one, and memory is
    /// wanting.
    pub fn open(
        alloc: Global,
        pool: Pool,
        geometry: Geometry,
        supply: Supply,
        runs: u32,
        play: bool,
    ) -> Result<Driver<Analog>, OpenFault>
        requires few { runs ≤ 1000000 }
        ensures takes { IfOk result (λ driver. TakesBlocks geometry pool driver) }
        ensures opened { IfOk result (λ driver. spec.IsOpened geometry runs driver.bring_up driver.writer) }
        ensures supply { IfOk result (λ driver. driver.supply ≡ supply) }
        ensures play { IfOk result (λ driver. driver.play ≡ play) }
        ensures runs { IfOk result (λ driver. driver.runs ≡ runs) }
        ensures calls { IfOk result (λ driver. driver.calls ≡ 0) }
        ensures no_run { result ≡ Err OpenFault.NoRun → spec.HasNoRuns geometry pool }
        ensures no_memory { result ≡ Err OpenFault.OutOfMemory → spec.HasRuns geometry pool }
    {
        Driver::open_with(alloc, Analog, pool, geometry, supply, runs, play)
    }
}
