//! How a driver that switches is opened.
ghost use Rattle.std.specs.Prelude.{◌≡◌, ◌≤◌, List, All, IfOk, length, Contains};
ghost use Rattle.dma_pool.specs.Blocks.{run_at};
ghost use Rattle.command_engine.specs.Blocks.{corb_bytes, rirb_bytes};
ghost use Rattle.command_engine.specs.declared.answers.Event as told;
ghost use Rattle.period_writer.specs.Writers.{OwnsBlocks, periods_of};
ghost use Rattle.driver_bring_up.specs.Counted.{IsCount};
ghost use Rattle.driver_bring_up.specs.Jacks.{IsOfPin, Counts};
ghost use Rattle.jack_rules.specs.Switching.{AreInReach, switching_opened};
ghost use Rattle.audio_driver.specs.Closing.{GivesBack};
ghost use Rattle.audio_driver.specs.Parting.{IsEngineIdle, HasItsBlocks};
ghost use Rattle.jack_switch.specs.JackDrivers as spec;

use super::JackDriver;
use audio_driver::Parts;
use codec_graph::Graph;
use command_engine::Engine;
use dma_pool::Pool;
use driver_bring_up::Jacks;
use driver_progress::Jack;
use jack_rules::Switching;
use period_writer::{Records, Writer};
use route_planner::Plan;
use std::alloc::{AllocError, Global};

/// Gives the blocks of both back to the pool that they were taken from: their runs are among its taken runs.
pub(super) fn give_back(pool: &mut Pool, engine: Engine, writer: Writer) -> Records
    requires corb { Contains pool.old.taken (run_at engine.corb.address corb_bytes) }
    requires rirb { Contains pool.old.taken (run_at engine.rirb.address rirb_bytes) }
    requires ring { OwnsBlocks pool.old.taken writer }
    ensures gives { GivesBack writer.geometry pool.old engine.corb.address engine.rirb.address
        writer.list.address (periods_of writer) pool.new }
    ensures runs { result.runs.items ≡ writer.runs }
    ensures silences { result.silences.items ≡ writer.silences }
{
    engine.close(pool);
    writer.end(pool)
}

/// The count of jacks that goes on from a list, and what the rules keep where they begin.
///
/// # Errors
/// Want of memory.
fn begin(
    alloc: Global,
    list: &[Jack],
    graphs: &[Graph],
    plans: &[Plan],
) -> Result<(Jacks, Switching), AllocError>
    requires one_each { length plans.now ≡ length graphs.now }
    requires few { All (λ codec. codec.address ≤ 14) graphs.now }
    ensures jacks { IfOk result (λ both. (events : List told.Event) → Counts events list.now → All IsOfPin events
        → length events ≤ 4294967295 → IsCount events both.0) }
    ensures switching { IfOk result (λ both. both.1 ≡ switching_opened graphs.now plans.now) }
    ensures reach { IfOk result (λ both. AreInReach both.1) }
{
    let jacks = Jacks::of_list(alloc, list)?;
    let switching = Switching::new(alloc, graphs, plans)?;
    Ok((jacks, switching))
}

impl JackDriver {
    /// Of the parts of a driver whose codecs are set up, one that plays the sound in so many calls, 1,000,000 at most,
    /// and switches speakers meanwhile. The count of jacks goes on. No access is made.
    ///
    /// # Errors
    /// Want of memory. All blocks went back to the pool then, which is let go.
    pub fn open(alloc: Global, parts: Parts, runs: u32) -> Result<JackDriver, AllocError>
        requires can { spec.CanSwitch parts runs }
        requires idle { IsEngineIdle parts }
        requires blocks { HasItsBlocks parts }
        requires few { runs ≤ 1000000 }
        ensures opens { IfOk result (spec.OpensSwitching parts runs) }
    {
        let Parts {
            engine,
            writer,
            supply,
            mut pool,
            graphs,
            plans,
            sent,
            jacks,
        } = parts;
        match begin(alloc, &jacks, &graphs, &plans) {
            Ok((jacks, switching)) => Ok(JackDriver {
                engine,
                writer,
                supply,
                pool,
                graphs,
                plans,
                sent,
                jacks,
                switching,
                clock: 0,
                given_up: None,
                runs,
                calls: 0,
            }),
            Err(failed) => {
                let Records {
                    runs: _,
                    silences: _,
                } = give_back(&mut pool, engine, writer);
                Err(failed)
            }
        }
    }
}
