//! How a driver is taken apart.
ghost use Rattle.std.specs.Prelude.{◌≡◌, ◌≢◌, IfOk, IfErr};
ghost use Rattle.driver_progress.specs.declared.phase.Phase.TheVariants as phases;
ghost use Rattle.audio_driver.specs.States as states;
ghost use Rattle.audio_driver.specs.Parting.{ArePartsOf};

use super::Driver;
use super::sounding::phase_of;
use codec_graph::Graph;
use command_engine::Engine;
use dma_pool::Pool;
use driver_bring_up::BroughtUp;
use driver_progress::Jack;
use period_writer::Writer;
use route_planner::Plan;
use route_setup::Setter;
use wav_reader::Supply;

/// The parts of a driver whose codecs are set up and that has not played, for a caller that goes on with them by
/// itself. This project's own.
pub struct Parts {
    /// The driver's side of the rings of commands and responses: started, with no command outstanding and no event
    /// left.
    pub engine: Engine,
    /// The ring of periods, which was not started.
    pub writer: Writer,
    /// The sound that is still to come.
    pub supply: Supply,
    /// The pool that the blocks of both were taken from.
    pub pool: Pool,
    /// The graphs of the codecs.
    pub graphs: Vec<Graph>,
    /// Their plans.
    pub plans: Vec<Plan>,
    /// How many commands were submitted.
    pub sent: u32,
    /// How often codecs told of what was plugged in, ascending by codec and tag.
    pub jacks: Vec<Jack>,
}

impl<T: Setter + Drop> Driver<T> {
    /// Takes the driver apart once its codecs are set up and before it played. No access is made.
    ///
    /// # Errors
    /// The driver as it was, exactly where its phase is not `Ready`.
    pub fn into_parts(self) -> Result<Parts, Driver<T>>
        ensures parts { IfOk result (ArePartsOf self) }
        ensures same { IfErr result (λ driver. driver ≡ self) }
        ensures other { IfErr result (λ driver. states.phase_of driver.bring_up driver.writer ≢ phases.Ready) }
    {
        if !phase_of(&self.bring_up, &self.writer).is_ready() {
            return Err(self);
        }
        let Driver {
            bring_up,
            writer,
            supply,
            pool,
            setter: _,
            play: _,
            runs: _,
            calls: _,
        } = self;
        // The pool's taken runs lie apart.
        let _free = pool.free();
        let sent = bring_up.sent();
        let BroughtUp {
            engine,
            graphs,
            plans,
            jacks,
        } = bring_up.parts();
        Ok(Parts {
            engine,
            writer,
            supply,
            pool,
            graphs,
            plans,
            sent,
            jacks,
        })
    }
}
