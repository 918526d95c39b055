//! The driver that switches.

mod closing;
mod filling;
mod opening;
mod playing;
mod stepping;
mod turns;

use codec_graph::Graph;
use command_engine::Engine;
use dma_pool::Pool;
use driver_bring_up::Jacks;
use jack_rules::Switching;
use period_writer::Writer;
use route_planner::Plan;
use std::marker::Model;
use wav_reader::Supply;

/// A driver that plays sound and switches speakers meanwhile: its side of the rings of commands and of the ring of
/// periods, the sound that is still to come, the pool that their blocks were taken from, and what the bring-up left of
/// the codecs. Contracts see each of them. This project's own.
pub struct JackDriver {
    engine: Engine,
    writer: Writer,
    /// The sound that is still to come.
    supply: Supply,
    pool: Pool,
    /// The graphs of the codecs.
    graphs: Vec<Graph>,
    /// Their plans.
    plans: Vec<Plan>,
    /// How many commands the bring-up submitted.
    sent: u32,
    /// How often codecs told of what was plugged in.
    jacks: Jacks,
    /// Which jacks and speakers there are, and what is known of them.
    switching: Switching,
    /// The clock that the last run read last, in ticks of 1/24,000,000 s; 0 before the first.
    clock: u32,
    /// The clock at which it gave up a command that was not answered in its time.
    given_up: Option<u32>,
    /// How many calls there may be.
    runs: u32,
    /// How many calls there were.
    calls: u32,
}

impl Model for JackDriver {
    ghost use Rattle.jack_switch.specs.JackDrivers.{JackDriverState};

    ghost Value = { JackDriverState };

    ghost use Rattle.jack_switch.specs.Inside.{state_inside, IsDriverInside};

    ghost view = { state_inside };

    ghost invariant = { IsDriverInside };
}
