//! The driver that records.

mod closing;
mod opening;
mod recording;
mod turns;

pub use closing::RecordingClosed;
use codec_graph::Graph;
use command_engine::Engine;
use dma_pool::Pool;
use hda_capture::Recorder;
use route_planner::Plan;
use std::marker::Model;

/// A driver that records: its side of the rings of commands and of a ring of periods, the pool that their blocks were
/// taken from, and what the bring-up left of the codecs. Contracts see each of them. This project's own.
pub struct RecordingDriver {
    engine: Engine,
    recorder: Recorder,
    pool: Pool,
    /// The graphs of the codecs.
    graphs: Vec<Graph>,
    /// Their plans.
    plans: Vec<Plan>,
    /// How many commands the bring-up submitted.
    sent: u32,
    /// How many calls there may be.
    runs: u32,
    /// How many calls there were.
    calls: u32,
}

impl Model for RecordingDriver {
    ghost use Rattle.recording_driver.specs.RecordingDrivers.{RecordingState};

    ghost Value = { RecordingState };

    ghost use Rattle.recording_driver.specs.Inside.{state_inside, IsDriverInside};

    ghost view = { state_inside };

    ghost invariant = { IsDriverInside };
}
