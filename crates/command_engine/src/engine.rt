//! The engine.
ghost use Rattle.std.specs.Prelude.{◌≡◌};

mod opening;
mod polling;
mod starting;
mod submitting;

use crate::answers::{Event, Outstanding};
use crate::ring_places::RingPlaces;
use circular_buffer::HeapCircularBuffer;
use dma_pool::Lent;
use std::marker::Model;

/// The bytes of CORB: 256 commands.
pub const CORB_BYTES: u32 = 1_024;
/// The bytes of RIRB: 256 responses.
pub const RIRB_BYTES: u32 = 2_048;
/// How many events wait at most.
pub const MOST_EVENTS: usize = 256;

/// The driver's side of both rings (HDA 1.0a, 4.4). It owns their blocks, which it gives back when it is closed, and
/// keeps nothing of a platform between its calls. Contracts see its blocks, where both rings stand, and its events.
pub struct Engine {
    corb: Lent,
    rirb: Lent,
    rings: RingPlaces,
    events: HeapCircularBuffer<Event>,
}

impl Model for Engine {
    ghost use Rattle.command_engine.specs.Engines.{EngineState};

    ghost Value = { EngineState };

    ghost use Rattle.command_engine.specs.Inside.{state_inside, IsEngineInside};

    ghost view = { state_inside };

    ghost invariant = { IsEngineInside };
}

impl Engine {
    ghost use Rattle.hda_world.specs.declared.world.TheConstants.{REGION_BYTES};
    ghost use Rattle.command_engine.specs.Fetchings.{HasBlocks};

    /// Whether the engine was started.
    pub fn is_started(&self) -> bool
        ensures { result ≡ self.now.rings.started }
    {
        self.rings.started
    }

    /// The command that is outstanding.
    pub fn outstanding(&self) -> Option<Outstanding>
        ensures { result ≡ self.now.rings.outstanding }
    {
        self.rings.outstanding
    }

    /// The addresses of CORB and of RIRB, whose blocks lie in the region, apart from one another.
    pub fn addresses(&self) -> (u32, u32)
        ensures value { result ≡ (self.now.corb.address, self.now.rirb.address) }
        ensures blocks { HasBlocks self.now.corb.address self.now.rirb.address REGION_BYTES }
    {
        (self.corb.address(), self.rirb.address())
    }
}
