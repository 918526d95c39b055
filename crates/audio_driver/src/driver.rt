//! The driver.

mod closing;
mod ending;
mod filling;
mod opening;
mod parting;
mod running;
mod sounding;

pub use closing::Closed;
use dma_pool::Pool;
use driver_bring_up::BringUp;
pub use parting::Parts;
use period_writer::Writer;
use route_setup::Setter;
use std::marker::Model;
use wav_reader::Supply;

/// The driver of a controller: the bring-up of its codecs, the ring of periods with the sound to play, and the pool
/// that their blocks were taken from. Contracts see each of them. This project's own.
pub struct Driver<T: Setter> {
    bring_up: BringUp,
    writer: Writer,
    /// The sound that is still to come.
    supply: Supply,
    pool: Pool,
    /// How codecs are set up.
    setter: T,
    /// Whether sound is played once the codecs are set up.
    play: bool,
    /// How many calls there may be.
    runs: u32,
    /// How many calls there were.
    calls: u32,
}

impl<T: Setter> Model for Driver<T> {
    ghost use Rattle.audio_driver.specs.Drivers.{DriverState, IsDriver};

    ghost Value = { DriverState T };

    ghost view = { λ driver. record {
      bring_up = driver.bring_up;
      writer = driver.writer;
      supply = driver.supply;
      pool = driver.pool;
      setter = driver.setter;
      play = driver.play;
      runs = driver.runs;
      calls = driver.calls;
    } };

    ghost invariant = { λ driver.
        IsDriver driver.bring_up driver.writer driver.pool driver.play driver.runs driver.calls };
}
