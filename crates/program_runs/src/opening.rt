//! How a driver is opened that runs over a rig.
ghost use Rattle.std.specs.Prelude.{◌≡◌, ◌≤◌, IfOk};
ghost use Rattle.period_writer.specs.Writers.{ring_of};
ghost use Rattle.audio_driver.specs.Opening.{IsOpened};
ghost use Rattle.laws_stream.specs.Resting.{AreApartFrom};
ghost use Rattle.laws_start.specs.Tasks.{blocks_of};
ghost use Rattle.program_runs.specs.FirstFits.{AreFirstFits};

use audio_driver::{Driver, OpenFault};
use dma_pool::{MOST_GRANULES, Pool};
use laws_start::{a_full_pool_has_room, opened_blocks_lie_apart};
use period_writer::Geometry;
use route_setup::Setter;
use std::alloc::{AllocError, Global};
use wav_reader::Supply;

/// A driver that sets codecs up by a setter, for so many calls, with this sound, which it plays or not. Its blocks lie
/// in a region of its own, those of the ring apart from RIRB.
///
/// # Errors
/// Want of memory.
pub(crate) fn open_driver<T: Setter + Drop>(
    alloc: Global,
    setter: T,
    geometry: Geometry,
    supply: Supply,
    calls: u32,
    play: bool,
) -> Result<Driver<T>, AllocError>
    requires few { calls ≤ 1000000 }
    ensures opened { IfOk result (λ driver. IsOpened geometry calls driver.bring_up driver.writer) }
    ensures first_fits { IfOk result (λ driver. AreFirstFits geometry (blocks_of driver.bring_up driver.writer)) }
    ensures apart { IfOk result (λ driver. AreApartFrom (ring_of driver.writer) driver.bring_up.engine.rirb.address) }
    ensures setter { IfOk result (λ driver. driver.setter ≡ setter) }
    ensures supply { IfOk result (λ driver. driver.supply ≡ supply) }
    ensures play { IfOk result (λ driver. driver.play ≡ play) }
    ensures calls { IfOk result (λ driver. driver.calls ≡ 0) }
    ensures runs { IfOk result (λ driver. driver.runs ≡ calls) }
{
    a_full_pool_has_room();
    opened_blocks_lie_apart();
    let pool = Pool::new(alloc, MOST_GRANULES)?;
    match Driver::open_with(alloc, setter, pool, geometry, supply, calls, play) {
        Ok(driver) => Ok(driver),
        Err(OpenFault::OutOfMemory) => Err(AllocError),
        Err(OpenFault::NoRun) => unreachable!(),
    }
}
