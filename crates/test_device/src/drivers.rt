//! Drivers that play nothing, and drivers over pools of few blocks.
ghost use Rattle.std.specs.Prelude.{◌≡◌, false, IfOk, IfSome};
ghost use Rattle.stream_format.specs.Cadence.{block_bytes};
ghost use Rattle.period_writer.specs.Writers.{ring_size};

use audio_driver::{Driver, OpenFault};
use dma_pool::Pool;
use hda_items::Items;
use period_writer::Geometry;
use route_setup::Analog;
use std::alloc::{AllocError, Global};
use stream_format::{Bits, Format, Rate};
use test_cases::number_of;
use wav_reader::{Supply, Wav};

/// The format of the sound: 48 kHz, 16 bits, 2 channels.
pub fn format() -> Format
    ensures { block_bytes result ≡ 4 }
{
    Format {
        rate: Rate::R48,
        bits: Bits::B16,
        channels: 2,
    }
}

/// A supply without sound.
pub fn no_sound(alloc: Global) -> Supply {
    Supply::whole(Wav {
        format: format(),
        mono: false,
        frames: 0,
        pcm: Items::new(alloc),
    })
}

/// How many blocks the pool of a driver has that plays nothing.
pub const BLOCKS: u32 = 64;

/// How many calls such a driver may have.
pub const CALLS: u32 = 1_000;

/// A driver that plays nothing, with a ring of two periods of one unit. `None` where it is not opened, which does not
/// happen: its pool has blocks enough.
pub fn silent_driver(alloc: Global) -> Result<Option<Driver<Analog>>, AllocError>
    ensures silent { IfOk result (λ made. IfSome made (λ driver. driver.play ≡ false)) }
    ensures ring { IfOk result (λ made. IfSome made (λ driver. ring_size driver.writer ≡ 768)) }
{
    let Ok(geometry) = Geometry::new(2, 1, 192, format()) else {
        return Ok(None);
    };
    let pool = Pool::new(alloc, BLOCKS)?;
    match Driver::open(alloc, pool, geometry, no_sound(alloc), CALLS, false) {
        Ok(driver) => Ok(Some(driver)),
        Err(OpenFault::NoRun) => Ok(None),
        Err(OpenFault::OutOfMemory) => Err(AllocError),
    }
}

/// Whether a driver with a ring of two periods of one unit is opened over a pool of so many blocks, and how many are
/// free once it was let go.
pub fn tell(alloc: Global, words: &[Vec<u8>]) -> Result<String, AllocError> {
    let [blocks] = words else {
        return format!(in alloc; "no pool");
    };
    let Ok(geometry) = Geometry::new(2, 1, 192, format()) else {
        return format!(in alloc; "no ring");
    };
    let pool = Pool::new(alloc, number_of(blocks).clamp(1, 64))?;
    match Driver::open(alloc, pool, geometry, no_sound(alloc), 1, false) {
        Ok(driver) => {
            let pool = driver.abandon();
            format!(in alloc; "opened, {} free", pool.free())
        }
        Err(OpenFault::NoRun) => format!(in alloc; "NoRun"),
        Err(OpenFault::OutOfMemory) => Err(AllocError),
    }
}
