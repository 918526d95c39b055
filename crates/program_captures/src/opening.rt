//! How the drivers of a capture are opened.
ghost use Rattle.std.specs.Prelude.{◌≡◌, IfOk};
ghost use Rattle.audio_driver.specs.Opening.{IsOpened};
ghost use Rattle.audio_driver.specs.Parting.{IsEngineIdle, HasItsBlocks};
ghost use Rattle.period_writer.specs.Writers.{ring_of};
ghost use Rattle.laws_stream.specs.Resting.{AreApartFrom};
ghost use Rattle.recording_driver.specs.RecordingDrivers.{OpensRecording};
ghost use Rattle.program_runs.specs.FirstFits.{AreFirstFits};
ghost use Rattle.program_captures.specs.Capturing as spec;

use crate::terms::CaptureTerms;
use analog_in::Input;
use audio_driver::{Driver, Parts};
use dma_pool::{MOST_GRANULES, Pool};
use hda_items::Items;
use hda_platform::OpenFault;
use laws_capture::recorders_have_room;
use laws_start::{a_full_pool_has_room, opened_blocks_lie_apart};
use recording_driver::RecordingDriver;
use std::alloc::{AllocError, Global};
use stream_format::Format;
use wav_reader::{Supply, Wav};

/// A supply without sound.
fn no_sound(alloc: Global, format: Format) -> Supply
    ensures { spec.HasNoSound result }
{
    Supply::whole(Wav {
        format,
        mono: false,
        frames: 0,
        pcm: Items::new(alloc),
    })
}

/// A driver that sets the input up and plays nothing. Its blocks lie in a region of its own, those of the ring apart
/// from RIRB.
///
/// # Errors
/// Want of memory.
pub(crate) fn open_driver(alloc: Global, terms: CaptureTerms) -> Result<Driver<Input>, AllocError>
    ensures opened { IfOk result (λ driver. IsOpened terms.geometry terms.runs driver.bring_up driver.writer) }
    ensures coming { IfOk result (spec.IsComingFor terms) }
    ensures apart { IfOk result (λ driver. AreApartFrom (ring_of driver.writer) driver.bring_up.engine.rirb.address) }
    ensures calls { IfOk result (λ driver. driver.calls ≡ 0) }
{
    a_full_pool_has_room();
    opened_blocks_lie_apart();
    let pool = Pool::new(alloc, MOST_GRANULES)?;
    let supply = no_sound(alloc, terms.geometry.format());
    match Driver::open_with(
        alloc,
        terms.input,
        pool,
        terms.geometry,
        supply,
        terms.runs,
        false,
    ) {
        Ok(driver) => Ok(driver),
        Err(OpenFault::OutOfMemory) => Err(AllocError),
        Err(OpenFault::NoRun) => unreachable!(),
    }
}

/// A driver that records, of the parts of one whose codecs are set up. Its blocks are first fits again.
///
/// # Errors
/// Want of memory.
pub(crate) fn open_recording(
    alloc: Global,
    parts: Parts,
    terms: CaptureTerms,
) -> Result<RecordingDriver, AllocError>
    requires geometry { parts.writer.geometry ≡ terms.geometry }
    requires idle { IsEngineIdle parts }
    requires blocks { HasItsBlocks parts }
    requires fits { spec.AreFitsOf terms.geometry parts }
    ensures opens { IfOk result (OpensRecording parts terms.runs (spec.total_of terms)) }
    ensures first_fits { IfOk result (λ driver. AreFirstFits terms.geometry (spec.recorder_blocks driver)) }
{
    recorders_have_room();
    match RecordingDriver::open(alloc, parts, terms.geometry, terms.runs, terms.frames) {
        Ok(driver) => Ok(driver),
        Err(OpenFault::OutOfMemory) => Err(AllocError),
        Err(OpenFault::NoRun) => unreachable!(),
    }
}
